ghost use Rattle.std.specs.Prelude.{◌≡◌, All, IfOk, OnOk, OnErr};
ghost use Rattle.flat_drawable.specs.Drawable.{IsDrawable};
ghost use Rattle.flat_damage.specs.Damage.{IsDamage};
ghost use Rattle.flat_render.specs.Pictures.{Shows, width_of, height_of};
ghost use Rattle.flat_ink.specs.Pixels.{pixel};

use crate::{damage, damage_laws};
use flat_base::NoMemory;
use flat_render::Picture;
use flat_scene::{ItemList, RectList};
use std::alloc::Global;

/// Turns the picture of a draw list into that of another, by drawing again what is in the
/// damage between them, which it answers. If memory runs out, the picture is as it was.
pub fn redraw(
    alloc: Global,
    picture: &mut Picture,
    old: &ItemList,
    new: &ItemList,
) -> Result<RectList, NoMemory>
    requires items { All IsDrawable new.now }
    requires shows { Shows picture.old (width_of picture.old) (height_of picture.old)
        (pixel old.now) }
    ensures damage { IfOk result (λ rects. IsDamage old.now new.now rects) }
    ensures ok { OnOk result (Shows picture.new (width_of picture.old) (height_of picture.old)
        (pixel new.now)) }
    ensures err { OnErr result (picture.new ≡ picture.old) }
{
    damage_laws();
    let rects = damage(alloc, old, new)?;
    picture.repaint(new, &rects);
    Ok(rects)
}
