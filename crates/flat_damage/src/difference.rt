ghost use Rattle.std.specs.Prelude.{IfOk};
ghost use Rattle.flat_damage.specs.Damage.{IsDamage};

use crate::common::{common_prefix, common_suffix};
use crate::rects::rects_of;
use flat_base::NoMemory;
use flat_scene::{ItemList, RectList};
use std::alloc::Global;

/// More rectangles than these are one.
pub const RECTS_MAX: usize = 16;

/// The damage between two draw lists: without their longest common prefix, and
/// then without the longest common suffix of what is left, the visible
/// rectangles of the old list and then of the new one. Where these are more than
/// [`RECTS_MAX`], it is the one rectangle that has them all.
pub fn damage(alloc: Global, old: &ItemList, new: &ItemList) -> Result<RectList, NoMemory>
    ensures { IfOk result (λ rects. IsDamage old.now new.now rects) }
{
    let before = common_prefix(old.as_slice(), new.as_slice());
    let (old, new) = (&old.as_slice()[before..], &new.as_slice()[before..]);
    let after = common_suffix(old, new);
    rects_of(alloc, &old[..old.len() - after], &new[..new.len() - after])
}
