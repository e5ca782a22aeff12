ghost use Rattle.std.specs.Prelude.{◌≡◌, ◌<◌, ◌≤◌, ℕ, IsTrue, false, true};
ghost use Rattle.flat_geom.specs.Rectangles.{has_point};
ghost use Rattle.flat_ink.specs.Areas.{has_pixel};
ghost use Rattle.flat_render.specs.Damaged.{is_in_any};
ghost use Rattle.flat_ink.specs.Pixels.{centre};

use flat_base::Rect;
use flat_ink::area::Area;
use flat_render::PIXELS_MAX;

/// The pixels of a display of `w` by `h` whose centre is in a rectangle, as one of the
/// damage. If there are none, the area has no columns or no rows.
pub fn area_of(rect: Rect, w: u32, h: u32) -> Area
    requires w { w ≤ PIXELS_MAX }
    requires h { h ≤ PIXELS_MAX }
    ensures columns { result.x0 ≤ result.x1 }
    ensures rows { result.y0 ≤ result.y1 }
    ensures right { result.x1 ≤ w }
    ensures bottom { result.y1 ≤ h }
    ensures pixels { (px py : ℕ) → px < w → py < h → has_pixel result px py
        ≡ has_point rect (centre px) (centre py) }
{
    let area = flat_ink::area::area_of(rect);
    let (x0, y0) = (area.x0.min(w as usize), area.y0.min(h as usize));
    Area {
        x0,
        y0,
        x1: area.x1.min(w as usize).max(x0),
        y1: area.y1.min(h as usize).max(y0),
    }
}

/// Whether an area has no pixel in the rows from one up to another.
fn is_apart(area: Area, from: u32, upto: u32) -> bool
    ensures none { IsTrue result → (px py : ℕ) → from ≤ py → py < upto → has_pixel area px py
        ≡ false }
    ensures some { result ≡ false → (px : ℕ) × (py : ℕ) × (from ≤ py) × (py < upto)
        × (px < area.x1) × (has_pixel area px py ≡ true) }
{
    let (top, bottom) = (area.y0.max(from as usize), area.y1.min(upto as usize));
    area.x0 >= area.x1 || top >= bottom
}

/// Whether the damage has the centre of no pixel in the rows of a display from one up to another.
/// Such rows need no new drawing.
pub fn is_beside(rects: &[Rect], w: u32, h: u32, from: u32, upto: u32) -> bool
    requires w { w ≤ PIXELS_MAX }
    requires h { h ≤ PIXELS_MAX }
    requires rows { upto ≤ h }
    ensures none { IsTrue result → (px py : ℕ) → px < w → from ≤ py → py < upto →
        is_in_any rects.now px py ≡ false }
    ensures some { result ≡ false → (px : ℕ) × (py : ℕ) × (px < w) × (from ≤ py) × (py < upto)
        × (is_in_any rects.now px py ≡ true) }
{
    for rect in rects {
        if !is_apart(area_of(*rect, w, h), from, upto) {
            return false;
        }
    }
    true
}
