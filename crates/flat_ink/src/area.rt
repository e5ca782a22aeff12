ghost use Rattle.std.specs.Prelude.{◌≡◌, ◌<◌, ◌≤◌, ◌^◌, ℕ, nat_lt, int_lt, int_le, ◌&&◌, IsTrue};
ghost use Rattle.std.specs.Prelude.{true, false};
ghost use Rattle.flat_geom.specs.Rectangles.{has_point, is_between};
ghost use Rattle.flat_ink.specs.Pixels.{centre};
ghost use Rattle.flat_ink.specs.Areas.{has_pixel, IsInArea, IsWindow};

use flat_base::{ONE, PLACE_MAX, Rect};

/// How many pixels from the corner of the display a picture may reach at most, along one axis.
const REACH: usize = 1 << 29;

/// How far a pixel's centre lies from its corner, in places.
pub const HALF: i64 = 32_768;

/// A rectangle of whole pixels: it has those with `x0 <= x < x1` and
/// `y0 <= y < y1`.
#[derive(Clone, Copy)]
pub struct Area {
    pub x0: usize,
    pub y0: usize,
    pub x1: usize,
    pub y1: usize,
}

/// How many pixels along one axis have their centre below a place.
fn centres_below(place: i64) -> usize
    ensures { (p : ℕ) → p < 2 ^ 29 → nat_lt p result ≡ int_lt (centre p) place }
{
    ((place.clamp(0, PLACE_MAX) + HALF - 1) / ONE as i64) as usize
}

/// The pixels whose centre is in a rectangle.
pub fn area_of(r: Rect) -> Area
    ensures { (px py : ℕ) → px < 2 ^ 29 → py < 2 ^ 29 → has_pixel result px py
        ≡ has_point r (centre px) (centre py) }
{
    Area {
        x0: centres_below(r.x0),
        y0: centres_below(r.y0),
        x1: centres_below(r.x1),
        y1: centres_below(r.y1),
    }
}

/// What two areas share.
pub fn common(a: Area, b: Area) -> Area
    ensures in_first { IsInArea a result }
    ensures within { IsInArea b result }
    ensures pixels { (px py : ℕ) → has_pixel result px py
        ≡ (has_pixel a px py && has_pixel b px py) }
{
    Area {
        x0: a.x0.max(b.x0),
        y0: a.y0.max(b.y0),
        x1: a.x1.min(b.x1),
        y1: a.y1.min(b.y1),
    }
}

/// Whether a place is at most a pixel's centre, along one axis.
fn is_by(place: i64, p: usize) -> bool
    requires { p < 2 ^ 29 }
    ensures { result ≡ int_le place (centre p) }
{
    place <= ONE as i64 * p as i64 + HALF
}

/// Whether what lies between two places has the centres of none of some pixels,
/// along one axis.
fn is_beside(low: i64, high: i64, from: usize, upto: usize) -> bool
    requires some { from < upto }
    requires near { upto < 2 ^ 29 }
    ensures { IsTrue result → (p : ℕ) → from ≤ p → p < upto → is_between low high (centre p)
        ≡ false }
{
    if is_by(high, from) {
        return true;
    }
    !is_by(low, upto - 1)
}

/// Whether it has the centres of all of them.
fn is_across(low: i64, high: i64, from: usize, upto: usize) -> bool
    requires some { from < upto }
    requires near { upto < 2 ^ 29 }
    ensures { IsTrue result → (p : ℕ) → from ≤ p → p < upto → is_between low high (centre p)
        ≡ true }
{
    if !is_by(low, from) {
        return false;
    }
    !is_by(high, upto - 1)
}

/// Whether an area has a pixel, and none that is too far out to be counted.
pub fn is_window(area: Area) -> bool
    ensures { IsTrue result → IsWindow area }
{
    area.x0 < area.x1 && area.y0 < area.y1 && area.x1 < REACH && area.y1 < REACH
}

/// Whether an area lies in another one.
pub fn is_in(outer: Area, inner: Area) -> bool
    ensures { IsTrue result → IsInArea outer inner }
{
    outer.x0 <= inner.x0 && outer.y0 <= inner.y0 && inner.x1 <= outer.x1 && inner.y1 <= outer.y1
}

/// Whether a rectangle has the centre of no pixel of an area, as its bounds along
/// one of the axes tell.
pub fn is_missed(area: Area, r: Rect) -> bool
    requires { IsWindow area }
    ensures { IsTrue result → (px py : ℕ) → has_pixel area px py ≡ true →
        has_point r (centre px) (centre py) ≡ false }
{
    if is_beside(r.x0, r.x1, area.x0, area.x1) {
        return true;
    }
    is_beside(r.y0, r.y1, area.y0, area.y1)
}

/// Whether a rectangle has the centres of all pixels of an area.
pub fn is_covered(area: Area, r: Rect) -> bool
    requires { IsWindow area }
    ensures { IsTrue result → (px py : ℕ) → has_pixel area px py ≡ true →
        has_point r (centre px) (centre py) ≡ true }
{
    if !is_across(r.x0, r.x1, area.x0, area.x1) {
        return false;
    }
    is_across(r.y0, r.y1, area.y0, area.y1)
}
