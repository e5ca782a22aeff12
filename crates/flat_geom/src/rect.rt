ghost use Rattle.std.specs.Prelude.{◌≡◌};
ghost use Rattle.flat_geom.specs.Rectangles.{mapped_rect, shared_part, has_no_point, is_between};
ghost use Rattle.flat_geom.specs.Rectangles.{has_point, in_places, sized_rect};

use crate::matrix::{Matrix, map_point};
use flat_base::{IntRect, ONE, Rect};

/// The rectangle between the mapped corners of another, each axis in rising
/// order.
pub fn map_rect(m: Matrix, r: Rect) -> Rect
    ensures { result ≡ mapped_rect m r }
{
    let p = map_point(m, r.x0, r.y0);
    let q = map_point(m, r.x1, r.y1);
    Rect {
        x0: p.0.min(q.0),
        y0: p.1.min(q.1),
        x1: p.0.max(q.0),
        y1: p.1.max(q.1),
    }
}

/// What two rectangles share. It may be empty, and its bounds then in falling
/// order.
pub fn intersect(p: Rect, q: Rect) -> Rect
    ensures { result ≡ shared_part p q }
{
    Rect {
        x0: p.x0.max(q.x0),
        y0: p.y0.max(q.y0),
        x1: p.x1.min(q.x1),
        y1: p.y1.min(q.y1),
    }
}

/// Whether a rectangle has no point.
pub fn is_empty(r: Rect) -> bool
    ensures { result ≡ has_no_point r }
{
    r.x0 >= r.x1 || r.y0 >= r.y1
}

/// Whether a rectangle has a point: its lower bounds belong to it, its upper
/// ones don't.
pub fn contains(r: Rect, x: i64, y: i64) -> bool
    ensures { result ≡ has_point r x y }
{
    between(r.x0, r.x1, x) && between(r.y0, r.y1, y)
}

/// A rectangle of whole units, in places: each bound times 65,536.
///
/// It is exact. Its bounds, of up to 2^48, may lie beyond those to which mapped
/// places saturate.
pub fn units(r: IntRect) -> Rect
    ensures { result ≡ in_places r }
{
    let (x, y, w, h) = (r.x as i64, r.y as i64, r.w as i64, r.h as i64);
    let one = ONE as i64;
    Rect {
        x0: x * one,
        y0: y * one,
        x1: (x + w) * one,
        y1: (y + h) * one,
    }
}

/// The rectangle of a size in units, in places, with its corner at the origin.
pub fn sized(w: u32, h: u32) -> Rect
    ensures { result ≡ sized_rect w h }
{
    Rect {
        x0: 0,
        y0: 0,
        x1: w as i64 * ONE as i64,
        y1: h as i64 * ONE as i64,
    }
}

fn between(low: i64, high: i64, number: i64) -> bool
    ensures { result ≡ is_between low high number }
{
    low <= number && number < high
}
