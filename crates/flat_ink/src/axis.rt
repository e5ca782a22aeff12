ghost use Rattle.std.specs.Prelude.{◌≡◌, ◌<◌, ◌*◌, ◌/◌, ◌^◌, ◌-ℤ◌, true, unsigned_abs, IsTrue};
ghost use Rattle.flat_geom.specs.Rectangles.{is_between};
ghost use Rattle.flat_ink.specs.Pixels.{centre, depth, part_of};

use crate::area::HALF;
use flat_base::ONE;

/// One axis of the display, as an item lies along it: the entry of its matrix,
/// and its bounds.
#[derive(Clone, Copy)]
pub struct Axis {
    pub entry: i64,
    pub low: i64,
    pub high: i64,
}

fn centre_of(p: usize) -> i128
    ensures { result ≡ centre p }
{
    ONE as i128 * p as i128 + HALF as i128
}

/// How far a pixel lies into the item, from the end at which the item begins.
fn depth_at(axis: Axis, p: usize) -> u128
    ensures { result ≡ depth axis p }
{
    let centre = centre_of(p);
    let d = if axis.entry > 0 {
        centre - axis.low as i128
    } else {
        axis.high as i128 - 1 - centre
    };
    d.unsigned_abs()
}

fn extent(axis: Axis) -> u128
    ensures { result ≡ unsigned_abs (axis.high -ℤ axis.low) }
{
    (axis.high as i128 - axis.low as i128).unsigned_abs()
}

/// Whether so many equal parts are each one unit wide: pixels side by side then lie in
/// parts side by side.
pub fn is_by_units(axis: Axis, count: u32) -> bool
    ensures { IsTrue result → unsigned_abs (axis.high -ℤ axis.low) ≡ count * ONE }
{
    extent(axis) == count as u128 * ONE as u128
}

/// In which of so many equal parts of an extent a depth lies. Where each part is one
/// unit wide, nothing has to be divided by the extent.
fn share(depth: u128, count: u32, extent: u128) -> u32
    requires within { depth < extent }
    requires narrow { extent < 2 ^ 66 }
    requires count { 0 < count }
    ensures value { result ≡ depth * count / extent }
    ensures below { result < count }
{
    if extent == count as u128 * ONE as u128 {
        (depth / ONE as u128) as u32
    } else if extent < 1 << 32 {
        (depth as u64 * count as u64 / extent as u64) as u32
    } else {
        (depth * count as u128 / extent) as u32
    }
}

/// In which of so many equal parts of the item a pixel lies.
pub fn part(axis: Axis, count: u32, p: usize) -> u32
    requires within { is_between axis.low axis.high (centre p) ≡ true }
    requires count { 0 < count }
    ensures value { result ≡ part_of axis count p }
    ensures below { result < count }
{
    share(depth_at(axis, p), count, extent(axis))
}
