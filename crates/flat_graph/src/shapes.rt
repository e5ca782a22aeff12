ghost use Rattle.std.specs.Prelude.{◌≡◌, ◌||◌, ◌+ℤ◌, ◌^◌, ◌-◌};
ghost use Rattle.std.specs.List.{list_any};
ghost use Rattle.flat_scene.specs.Misuse as misuse;

use flat_base::{IntRect, SCALE_MAX};
use flat_scene::HitRegion;

/// A scale of nothing, or above the limit.
fn is_bad_scale(scale: u32) -> bool
    ensures { result ≡ misuse.is_bad_scale scale }
{
    scale == 0 || scale > SCALE_MAX
}

/// One of two scales is nothing, or above the limit.
pub fn has_bad_scale(x: u32, y: u32) -> bool
    ensures { result ≡ misuse.is_bad_scale x || misuse.is_bad_scale y }
{
    is_bad_scale(x) || is_bad_scale(y)
}

/// The end of a side is above the largest i32.
fn is_beyond(start: i32, side: i32) -> bool
    ensures { result ≡ misuse.is_above (start +ℤ side) (2 ^ 31 - 1) }
{
    i64::from(start) + i64::from(side) > i64::from(i32::MAX)
}

/// A side is less than 1, or an end is above the largest i32.
pub fn is_bad_rect(rect: IntRect) -> bool
    ensures { result ≡ misuse.is_bad_rect rect }
{
    rect.w < 1 || rect.h < 1 || is_beyond(rect.x, rect.w) || is_beyond(rect.y, rect.h)
}

/// The same of a rectangle that may be left out.
pub fn is_bad_area(area: Option<IntRect>) -> bool
    ensures { result ≡ misuse.is_bad_area area }
{
    match area {
        Some(rect) => is_bad_rect(rect),
        None => false,
    }
}

/// Whether one of the regions has a bad rectangle.
pub fn has_bad_area(regions: &[HitRegion]) -> bool
    ensures { result ≡ list_any (λ region. misuse.is_bad_area region.area) regions.now }
{
    regions.iter().any(|region| is_bad_area(region.area))
}
