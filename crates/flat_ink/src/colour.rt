ghost use Rattle.std.specs.Prelude.{◌≡◌, ◌≤◌, ◌*◌, ◌/◌};
ghost use Rattle.flat_ink.specs.Colours.{red_at, green_at, blue_at, texel_of, replaced, covered};

use flat_base::{ONE, OPACITY_MAX};

/// The red of a buffer's column.
pub fn red(i: u32, x: u32) -> u8
    ensures { result ≡ red_at i x }
{
    ((64 * x as u64 + 16 * i as u64) % 256) as u8
}

/// The green of a buffer's row.
pub fn green(y: u32) -> u8
    ensures { result ≡ green_at y }
{
    (64 * y as u64 % 256) as u8
}

/// The blue of a buffer.
pub fn blue(b: u32) -> u8
    ensures { result ≡ blue_at b }
{
    (32 * b as u64 % 256) as u8
}

/// The colour at a place of a buffer: red, green, blue, alpha. Buffers have no
/// content here, so it is a pattern that tells buffers and places apart.
pub fn texel(b: u32, i: u32, x: u32, y: u32) -> [u8; 4]
    ensures { result ≡ texel_of b i x y }
{
    [red(i, x), green(y), blue(b), 255]
}

/// A channel at an opacity.
pub fn replace(opacity: u32, s: u8) -> u8
    requires { opacity ≤ OPACITY_MAX }
    ensures { result ≡ replaced opacity s }
{
    (s as u32 * opacity / ONE) as u8
}

/// A number of up to 255 * 255 divided by 255.
fn per_255(n: u16) -> u8
    requires { n ≤ 65025 }
    ensures { result ≡ n / 255 }
{
    let m = n + 1;
    ((m + m / 256) / 256) as u8
}

/// A channel over the old one, weighted so.
pub fn cover(weight: u8, s: u8, old: u8) -> u8
    ensures { result ≡ covered weight s old }
{
    per_255(s as u16 * weight as u16 + old as u16 * (255 - weight as u16))
}

/// The weight of a colour with that alpha at an opacity.
pub fn weight_of(opacity: u32, alpha: u8) -> u8
    requires { opacity ≤ OPACITY_MAX }
    ensures { result ≡ alpha * opacity / ONE }
{
    (alpha as u32 * opacity / ONE) as u8
}
