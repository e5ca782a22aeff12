ghost use Rattle.std.specs.Prelude.{◌≡◌};
ghost use Rattle.flat_base.specs.Fixed.{fixed_product, entry_of, place_of};

use crate::limits::{ENTRY_MAX, PLACE_MAX};

/// The product of two numbers in fixed point: `|a| * |b| / 65536` rounded down,
/// with the sign of the product.
pub fn mul(a: i64, b: i64) -> i128
    ensures { result ≡ fixed_product a b }
{
    (a as i128 * b as i128) / 65536
}

/// The nearest number that may be an entry of a matrix: from -2^31 to 2^31.
pub fn clamp_entry(v: i128) -> i64
    ensures { result ≡ entry_of v }
{
    if v < -(ENTRY_MAX as i128) {
        -ENTRY_MAX
    } else if v > ENTRY_MAX as i128 {
        ENTRY_MAX
    } else {
        v as i64
    }
}

/// The nearest number that may be a place: from -2^46 to 2^46, in units of
/// 1/65536.
pub fn clamp_place(v: i128) -> i64
    ensures { result ≡ place_of v }
{
    if v < -(PLACE_MAX as i128) {
        -PLACE_MAX
    } else if v > PLACE_MAX as i128 {
        PLACE_MAX
    } else {
        v as i64
    }
}
