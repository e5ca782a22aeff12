//! The digits of numbers, written from the first to the last at a place of bytes that have
//! room there. Each call answers the place behind what it wrote.
ghost use Rattle.std.specs.Prelude.{◌≡◌, ◌≤◌, ◌<◌, ◌+◌, ◌∷◌, [], length};
ghost use Rattle.std.specs.Fmt.{decimal, signed_decimal};
ghost use Rattle.flat_page.specs.Words.{numbers, spaced};
ghost use Rattle.flat_page.specs.Rooms.{HasRoom, Fills, sign};

/// The bytes of the longest number, with its sign and the space before it.
pub(crate) const NUMBER_BYTES: usize = 24;

/// Numbers below it have at most four digits.
const FOUR_DIGITS: u64 = 10_000;

/// How many digits a number of at most four has.
#[inline(always)]
fn few_digits(n: u64) -> usize
    requires small { n < 10000 }
    ensures { result ≡ length (decimal n) }
{
    if n < 10 {
        return 1;
    }
    if n < 100 {
        return 2;
    }
    if n < 1000 {
        return 3;
    }
    4
}

/// How many digits a number has.
#[inline(always)]
fn count_digits(n: u64) -> usize
    ensures { result ≡ length (decimal n) }
{
    let mut left = n;
    let mut digits = 0;
    while left >= FOUR_DIGITS {
        left /= FOUR_DIGITS;
        digits += 4;
    }
    digits + few_digits(left)
}

/// Writes a number.
#[inline(always)]
pub(crate) fn write_digits(bytes: &mut [u8], at: usize, n: u64) -> usize
    requires room { HasRoom (length (decimal n)) bytes.old at }
    ensures { Fills (decimal n) bytes.old at bytes.new result }
{
    let end = at + count_digits(n);
    itoa::write_digits(n, bytes, end);
    end
}

/// Writes one byte.
#[inline(always)]
fn write_byte(bytes: &mut [u8], at: usize, byte: u8) -> usize
    requires room { HasRoom 1 bytes.old at }
    ensures { Fills (byte ∷ []) bytes.old at bytes.new result }
{
    bytes[at] = byte;
    at + 1
}

/// Writes a minus for a number below 0.
#[inline(always)]
fn write_sign(bytes: &mut [u8], at: usize, value: i64) -> usize
    requires room { HasRoom 1 bytes.old at }
    ensures { Fills (sign value) bytes.old at bytes.new result }
{
    if value >= 0 {
        return at;
    }
    write_byte(bytes, at, b'-')
}

/// Writes a space and a number without a sign.
pub(crate) fn write_count(bytes: &mut [u8], at: usize, value: u64) -> usize
    requires room { HasRoom 24 bytes.old at }
    ensures fills { Fills (32 ∷ decimal value) bytes.old at bytes.new result }
    ensures short { result ≤ at + 24 }
{
    let next = write_byte(bytes, at, b' ');
    write_digits(bytes, next, value)
}

/// Writes a space and a number.
fn write_place(bytes: &mut [u8], at: usize, value: i64) -> usize
    requires room { HasRoom 24 bytes.old at }
    ensures fills { Fills (32 ∷ signed_decimal value) bytes.old at bytes.new result }
    ensures short { result ≤ at + 24 }
{
    let second = write_byte(bytes, at, b' ');
    let third = write_sign(bytes, second, value);
    write_digits(bytes, third, value.unsigned_abs())
}

/// Writes two numbers, each behind a space.
#[inline(always)]
pub(crate) fn write_two_places(bytes: &mut [u8], at: usize, a: i64, b: i64) -> usize
    requires room { HasRoom 48 bytes.old at }
    ensures fills { Fills (spaced (numbers (a ∷ b ∷ []))) bytes.old at bytes.new result }
    ensures short { result ≤ at + 48 }
{
    let next = write_place(bytes, at, a);
    write_place(bytes, next, b)
}

/// Writes four numbers, each behind a space.
#[inline(always)]
pub(crate) fn write_places(bytes: &mut [u8], at: usize, a: i64, b: i64, c: i64, d: i64) -> usize
    requires room { HasRoom 96 bytes.old at }
    ensures { Fills (spaced (numbers (a ∷ b ∷ c ∷ d ∷ []))) bytes.old at bytes.new result }
{
    let middle = write_two_places(bytes, at, a, b);
    write_two_places(bytes, middle, c, d)
}
