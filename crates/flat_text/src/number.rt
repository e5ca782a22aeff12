ghost use Rattle.std.specs.Prelude.{◌≡◌, ◌≢◌, ◌++◌, ◌<◌, ◌≤◌, ◌^◌, ◌↔◌, ℕ, ℤ, length, Some, OnOk};
ghost use Rattle.std.specs.Prelude.{OnErr, IfSome, IsNone, unsigned_abs};
ghost use Rattle.std.specs.Fmt.{decimal, signed_decimal};
ghost use Rattle.flat_text.specs.Number.{digits_after, positive, natural, signed};

use flat_base::NoMemory;
use itoa::Buffer;

/// Appends the decimal text of a number. If memory runs out, nothing is appended.
pub fn push_number(out: &mut Vec<u8>, v: i128) -> Result<(), NoMemory>
    ensures ok { OnOk result (out.new.items ≡ out.old.items ++ signed_decimal v) }
    ensures err { OnErr result (out.new.items ≡ out.old.items) }
{
    let mut buffer = Buffer::new();
    out.extend_from_slice(buffer.format(v).as_bytes())?;
    Ok(())
}

/// The number that the word spells: None exactly where it isn't the decimal text
/// of a number of at most 20 digits. So `-0`, `+1` and `01` are no numbers.
pub fn read_number(word: &[u8]) -> Option<i128>
    ensures value { result ≡ signed word.now }
    // What is read is the text of the number, which has at most 20 digits.
    ensures text { IfSome result (λ v. signed_decimal v ≡ word.now) }
    ensures digits { IfSome result (λ v. unsigned_abs v < 10 ^ 20) }
    // The text of each such number is read as that number.
    ensures back { (v : ℤ) → unsigned_abs v < 10 ^ 20 → signed_decimal v ≡ word.now → result
        ≡ Some v }
    ensures none { IsNone result ↔ ((v : ℤ) → unsigned_abs v < 10 ^ 20 →
        signed_decimal v ≢ word.now) }
{
    number_in(word)
}

fn number_in(word: &[u8]) -> Option<i128>
    ensures { result ≡ signed word.now }
{
    match word {
        [] => None,
        [b'-', digits @ ..] => Some(-(positive_in(digits)? as i128)),
        _ => Some(natural_in(word)? as i128),
    }
}

/// The number without a sign that the word spells: None exactly where it isn't
/// the decimal text of such a number of at most 20 digits.
pub fn read_natural(word: &[u8]) -> Option<u128>
    ensures value { result ≡ natural word.now }
    ensures text { IfSome result (λ n. decimal n ≡ word.now) }
    ensures digits { IfSome result (λ n. n < 10 ^ 20) }
    ensures back { (n : ℕ) → n < 10 ^ 20 → decimal n ≡ word.now → result ≡ Some n }
    ensures none { IsNone result ↔ ((n : ℕ) → n < 10 ^ 20 → decimal n ≢ word.now) }
{
    natural_in(word)
}

fn natural_in(word: &[u8]) -> Option<u128>
    ensures value { result ≡ natural word.now }
    ensures small { IfSome result (λ n. n < 10 ^ 20) }
{
    if word.len() == 1 {
        digits_in(word)
    } else {
        positive_in(word)
    }
}

// A number above 0.
fn positive_in(word: &[u8]) -> Option<u128>
    ensures value { result ≡ positive word.now }
    ensures small { IfSome result (λ n. n < 10 ^ 20) }
{
    match word {
        [] => None,
        [b'0', ..] => None,
        _ => {
            if word.len() <= 20 {
                digits_in(word)
            } else {
                None
            }
        }
    }
}

fn digits_in(word: &[u8]) -> Option<u128>
    requires { length word.now ≤ 20 }
    ensures value { result ≡ digits_after 0 word.now }
    ensures small { IfSome result (λ n. n < 10 ^ 20) }
{
    if word.len() < 20 {
        return Some(few_digits_in(word)? as u128);
    }
    all_digits_in(word)
}

// The number of so few digits that it fits 64 bits: twice as fast as `all_digits_in`.
fn few_digits_in(word: &[u8]) -> Option<u64>
    requires { length word.now ≤ 19 }
    ensures value { result ≡ digits_after 0 word.now }
    ensures small { IfSome result (λ n. n < 10 ^ 20) }
{
    let mut n: u64 = 0;
    for b in word {
        if !b.is_ascii_digit() {
            return None;
        }
        n = n * 10 + (*b - b'0') as u64;
    }
    Some(n)
}

fn all_digits_in(word: &[u8]) -> Option<u128>
    requires { length word.now ≤ 20 }
    ensures value { result ≡ digits_after 0 word.now }
    ensures small { IfSome result (λ n. n < 10 ^ 20) }
{
    let mut n: u128 = 0;
    for b in word {
        if !b.is_ascii_digit() {
            return None;
        }
        n = n * 10 + (*b - b'0') as u128;
    }
    Some(n)
}
