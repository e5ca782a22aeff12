use flat_base::NoMemory;
use flat_text::{push_number, read_natural, read_number};
use std::alloc::Global;

// Each number and its only spelling.
const SPELLINGS: [(&str, i128); 9] = [
    ("0", 0),
    ("7", 7),
    ("-7", -7),
    ("10", 10),
    ("-2147483648", -2147483648),
    ("4294967295", 4294967295),
    ("18446744073709551615", 18446744073709551615),
    ("99999999999999999999", 99999999999999999999),
    ("-99999999999999999999", -99999999999999999999),
];

const NO_NUMBERS: [&str; 14] = [
    "",
    "-",
    "-0",
    "+1",
    "00",
    "01",
    "-01",
    "1 ",
    " 1",
    "1x",
    "0x1",
    "--1",
    "100000000000000000000",
    "-100000000000000000000",
];

/// Whether a text is a number's spelling.
fn is_spelling(alloc: Global, text: &str, number: i128) -> Result<bool, NoMemory> {
    let mut out = Vec::new(alloc);
    push_number(&mut out, number)?;
    Ok(out.as_slice() == text.as_bytes() && read_number(text.as_bytes()) == Some(number))
}

/// The first of the spellings that isn't its number's.
fn first_wrong_spelling(alloc: Global) -> Result<Option<&'static str>, NoMemory> {
    for (text, number) in SPELLINGS.iter() {
        if !is_spelling(alloc, text, *number)? {
            return Ok(Some(*text));
        }
    }
    Ok(None)
}

/// The first of those that are no numbers which is read as one.
fn first_number() -> Option<&'static str> {
    for text in NO_NUMBERS.iter() {
        let bytes = text.as_bytes();
        if read_number(bytes).is_some() || read_natural(bytes).is_some() {
            return Some(*text);
        }
    }
    None
}

#[test]
fn numbers_and_back(rt: HostRuntime) {
    assert_eq!(rt; first_wrong_spelling(rt.alloc()), Ok(None));
}

#[test]
fn no_numbers(rt: HostRuntime) {
    assert_eq!(rt; first_number(), None);
}
