use crate::outcome::{HEAD, outcome, outcome_of};
use flat_base::NoMemory;
use flat_text::push_number;
use std::alloc::{AllocError, Global};

/// What follows a head, how often, what follows that, and the outcome.
type Repeated = (&'static str, u32, &'static str, u32, u32);

// Lines behind HEAD.
const REPEATED: [Repeated; 10] = [
    ("A Clear\n", 65536, "", 0, 65541),
    ("A Clear\n", 65537, "", 65542, 11),
    ("A Clear\n", 65536, "A CreateView t1\n", 65542, 9),
    (
        "A Clear\n",
        65536,
        "display begin 1\ndisplay done\n",
        0,
        65543,
    ),
    ("display begin 1\ndisplay done\n", 512, "", 0, 1029),
    ("display begin 1\ndisplay done\n", 513, "", 1030, 11),
    (
        "display begin 1\ndisplay done\n",
        510,
        "display begin 1\ndisplay begin 1\n",
        1027,
        12,
    ),
    (
        "display begin 1\ndisplay done\n",
        511,
        "display begin 1\ndisplay begin 1\n",
        1029,
        11,
    ),
    // a remark of 1,024 bytes, and one of a byte more
    ("#", 1024, "", 0, 6),
    ("#", 1025, "", 6, 3),
];

/// What is repeated, how often, and the outcome.
type Wrong = (&'static str, u32, Option<(u32, u32)>);

/// The first of the cases that has another outcome.
fn first_wrong(alloc: Global) -> Result<Option<Wrong>, AllocError> {
    for (rest, times, end, line, kind) in REPEATED.iter() {
        let answer = outcome_of(alloc, HEAD, rest, *times, end)?;
        if answer != Some((*line, *kind)) {
            return Ok(Some((*rest, *times, answer)));
        }
    }
    Ok(None)
}

#[test]
fn many_lines_and_long_ones(rt: HostRuntime) {
    assert_eq!(rt; first_wrong(rt.alloc()), Ok(None));
}

/// The outcome of a byte so many times.
fn filled(alloc: Global, byte: u8, len: usize) -> Result<Option<(u32, u32)>, AllocError> {
    let text = vec![in alloc; byte; len]?;
    Ok(outcome(alloc, text.as_slice()))
}

/// The outcomes of texts of 16 MiB, and of one of a byte more.
fn filled_each(alloc: Global) -> Result<[Option<(u32, u32)>; 3], AllocError> {
    Ok([
        filled(alloc, b'#', 16777216)?,
        filled(alloc, b'#', 16777217)?,
        filled(alloc, b'\n', 16777216)?,
    ])
}

#[test]
fn long_texts(rt: HostRuntime) {
    let expected = [Some((1, 3)), Some((0, 1)), Some((16777217, 4))];
    assert_eq!(rt; filled_each(rt.alloc()), Ok(expected));
}

/// The word, the name, what follows, how often, and the outcome. The pair of the display
/// counts too.
type Declared = (&'static str, &'static str, &'static str, u32, u32, u32);

const DECLARED: [Declared; 10] = [
    ("session", "S", "", 16, 0, 20),
    ("session", "S", "", 17, 19, 11),
    ("probe", "P", "", 8, 0, 13),
    ("probe", "P", "", 9, 12, 11),
    ("buffers", "b", " S0 1 1 1", 256, 0, 261),
    ("buffers", "b", " S0 1 1 1", 257, 260, 11),
    ("pair", "p", " S0 S0", 4095, 0, 4100),
    ("pair", "p", " S0 S0", 4096, 4100, 11),
    ("fence", "f", " S0 display", 4096, 0, 4101),
    ("fence", "f", " S0 display", 4097, 4100, 11),
];

fn push_all(text: &mut Vec<u8>, words: &[&str]) -> Result<(), NoMemory> {
    for word in words {
        text.extend_from_slice(word.as_bytes())?;
    }
    Ok(())
}

/// A declaration of a name with a number.
fn push_declaration(text: &mut Vec<u8>, case: &Declared, i: u32) -> Result<(), NoMemory> {
    push_all(text, &[case.0, " ", case.1])?;
    push_number(text, i as i128)?;
    push_all(text, &[case.2, "\n"])
}

/// A text of so many declarations.
fn push_declarations(text: &mut Vec<u8>, case: &Declared) -> Result<(), NoMemory> {
    let first = if case.0 == "session" {
        ""
    } else {
        "session S0\n"
    };
    push_all(text, &["flatland 1\ndisplay 1 1\n", first])?;
    for i in 0..case.3 {
        push_declaration(text, case, i)?;
    }
    push_all(text, &["pair root display S0\nrun\n"])
}

fn declared(alloc: Global, case: &Declared) -> Result<Option<(u32, u32)>, NoMemory> {
    let mut text = Vec::new(alloc);
    push_declarations(&mut text, case)?;
    Ok(outcome(alloc, text.as_slice()))
}

/// The first of the cases that has another outcome: its word, how often, and the outcome.
fn first_wrong_declared(alloc: Global) -> Result<Option<Wrong>, NoMemory> {
    for case in DECLARED.iter() {
        let answer = declared(alloc, case)?;
        if answer != Some((case.4, case.5)) {
            return Ok(Some((case.0, case.3, answer)));
        }
    }
    Ok(None)
}

#[test]
fn many_declarations(rt: HostRuntime) {
    assert_eq!(rt; first_wrong_declared(rt.alloc()), Ok(None));
}
