use crate::outcome::push_times;
use flat_base::{NoMemory, SCRIPT_BYTES_MAX};
use flat_extra::{ExtraSet, parse_focus, parse_pointers, split_text};
use flat_pointer::{PointerCall, PointerLine};
use flat_script::ScriptError;
use std::alloc::{AllocError, Global};

// The head of the texts, of six lines.
const HEAD: &str = "flatland 1\ndisplay 9 9\nsession A\nsession B\npair t0 display A\nrun\n";

/// What follows HEAD, and the line and the kind of the text's fault, or 0 and the number of
/// its extra lines.
type Case = (&'static str, u32, u32);

// Lines that ask for the focus.
const FOCUS: [Case; 10] = [
    ("A Focus B\nA Clear\nB Focus A", 0, 2),
    // a remark
    ("# Focus x\nA Focus B\n", 0, 1),
    // a byte that has no sign
    ("A Focus B\r\n", 7, 2),
    // not ASCII
    ("A Focus \u{e9}\n", 7, 2),
    // the other set
    ("display Up 0\n", 7, 6),
    // the rest is no script
    ("A Focus x\nA Fly\n", 8, 6),
    // the rest ends in a frame
    ("A Focus x\ndisplay begin 1\n", 9, 12),
    // the first bad line
    ("A Focus B\nB Focus x\nx Focus\n", 8, 9),
    // the lowest kind
    ("x Focus x x\n", 7, 5),
    ("A Focus x x\n", 7, 8),
];

// The same of the lines of pointers.
const POINTER: [Case; 6] = [
    (
        "display Down 15 -2147483648 2147483647\ndisplay Move 0 0 0\ndisplay Up 0\n",
        0,
        3,
    ),
    // not the display
    ("A Up x\n", 7, 5),
    // there is no pointer 16
    ("display Down 16\n", 7, 7),
    // beyond 32 bits
    ("display Move 0 0 2147483648\n", 7, 7),
    // an Up has no point
    ("display Up 0 x\n", 7, 8),
    // a space at the end
    ("display Up 0 \n", 7, 8),
];

fn count_focus(alloc: Global, text: &[u8]) -> Result<usize, ScriptError> {
    let read = parse_focus(alloc, text)?;
    let count = read.lines.len();
    drop(read);
    Ok(count)
}

fn count_pointers(alloc: Global, text: &[u8]) -> Result<usize, ScriptError> {
    let read = parse_pointers(alloc, text)?;
    let count = read.lines.len();
    drop(read);
    Ok(count)
}

/// The line and the kind of a text's fault, or 0 and the number of its extra lines.
fn outcome(alloc: Global, set: ExtraSet, text: &[u8]) -> Option<(usize, usize)> {
    let count = match set {
        ExtraSet::Focus => count_focus(alloc, text),
        ExtraSet::Pointer => count_pointers(alloc, text),
    };
    match count {
        Ok(count) => Some((0, count)),
        Err(ScriptError::Fault(fault)) => {
            Some((fault.line as usize, fault.kind.number() as usize))
        }
        Err(ScriptError::Memory) => None,
    }
}

/// The outcome of HEAD with some text behind it, and then another so many times.
fn outcome_of(
    alloc: Global,
    set: ExtraSet,
    before: &str,
    rest: &str,
    times: u32,
) -> Result<Option<(usize, usize)>, AllocError> {
    let mut text = HEAD.as_bytes().to_vec(alloc)?;
    push_times(&mut text, before, 1)?;
    push_times(&mut text, rest, times)?;
    Ok(outcome(alloc, set, text.as_slice()))
}

/// The first of the cases that has another outcome, and which.
fn first_wrong<'a>(
    alloc: Global,
    set: ExtraSet,
    cases: &'a [Case],
) -> Result<Option<(&'a str, Option<(usize, usize)>)>, AllocError> {
    for (rest, line, kind) in cases {
        let answer = outcome_of(alloc, set, "", rest, 1)?;
        if answer != Some((*line as usize, *kind as usize)) {
            return Ok(Some((*rest, answer)));
        }
    }
    Ok(None)
}

#[test]
fn lines_of_both_sets(rt: HostRuntime) {
    let alloc = rt.alloc();
    let focus = first_wrong(alloc, ExtraSet::Focus, &FOCUS);
    let pointer = first_wrong(alloc, ExtraSet::Pointer, &POINTER);
    assert_eq!(rt; [focus, pointer], [Ok(None), Ok(None)]);
}

// What follows HEAD, what follows that and how often, and the outcome.
const REPEATED: [(&str, &str, u32, u32, u32); 6] = [
    ("", "A Focus B\n", 65_536, 0, 65_536),
    ("", "A Focus B\n", 65_537, 65_543, 11),
    // a text of 16 MiB, and one of a byte more
    ("", "\n", 16_777_151, 0, 0),
    ("", "\n", 16_777_152, 0, 1),
    // a line of 1,024 bytes is extra, and a longer one isn't
    ("A Focus ", "x", 1_016, 7, 9),
    ("A Focus ", "x", 1_017, 7, 3),
];

/// The first of the repeated texts that has another outcome, how often, and which.
fn first_wrong_repeated(
    alloc: Global,
) -> Result<Option<(&'static str, u32, Option<(usize, usize)>)>, AllocError> {
    for (before, rest, times, line, kind) in REPEATED.iter() {
        let answer = outcome_of(alloc, ExtraSet::Focus, before, rest, *times)?;
        if answer != Some((*line as usize, *kind as usize)) {
            return Ok(Some((*rest, *times, answer)));
        }
    }
    Ok(None)
}

#[test]
fn many_lines_and_long_ones(rt: HostRuntime) {
    assert_eq!(rt; first_wrong_repeated(rt.alloc()), Ok(None));
}

const TEXT: &str = "flatland 1\nx Up 1\nrun\ndisplay Down 0 5 -5\nA Poll\ndisplay Up 0\n";

const REST: &str = "flatland 1\nx Up 1\nrun\n#\nA Poll\n#\n";

/// Whether a text is split into a rest and so many extra lines; None where it is too long.
fn is_split(
    alloc: Global,
    text: &[u8],
    rest: &[u8],
    lines: usize,
) -> Result<Option<bool>, NoMemory> {
    if text.len() > SCRIPT_BYTES_MAX {
        return Ok(None);
    }
    let split = split_text(alloc, text, ExtraSet::Pointer)?;
    Ok(Some(split.rest() == rest && split.lines().len() == lines))
}

#[test]
fn a_text_in_two_parts(rt: HostRuntime) {
    let is_split = is_split(rt.alloc(), TEXT.as_bytes(), REST.as_bytes(), 2);
    assert_eq!(rt; is_split, Ok(Some(true)));
}

const VALUES: &str =
    "flatland 1\ndisplay 9 9\nsession A\nsession B\npair t0 display A\nrun\ndisplay Down 15 5 -5\nA Poll\ndisplay Up 0\n";

/// Whether the extra lines of a text are these.
fn are_read(alloc: Global, text: &[u8], lines: &[PointerLine]) -> Result<bool, ScriptError> {
    let read = parse_pointers(alloc, text)?;
    let are_these = read.lines.as_slice() == lines;
    drop(read);
    Ok(are_these)
}

#[test]
fn values_of_lines(rt: HostRuntime) {
    let down = PointerLine {
        number: 7,
        pointer: 15,
        call: PointerCall::Down { x: 5, y: -5 },
    };
    let up = PointerLine {
        number: 9,
        pointer: 0,
        call: PointerCall::Up,
    };
    let are_read = are_read(rt.alloc(), VALUES.as_bytes(), &[down, up]);
    assert_eq!(rt; are_read, Ok(true));
}
