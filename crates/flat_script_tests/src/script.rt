use crate::outcome::{HEAD, outcome};
use flat_base::TransformId;
use flat_places::Script;
use flat_scene::{Call, DisplayLine, LineBody, ScriptLine, SessionLine};
use flat_script::{ScriptError, parse};
use std::alloc::{AllocError, Global};

// A script with a remark, an empty line, and a line of each actor.
const LINES: &str =
    "flatland 1\ndisplay 100 90\nsession A\npair t0 display A\nrun\n# a remark\n\nA SetTranslation 7 -5 40\ndisplay begin 16\ndisplay done";

/// Whether these are the lines of LINES: at its ends a translation, which stands in its
/// eighth line, and the end of a frame.
fn are_lines(lines: &[ScriptLine]) -> bool {
    let [first, _, last] = lines else {
        return false;
    };
    let translates = matches!(
        first.body,
        LineBody::Session(SessionLine::Call(Call::SetTranslation {
            t: TransformId(7),
            x: -5,
            y: 40
        }))
    );
    let ends = matches!(last.body, LineBody::Display(DisplayLine::Done));
    first.number == 8 && translates && ends
}

/// What a script declares, of how much, and whether its lines are those of LINES.
fn told(script: &Script) -> ([u32; 4], [usize; 3], bool) {
    let setup = &script.setup;
    (
        [script.count, setup.width, setup.height, setup.sessions],
        [script.sessions.len(), script.pairs.len(), setup.pairs.len()],
        are_lines(script.lines.as_slice()),
    )
}

fn told_of(alloc: Global, text: &str) -> Result<([u32; 4], [usize; 3], bool), ScriptError> {
    let script = parse(alloc, text.as_bytes())?;
    let told = told(&script);
    drop(script);
    Ok(told)
}

#[test]
fn a_script(rt: HostRuntime) {
    let told = told_of(rt.alloc(), LINES);
    assert_eq!(rt; told, Ok(([10, 100, 90, 1], [1, 1, 1], true)));
}

/// A byte alone in a line is 2 where it isn't plain, but a line feed ends the line and a
/// `#` begins a remark.
fn outcome_of_byte(byte: u8) -> (u32, u32) {
    match byte {
        b'\n' => (6, 6),
        b'#' => (0, 6),
        32..=126 => (6, 6),
        _ => (6, 2),
    }
}

/// What is in front of a byte that is alone in its line.
fn front_of(byte: u8) -> &'static [u8] {
    if byte == b'#' { b"" } else { b"A " }
}

fn read_byte(alloc: Global, byte: u8) -> Result<Option<(u32, u32)>, AllocError> {
    let mut text = HEAD.as_bytes().to_vec(alloc)?;
    push_byte(&mut text, byte)?;
    Ok(outcome(alloc, text.as_slice()))
}

fn push_byte(text: &mut Vec<u8>, byte: u8) -> Result<(), AllocError> {
    text.extend_from_slice(front_of(byte))?;
    text.push(byte)?;
    Ok(())
}

/// The first byte that has another outcome, and which.
fn first_wrong_byte(alloc: Global) -> Result<Option<(u8, Option<(u32, u32)>)>, AllocError> {
    for byte in 0..=255u8 {
        let answer = read_byte(alloc, byte)?;
        if answer != Some(outcome_of_byte(byte)) {
            return Ok(Some((byte, answer)));
        }
    }
    Ok(None)
}

#[test]
fn every_byte(rt: HostRuntime) {
    assert_eq!(rt; first_wrong_byte(rt.alloc()), Ok(None));
}
