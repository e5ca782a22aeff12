use flat_script::{ScriptError, parse};
use std::alloc::{AllocError, Global};

/// The head of most texts.
pub const HEAD: &str = "flatland 1\ndisplay 100 100\nsession A\npair t0 display A\nrun\n";

/// What follows a head, and the line and the kind of the text's fault, or 0 and the number
/// of its lines.
pub type Case = (&'static str, u32, u32);

fn count_of(alloc: Global, text: &[u8]) -> Result<u32, ScriptError> {
    let script = parse(alloc, text)?;
    let count = script.count;
    drop(script);
    Ok(count)
}

/// What follows a head, and the outcome of the text.
pub type Wrong = (&'static str, Option<(u32, u32)>);

/// The line and the kind of a text's fault, or 0 and the number of its lines.
pub fn outcome(alloc: Global, text: &[u8]) -> Option<(u32, u32)> {
    match count_of(alloc, text) {
        Ok(count) => Some((0, count)),
        Err(ScriptError::Fault(fault)) => Some((fault.line, fault.kind.number())),
        Err(ScriptError::Memory) => None,
    }
}

/// The outcome of a head with what follows it so many times, and then an end.
pub fn outcome_of(
    alloc: Global,
    head: &str,
    rest: &str,
    times: u32,
    end: &str,
) -> Result<Option<(u32, u32)>, AllocError> {
    let mut text = head.as_bytes().to_vec(alloc)?;
    push_times(&mut text, rest, times)?;
    text.extend_from_slice(end.as_bytes())?;
    Ok(outcome(alloc, text.as_slice()))
}

/// So many times the same text more.
pub fn push_times(text: &mut Vec<u8>, rest: &str, times: u32) -> Result<(), AllocError> {
    for _ in 0..times {
        text.extend_from_slice(rest.as_bytes())?;
    }
    Ok(())
}

/// The first of the cases behind a head that has another outcome, and which.
pub fn first_wrong(alloc: Global, head: &str, cases: &[Case]) -> Result<Option<Wrong>, AllocError> {
    for (rest, line, kind) in cases {
        let answer = outcome_of(alloc, head, rest, 1, "")?;
        if answer != Some((*line, *kind)) {
            return Ok(Some((*rest, answer)));
        }
    }
    Ok(None)
}
