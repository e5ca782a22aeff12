ghost use Rattle.std.specs.Prelude.{◌≡◌, ◌≤◌, IfErr, IfOk, length};
ghost use Rattle.flat_base.specs.declared.limits.TheConstants.{SCRIPT_BYTES_MAX};
ghost use Rattle.flat_script.specs.Answers.{Answers};
ghost use Rattle.flat_extra.specs.Extra.{extra_of, rest_of};
ghost use Rattle.flat_extra.specs.Readers.{Reads, IsLong};
ghost use Rattle.flat_extra.specs.Whole.{focus_of, focus_read, pointers_of, pointers_read};

use crate::reading::{read_focus, read_pointers};
use crate::split::{ExtraSet, SplitText, split_text};
use flat_base::SCRIPT_BYTES_MAX;
use flat_focus::FocusLines;
use flat_places::{FaultKind, Script};
use flat_playable::scripts_are_playable;
use flat_pointer::PointerLines;
use flat_script::{ScriptError, ScriptFault, parse};
use std::alloc::Global;

/// A script, and the extra lines of its text that ask for the focus.
#[derive(Drop)]
pub struct FocusScript {
    pub script: Script,
    pub lines: FocusLines,
}

/// A script, and the extra lines of its text that pointers have.
#[derive(Drop)]
pub struct PointerScript {
    pub script: Script,
    pub lines: PointerLines,
}

/// A text without its extra lines, and those lines; or that the text is too long.
fn split_within(alloc: Global, bytes: &[u8], set: ExtraSet) -> Result<SplitText, ScriptError>
    ensures short { IfOk result (λ split. length bytes.now ≤ SCRIPT_BYTES_MAX) }
    ensures rest { IfOk result (λ split. split.rest ≡ rest_of set bytes.now) }
    ensures lines { IfOk result (λ split. split.lines ≡ extra_of set bytes.now) }
    ensures long { IfErr result (λ error. IsLong error bytes.now) }
{
    if bytes.len() > SCRIPT_BYTES_MAX {
        return Err(ScriptError::Fault(ScriptFault {
            line: 0,
            kind: FaultKind::TooLong,
        }));
    }
    match split_text(alloc, bytes, set) {
        Ok(split) => Ok(split),
        Err(_) => Err(ScriptError::Memory),
    }
}

/// The script of a text that was split, and what its extra lines ask of the focus.
fn focus_of(alloc: Global, split: &SplitText) -> Result<FocusScript, ScriptError>
    ensures { Reads result (focus_of split.now.rest split.now.lines) }
{
    let script = match parse(alloc, split.rest()) {
        Ok(script) => script,
        Err(error) => return Err(error),
    };
    scripts_are_playable();
    match read_focus(alloc, &script, split.lines()) {
        Ok(lines) => Ok(FocusScript { script, lines }),
        Err(error) => Err(error),
    }
}

/// The same of the lines that pointers have.
fn pointers_of(alloc: Global, split: &SplitText) -> Result<PointerScript, ScriptError>
    ensures { Reads result (pointers_of split.now.rest split.now.lines) }
{
    let (rest, lines) = (split.rest(), split.lines());
    let script = match parse(alloc, rest) {
        Ok(script) => script,
        Err(error) => return Err(error),
    };
    match read_pointers(alloc, lines) {
        Ok(lines) => Ok(PointerScript { script, lines }),
        Err(error) => Err(error),
    }
}

/// The script of a text without its extra lines, and those lines; or the fault of
/// the text: that it is too long, else the fault of the rest, else that of the first
/// extra line with one.
pub fn parse_focus(alloc: Global, bytes: &[u8]) -> Result<FocusScript, ScriptError>
    ensures { Reads result (focus_read bytes.now) }
{
    match split_within(alloc, bytes, ExtraSet::Focus) {
        Ok(split) => focus_of(alloc, &split),
        Err(error) => Err(error),
    }
}

/// The same of the lines that pointers have.
pub fn parse_pointers(alloc: Global, bytes: &[u8]) -> Result<PointerScript, ScriptError>
    ensures { Reads result (pointers_read bytes.now) }
{
    match split_within(alloc, bytes, ExtraSet::Pointer) {
        Ok(split) => pointers_of(alloc, &split),
        Err(error) => Err(error),
    }
}
