ghost use Rattle.std.specs.Prelude.{◌≡◌, ℕ, ◌<◌, ◌≤◌, ◌+◌, ◌^◌, Ok, OnOk, IfErr, IfOk, length, true, false};
ghost use Rattle.std.specs.List.{list_all};
ghost use Rattle.flat_text.specs.Pieces.{lines_of};
ghost use Rattle.flat_forms.specs.Steps.{Steps};
ghost use Rattle.flat_forms.specs.Progress.{Kept, sofar_of};
ghost use Rattle.flat_script.specs.Ahead.{is_body};
ghost use Rattle.flat_forms.specs.declared.lines.TextPart.TheVariants.{Start};
ghost use Rattle.flat_forms.specs.Head.{empty};
ghost use Rattle.flat_script.specs.declared.script.ScriptError.TheVariants.{Fault};
ghost use Rattle.flat_script.specs.Ahead.{StandsBefore};
ghost use Rattle.flat_script.specs.Grammar.{line_read, lines_read, end_read, text_read, is_plain};
ghost use Rattle.flat_script.specs.Grammar.{is_skipped};
ghost use Rattle.flat_script.specs.Answers.{Answers, Fails, ends_by};

use crate::apart::read_apart;
use crate::plain::{is_plain_line, is_plain_text};
use crate::script::{ScriptError, ScriptFault};
use flat_base::{LINE_BYTES_MAX, SCRIPT_BYTES_MAX};
use flat_forms::{LineError, Parser, TextPart};
use flat_places::{FaultKind, Script};
use flat_text::line;
use rayon::current_num_threads;
use std::alloc::Global;
use std::thread::Threads;

/// Shorter texts are read by one thread, which takes less time than to start others.
const SHORT_TEXT: usize = 131_072;

/// The script of the text; or the first line with a fault, and the lowest kind of
/// that line's faults, in one pass over the text. If memory runs out, all that was
/// read is dropped.
///
/// What a script is, docs/SCRIPT.md says line by line.
pub fn parse(alloc: Global, bytes: &[u8]) -> Result<Script, ScriptError>
    ensures { Answers result (text_read bytes.now) }
{
    let mut parser = Parser::new(alloc);
    let lines = read_text(&mut parser, alloc, bytes)?;
    Ok(script_of(parser, lines))
}

/// The same by several threads, if the text is long enough for them and there is more than one
/// processor.
pub fn parse_on<T: Threads + Sync>(
    rt: &T,
    alloc: Global,
    bytes: &[u8],
) -> Result<Script, ScriptError>
    ensures { Answers result (text_read bytes.now) }
{
    if bytes.len() < SHORT_TEXT || current_num_threads(rt) == 1 {
        return parse(alloc, bytes);
    }
    let mut parser = Parser::new(alloc);
    let lines = read_long(rt, &mut parser, alloc, bytes)?;
    Ok(script_of(parser, lines))
}

/// Reads all lines of a text, and answers how many they are.
#[tactic(auto, using(crate::proofs::PlainLemmas::rest_plain))]
fn read_text(parser: &mut Parser, alloc: Global, bytes: &[u8]) -> Result<u32, ScriptError>
    requires kept { Kept parser.old }
    requires new { sofar_of parser.old ≡ (Start, empty) }
    requires begins { parser.old.begins ≡ 0 }
    requires dones { parser.old.dones ≡ 0 }
    ensures ok { IfOk result (λ lines. text_read bytes.now
        ≡ Ok (record (sofar_of parser.new).1 { count = lines })) }
    ensures err { IfErr result (λ error. Fails error (text_read bytes.now)) }
{
    if bytes.len() > SCRIPT_BYTES_MAX {
        return Err(fault(0, FaultKind::TooLong));
    }
    let mut number = 1u32;
    let mut text = bytes;
    let plain = is_plain_text(bytes);
    while let Some((first, rest)) = line(text) {
        match read_line(parser, alloc, number, first, plain) {
            Ok(()) => {}
            Err(LineError::Kind(kind)) => return Err(fault(number, kind)),
            Err(LineError::Memory) => return Err(ScriptError::Memory),
        }
        number += 1;
        text = rest;
    }
    match end_fault(parser) {
        Some(kind) => Err(fault(number, kind)),
        None => Ok(number - 1),
    }
}

/// Reads a text up to and with the line that ends the head, and answers the number of the
/// next line and what is left of the text, which is nothing where the head has no end.
fn read_head<'a>(
    parser: &mut Parser,
    alloc: Global,
    bytes: &'a [u8],
) -> Result<(u32, &'a [u8]), ScriptError>
    requires stands { StandsBefore 1 parser.old }
    requires size { length bytes.now ≤ SCRIPT_BYTES_MAX }
    ensures ok { IfOk result (λ left. lines_read left.0 (sofar_of parser.new) (lines_of left.1.now)
        ≡ lines_read 1 (sofar_of parser.old) (lines_of bytes.now)) }
    ensures stands { IfOk result (λ left. StandsBefore left.0 parser.new) }
    ensures counted { IfOk result (λ left. left.0 + length left.1.now ≤ 16777217) }
    ensures ends { IfOk result (λ left. is_body parser.new.part ≡ false → length left.1.now ≡ 0) }
    ensures err { IfErr result
        (λ error. Fails error (lines_read 1 (sofar_of parser.old) (lines_of bytes.now))) }
{
    let mut number = 1u32;
    let mut text = bytes;
    while let Some((first, rest)) = line(text) {
        match read_line(parser, alloc, number, first, false) {
            Ok(()) => {}
            Err(LineError::Kind(kind)) => return Err(fault(number, kind)),
            Err(LineError::Memory) => return Err(ScriptError::Memory),
        }
        number += 1;
        text = rest;
        if is_in_body(parser) {
            return Ok((number, text));
        }
    }
    Ok((number, text))
}

/// Whether the head was read to its end.
fn is_in_body(parser: &Parser) -> bool
    ensures { result ≡ is_body parser.now.part }
{
    matches!(parser.part, TextPart::Body)
}

/// Reads all lines of a text as `read_text` does, by several threads.
fn read_long<T: Threads + Sync>(
    rt: &T,
    parser: &mut Parser,
    alloc: Global,
    bytes: &[u8],
) -> Result<u32, ScriptError>
    requires kept { Kept parser.old }
    requires new { sofar_of parser.old ≡ (Start, empty) }
    requires begins { parser.old.begins ≡ 0 }
    requires dones { parser.old.dones ≡ 0 }
    ensures ok { IfOk result (λ lines. text_read bytes.now
        ≡ Ok (record (sofar_of parser.new).1 { count = lines })) }
    ensures err { IfErr result (λ error. Fails error (text_read bytes.now)) }
{
    if bytes.len() > SCRIPT_BYTES_MAX {
        return Err(fault(0, FaultKind::TooLong));
    }
    let (number, text) = read_head(parser, alloc, bytes)?;
    if !is_in_body(parser) {
        return Err(fault(number, FaultKind::BadHead));
    }
    match read_apart(rt, parser, alloc, number, text) {
        Ok(end) => ended(parser, end),
        Err(error) => Err(error),
    }
}

/// How many lines a text has that ends before line `end`, or its fault there.
fn ended(parser: &Parser, end: u32) -> Result<u32, ScriptError>
    requires kept { Kept parser.now }
    requires some { 0 < end }
    ensures ok { IfOk result (λ lines. end_read end (sofar_of parser.now)
        ≡ Ok (record (sofar_of parser.now).1 { count = lines })) }
    ensures err { IfErr result (λ error. Fails error (end_read end (sofar_of parser.now))) }
{
    match end_fault(parser) {
        Some(kind) => Err(fault(end, kind)),
        None => Ok(end - 1),
    }
}

pub(crate) fn fault(line: u32, kind: FaultKind) -> ScriptError
    ensures { result ≡ Fault (record { line = line; kind = kind }) }
{
    ScriptError::Fault(ScriptFault { line, kind })
}

/// Reads the line of that number, where it may be known that it is plain.
pub(crate) fn read_line(
    parser: &mut Parser,
    alloc: Global,
    number: u32,
    line: &[u8],
    plain: bool,
) -> Result<(), LineError>
    requires kept { Kept parser.old }
    requires plain { plain ≡ true → list_all is_plain line.now ≡ true }
    requires begins { parser.old.begins + 1 < 2 ^ 32 }
    requires dones { parser.old.dones + 1 < 2 ^ 32 }
    ensures steps { Steps result (line_read number (sofar_of parser.old) line.now)
        (sofar_of parser.new) }
    ensures kept { OnOk result (Kept parser.new) }
    ensures few { (parser.new.begins ≤ parser.old.begins + 1)
        × (parser.new.dones ≤ parser.old.dones + 1) }
{
    if !is_plain_line(plain, line) {
        return Err(LineError::Kind(FaultKind::NotAscii));
    }
    if line.len() > LINE_BYTES_MAX {
        return Err(LineError::Kind(FaultKind::LongLine));
    }
    if is_skipped(line) {
        return Ok(());
    }
    parser.words(alloc, number, line)
}

/// The kind of fault that it is if the text ends here, if it is one.
fn end_fault(parser: &Parser) -> Option<FaultKind>
    requires { Kept parser.now }
    ensures { (number : ℕ) → end_read number (sofar_of parser.now)
        ≡ ends_by number result (sofar_of parser.now).1 }
{
    match parser.part {
        TextPart::Body => {
            if parser.dones < parser.begins {
                return Some(FaultKind::BadOrder);
            }
            None
        }
        _ => Some(FaultKind::BadHead),
    }
}

/// The script of a text that was read, with its number of lines.
fn script_of(parser: Parser, lines: u32) -> Script
    ensures { result ≡ record (sofar_of parser).1 { count = lines } }
{
    let mut script = parser.text.script;
    script.count = lines;
    script
}

/// Whether a line is empty, or a remark.
pub fn is_skipped(line: &[u8]) -> bool
    ensures { result ≡ is_skipped line.now }
{
    if line.is_empty() {
        return true;
    }
    line[0] == b'#'
}
