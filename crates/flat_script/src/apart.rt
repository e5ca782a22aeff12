//! Reading a body whose lines were looked at ahead, piece by piece.
ghost use Rattle.std.specs.Prelude.{◌≡◌, ◌<◌, ◌≤◌, ◌+◌, ◌^◌, IfOk, IfSome, OnOk, length};
ghost use Rattle.flat_text.specs.Pieces.{lines_of};
ghost use Rattle.flat_forms.specs.Ahead.{head_of};
ghost use Rattle.flat_forms.specs.Progress.{Kept, sofar_of};
ghost use Rattle.flat_forms.specs.Steps.{Steps};
ghost use Rattle.flat_forms.specs.declared.lines.TextPart.TheVariants.{Body};
ghost use Rattle.flat_script.specs.Ahead.{AreAhead, AreAheadIn, IsAhead, ReadsOn, StandsBefore};
ghost use Rattle.flat_script.specs.Ahead.{lines_in};
ghost use Rattle.flat_script.specs.Grammar.{line_read};

use crate::ahead::{Ahead, pieces_ahead};
use crate::parser::{fault, read_line};
use crate::script::ScriptError;
use flat_base::NoMemory;
use flat_forms::{LineError, Parser};
use flat_text::{cut_lines, line};
use std::alloc::Global;
use std::collections::VecDeque;
use std::thread::Threads;

/// As many pieces as a text is cut into, and so as many threads as look at it.
const PIECES: usize = 8;

/// The pieces of a text, about as long as one another.
fn pieces_of(alloc: Global, text: &[u8]) -> Result<Vec<&[u8]>, NoMemory>
    ensures { IfOk result (λ pieces. lines_in pieces.items ≡ lines_of text.now) }
{
    let mut pieces = Vec::new(alloc);
    let mut rest = text;
    while !rest.is_empty() {
        let (piece, later) = cut_lines(rest, text.len() / PIECES);
        pieces.push(piece)?;
        rest = later;
    }
    Ok(pieces)
}

/// Reads the line of that number. `known` is what threads found of it, if anything.
fn take_line(
    parser: &mut Parser,
    alloc: Global,
    number: u32,
    line: &[u8],
    known: Option<Ahead>,
) -> Result<(), LineError>
    requires kept { Kept parser.old }
    requires body { parser.old.part ≡ Body }
    requires known { IfSome known
        (λ one. IsAhead (head_of parser.old.text.script) one line.now) }
    requires begins { parser.old.begins + 1 < 2 ^ 32 }
    requires dones { parser.old.dones + 1 < 2 ^ 32 }
    ensures steps { Steps result (line_read number (sofar_of parser.old) line.now)
        (sofar_of parser.new) }
    ensures kept { OnOk result (Kept parser.new) }
    ensures few { (parser.new.begins ≤ parser.old.begins + 1)
        × (parser.new.dones ≤ parser.old.dones + 1) }
{
    match known {
        Some(Ahead::Said(actor, body)) => parser.take_said(number, actor, body),
        Some(Ahead::Skipped) => Ok(()),
        _ => read_line(parser, alloc, number, line, false),
    }
}

/// Reads the lines of a piece, numbered from `first` on, and answers the number of the line
/// behind them. `known` is what threads found of them.
fn take_piece(
    parser: &mut Parser,
    alloc: Global,
    first: u32,
    piece: &[u8],
    known: &mut VecDeque<Ahead>,
) -> Result<u32, ScriptError>
    requires stands { StandsBefore first parser.old }
    requires body { parser.old.part ≡ Body }
    requires known { AreAhead (head_of parser.old.text.script) known.old.items
        (lines_of piece.now) }
    requires counted { first + length (lines_of piece.now) ≤ 16777217 }
    ensures reads { ReadsOn (lines_of piece.now) first (sofar_of parser.old) result
        (sofar_of parser.new) }
    ensures stands { IfOk result (λ n. StandsBefore n parser.new) }
    ensures counted { IfOk result (λ n. n ≤ first + length (lines_of piece.now)) }
    ensures body { OnOk result (parser.new.part ≡ Body) }
    ensures head { OnOk result
        (head_of parser.new.text.script ≡ head_of parser.old.text.script) }
{
    let mut number = first;
    let mut text = piece;
    while let Some((first, rest)) = line(text) {
        match take_line(parser, alloc, number, first, known.pop_front()) {
            Ok(()) => {}
            Err(LineError::Kind(kind)) => return Err(fault(number, kind)),
            Err(LineError::Memory) => return Err(ScriptError::Memory),
        }
        number += 1;
        text = rest;
    }
    Ok(number)
}

/// The same of some pieces.
fn take_pieces(
    parser: &mut Parser,
    alloc: Global,
    first: u32,
    pieces: &[&[u8]],
    known: &mut VecDeque<VecDeque<Ahead>>,
) -> Result<u32, ScriptError>
    requires stands { StandsBefore first parser.old }
    requires body { parser.old.part ≡ Body }
    requires known { AreAheadIn (head_of parser.old.text.script) known.old.items pieces.now }
    requires counted { first + length (lines_in pieces.now) ≤ 16777217 }
    ensures reads { ReadsOn (lines_in pieces.now) first (sofar_of parser.old) result
        (sofar_of parser.new) }
    ensures stands { IfOk result (λ n. StandsBefore n parser.new) }
{
    let mut number = first;
    for piece in pieces {
        let mut ahead = known.pop_front().unwrap_or(VecDeque::new(alloc));
        number = take_piece(parser, alloc, number, piece, &mut ahead)?;
    }
    Ok(number)
}

/// Reads the lines of a text behind the head, numbered from `number` on, and answers the
/// number of the line behind them. Several threads look at pieces of it first.
pub(crate) fn read_apart<T: Threads + Sync>(
    rt: &T,
    parser: &mut Parser,
    alloc: Global,
    number: u32,
    text: &[u8],
) -> Result<u32, ScriptError>
    requires stands { StandsBefore number parser.old }
    requires body { parser.old.part ≡ Body }
    requires counted { number + length text.now ≤ 16777217 }
    ensures reads { ReadsOn (lines_of text.now) number (sofar_of parser.old) result
        (sofar_of parser.new) }
    ensures stands { IfOk result (λ n. StandsBefore n parser.new) }
{
    let Ok(pieces) = pieces_of(alloc, text) else {
        return Err(ScriptError::Memory);
    };
    let mut known = pieces_ahead(rt, alloc, &parser.text, pieces.as_slice());
    let read = take_pieces(parser, alloc, number, pieces.as_slice(), &mut known);
    drop(known);
    read
}
