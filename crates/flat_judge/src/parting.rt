//! Where a text parts from a report.
ghost use Rattle.std.specs.Prelude.{◌≡◌, ◌==◌, ◌+◌, ◌<◌, ◌≤◌, ◌^◌, cond, length, option_map, true, IfOk};
ghost use Rattle.flat_judge.specs.Parting.{line_of, parts_from};
ghost use Rattle.flat_judge.specs.Passing.{PassesPiece};

use crate::passing::pass_pieces;
use flat_base::{Items, NoMemory};
use flat_report::TextPieces;
use flat_text::line;
use std::alloc::Global;

/// How far a text goes on as a piece of a report does.
#[derive(Clone, Copy)]
pub enum MatchedText {
    /// To its end, in the line of a number.
    To(u64),
    /// It parts, in the line of a number.
    Parts(u64),
}

/// The line behind a byte.
fn line_after(line: u64, byte: u8) -> u64
    requires { line + 1 < 2 ^ 64 }
    ensures { result ≡ line + cond (byte == 10) 1 0 }
{
    if byte == b'\n' { line + 1 } else { line }
}

/// Goes through a piece of a report, from a place of a text on, in that line.
fn pass_piece(text: &[u8], at: usize, piece: &[u8], line: u64) -> MatchedText
    requires within { at ≤ length text.now }
    requires line { line + length piece.now < 2 ^ 64 }
    ensures { PassesPiece text.now at piece.now line result }
{
    let mut reached = line;
    for place in 0..piece.len() {
        if text.len() <= at + place {
            return MatchedText::Parts(reached);
        }
        if text[at + place] != piece[place] {
            return MatchedText::Parts(reached);
        }
        reached = line_after(reached, piece[place]);
    }
    MatchedText::To(reached)
}

/// Whether a text is a report. It compares run by run, which is faster than byte by byte.
fn is_report(text: &[u8], report: &TextPieces) -> bool
    ensures { result ≡ true → text.now ≡ report.now }
{
    match pass_pieces(text, 0, report) {
        Some(end) => end == text.len(),
        None => false,
    }
}

/// The line in which a text parts from a report, counted from 1; none where it is the report.
pub(crate) fn parts_at(text: &[u8], report: &TextPieces) -> Option<u64>
    ensures { result ≡ parts_from 1 text.now report.now }
{
    if is_report(text, report) {
        return None;
    }
    let mut at = 0;
    let mut line = 1;
    let runs = report.as_slice();
    for run in runs {
        let piece = run.as_slice();
        match pass_piece(text, at, piece, line) {
            MatchedText::To(next) => {
                at += piece.len();
                line = next;
            }
            MatchedText::Parts(parted) => return Some(parted),
        }
    }
    if at < text.len() {
        return Some(line);
    }
    None
}

/// The text of a report in one piece.
fn joined(alloc: Global, report: &TextPieces) -> Result<Items<u8>, NoMemory>
    ensures { IfOk result (λ joined. joined ≡ report.now) }
{
    let mut joined = Items::new(alloc);
    let runs = report.as_slice();
    for run in runs {
        joined.extend_from_slice(run.as_slice())?;
    }
    Ok(joined)
}

/// The line of a number of a text, counted from 1; none where the text has no such line.
fn line_at(text: &[u8], number: u64) -> Option<&[u8]>
    ensures { option_map (λ line. line.now) result ≡ line_of number text.now }
{
    let mut rest = text;
    for _ in 1..number {
        let (_, later) = line(rest)?;
        rest = later;
    }
    let (first, _) = line(rest)?;
    Some(first)
}

/// A copy of the line of a number of a report; none where the report has no such line.
pub(crate) fn line_of(
    alloc: Global,
    report: &TextPieces,
    number: u64,
) -> Result<Option<Items<u8>>, NoMemory>
    ensures { IfOk result (λ line. line ≡ line_of number report.now) }
{
    let joined = joined(alloc, report)?;
    match line_at(joined.as_slice(), number) {
        Some(line) => {
            let mut copied = Items::new(alloc);
            copied.extend_from_slice(line)?;
            Ok(Some(copied))
        }
        None => Ok(None),
    }
}
