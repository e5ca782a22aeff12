//! What is known of lines of the body before they are read in turn (specs/Ahead): it hangs
//! on the head alone, so that several threads find it, each in a piece of the text.
ghost use Rattle.std.specs.Prelude.{◌≡◌, ◌<◌, ◌∷◌, ◌++◌, [], ℕ, length, slice_index_or};
ghost use Rattle.std.specs.Prelude.{if◌then◌else◌, true};
ghost use Rattle.std.specs.List.{list_all};
ghost use Rattle.flat_script.specs.Grammar.{is_plain};
ghost use Rattle.flat_text.specs.Pieces.{lines_of};
ghost use Rattle.flat_forms.specs.Ahead.{head_of};
ghost use Rattle.flat_places.specs.Index.{IsIndexed};
ghost use Rattle.flat_script.specs.Ahead.{AreAhead, AreAheadIn, IsAhead};

use crate::parser::is_skipped;
use crate::plain::{is_plain_line, is_plain_text};
use flat_base::{Actor, LINE_BYTES_MAX};
use flat_forms::said_ahead;
use flat_places::IndexedScript;
use flat_scene::LineBody;
use flat_text::line;
use std::alloc::Global;
use std::collections::VecDeque;
use std::thread;
use std::thread::Threads;

/// What is known of a line of the body before the lines before it are read.
#[derive(Drop)]
pub(crate) enum Ahead {
    /// It is empty or a remark.
    Skipped,
    /// It is this actor's, and says this.
    Said(Actor, LineBody),
    /// Nothing.
    Unknown,
}

/// What is known of a line behind the head, where it may be known that it is plain.
fn line_ahead(alloc: Global, script: &IndexedScript, line: &[u8], plain: bool) -> Ahead
    requires indexed { IsIndexed script.now }
    requires plain { plain ≡ true → list_all is_plain line.now ≡ true }
    ensures { IsAhead (head_of script.now.script) result line.now }
{
    if !is_plain_line(plain, line) {
        return Ahead::Unknown;
    }
    if line.len() > LINE_BYTES_MAX {
        return Ahead::Unknown;
    }
    if is_skipped(line) {
        return Ahead::Skipped;
    }
    match said_ahead(alloc, script, line) {
        Some((actor, body)) => Ahead::Said(actor, body),
        None => Ahead::Unknown,
    }
}

/// Puts what is known of one line more, where memory is there for it.
fn note(known: &mut Vec<Ahead>, one: Ahead) -> bool
    ensures { known.new.items ≡ (if result then known.old.items ++ one ∷ [] else known.old.items) }
{
    known.push(one).is_ok()
}

/// What is known of the lines of a piece behind the head, from its first one on. Where
/// memory runs out, it is known of fewer lines.
fn piece_ahead(alloc: Global, script: &IndexedScript, piece: &[u8]) -> VecDeque<Ahead>
    requires { IsIndexed script.now }
    ensures { AreAhead (head_of script.now.script) result.items (lines_of piece.now) }
{
    let mut known = Vec::new(alloc);
    let mut text = piece;
    let plain = is_plain_text(piece);
    while let Some((first, rest)) = line(text) {
        if !note(&mut known, line_ahead(alloc, script, first, plain)) {
            return VecDeque::from_vec(known);
        }
        text = rest;
    }
    VecDeque::from_vec(known)
}

/// The same of some pieces, each by a thread of its own where one can be made. Where
/// memory runs out, nothing is known.
pub(crate) fn pieces_ahead<T: Threads + Sync>(
    rt: &T,
    alloc: Global,
    script: &IndexedScript,
    pieces: &[&[u8]],
) -> VecDeque<VecDeque<Ahead>>
    requires { IsIndexed script.now }
    ensures { AreAheadIn (head_of script.now.script) result.items pieces.now }
{
    let read = |i: usize| -> VecDeque<Ahead>
        requires { IsIndexed script.now × (i < length pieces.now) }
        ensures { (d : _) → AreAhead (head_of script.entry.now.script) result.items
            (lines_of (slice_index_or pieces.entry.now i d).now) }
    { piece_ahead(alloc, script, pieces[i]) };
    match thread::map_indices(rt, alloc, pieces.len(), &read) {
        Ok(known) => VecDeque::from_vec(known),
        Err(_) => VecDeque::new(alloc),
    }
}
