ghost use Rattle.std.specs.Prelude.{◌≡◌, ◌≤◌, [], ◌∷◌, ◌++◌, ◌&&◌, ◌||◌, length, cond, OnOk, IfOk};
ghost use Rattle.std.specs.List.{list_all};
ghost use Rattle.flat_text.specs.Pieces.{words_of};
ghost use Rattle.flat_script.specs.Grammar.{is_plain, is_skipped};
ghost use Rattle.flat_extra.specs.Extra.{is_call, has_call, is_extra, is_run, rest_line, rest_of};
ghost use Rattle.flat_extra.specs.Extra.{if_extra, extra_of};

use flat_base::{Items, LINE_BYTES_MAX, NoMemory, SCRIPT_BYTES_MAX};
use flat_places::is_word;
use flat_script::{all_plain, is_skipped};
use flat_text::{next_piece, word};
use std::alloc::Global;

/// Which lines are extra: by their second words.
#[derive(Clone, Copy, PartialEq, Eq)]
pub enum ExtraSet {
    /// `Focus`.
    Focus,
    /// `Down`, `Move` or `Up`.
    Pointer,
}

/// Bytes, in order.
pub type ByteList = Items<u8>;

/// An extra line.
#[derive(Drop)]
pub struct ExtraLine {
    /// Its number in the text, from 1.
    pub number: u32,
    pub text: ByteList,
}

/// Extra lines, in order.
pub type ExtraList = Items<ExtraLine>;

/// A text in two parts.
#[derive(Drop)]
pub struct SplitText {
    pub rest: ByteList,
    pub lines: ExtraList,
}

impl SplitText {
    /// The text with `#` in place of each extra line.
    pub fn rest(&self) -> &[u8]
        ensures { result.now ≡ self.now.rest }
    {
        self.rest.as_slice()
    }

    /// The extra lines.
    pub fn lines(&self) -> &ExtraList
        ensures { result.now ≡ self.now.lines }
    {
        &self.lines
    }
}

fn is_call(set: ExtraSet, word: &[u8]) -> bool
    ensures { result ≡ is_call set word.now }
{
    match set {
        ExtraSet::Focus => is_word(word, "Focus"),
        ExtraSet::Pointer => is_word(word, "Down") || is_word(word, "Move") || is_word(word, "Up"),
    }
}

fn has_call(set: ExtraSet, line: &[u8]) -> bool
    ensures { result ≡ has_call set (words_of line.now) }
{
    match word(line, 1) {
        Some(call) => is_call(set, call),
        None => false,
    }
}

/// Whether a line behind `run` is extra.
fn is_extra(set: ExtraSet, line: &[u8]) -> bool
    ensures { result ≡ is_extra set line.now }
{
    line.len() <= LINE_BYTES_MAX && all_plain(line) && !is_skipped(line) && has_call(set, line)
}

fn is_extra_behind(begun: bool, set: ExtraSet, line: &[u8]) -> bool
    ensures { result ≡ (begun && is_extra set line.now) }
{
    begun && is_extra(set, line)
}

fn has_begun(begun: bool, line: &[u8]) -> bool
    ensures { result ≡ (begun || is_run line.now) }
{
    begun || is_word(line, "run")
}

/// Puts what stands in the rest in place of a line.
fn push_rest(rest: &mut ByteList, extra: bool, line: &[u8]) -> Result<(), NoMemory>
    ensures { OnOk result (rest.new ≡ rest.old ++ rest_line extra line.now) }
{
    if extra {
        rest.push(b'#')
    } else {
        rest.extend_from_slice(line)
    }
}

/// Puts a line feed, where another line follows.
fn push_feed(rest: &mut ByteList, more: bool) -> Result<(), NoMemory>
    ensures { OnOk result (rest.new ≡ rest.old ++ cond more (10 ∷ []) []) }
{
    if more { rest.push(b'\n') } else { Ok(()) }
}

/// Puts a line that is extra.
fn push_extra(
    alloc: Global,
    lines: &mut ExtraList,
    extra: bool,
    number: u32,
    line: &[u8],
) -> Result<(), NoMemory>
    ensures { OnOk result (lines.new ≡ lines.old ++ if_extra extra number line.now) }
{
    if extra {
        let mut text = Items::new(alloc);
        text.extend_from_slice(line)?;
        lines.push(ExtraLine { number, text })
    } else {
        Ok(())
    }
}

/// The rest of a text and its extra lines, in memory of their own.
pub fn split_text(alloc: Global, bytes: &[u8], set: ExtraSet) -> Result<SplitText, NoMemory>
    requires { length bytes.now ≤ SCRIPT_BYTES_MAX }
    ensures rest { IfOk result (λ split. split.rest ≡ rest_of set bytes.now) }
    ensures lines { IfOk result (λ split. split.lines ≡ extra_of set bytes.now) }
{
    let mut rest = Items::new(alloc);
    let mut lines = Items::new(alloc);
    let mut begun = false;
    let mut number = 1u32;
    let mut left = Some(bytes);
    while let Some(text) = left {
        let (line, later) = next_piece(text, b'\n');
        let extra = is_extra_behind(begun, set, line);
        push_rest(&mut rest, extra, line)?;
        push_feed(&mut rest, later.is_some())?;
        push_extra(alloc, &mut lines, extra, number, line)?;
        begun = has_begun(begun, line);
        number += 1;
        left = later;
    }
    Ok(SplitText { rest, lines })
}
