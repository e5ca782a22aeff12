ghost use Rattle.std.specs.Prelude.{◌≡◌, ◌≤◌, ◌==◌, ◌<◌, ◌∷◌, [], ◌++◌, length, pos, is_some, unwrap_or, slice_get};
ghost use Rattle.std.specs.Prelude.{Err, OnOk, OnErr, IfSome};
ghost use Rattle.flat_text.specs.Pieces.{words_of};
ghost use Rattle.flat_places.specs.Names.{place_of, session_named};
ghost use Rattle.flat_script.specs.declared.script.ScriptError.TheVariants.{Memory};
ghost use Rattle.flat_extra.specs.Reading.{has_room, session_at, focus_line, all_read, is_word_at, pointer_in};
ghost use Rattle.flat_extra.specs.Reading.{pointer_at, units_in, units_at, may_be, has_numbers, word_count};
ghost use Rattle.flat_extra.specs.Reading.{pointer_call, pointer_line};
ghost use Rattle.flat_extra.specs.Readers.{Reads, Takes};

use crate::split::{ExtraLine, ExtraList};
use flat_base::{Items, SESSIONS_MAX, SessionNo};
use flat_focus::{FocusLine, FocusLines};
use flat_places::{FaultKind, NameList, Script, is_word};
use flat_pointer::{POINTERS, PointerCall, PointerLine, PointerLines};
use flat_script::{ScriptError, ScriptFault};
use flat_text::{read_natural, read_number, word};
use std::alloc::Global;

/// Extra lines of a text. Beyond it: script fault 11.
pub const EXTRA_LINES_MAX: usize = 65_536;

/// The place of a name, from 0.
fn place_of(names: &NameList, name: &[u8]) -> Option<usize>
    ensures place { result ≡ place_of names.now name.now }
    ensures within { IfSome result (λ i. i < length names.now) }
{
    let names = names.as_slice();
    names.iter().position(|one| one.as_slice() == name)
}

/// The session of that name.
fn session_named(script: &Script, name: &[u8]) -> Option<SessionNo>
    requires { length script.now.sessions ≤ SESSIONS_MAX }
    ensures { result ≡ session_named script.now name.now }
{
    let place = place_of(&script.sessions, name)?;
    Some(SessionNo(place as u32 + 1))
}

/// The session that a word of a line names, if the word is there.
fn session_at(script: &Script, line: &[u8], i: usize) -> Option<SessionNo>
    requires { length script.now.sessions ≤ SESSIONS_MAX }
    ensures { result ≡ session_at script.now (words_of line.now) i }
{
    session_named(script, word(line, i)?)
}

/// Whether fewer extra lines stand before than a text may have.
fn has_room(before: usize) -> bool
    ensures { result ≡ has_room before }
{
    before < EXTRA_LINES_MAX
}

/// Whether a line has that many words.
fn has_words(line: &[u8], count: usize) -> bool
    requires { 0 < count }
    ensures { result ≡ (length (words_of line.now) == count) }
{
    word(line, count - 1).is_some() && word(line, count).is_none()
}

/// The value of a focus line that so many extra lines stand before, or the lowest
/// kind of its faults.
fn focus_line(script: &Script, before: usize, line: &ExtraLine) -> Result<FocusLine, FaultKind>
    requires { length script.now.sessions ≤ SESSIONS_MAX }
    ensures { result ≡ focus_line script.now before line.now }
{
    let text = line.text.as_slice();
    let Some(by) = session_at(script, text, 0) else {
        return Err(FaultKind::UnknownActor);
    };
    if !has_words(text, 3) {
        return Err(FaultKind::WrongCount);
    }
    let Some(of) = session_at(script, text, 2) else {
        return Err(FaultKind::UnknownName);
    };
    if !has_room(before) {
        return Err(FaultKind::Limit);
    }
    Ok(FocusLine {
        number: line.number,
        by,
        of,
    })
}

/// Puts a value at the end of others.
fn keep<T: Drop>(found: &mut Items<T>, value: T) -> Result<(), ScriptError>
    ensures ok { OnOk result (found.new ≡ found.old ++ value ∷ []) }
    ensures err { OnErr result (result ≡ Err Memory) }
{
    match found.push(value) {
        Ok(()) => Ok(()),
        Err(_) => Err(ScriptError::Memory),
    }
}

fn take_focus(
    found: &mut FocusLines,
    script: &Script,
    before: usize,
    line: &ExtraLine,
) -> Result<(), ScriptError>
    requires { length script.now.sessions ≤ SESSIONS_MAX }
    ensures { Takes result (focus_line script.now before line.now) line.now.number found.old
        found.new }
{
    match focus_line(script, before, line) {
        Ok(value) => keep(found, value),
        Err(kind) => Err(ScriptError::Fault(ScriptFault {
            line: line.number,
            kind,
        })),
    }
}

/// The values of focus lines; or the first line with a fault, and the lowest kind of
/// its faults. If memory runs out, all that was read is dropped.
pub fn read_focus(
    alloc: Global,
    script: &Script,
    lines: &ExtraList,
) -> Result<FocusLines, ScriptError>
    requires { length script.now.sessions ≤ SESSIONS_MAX }
    ensures { Reads result (all_read (focus_line script.now) 0 lines.now) }
{
    let mut found = Items::new(alloc);
    for before in 0..lines.len() {
        match take_focus(&mut found, script, before, lines.at(before)) {
            Ok(()) => {}
            Err(error) => return Err(error),
        }
    }
    Ok(found)
}

// ---- pointers

/// Whether a line has that word at a place.
fn is_at(line: &[u8], i: usize, text: &str) -> bool
    ensures { result ≡ is_word_at text.now (words_of line.now) i }
{
    match word(line, i) {
        Some(found) => is_word(found, text),
        None => false,
    }
}

fn pointer_in(word: &[u8]) -> Option<u8>
    ensures { result ≡ pointer_in word.now }
{
    let number = read_natural(word)?;
    if number < POINTERS as u128 {
        Some(number as u8)
    } else {
        None
    }
}

fn units_in(word: &[u8]) -> Option<i32>
    ensures { result ≡ units_in word.now }
{
    i32::try_from(read_number(word)?).ok()
}

/// The pointer that a line names, if the word is there.
fn pointer_at(line: &[u8]) -> Option<u8>
    ensures { result ≡ pointer_at (words_of line.now) }
{
    pointer_in(word(line, 2)?)
}

/// The number of units at a place of a line, if the word is there.
fn units_at(line: &[u8], i: usize) -> Option<i32>
    ensures { result ≡ units_at (words_of line.now) i }
{
    units_in(word(line, i)?)
}

fn has_word(line: &[u8], i: usize) -> bool
    ensures { result ≡ is_some (slice_get (words_of line.now) i) }
{
    word(line, i).is_some()
}

fn may_be_pointer(line: &[u8]) -> bool
    ensures { result ≡ may_be (pointer_at (words_of line.now)) (words_of line.now) 2 }
{
    pointer_at(line).is_some() || !has_word(line, 2)
}

fn may_be_units(line: &[u8], i: usize) -> bool
    ensures { result ≡ may_be (units_at (words_of line.now) i) (words_of line.now) i }
{
    units_at(line, i).is_some() || !has_word(line, i)
}

/// Whether all number words are of their ranges.
fn has_numbers(line: &[u8]) -> bool
    ensures { result ≡ has_numbers (words_of line.now) }
{
    may_be_pointer(line)
        && (is_at(line, 1, "Up") || (may_be_units(line, 3) && may_be_units(line, 4)))
}

/// How many words a line has, by its second one.
fn word_count(line: &[u8]) -> usize
    ensures count { result ≡ word_count (words_of line.now) }
    ensures some { 0 < result }
{
    if is_at(line, 1, "Up") { 3 } else { 5 }
}

fn units_or_none(line: &[u8], i: usize) -> i32
    ensures { result ≡ unwrap_or (units_at (words_of line.now) i) (pos 0) }
{
    units_at(line, i).unwrap_or(0)
}

fn pointer_call(line: &[u8]) -> PointerCall
    ensures { result ≡ pointer_call (words_of line.now) }
{
    if is_at(line, 1, "Up") {
        return PointerCall::Up;
    }
    let x = units_or_none(line, 3);
    let y = units_or_none(line, 4);
    if is_at(line, 1, "Down") {
        PointerCall::Down { x, y }
    } else {
        PointerCall::Move { x, y }
    }
}

/// The value of a pointer's line that so many extra lines stand before, or the
/// lowest kind of its faults.
fn pointer_line(before: usize, line: &ExtraLine) -> Result<PointerLine, FaultKind>
    ensures { result ≡ pointer_line before line.now }
{
    let text = line.text.as_slice();
    if !is_at(text, 0, "display") {
        return Err(FaultKind::UnknownActor);
    }
    if !has_numbers(text) {
        return Err(FaultKind::BadNumber);
    }
    if !has_words(text, word_count(text)) {
        return Err(FaultKind::WrongCount);
    }
    if !has_room(before) {
        return Err(FaultKind::Limit);
    }
    Ok(PointerLine {
        number: line.number,
        pointer: pointer_at(text).unwrap_or(0),
        call: pointer_call(text),
    })
}

fn take_pointer(
    found: &mut PointerLines,
    before: usize,
    line: &ExtraLine,
) -> Result<(), ScriptError>
    ensures { Takes result (pointer_line before line.now) line.now.number found.old found.new }
{
    match pointer_line(before, line) {
        Ok(value) => keep(found, value),
        Err(kind) => Err(ScriptError::Fault(ScriptFault {
            line: line.number,
            kind,
        })),
    }
}

/// The values of pointers' lines; or the first line with a fault, and the lowest kind
/// of its faults. If memory runs out, all that was read is dropped.
pub fn read_pointers(alloc: Global, lines: &ExtraList) -> Result<PointerLines, ScriptError>
    ensures { Reads result (all_read pointer_line 0 lines.now) }
{
    let mut found = Items::new(alloc);
    for before in 0..lines.len() {
        match take_pointer(&mut found, before, lines.at(before)) {
            Ok(()) => {}
            Err(error) => return Err(error),
        }
    }
    Ok(found)
}
