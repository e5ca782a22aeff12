//! What a text says next, by the first two words of its next line: whose entry that is, or
//! which display was lost.
ghost use Rattle.std.specs.Prelude.{◌≡◌, ◌<◌, ◌^◌, ℕ, length, IfSome, None, Some};
ghost use Rattle.flat_places.specs.Names.{place_of};
ghost use Rattle.flat_judge.specs.Following.{behind_word, first_word, next_actor, next_display};
ghost use Rattle.flat_judge.specs.Following.{session_at};

use flat_base::{Actor, SessionNo};
use flat_places::{Script, is_word};
use flat_text::read_natural;

/// How long the word is with which a text begins.
fn word_length(text: &[u8]) -> usize
    ensures { result ≡ length (first_word text.now) }
{
    text.iter().take_while(|byte| b' ' < **byte).count()
}

/// The word with which a text begins.
fn first_word(text: &[u8]) -> &[u8]
    ensures { result.now ≡ first_word text.now }
{
    &text[..word_length(text)]
}

/// What stands behind the first word of a text and the byte after it.
fn behind_word(text: &[u8]) -> &[u8]
    ensures { result.now ≡ behind_word text.now }
{
    let length = word_length(text);
    if text.len() <= length {
        return &[];
    }
    &text[length + 1..]
}

/// The place of a session's name.
fn place_of(script: &Script, name: &[u8]) -> Option<usize>
    ensures { result ≡ place_of script.now.sessions name.now }
{
    let names = script.sessions.as_slice();
    names.iter().position(|known| known.as_slice() == name)
}

/// The declared session of a name.
fn session_of(script: &Script, name: &[u8]) -> Option<Actor>
    ensures { result ≡ session_at script.now (place_of script.now.sessions name.now) }
{
    match place_of(script, name) {
        Some(place) => {
            if place < script.setup.sessions as usize {
                Some(Actor::Session(SessionNo(place as u32 + 1)))
            } else {
                None
            }
        }
        None => None,
    }
}

/// Whose entry the next line of a text is, if it is one.
pub(crate) fn next_actor(script: &Script, text: &[u8]) -> Option<Actor>
    ensures { result ≡ next_actor script.now text.now }
{
    let first = first_word(text);
    if is_word(first, "display") {
        return Some(Actor::Display);
    }
    if is_word(first, "report") && is_word(first_word(behind_word(text)), "ends") {
        return None;
    }
    session_of(script, first)
}

/// The display that the next line of a text says was lost, if it says so of one.
pub(crate) fn next_display(text: &[u8]) -> Option<u32>
    ensures some { IfSome result (λ display. next_display text.now ≡ Some display) }
    ensures above { IfSome result (λ display. 0 < display) }
    ensures none { result ≡ None → (display : ℕ) → 0 < display → display < 2 ^ 32 →
        next_display text.now ≡ Some display → ⊥ }
{
    if !is_word(first_word(text), "display") {
        return None;
    }
    let number = read_natural(first_word(behind_word(text)))?;
    if 1 <= number && number <= u32::MAX as u128 {
        Some(number as u32)
    } else {
        None
    }
}
