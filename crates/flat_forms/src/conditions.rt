ghost use Rattle.std.specs.Prelude.{◌≡◌};
ghost use Rattle.flat_text.specs.Pieces.{is_space};
ghost use Rattle.flat_text.specs.Left.{pieces_left};
ghost use Rattle.flat_forms.specs.Body.{session_condition, display_condition, presents_asked};
ghost use Rattle.flat_places.specs.Forms.{whole};
ghost use Rattle.flat_places.specs.Index.{IsIndexed};
ghost use Rattle.flat_places.specs.Places.{u32};

use crate::forms::owned_fence;
use flat_base::{Actor, SessionNo};
use flat_places::{FaultKind, IndexedScript, WordCursor, is_word};
use flat_scene::WaitCondition;
use flat_text::next_piece;

/// What a session waits for, behind `Wait`.
pub fn session_condition(
    script: &IndexedScript,
    session: SessionNo,
    words: Option<&[u8]>,
) -> Result<WaitCondition, FaultKind>
    requires { IsIndexed script.now }
    ensures { result ≡ session_condition script.now.script session
        (pieces_left is_space words.entry) }
{
    let Some(words) = words else {
        return Err(FaultKind::UnknownCall);
    };
    let (word, rest) = next_piece(words, b' ');
    if is_word(word, "frames") {
        return match count(rest) {
            Ok(n) => Ok(WaitCondition::Frames(n)),
            Err(k) => Err(k),
        };
    }
    if is_word(word, "credits") {
        return match count(rest) {
            Ok(n) => Ok(WaitCondition::Credits(n)),
            Err(k) => Err(k),
        };
    }
    if is_word(word, "taken") {
        return match count(rest) {
            Ok(n) => Ok(WaitCondition::Taken(n)),
            Err(k) => Err(k),
        };
    }
    if is_word(word, "answers") {
        return match count(rest) {
            Ok(n) => Ok(WaitCondition::Answers(n)),
            Err(k) => Err(k),
        };
    }
    if is_word(word, "fence") {
        return match owned_fence(script, Actor::Session(session), rest) {
            Ok(f) => Ok(WaitCondition::Fence(f)),
            Err(k) => Err(k),
        };
    }
    Err(FaultKind::UnknownCall)
}

/// What the display waits for, behind `Wait`.
pub fn display_condition(
    script: &IndexedScript,
    words: Option<&[u8]>,
) -> Result<WaitCondition, FaultKind>
    requires { IsIndexed script.now }
    ensures { result ≡ display_condition script.now.script
        (pieces_left is_space words.entry) }
{
    let Some(words) = words else {
        return Err(FaultKind::UnknownCall);
    };
    let (word, rest) = next_piece(words, b' ');
    if is_word(word, "presents") {
        return presents(script, rest);
    }
    if is_word(word, "fence") {
        return match owned_fence(script, Actor::Display, rest) {
            Ok(f) => Ok(WaitCondition::Fence(f)),
            Err(k) => Err(k),
        };
    }
    Err(FaultKind::UnknownCall)
}

/// The number that a condition or a probe's `await` asks for.
pub fn count(words: Option<&[u8]>) -> Result<u32, FaultKind>
    ensures { result ≡ whole u32 (pieces_left is_space words.entry) }
{
    let mut places = WordCursor::new(words);
    let n = places.u32();
    places.finish(n)
}

fn presents(script: &IndexedScript, words: Option<&[u8]>) -> Result<WaitCondition, FaultKind>
    requires { IsIndexed script.now }
    ensures { result ≡ whole (presents_asked script.now.script) (pieces_left is_space words.entry) }
{
    let mut places = WordCursor::new(words);
    let s = places.session(script);
    let n = places.u32();
    places.finish(WaitCondition::Presents(s, n))
}
