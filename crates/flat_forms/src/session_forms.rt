ghost use Rattle.std.specs.Prelude.{◌≡◌, ◌∷◌, false, codes};
ghost use Rattle.std.specs.Str.{bytes_eq};
ghost use Rattle.flat_text.specs.Pieces.{is_space};
ghost use Rattle.flat_text.specs.Left.{pieces_left};
ghost use Rattle.flat_places.specs.Forms.{whole, give};
ghost use Rattle.flat_places.specs.Index.{IsIndexed};
ghost use Rattle.flat_forms.specs.Body.{session_line, other_line, child_asked, present};
ghost use Rattle.flat_forms.specs.Steps.{Reaches};

use crate::call_forms::call;
use crate::calls::call_named;
use crate::conditions::session_condition;
use crate::forms::owned_fence;
use crate::lines::LineError;
use crate::lists::fence_lists;
use flat_base::{Actor, SessionNo};
use flat_places::{FaultKind, IndexedScript, WordCursor, is_word};
use flat_scene::{PresentArgs, SessionLine, Watch};
use flat_text::next_piece;
use std::alloc::Global;

/// What a line of a session writes.
pub fn session_line(
    alloc: Global,
    script: &IndexedScript,
    session: SessionNo,
    words: Option<&[u8]>,
) -> Result<SessionLine, LineError>
    requires { IsIndexed script.now }
    ensures { Reaches result (session_line script.now.script session
        (pieces_left is_space words.entry)) }
{
    let Some(words) = words else {
        return Err(LineError::Kind(FaultKind::UnknownCall));
    };
    let (word, rest) = next_piece(words, b' ');
    match call_named(script.script.version, word) {
        Some(name) => match call(alloc, script, session, name, rest) {
            Ok(found) => Ok(SessionLine::Call(found)),
            Err(e) => Err(e),
        },
        None => other_line(alloc, script, session, word, rest),
    }
}

/// What a line of a session that is no call writes, behind its first word.
fn other_line(
    alloc: Global,
    script: &IndexedScript,
    session: SessionNo,
    word: &[u8],
    words: Option<&[u8]>,
) -> Result<SessionLine, LineError>
    requires { IsIndexed script.now }
    ensures { Reaches result (other_line script.now.script session
        (word.now ∷ pieces_left is_space words.entry)) }
{
    if is_word(word, "Present") {
        return match present(alloc, script, session, words) {
            Ok(args) => Ok(SessionLine::Present(args)),
            Err(e) => Err(e),
        };
    }
    match timeless_line(script, session, word, words) {
        Ok(line) => Ok(line),
        Err(k) => Err(LineError::Kind(k)),
    }
}

/// What a line of a session that is neither a call nor a present writes, behind its
/// first word.
fn timeless_line(
    script: &IndexedScript,
    session: SessionNo,
    word: &[u8],
    words: Option<&[u8]>,
) -> Result<SessionLine, FaultKind>
    requires { IsIndexed script.now }
    ensures { bytes_eq word.now (codes "Present") ≡ false → result
        ≡ other_line script.now.script session (word.now ∷ pieces_left is_space
        words.entry) }
{
    if is_word(word, "GetLayout") {
        return alone(SessionLine::Get(Watch::Layout), words);
    }
    if is_word(word, "GetStatus") {
        return alone(SessionLine::Get(Watch::Status), words);
    }
    if is_word(word, "GetChildStatus") {
        return get_child(words);
    }
    if is_word(word, "Signal") {
        return match owned_fence(script, Actor::Session(session), words) {
            Ok(f) => Ok(SessionLine::Signal(f)),
            Err(k) => Err(k),
        };
    }
    if is_word(word, "Poll") {
        return alone(SessionLine::Poll, words);
    }
    if is_word(word, "Wait") {
        return match session_condition(script, session, words) {
            Ok(c) => Ok(SessionLine::Wait(c)),
            Err(k) => Err(k),
        };
    }
    if is_word(word, "Disconnect") {
        return alone(SessionLine::Disconnect, words);
    }
    Err(FaultKind::UnknownCall)
}

/// A present: its time, whether it is unsquashable, and its lists of fences.
fn present(
    alloc: Global,
    script: &IndexedScript,
    session: SessionNo,
    words: Option<&[u8]>,
) -> Result<PresentArgs, LineError>
    requires { IsIndexed script.now }
    ensures { Reaches result (whole (present script.now.script session)
        (pieces_left is_space words.entry)) }
{
    let mut places = WordCursor::new(words);
    let time = places.time();
    let unsquashable = places.unsquashable(script.script.version);
    let (acquire, release) = fence_lists(&mut places, alloc, script, session)?;
    match places.finish(PresentArgs {
        time,
        acquire,
        release,
        unsquashable,
    }) {
        Ok(args) => Ok(args),
        Err(k) => Err(LineError::Kind(k)),
    }
}

/// A line that is its first word alone.
fn alone(line: SessionLine, words: Option<&[u8]>) -> Result<SessionLine, FaultKind>
    ensures { result ≡ whole (give line) (pieces_left is_space words.entry) }
{
    let places = WordCursor::new(words);
    places.finish(line)
}

/// A get of a viewport.
fn get_child(words: Option<&[u8]>) -> Result<SessionLine, FaultKind>
    ensures { result ≡ whole child_asked (pieces_left is_space words.entry) }
{
    let mut places = WordCursor::new(words);
    let c = places.content();
    places.finish(SessionLine::Get(Watch::Child(c)))
}
