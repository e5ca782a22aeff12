//! What the reply to an entry says of its session.
ghost use Rattle.std.specs.Prelude.{◌≡◌};
ghost use Rattle.flat_scene.specs.History.{closes};
ghost use Rattle.flat_states.specs.Presents.{after_entry, use_reply};

use crate::state::SessionState;
use flat_base::{FlatlandError, Reason};
use flat_scene::{Entry, EntryKind, Reply};

/// The reply to the use of an end, where its token is held or not.
pub fn use_reply(is_held: bool) -> Reply
    ensures { result ≡ use_reply is_held }
{
    if is_held {
        Reply::Done
    } else {
        Reply::Closed(
            Some(FlatlandError::BadOperation),
            Some(Reason::TokenNotHeld),
        )
    }
}

/// Whether a reply closes the session that has it.
pub fn closes(reply: Reply) -> bool
    ensures { result ≡ closes reply }
{
    match reply {
        Reply::Closed(..) => true,
        _ => false,
    }
}

/// The session made this entry: its reply closes it, makes one more present of it, or
/// gives it a view. The calls that the entry carries change nothing that is kept here.
pub fn note_entry(state: &mut SessionState, entry: &Entry)
    ensures { state.new ≡ after_entry entry.now state.old }
{
    match (&entry.kind, entry.reply) {
        (EntryKind::Present(_), Reply::Presented { number, .. }) => state.account.presents = number,
        (EntryKind::View(p), Reply::Done) => state.account.view = Some(*p),
        (_, Reply::Closed(..)) => state.closed = true,
        _ => {}
    }
}
