//! What entries tell: who was closed, which viewport end was used, which present was made
//! (specs/Reasons).
ghost use Rattle.std.specs.Prelude.{◌≡◌, IfOk};
ghost use Rattle.flat_base.specs.declared.ids.Actor.TheVariants.{Session};
ghost use Rattle.flat_rules.specs.Ends.{is_done};
ghost use Rattle.flat_why.specs.Reasons.{closing_by, dues_by, used_by};
ghost use Rattle.flat_why.specs.Noted.{as_list, number_in};

use crate::reasons::{CloseReason, MadePresent};
use flat_base::{NoMemory, PairNo, SessionNo};
use flat_scene::{Entry, EntryKind, Reply};
use std::alloc::Global;

/// How an entry closes its session, if it does.
pub fn closing_by(entry: &Entry) -> Option<CloseReason>
    ensures { result ≡ closing_by entry.now.line entry.now.reply }
{
    match entry.reply {
        Reply::Closed(error, reason) => Some(CloseReason {
            line: entry.line,
            error,
            reason,
        }),
        _ => None,
    }
}

fn is_done(reply: Reply) -> bool
    ensures { result ≡ is_done reply }
{
    matches!(reply, Reply::Done)
}

/// The pair whose viewport end an entry used.
pub fn used_by(entry: &Entry) -> Option<PairNo>
    ensures { result ≡ used_by entry.now.kind entry.now.reply }
{
    match &entry.kind {
        EntryKind::Viewport(p, _) => { if is_done(entry.reply) { Some(*p) } else { None } }
        _ => None,
    }
}

/// The number of the present that a reply answers.
fn number_in(reply: Reply) -> Option<u32>
    ensures { result ≡ number_in reply }
{
    match reply {
        Reply::Presented { number, .. } => Some(number),
        _ => None,
    }
}

/// The present that an entry of a session makes.
pub fn due_by(alloc: Global, s: SessionNo, entry: &Entry) -> Result<Option<MadePresent>, NoMemory>
    requires { entry.now.actor ≡ Session s }
    ensures { IfOk result (λ due. as_list due
        ≡ dues_by entry.now.actor entry.now.kind entry.now.reply) }
{
    let EntryKind::Present(args) = &entry.kind else {
        return Ok(None);
    };
    let Some(number) = number_in(entry.reply) else {
        return Ok(None);
    };
    let acquire = args.acquire.copy(alloc)?;
    Ok(Some(MadePresent {
        session: s,
        number,
        time: args.time,
        acquire,
    }))
}
