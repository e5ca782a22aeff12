//! How a session's entries come to their end.
ghost use Rattle.std.specs.Prelude.{◌≡◌};
ghost use Rattle.flat_states.specs.Machines.{MayCall, entered};
ghost use Rattle.flat_rules.specs.Legal.{reply_to};
ghost use Rattle.flat_states.specs.Presents.{reply_to_close};

use crate::board::Board;
use crate::entries::enter;
use flat_base::{Actor, FlatlandError, Reason, SessionNo};
use flat_scene::{CallList, Entry, EntryKind, Reply};

impl Board {
    ghost use Rattle.flat_base.specs.declared.ids.Actor.TheVariants.{Session};
    ghost use Rattle.flat_scene.specs.declared.journal.EntryKind.TheVariants.{Close, End};
    ghost use Rattle.flat_scene.specs.declared.journal.Reply.TheVariants.{Done};

    /// Closes the session: for the reason of a misuse, or by its own wish. It takes
    /// no memory.
    pub fn close(&mut self, s: SessionNo, line: u32, calls: CallList, why: Option<Reason>) -> Reply
        requires { MayCall self.old (Session s) calls (Close why) }
        ensures reply { result ≡ reply_to self.old.setup self.old.history (Session s) calls
            (Close why) }
        ensures entry { self.new ≡ entered self.old (Session s) line calls (Close why) result }
    {
        let reply = close_reply(why);
        enter(
            &mut self.sessions,
            &mut self.viewports,
            &mut self.links,
            &mut self.log,
            Entry {
                actor: Actor::Session(s),
                line,
                calls,
                kind: EntryKind::Close(why),
                reply,
            },
        );
        reply
    }

    /// Ends the session's entries; so many of its lines came after the one that
    /// closed it. It takes no memory.
    pub fn end(&mut self, s: SessionNo, line: u32, calls: CallList, refused: u32) -> Reply
        requires { MayCall self.old (Session s) calls (End refused) }
        ensures reply { result ≡ Done }
        ensures entry { self.new ≡ entered self.old (Session s) line calls (End refused) result }
    {
        enter(
            &mut self.sessions,
            &mut self.viewports,
            &mut self.links,
            &mut self.log,
            Entry {
                actor: Actor::Session(s),
                line,
                calls,
                kind: EntryKind::End(refused),
                reply: Reply::Done,
            },
        );
        Reply::Done
    }
}

fn close_reply(why: Option<Reason>) -> Reply
    ensures { result ≡ reply_to_close why }
{
    match why {
        Some(reason) => Reply::Closed(Some(FlatlandError::BadOperation), Some(reason)),
        None => Reply::Closed(None, None),
    }
}
