//! Presents, and the polls that hand over what was posted for them.
ghost use Rattle.std.specs.Prelude.{◌≡◌, ◌++◌, None, Some, length, IfOk, IfErr};
ghost use Rattle.std.specs.Arc.{arc_value};
ghost use Rattle.flat_states.specs.Machines.{MayCall, entered, present_of};
ghost use Rattle.flat_rules.specs.Legal.{reply_to, unread_events};
ghost use Rattle.flat_states.specs.Presents.{owed_for};
ghost use Rattle.flat_rules.specs.Shown.{tree_of};

use crate::board::Board;
use crate::entries::enter;
use crate::polls::{EventList, push_events_from};
use flat_base::{Actor, SessionNo, TryCopy};
use flat_scene::{CallList, Entry, EntryKind, PresentArgs, Reply};
use flat_snap::Snapshot;
use flat_states::state::present_in;
use std::sync::Arc;

impl Board {
    ghost use Rattle.flat_base.specs.declared.ids.Actor.TheVariants.{Session};
    ghost use Rattle.flat_scene.specs.declared.journal.EntryKind.TheVariants.{Poll, Present};
    ghost use Rattle.flat_scene.specs.declared.journal.Reply.TheVariants.{Polled};

    /// Presents the tree of all calls of the session: its number and the credits
    /// left, or the session is closed where it has no credit.
    ///
    /// If memory runs out, the calls come back, and nothing changed.
    pub fn present(
        &mut self,
        s: SessionNo,
        line: u32,
        calls: CallList,
        args: PresentArgs,
        snap: Arc<Snapshot>,
    ) -> Result<Reply, CallList>
        requires may { MayCall self.old (Session s) calls (Present args) }
        requires tree { Some (arc_value snap)
            ≡ tree_of self.old.setup (present_of self.old.history s calls args) }
        ensures reply { IfOk result (λ reply. reply
            ≡ reply_to self.old.setup self.old.history (Session s) calls (Present args)) }
        ensures entry { IfOk result (λ reply. self.new
            ≡ entered self.old (Session s) line calls (Present args) reply) }
        ensures same { IfErr result (λ back. self.new ≡ self.old) }
        ensures back { IfErr result (λ back. back ≡ calls) }
    {
        let Ok(copy) = args.copy(self.alloc) else {
            return Err(calls);
        };
        match self.log.reserve(self.owed + 2) {
            Ok(()) => {}
            Err(_) => return Err(calls),
        }
        let place = s.0 as usize - 1;
        let reply = present_in(&mut self.sessions[place], snap, copy);
        self.owed += owes(reply);
        enter(
            &mut self.sessions,
            &mut self.viewports,
            &mut self.links,
            &mut self.log,
            Entry {
                actor: Actor::Session(s),
                line,
                calls,
                kind: EntryKind::Present(args),
                reply,
            },
        );
        Ok(reply)
    }

    /// Hands over the events posted to the session since its last poll, behind
    /// those of the list, and answers how many.
    ///
    /// If memory runs out, the calls come back, and nothing changed.
    pub fn poll(
        &mut self,
        s: SessionNo,
        line: u32,
        calls: CallList,
        into: &mut EventList,
    ) -> Result<Reply, CallList>
        requires { MayCall self.old (Session s) calls Poll }
        ensures reply { IfOk result (λ reply. reply
            ≡ reply_to self.old.setup self.old.history (Session s) calls Poll) }
        ensures entry { IfOk result (λ reply. self.new
            ≡ entered self.old (Session s) line calls Poll reply) }
        ensures events { IfOk result (λ reply. into.new
            ≡ into.old ++ unread_events self.old.setup s self.old.history) }
        ensures count { IfOk result (λ reply. reply
            ≡ Polled (length (unread_events self.old.setup s self.old.history))) }
        ensures same { IfErr result (λ back. (self.new ≡ self.old) × (into.new ≡ into.old)) }
        ensures back { IfErr result (λ back. back ≡ calls) }
    {
        let place = s.0 as usize - 1;
        let state = &mut self.sessions[place];
        let posts = self.log.posts();
        let before = into.len();
        match push_events_from(posts, state.account.polled, s, into) {
            Ok(()) => {}
            Err(_) => return Err(calls),
        }
        let count = (into.len() - before) as u32;
        state.account.polled = posts.len();
        enter(
            &mut self.sessions,
            &mut self.viewports,
            &mut self.links,
            &mut self.log,
            Entry {
                actor: Actor::Session(s),
                line,
                calls,
                kind: EntryKind::Poll,
                reply: Reply::Polled(count),
            },
        );
        Ok(Reply::Polled(count))
    }
}

/// How many events may be posted for an accepted present.
fn owes(reply: Reply) -> usize
    ensures { result ≡ owed_for reply }
{
    match reply {
        Reply::Presented { .. } => 2,
        _ => 0,
    }
}
