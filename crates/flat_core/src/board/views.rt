//! The entries that use the ends of a pair, or watch it.
ghost use Rattle.std.specs.Prelude.{◌≡◌, ◌<◌, ◌≤◌, List, None, Some, IfOk, IfErr, OnOk, length};
ghost use Rattle.std.specs.Prelude.{vec_capacity};
ghost use Rattle.flat_scene.specs.declared.journal.Entry.{Entry};
ghost use Rattle.flat_scene.specs.declared.setup.Setup.{Setup};
ghost use Rattle.flat_states.specs.Machines.{MayCall, entered};
ghost use Rattle.flat_rules.specs.Legal.{reply_to};
ghost use Rattle.flat_rules.specs.Watch.{watcher_of};
ghost use Rattle.flat_gets.specs.Dues.{due_told};
ghost use Rattle.flat_gets.specs.Watchers.{AreWatched, HasRoomAt, is_held, is_shut, watcher_meant};

use crate::board::{Board, number_if};
use crate::entries::enter;
use crate::pair_values::PairValues;
use flat_base::{Actor, NoMemory, PairNo, SessionNo};
use flat_gets::watching::Watchers;
use flat_links::entries::{NewViewport, use_ends};
use flat_links::viewports::Viewports;
use flat_scene::{CallList, Entry, EntryKind, Reply, ViewportProps, Watch};
use flat_states::port::port_of;
use flat_states::replies::{note_entry, use_reply};
use flat_states::roomy_journal::RoomyJournal;
use flat_states::state::SessionState;

impl Board {
    ghost use Rattle.flat_base.specs.declared.ids.Actor.TheVariants.{Session};
    ghost use Rattle.flat_scene.specs.declared.journal.EntryKind.TheVariants.{Get, View, Viewport};

    /// Makes a view: done, or the session is closed where the token isn't held. It
    /// takes no memory.
    pub fn view(&mut self, s: SessionNo, line: u32, calls: CallList, p: PairNo) -> Reply
        requires { MayCall self.old (Session s) calls (View p) }
        ensures reply { result ≡ reply_to self.old.setup self.old.history (Session s) calls
            (View p) }
        ensures entry { self.new ≡ entered self.old (Session s) line calls (View p) result }
    {
        let is_held = !self.view_ends.is_used(p);
        self.view_ends.set(p);
        let reply = use_reply(is_held);
        enter(
            &mut self.sessions,
            &mut self.viewports,
            &mut self.links,
            &mut self.log,
            Entry {
                actor: Actor::Session(s),
                line,
                calls,
                kind: EntryKind::View(p),
                reply,
            },
        );
        reply
    }

    /// Makes a viewport, by the last of the calls: done, or the session is closed
    /// where the token isn't held.
    ///
    /// If memory runs out, the calls come back, and nothing changed.
    pub fn viewport(
        &mut self,
        s: SessionNo,
        line: u32,
        calls: CallList,
        p: PairNo,
        props: ViewportProps,
    ) -> Result<Reply, CallList>
        requires { MayCall self.old (Session s) calls (Viewport p props) }
        ensures reply { IfOk result (λ reply. reply
            ≡ reply_to self.old.setup self.old.history (Session s) calls (Viewport p props)) }
        ensures entry { IfOk result (λ reply. self.new
            ≡ entered self.old (Session s) line calls (Viewport p props) reply) }
        ensures same { IfErr result (λ back. self.new ≡ self.old) }
        ensures back { IfErr result (λ back. back ≡ calls) }
    {
        let owner = self.setup.pairs.at(p.0 as usize).view;
        let is_shut = is_shut(self.sessions.as_slice(), owner);
        let place = s.0 as usize - 1;
        let ends = &mut self.viewports[place];
        match make_room(&mut self.watchers, ends, &mut self.log, p, self.owed + 1) {
            Ok(()) => {}
            Err(_) => return Err(calls),
        }
        let state = &mut self.sessions[place];
        let ends = &mut self.viewports[place];
        let made = NewViewport { pair: p, props };
        let is_held = use_ends(state, ends, &mut self.links, s, calls.as_slice(), made);
        let reply = use_reply(is_held);
        let entry = Entry {
            actor: Actor::Session(s),
            line,
            calls,
            kind: EntryKind::Viewport(p, props),
            reply,
        };
        note_entry(state, &entry);
        let telling = PairValues {
            setup: &self.setup,
            port: port_of(self.clock.ratios.finished, &self.setup),
            links: &self.links,
            views: &self.view_ends,
        };
        let told = self
            .watchers
            .join(is_held, owner, is_shut, p, &telling, &mut self.log);
        self.owed = self.owed + number_if(is_held) as usize - told;
        self.log.enter(entry);
        Ok(reply)
    }

    /// Asks for a value of this pair: what is told now if it is news, or else later
    /// by an event; the session is closed where a get of that watcher waits.
    ///
    /// If memory runs out, the calls come back, and nothing changed.
    pub fn get(
        &mut self,
        s: SessionNo,
        line: u32,
        calls: CallList,
        get: Watch,
        p: PairNo,
    ) -> Result<Reply, CallList>
        requires may { MayCall self.old (Session s) calls (Get get) }
        requires meant { watcher_of self.old.setup self.old.history (Session s) calls get
            ≡ Some (watcher_meant self.old.history get p) }
        ensures reply { IfOk result (λ reply. reply
            ≡ reply_to self.old.setup self.old.history (Session s) calls (Get get)) }
        ensures entry { IfOk result (λ reply. self.new
            ≡ entered self.old (Session s) line calls (Get get) reply) }
        ensures same { IfErr result (λ back. self.new ≡ self.old) }
        ensures back { IfErr result (λ back. back ≡ calls) }
    {
        let telling = PairValues {
            setup: &self.setup,
            port: port_of(self.clock.ratios.finished, &self.setup),
            links: &self.links,
            views: &self.view_ends,
        };
        let posts = self.owed + 1;
        let reply = match self.watchers.ask(s, p, get, &telling, &mut self.log, posts) {
            Ok(reply) => reply,
            Err(_) => return Err(calls),
        };
        self.owed += number_if(is_held(reply)) as usize;
        enter(
            &mut self.sessions,
            &mut self.viewports,
            &mut self.links,
            &mut self.log,
            Entry {
                actor: Actor::Session(s),
                line,
                calls,
                kind: EntryKind::Get(get),
                reply,
            },
        );
        Ok(reply)
    }
}

/// Makes the room for one more use of the viewport end of a pair, and for so many posts.
fn make_room(
    watchers: &mut Watchers,
    ends: &mut Viewports,
    log: &mut RoomyJournal,
    p: PairNo,
    posts: usize,
) -> Result<(), NoMemory>
    requires { p.0 < length watchers.old.pairs.items }
    ensures watched { (setup : Setup) (history : List Entry)
        → AreWatched setup history watchers.old →
        AreWatched setup history watchers.new }
    ensures told { due_told watchers.new ≡ due_told watchers.old }
    ensures sessions { watchers.new.sessions ≡ watchers.old.sessions }
    ensures pairs { length watchers.new.pairs.items ≡ length watchers.old.pairs.items }
    ensures use_room { OnOk result (HasRoomAt p watchers.new) }
    ensures live { ends.new.live.items ≡ ends.old.live.items }
    ensures out { ends.new.out.items ≡ ends.old.out.items }
    ensures room_live { OnOk result (length ends.new.live.items < vec_capacity ends.new.live) }
    ensures room_out { OnOk result (length ends.new.out.items < vec_capacity ends.new.out) }
    ensures history { log.new.history ≡ log.old.history }
    ensures posts { log.new.posts ≡ log.old.posts }
    ensures room { log.new.room ≡ log.old.room }
    ensures post_room { log.old.post_room ≤ log.new.post_room }
    ensures reserved { OnOk result (posts ≤ log.new.post_room) }
{
    watchers.reserve_use(p)?;
    ends.reserve_with(log, posts)
}

/// Whether a get waits by its reply.
fn is_held(reply: Reply) -> bool
    ensures { result ≡ is_held reply }
{
    match reply {
        Reply::Held => true,
        _ => false,
    }
}

/// Whether a session is closed, or isn't one of these.
fn is_shut(sessions: &[SessionState], s: SessionNo) -> bool
    ensures { result ≡ is_shut sessions.now s }
{
    if s.0 == 0 {
        return true;
    }
    match sessions.get(s.0 as usize - 1) {
        Some(state) => state.closed,
        None => true,
    }
}
