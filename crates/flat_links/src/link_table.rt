ghost use Rattle.std.specs.Prelude.{◌≡◌, ℕ, ◌-◌, ◌<◌, ◌≤◌, [], All, IfOk, List, length, true, false};
ghost use Rattle.flat_base.specs.declared.ids.SessionNo.{SessionNo};
ghost use Rattle.flat_base.specs.declared.limits.TheConstants.{SESSIONS_MAX};
ghost use Rattle.flat_scene.specs.declared.setup.Setup.{Setup};
ghost use Rattle.flat_scene.specs.declared.journal.Entry.{Entry};
ghost use Rattle.flat_scene.specs.History.{◌▹◌};
ghost use Rattle.flat_topology.specs.Fit.{FitsSetup};
ghost use Rattle.flat_topology.specs.Join.{is_joined};
ghost use Rattle.flat_topology.specs.Shown.{state_of};
ghost use Rattle.flat_facts.specs.Begins.{begun, finished};
ghost use Rattle.flat_links.specs.SessionLinks.{AreLinked, IsBegun, IsOwnEntry, UsesNone, seen_in_state};
ghost use Rattle.flat_rules.specs.Legal.{Legal};
ghost use Rattle.flat_facts.specs.Told.{TellsTheSame};
ghost use Rattle.flat_links.specs.Usage.{IsUse, NotesCalls, SeesUses, losing_then, uses_if};
ghost use Rattle.flat_rules.specs.Watch.{ratio_told};
ghost use Rattle.flat_topology.specs.Members.{is_member};

use crate::linked_sessions::LinkedSessions;
use crate::noted::PairStates;
use crate::session_links::{SeenAtBegin, SessionLinks};
use flat_base::{NoMemory, PairNo, SessionNo};
use flat_facts::contents::count_contents;
use flat_facts::live_viewport::LiveViewport;
use flat_facts::views::may_lose;
use flat_join::ShownStates;
use flat_scene::{Call, SessionSet, Setup, ViewportProps};
use flat_states::state::{SessionCounts, SessionState};
use std::alloc::Global;

/// What the begin of a frame sees of a session, of which it knows whether it is
/// connected.
fn see_session(
    shown: &ShownStates,
    connected: bool,
    state: &SessionState,
    s: SessionNo,
) -> SeenAtBegin
    requires some { 0 < s.0 }
    requires few { s.0 ≤ length shown.now }
    requires goes { length state.now.going.items ≤ 5 }
    ensures { (setup : Setup) → connected ≡ is_joined setup shown.now s.0 → result
        ≡ seen_in_state setup shown.now state.now s }
{
    let view = match shown.state(s) {
        Some(state) => state.view(),
        None => None,
    };
    SeenAtBegin {
        closed: state.closed,
        taken: state.taken(),
        view,
        connected,
    }
}

/// What is kept of a session after the begin of a frame that saw this of it.
fn begun_by(old: SessionLinks, seen_at_begin: SeenAtBegin) -> SessionLinks
    ensures { result ≡ record old { begun = seen_at_begin } }
{
    SessionLinks {
        contents: old.contents,
        losing: old.losing,
        begun: seen_at_begin,
        finished: old.finished,
    }
}

/// What is kept of a session after the end of a frame.
fn finished_by(old: SessionLinks) -> SessionLinks
    ensures { result ≡ record old { finished = old.begun } }
{
    SessionLinks {
        contents: old.contents,
        losing: old.losing,
        begun: old.begun,
        finished: old.begun,
    }
}

/// The stamp of the last entry of a session that may have lost an end, after these calls.
fn losing_then(calls: &[Call], presents: u32, losing: Option<u32>) -> Option<u32>
    ensures { result ≡ losing_then calls.now presents losing }
{
    if may_lose(calls) {
        return Some(presents);
    }
    losing
}

/// Whom the end of a frame tells something: everybody, or those that are heard.
fn hearers(everybody: bool, heard: SessionSet) -> SessionSet
    ensures all { (n : ℕ) → everybody ≡ true → 0 < n → n ≤ SESSIONS_MAX →
        is_member result n ≡ true }
    ensures heard { everybody ≡ false → result ≡ heard }
{
    if everybody {
        return SessionSet { has: [true; 16] };
    }
    heard
}

/// A frame that begins has what is shown of a session, if it took something from it.
fn see_taken(pairs: &mut PairStates, shown: &ShownStates, s: SessionNo, took: bool)
    requires some { 0 < s.0 }
    requires few { s.0 ≤ length shown.now }
    ensures { SeesUses (uses_if took (state_of shown.now s.0)) pairs.old.items pairs.new.items }
{
    if !took {
        return;
    }
    match shown.state(s) {
        Some(state) => pairs.see_uses(state.viewports().as_slice()),
        None => {}
    }
}

/// What is kept of sessions and of pairs, by which the layout and the status of
/// each pair's view, and its child, are told at once.
#[derive(Drop)]
pub struct LinkTable {
    /// The sessions, the first of them session 1.
    pub linked_sessions: LinkedSessions,
    pub pairs: PairStates,
}

impl LinkTable {
    /// Before any entry.
    pub fn new(alloc: Global, setup: &Setup) -> Result<LinkTable, NoMemory>
        ensures { IfOk result (λ links. AreLinked setup.now [] links.linked_sessions.items
            links.pairs.items) }
    {
        let linked_sessions = LinkedSessions::new(alloc, setup.sessions)?;
        let pairs = PairStates::new(alloc, setup.pairs.len())?;
        Ok(LinkTable {
            linked_sessions,
            pairs,
        })
    }

    /// Notes the calls of an entry of a session that is open, where the session had this
    /// account, and these viewports of it lived, before. It takes no memory.
    pub fn note(
        &mut self,
        s: SessionNo,
        calls: &[Call],
        account: SessionCounts,
        live: &[LiveViewport],
    )
        requires some { 0 < s.0 }
        requires few { s.0 ≤ length self.old.linked_sessions.items }
        ensures sessions { length self.new.linked_sessions.items
            ≡ length self.old.linked_sessions.items }
        ensures count { length self.new.pairs.items ≡ length self.old.pairs.items }
        ensures tied { (setup : Setup) (h : List Entry) (e : Entry) →
            IsOwnEntry setup h e s calls.now account live.now → UsesNone e →
            AreLinked setup h self.old.linked_sessions.items self.old.pairs.items →
            AreLinked setup (h ▹ e) self.new.linked_sessions.items self.new.pairs.items }
    {
        self.note_calls(s, calls, account, live);
    }

    /// Notes a use of the viewport end of a pair, which was done. It takes no memory.
    pub fn use_viewport(
        &mut self,
        s: SessionNo,
        calls: &[Call],
        account: SessionCounts,
        live: &[LiveViewport],
        p: PairNo,
        props: ViewportProps,
    )
        requires some { 0 < s.0 }
        requires few { s.0 ≤ length self.old.linked_sessions.items }
        ensures sessions { length self.new.linked_sessions.items
            ≡ length self.old.linked_sessions.items }
        ensures count { length self.new.pairs.items ≡ length self.old.pairs.items }
        ensures tied { (setup : Setup) (h : List Entry) (e : Entry) →
            IsOwnEntry setup h e s calls.now account live.now → IsUse e p props →
            AreLinked setup h self.old.linked_sessions.items self.old.pairs.items →
            AreLinked setup (h ▹ e) self.new.linked_sessions.items self.new.pairs.items }
    {
        let serial = self.note_calls(s, calls, account, live);
        self.pairs.use_pair(p, serial, props);
    }

    /// Notes the begin of a frame, after it took what it takes: what it sees of each
    /// session, and of the viewports of those sessions from which it took something.
    /// It takes no memory.
    pub fn begin(&mut self, setup: &Setup, sessions: &[SessionState], shown: &ShownStates)
        requires count { length self.old.linked_sessions.items ≡ setup.now.sessions }
        requires all { length sessions.now ≡ setup.now.sessions }
        requires shown { length shown.now ≡ setup.now.sessions }
        requires goes { All (λ state. length state.going.items ≤ 5) sessions.now }
        requires fit { FitsSetup setup.now shown.now }
        ensures sessions { length self.new.linked_sessions.items
            ≡ length self.old.linked_sessions.items }
        ensures count { length self.new.pairs.items ≡ length self.old.pairs.items }
        ensures tied { (h : List Entry) (line time : ℕ) → IsBegun setup.now h line time sessions.now
            shown.now → AreLinked setup.now h self.old.linked_sessions.items self.old.pairs.items →
            AreLinked setup.now (begun h line time) self.new.linked_sessions.items self.new.pairs.items }
    {
        self.linked_sessions.find_connected(setup, shown);
        for i in 0..setup.sessions {
            let s = SessionNo(i + 1);
            let connected = self.linked_sessions.is_connected(i as usize);
            let seen_at_begin = see_session(shown, connected, &sessions[i as usize], s);
            let one = self.linked_sessions.at(i as usize);
            let took = one.begun.taken < seen_at_begin.taken;
            self.linked_sessions
                .set(i as usize, begun_by(one, seen_at_begin));
            see_taken(&mut self.pairs, shown, s, took);
        }
    }

    /// Notes the end of a frame: what its begin saw is that of the last finished
    /// frame from now on. Of the pairs it looks at those that the begin noted. It takes
    /// no memory. Answers the sessions to which something may be told anew, where it is
    /// known whether the pixel ratio that is told is another.
    pub fn finish(&mut self, setup: &Setup, ratio_changes: bool) -> SessionSet
        requires { length self.old.linked_sessions.items ≡ setup.now.sessions }
        ensures sessions { length self.new.linked_sessions.items
            ≡ length self.old.linked_sessions.items }
        ensures count { length self.new.pairs.items ≡ length self.old.pairs.items }
        ensures tied { (h : List Entry) (line : ℕ) → Legal setup.now (finished h line) →
            AreLinked setup.now h self.old.linked_sessions.items self.old.pairs.items →
            AreLinked setup.now (finished h line) self.new.linked_sessions.items self.new.pairs.items }
        ensures others { (h : List Entry) (line : ℕ) (s : SessionNo) →
            Legal setup.now (finished h line) →
            AreLinked setup.now h self.old.linked_sessions.items self.old.pairs.items →
            (ratio_changes ≡ false → ratio_told setup.now (finished h line)
            ≡ ratio_told setup.now h) → 0 < s.0 → s.0 ≤ SESSIONS_MAX →
            is_member result s.0 ≡ false → TellsTheSame setup.now h (finished h line) s }
    {
        let tells = self.linked_sessions.may_tell();
        let heard = self.pairs.heard(setup);
        self.settle(setup);
        hearers(ratio_changes || tells, heard)
    }

    /// What the begun frame saw is that of the last finished frame.
    fn settle(&mut self, setup: &Setup)
        requires { length self.old.linked_sessions.items ≡ setup.now.sessions }
        ensures sessions { length self.new.linked_sessions.items
            ≡ length self.old.linked_sessions.items }
        ensures count { length self.new.pairs.items ≡ length self.old.pairs.items }
        ensures tied { (h : List Entry) (line : ℕ) → Legal setup.now (finished h line) →
            AreLinked setup.now h self.old.linked_sessions.items self.old.pairs.items →
            AreLinked setup.now (finished h line) self.new.linked_sessions.items self.new.pairs.items }
    {
        for i in 0..setup.sessions {
            let one = self.linked_sessions.at(i as usize);
            self.linked_sessions.set(i as usize, finished_by(one));
        }
        self.pairs.settle();
    }

    /// The same but for uses. Answers how many contents the session's calls made.
    fn note_calls(
        &mut self,
        s: SessionNo,
        calls: &[Call],
        account: SessionCounts,
        live: &[LiveViewport],
    ) -> u64
        requires some { 0 < s.0 }
        requires few { s.0 ≤ length self.old.linked_sessions.items }
        ensures { NotesCalls s calls.now account live.now result self.old.linked_sessions.items
            self.new.linked_sessions.items self.old.pairs.items self.new.pairs.items }
    {
        let place = s.0 as usize - 1;
        let old = self.linked_sessions.at(place);
        self.pairs.note(account, calls, live);
        let contents = count_contents(old.contents, calls);
        let new = SessionLinks {
            contents,
            losing: losing_then(calls, account.presents, old.losing),
            begun: old.begun,
            finished: old.finished,
        };
        self.linked_sessions.set(place, new);
        contents
    }
}
