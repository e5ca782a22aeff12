ghost use Rattle.std.specs.Prelude.{◌≡◌, true, ◌+◌, ◌-◌, ◌^◌, ◌<◌, ◌≤◌, ◌++◌, length, map};
ghost use Rattle.std.specs.Prelude.{slice_get, slice_set, Some, option_map, sum_by};
ghost use Rattle.std.specs.Arc.{arc_value};
ghost use Rattle.flat_base.specs.declared.ids.FenceNo.{FenceNo};
ghost use Rattle.flat_fence.specs.Fences.{has};
ghost use Rattle.flat_scene.specs.Frames.{is_signalled};
ghost use Rattle.flat_facts.specs.Begins.{begun, begin_entry, post_of, posts_to};
ghost use Rattle.flat_states.specs.Machines.{due};
ghost use Rattle.flat_rules.specs.Numbers.{number, AllNumbered};
ghost use Rattle.flat_rules.specs.Ends.{to_begin};
ghost use Rattle.flat_states.specs.Kept.{IsKept};
ghost use Rattle.flat_rules.specs.Legal.{Legal};
ghost use Rattle.flat_rules.specs.Posts.{events_to};
ghost use Rattle.flat_states.specs.Seen.{seen_of};
ghost use Rattle.flat_rules.specs.Shown.{shown, shown_states};
ghost use Rattle.flat_core.specs.Changes.{NotesChanges};

use flat_base::{SESSIONS_MAX, SessionNo};
use flat_fence::FenceSet;
use flat_join::ShownStates;
use flat_scene::{Event, PostedEvent, SessionSet, Setup};
use flat_snap::Snapshot;
use flat_states::roomy_journal::RoomyJournal;
use flat_states::state::{SessionState, let_go, take_ready};
use std::sync::Arc;

/// The begin of a frame, and what decides which presents are ready by then.
#[derive(Clone, Copy)]
pub struct FrameBegin<'a> {
    pub setup: &'a Setup,
    /// The line of the script that begins the frame.
    pub line: u32,
    pub time: u64,
    /// The fences that are signalled.
    pub fences: &'a FenceSet,
}

/// Shows a state of a session from now on, or nothing. Notes that the session changed,
/// unless nothing was shown and nothing is.
fn show(
    into: &mut ShownStates,
    changed: &mut SessionSet,
    s: SessionNo,
    state: Option<Arc<Snapshot>>,
)
    requires some { 0 < s.0 }
    requires few { s.0 ≤ length into.old }
    requires within { s.0 ≤ SESSIONS_MAX }
    ensures shown { into.new ≡ slice_set into.old (s.0 - 1) (option_map arc_value state) }
    ensures changes { NotesChanges changed.old changed.new into.old into.new }
{
    if state.is_none() && into.state(s).is_none() {
        return;
    }
    changed.has[s.0 as usize - 1] = true;
    into.set(s, state);
}

/// What a begin does for one session. Answers how many events it posts.
pub fn begin_one(
    begin: FrameBegin<'_>,
    s: SessionNo,
    state: &mut SessionState,
    log: &mut RoomyJournal,
    into: &mut ShownStates,
    changed: &mut SessionSet,
) -> usize
    requires legal { Legal begin.setup.now (begun log.old.history begin.line begin.time) }
    requires place { length log.old.history < 2 ^ 32 }
    requires some { 0 < s.0 }
    requires few { s.0 ≤ length into.old }
    requires within { s.0 ≤ SESSIONS_MAX }
    requires fences { (f : FenceNo) → has begin.fences.now f
        ≡ is_signalled begin.setup.now log.old.history f }
    requires count { length begin.fences.now ≡ length begin.setup.now.fences }
    requires kept { IsKept begin.setup.now (seen_of begin.setup.now log.old.history s) state.old }
    requires shown { slice_get into.old (s.0 - 1)
        ≡ Some (shown begin.setup.now (to_begin log.old.history) s) }
    requires room { due state.old ≤ log.old.post_room }
    ensures kept { IsKept begin.entry.setup.now (seen_of begin.entry.setup.now
        (begun log.old.history begin.entry.line begin.entry.time) s) state.new }
    ensures shown { into.new ≡ slice_set into.old (s.0 - 1)
        (shown begin.entry.setup.now (begun log.old.history begin.entry.line begin.entry.time) s) }
    ensures changes { NotesChanges changed.old changed.new into.old into.new }
    ensures posts { log.new.posts ≡ log.old.posts ++ map (post_of (length log.old.history) s)
        (events_to begin.entry.setup.now log.old.history
        (begin_entry begin.entry.line begin.entry.time) s) }
    ensures count { length log.new.posts ≡ length log.old.posts + result }
    ensures history { log.new.history ≡ log.old.history }
    ensures room { log.new.room ≡ log.old.room }
    ensures post_room { log.new.post_room + result ≡ log.old.post_room }
    ensures due { due state.new + result ≤ due state.old }
{
    if state.closed {
        show(into, changed, s, None);
        if state.let_go {
            state.took = 0;
            return 0;
        }
        let_go(state);
        return 0;
    }
    let before = state.queue.credits();
    match take_ready(state, begin.time, begin.fences) {
        Some(snap) => {
            let gained = state.queue.credits().saturating_sub(before);
            log.post(PostedEvent {
                entry: log.len(),
                session: s,
                event: Event::Credits(gained),
            });
            show(into, changed, s, Some(snap));
            1
        }
        None => 0,
    }
}

/// What a begin does for all sessions. Answers how many events it posts.
pub fn begin_all(
    begin: FrameBegin<'_>,
    sessions: &mut Vec<SessionState>,
    log: &mut RoomyJournal,
    into: &mut ShownStates,
    changed: &mut SessionSet,
) -> usize
    requires legal { Legal begin.setup.now (begun log.old.history begin.line begin.time) }
    requires place { length log.old.history < 2 ^ 32 }
    requires within { begin.setup.now.sessions ≤ SESSIONS_MAX }
    requires fences { (f : FenceNo) → has begin.fences.now f
        ≡ is_signalled begin.setup.now log.old.history f }
    requires count { length begin.fences.now ≡ length begin.setup.now.fences }
    requires all { length sessions.old.items ≡ begin.setup.now.sessions }
    requires kept { AllNumbered (λ i. IsKept begin.setup.now
        (seen_of begin.setup.now log.old.history (number i))) sessions.old.items }
    requires shown { into.old ≡ shown_states begin.setup.now (to_begin log.old.history) }
    requires room { sum_by due sessions.old.items ≤ log.old.post_room }
    requires small { sum_by due sessions.old.items < 2 ^ 64 }
    ensures all { length sessions.new.items ≡ begin.entry.setup.now.sessions }
    ensures kept { AllNumbered (λ i. IsKept begin.entry.setup.now
        (seen_of begin.entry.setup.now (begun log.old.history begin.entry.line begin.entry.time)
        (number i))) sessions.new.items }
    ensures shown { into.new ≡ shown_states begin.entry.setup.now
        (begun log.old.history begin.entry.line begin.entry.time) }
    ensures changes { NotesChanges changed.old changed.new into.old into.new }
    ensures posts { log.new.posts ≡ log.old.posts ++ posts_to begin.entry.setup.now log.old.history
        (begin_entry begin.entry.line begin.entry.time) begin.entry.setup.now.sessions }
    ensures count { length log.new.posts ≡ length log.old.posts + result }
    ensures history { log.new.history ≡ log.old.history }
    ensures room { log.new.room ≡ log.old.room }
    ensures post_room { log.new.post_room + result ≡ log.old.post_room }
    ensures due { sum_by due sessions.new.items + result ≤ sum_by due sessions.old.items }
{
    let mut count = 0usize;
    for i in 0..begin.setup.sessions {
        let state = &mut sessions[i as usize];
        count += begin_one(begin, SessionNo(i + 1), state, log, into, changed);
    }
    count
}
