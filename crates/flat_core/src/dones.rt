ghost use Rattle.std.specs.Prelude.{◌≡◌, true, false, ◌+◌, ◌-◌, ◌^◌, ◌<◌, ◌≤◌, ◌||◌, ◌++◌, [], cond, nat_lt, not};
ghost use Rattle.std.specs.Prelude.{length, map, sum_by, All};
ghost use Rattle.std.specs.List.{list_any};
ghost use Rattle.flat_base.specs.declared.ids.Actor.TheVariants.{Display};
ghost use Rattle.flat_base.specs.declared.ids.FenceNo.{FenceNo};
ghost use Rattle.flat_base.specs.declared.ids.SessionNo.{SessionNo};
ghost use Rattle.flat_base.specs.declared.limits.TheConstants.{SESSIONS_MAX};
ghost use Rattle.flat_topology.specs.Members.{is_member};
ghost use Rattle.flat_facts.specs.Told.{TellsTheSame};
ghost use Rattle.flat_fence.specs.Fences.{has};
ghost use Rattle.flat_scene.specs.declared.journal.EntryKind.TheVariants.{Finish};
ghost use Rattle.flat_scene.specs.Frames.{going, is_among, is_released_by, sessions_to, taken};
ghost use Rattle.flat_scene.specs.History.{is_closed};
ghost use Rattle.flat_scene.specs.Setups.{is_declared};
ghost use Rattle.flat_facts.specs.Begins.{finished, finish_entry, post_of, posts_to, took_event};
ghost use Rattle.flat_links.specs.AllEnds.{AreEnds, due_back};
ghost use Rattle.flat_states.specs.Machines.{due};
ghost use Rattle.flat_core.specs.Dues.{all_due};
ghost use Rattle.flat_gets.specs.Dues.{due_told};
ghost use Rattle.flat_rules.specs.Numbers.{number, AllNumbered};
ghost use Rattle.flat_states.specs.Kept.{IsKept, Below};
ghost use Rattle.flat_rules.specs.Legal.{is_frame_open, Legal, MayEnter};
ghost use Rattle.flat_rules.specs.Posts.{events_to, frame_took};
ghost use Rattle.flat_states.specs.Seen.{seen_of};
ghost use Rattle.flat_links.specs.Viewports.{AreViewports, back_events};
ghost use Rattle.flat_gets.specs.Watchers.{AreWatched, WatchedUpTo};

use flat_base::{FenceList, FenceNo, SessionNo};
use flat_fence::FenceSet;
use flat_gets::watcher_values::WatcherValues;
use flat_gets::watching::Watchers;
use flat_links::viewports::Viewports;
use flat_scene::{Event, PostedEvent, SessionSet, Setup};
use flat_states::roomy_journal::RoomyJournal;
use flat_states::state::SessionState;

/// The end of a frame.
#[derive(Drop)]
pub struct FrameEnd<'a, T: WatcherValues> {
    pub setup: &'a Setup,
    /// The line of the script that ends the frame.
    pub line: u32,
    /// The sessions that may hear something new.
    pub heard: SessionSet,
    /// What tells pairs' values after the frame.
    pub tells: &'a T,
}

fn signal_list(list: &[FenceNo], fences: &mut FenceSet)
    requires { Below (length fences.old) list.now }
    ensures size { length fences.new ≡ length fences.old }
    ensures members { (g : FenceNo) → has fences.new g ≡ (has fences.old g || is_among list.now g) }
{
    for f in list {
        fences.signal(*f);
    }
}

fn signal_lists(lists: &[FenceList], fences: &mut FenceSet)
    requires { All (Below (length fences.old)) lists.now }
    ensures size { length fences.new ≡ length fences.old }
    ensures members { (g : FenceNo) → has fences.new g
        ≡ (has fences.old g || list_any (λ list. is_among list g) lists.now) }
{
    for list in lists {
        signal_list(list.as_slice(), fences);
    }
}

/// Posts how many presents the frame took of a session, if it took any. Answers how
/// many events that is.
fn post_took(took: u32, s: SessionNo, log: &mut RoomyJournal) -> usize
    requires place { length log.old.history < 2 ^ 32 }
    requires room { cond (nat_lt 0 took) 1 0 ≤ log.old.post_room }
    ensures posts { log.new.posts ≡ log.old.posts ++ map (post_of (length log.old.history) s)
        (took_event took) }
    ensures count { result ≡ cond (nat_lt 0 took) 1 0 }
    ensures history { log.new.history ≡ log.old.history }
    ensures room { log.new.room ≡ log.old.room }
    ensures post_room { log.new.post_room + result ≡ log.old.post_room }
{
    if took == 0 {
        return 0;
    }
    log.post(PostedEvent {
        entry: log.len(),
        session: s,
        event: Event::FramePresented(took),
    });
    1
}

/// What the end of a frame does for one session, but for its fences and its gets. Answers
/// how many events it posts.
fn done_one(
    setup: &Setup,
    line: u32,
    s: SessionNo,
    state: &mut SessionState,
    ends: &mut Viewports,
    log: &mut RoomyJournal,
) -> usize
    requires legal { Legal setup.now log.old.history }
    requires may { MayEnter setup.now log.old.history Display [] Finish }
    requires declared { is_declared setup.now s ≡ true }
    requires place { length log.old.history < 2 ^ 32 }
    requires opened { is_frame_open log.old.history ≡ true }
    requires kept { IsKept setup.now (seen_of setup.now log.old.history s) state.old }
    requires ends { AreViewports setup.now log.old.history s ends.old.live.items
        ends.old.out.items }
    requires room { due state.old + due_back ends.old ≤ log.old.post_room }
    ensures kept { IsKept setup.now (seen_of setup.now (finished log.old.history line) s)
        state.new }
    ensures ends { AreViewports setup.now (finished log.old.history line) s ends.new.live.items
        ends.new.out.items }
    ensures posts { log.new.posts ≡ log.old.posts ++ map (post_of (length log.old.history) s)
        (cond (is_closed s log.old.history) [] (took_event (frame_took setup.now log.old.history s)
        ++ back_events (taken setup.now log.old.history s) ends.old.out.items)) }
    ensures count { length log.new.posts ≡ length log.old.posts + result }
    ensures history { log.new.history ≡ log.old.history }
    ensures room { log.new.room ≡ log.old.room }
    ensures post_room { log.new.post_room + result ≡ log.old.post_room }
    ensures due { due state.new + due_back ends.new + result ≤ due state.old + due_back ends.old }
{
    let took = state.took;
    state.took = 0;
    if state.closed {
        return 0;
    }
    let presented = post_took(took, s, log);
    let back = ends.take_back(state.taken(), s, log);
    presented + back
}

/// Whether a set has a session.
fn has_session(set: SessionSet, s: SessionNo) -> bool
    requires { 0 < s.0 }
    ensures { result ≡ is_member set s.0 }
{
    match set.has.get(s.0 as usize - 1) {
        Some(is_in) => *is_in,
        None => false,
    }
}

/// Whether a session is passed over when gets are answered: it is closed, or hears nothing
/// new.
fn is_passed(closed: bool, hears: bool) -> bool
    ensures { result ≡ (closed || not hears) }
{
    closed || !hears
}

/// What the end of a frame does for one session, but for its fences. It answers the session's
/// gets if they may hear something new, and then posts what the frame took and which tokens
/// came back. Answers how many events it posts.
fn finish_one<T: WatcherValues>(
    end: &FrameEnd<'_, T>,
    s: SessionNo,
    state: &mut SessionState,
    ends: &mut Viewports,
    watchers: &mut Watchers,
    log: &mut RoomyJournal,
) -> usize
    requires legal { Legal end.now.setup.now log.old.history }
    requires may { MayEnter end.now.setup.now log.old.history Display [] Finish }
    requires tells { T.stands end.now.tells.now end.now.setup.now
        (finished log.old.history end.now.line) }
    requires others { is_member end.now.heard s.0 ≡ false →
        TellsTheSame end.now.setup.now log.old.history
        (finished log.old.history end.now.line) s }
    requires some { 0 < s.0 }
    requires few { s.0 ≤ end.now.setup.now.sessions }
    requires place { length log.old.history < 2 ^ 32 - 1 }
    requires opened { is_frame_open log.old.history ≡ true }
    requires kept { IsKept end.now.setup.now (seen_of end.now.setup.now log.old.history s)
        state.old }
    requires ends { AreViewports end.now.setup.now log.old.history s ends.old.live.items
        ends.old.out.items }
    requires watched { WatchedUpTo end.now.setup.now (s.0 - 1)
        (finished log.old.history end.now.line) log.old.history watchers.old }
    requires room { due state.old + due_back ends.old + due_told watchers.old
        ≤ log.old.post_room }
    requires small { due state.old + due_back ends.old + due_told watchers.old < 2
        ^ 64 }
    ensures kept { IsKept end.now.setup.now (seen_of end.now.setup.now
        (finished log.old.history end.now.line) s) state.new }
    ensures ends { AreViewports end.now.setup.now (finished log.old.history end.now.line) s
        ends.new.live.items ends.new.out.items }
    ensures watched { WatchedUpTo end.now.setup.now s.0 (finished log.old.history end.now.line)
        log.old.history watchers.new }
    ensures posts { log.new.posts ≡ log.old.posts ++ map (post_of (length log.old.history) s)
        (events_to end.now.setup.now log.old.history (finish_entry end.now.line) s) }
    ensures count { length log.new.posts ≡ length log.old.posts + result }
    ensures history { log.new.history ≡ log.old.history }
    ensures room { log.new.room ≡ log.old.room }
    ensures post_room { log.new.post_room + result ≡ log.old.post_room }
    ensures due { due state.new + due_back ends.new + due_told watchers.new
        + result ≤ due state.old + due_back ends.old + due_told watchers.old }
{
    let passed = is_passed(state.closed, has_session(end.heard, s));
    let told = watchers.settle(s, passed, end.tells, log);
    told + done_one(end.setup, end.line, s, state, ends, log)
}

/// What the end of a frame does for all sessions. Answers how many events it posts.
pub fn done_all<T: WatcherValues>(
    end: &FrameEnd<'_, T>,
    fences: &mut FenceSet,
    sessions: &mut Vec<SessionState>,
    ends: &mut Vec<Viewports>,
    watchers: &mut Watchers,
    log: &mut RoomyJournal,
) -> usize
    requires tells { T.stands end.now.tells.now end.now.setup.now
        (finished log.old.history end.now.line) }
    requires within { end.now.setup.now.sessions ≤ SESSIONS_MAX }
    requires others { (s : SessionNo) → is_declared end.now.setup.now s ≡ true →
        is_member end.now.heard s.0 ≡ false → TellsTheSame end.now.setup.now log.old.history
        (finished log.old.history end.now.line) s }
    requires watched { AreWatched end.now.setup.now log.old.history watchers.old }
    requires legal { Legal end.now.setup.now log.old.history }
    requires may { MayEnter end.now.setup.now log.old.history Display [] Finish }
    requires place { length log.old.history < 2 ^ 32 - 1 }
    requires opened { is_frame_open log.old.history ≡ true }
    requires count { length fences.old ≡ length end.now.setup.now.fences }
    requires all { length sessions.old.items ≡ end.now.setup.now.sessions }
    requires kept { AllNumbered (λ i. IsKept end.now.setup.now
        (seen_of end.now.setup.now log.old.history (number i))) sessions.old.items }
    requires ends { AreEnds end.now.setup.now log.old.history ends.old.items }
    requires room { all_due sessions.old.items ends.old.items watchers.old
        ≤ log.old.post_room }
    requires small { all_due sessions.old.items ends.old.items watchers.old < 2 ^ 64 }
    ensures all { length sessions.new.items ≡ end.now.setup.now.sessions }
    ensures kept { AllNumbered (λ i. IsKept end.now.setup.now
        (seen_of end.now.setup.now (finished log.old.history end.now.line) (number i)))
        sessions.new.items }
    ensures ends { AreEnds end.now.setup.now (finished log.old.history end.now.line)
        ends.new.items }
    ensures watched { AreWatched end.now.setup.now (finished log.old.history end.now.line)
        watchers.new }
    ensures size { length fences.new ≡ length fences.old }
    ensures members { (g : FenceNo) → has fences.new g ≡ (has fences.old g ||
        list_any (λ s. is_released_by (going end.now.setup.now log.old.history s) g)
        (sessions_to end.now.setup.now.sessions)) }
    ensures posts { log.new.posts ≡ log.old.posts ++ posts_to end.now.setup.now log.old.history
        (finish_entry end.now.line) end.now.setup.now.sessions }
    ensures count { length log.new.posts ≡ length log.old.posts + result }
    ensures history { log.new.history ≡ log.old.history }
    ensures room { log.new.room ≡ log.old.room }
    ensures post_room { log.new.post_room + result ≡ log.old.post_room }
    ensures due { all_due sessions.new.items ends.new.items watchers.new + result
        ≤ all_due sessions.old.items ends.old.items watchers.old }
{
    let mut count = 0usize;
    for i in 0..end.setup.sessions {
        let state = &mut sessions[i as usize];
        let one = &mut ends[i as usize];
        signal_lists(state.going.as_slice(), fences);
        count += finish_one(end, SessionNo(i + 1), state, one, watchers, log);
    }
    count
}
