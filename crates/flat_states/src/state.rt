ghost use Rattle.std.specs.Prelude.{◌≡◌, ℕ, ◌+◌, ◌-◌, ◌^◌, ◌<◌, ◌≤◌, [], length, All, IfOk};
ghost use Rattle.std.specs.Prelude.{vec_capacity};
ghost use Rattle.flat_fence.specs.Fences.{has};
ghost use Rattle.flat_states.specs.Presents.{present_reply, with_waiting, IsNew, TookReady, LetGo};

use flat_base::{FIRST_CREDITS, FULL_CREDITS, FenceList, FlatlandError, NoMemory, PairNo};
use flat_fence::FenceSet;
use flat_queue::{Queue, WaitingPresent};
use flat_scene::{PresentArgs, Reply};
use flat_snap::Snapshot;
use std::alloc::Global;
use std::sync::Arc;

/// What a session's own entries alone decide.
#[derive(Clone, Copy, PartialEq, Eq)]
pub struct SessionCounts {
    /// How many presents it made.
    pub presents: u32,
    /// How many events were posted before its last poll.
    pub polled: usize,
    /// The pair of the last view that it made and that wasn't refused. It may have ended.
    pub view: Option<PairNo>,
}

/// What is kept of a session.
#[derive(Drop)]
pub struct SessionState {
    /// The presents that no frame has taken.
    pub queue: Queue<Arc<Snapshot>>,
    /// The release fences of what the end of the frame lets go.
    pub going: Vec<FenceList>,
    /// How many presents the begin of the open frame took.
    pub took: u32,
    pub closed: bool,
    /// What waited when the session was closed is among what goes.
    pub let_go: bool,
    pub account: SessionCounts,
}

impl SessionState {
    ghost use Rattle.flat_states.specs.Kept.{taken_in, credits_in};

    /// How many presents frames have taken.
    pub fn taken(&self) -> u32
        requires { length self.now.going.items ≤ 5 }
        ensures { result ≡ taken_in self.now }
    {
        if self.let_go {
            self.account
                .presents
                .saturating_sub(self.going.len() as u32)
        } else {
            self.queue.taken()
        }
    }

    /// How many presents may be made.
    pub fn credits(&self) -> u32
        requires { length self.now.going.items ≤ 5 }
        ensures { result ≡ credits_in self.now }
    {
        if self.let_go {
            let most: u32 = if self.taken() == 0 {
                FIRST_CREDITS
            } else {
                FULL_CREDITS
            };
            most.saturating_sub(self.going.len() as u32)
        } else {
            self.queue.credits()
        }
    }
}

/// Takes what a frame takes: all before the first present that isn't ready, and none
/// after the first unsquashable one. Answers the last that it took.
pub fn take_ready(state: &mut SessionState, time: u64, fences: &FenceSet) -> Option<Arc<Snapshot>>
    requires room { 5 ≤ vec_capacity state.old.going }
    requires few { length state.old.queue.waiting ≤ 5 }
    requires within { All (λ kept. All (λ f. f.0 < length fences.now) kept.args.acquire)
        state.old.queue.waiting }
    ensures { TookReady time (has fences.now) result state.old state.new }
{
    state.going.clear();
    state.took = 0;
    let mut last = None;
    while let Some(queued) = state.queue.take(time, fences) {
        let WaitingPresent { item, args } = queued;
        let PresentArgs {
            release,
            unsquashable,
            ..
        } = args;
        state.going.push_reserved(release);
        state.took += 1;
        if unsquashable {
            return Some(item);
        }
        last = Some(item);
    }
    last
}

/// A present joins those that wait, where the session has a credit. Answers the reply.
pub fn present_in(state: &mut SessionState, snap: Arc<Snapshot>, args: PresentArgs) -> Reply
    requires { state.old.queue.taken + length state.old.queue.waiting < 2 ^ 32 - 1 }
    ensures reply { result ≡ present_reply state.old }
    ensures after { state.new ≡ with_waiting state.old snap args }
{
    match state.queue.push(snap, args) {
        Ok(number) => Reply::Presented {
            number,
            credits: state.queue.credits(),
        },
        Err(_) => Reply::Closed(Some(FlatlandError::NoPresentsRemaining), None),
    }
}

/// All that waits goes.
pub fn let_go(state: &mut SessionState)
    requires room { 5 ≤ vec_capacity state.old.going }
    requires few { length state.old.queue.waiting ≤ 5 }
    ensures { LetGo state.old state.new }
{
    state.going.clear();
    state.took = 0;
    while let Some(queued) = state.queue.take_any() {
        let WaitingPresent { args, .. } = queued;
        let PresentArgs { release, .. } = args;
        state.going.push_reserved(release);
    }
    state.let_go = true;
}

/// What is kept of sessions before any entry.
pub fn new_states(alloc: Global, n: u32) -> Result<Vec<SessionState>, NoMemory>
    ensures count { IfOk result (λ states. length states.items ≡ n) }
    ensures new { IfOk result (λ states. All IsNew states.items) }
{
    let mut states = Vec::with_capacity(alloc, n as usize)?;
    for _ in 0..n {
        states.push_reserved(new_state(alloc)?);
    }
    Ok(states)
}

fn new_state(alloc: Global) -> Result<SessionState, NoMemory>
    ensures { IfOk result IsNew }
{
    let queue = Queue::new(alloc)?;
    let going = Vec::with_capacity(alloc, FULL_CREDITS as usize)?;
    Ok(SessionState {
        queue,
        going,
        took: 0,
        closed: false,
        let_go: false,
        account: SessionCounts {
            presents: 0,
            polled: 0,
            view: None,
        },
    })
}
