//! The watchers of a pair.
//!
//! A get names the last use of a viewport end alone, since the viewport before it was
//! released then. So a pair has one hanging get for a child, and of the children of earlier uses
//! only the gets that still wait.
ghost use Rattle.std.specs.Prelude.{◌≡◌, ℕ, ◌+◌, ◌<◌, ◌≤◌, ◌^◌, ◌++◌, ◌&&◌, [], ◌∷◌, false, not, length, map};
ghost use Rattle.std.specs.Prelude.{is_some, vec_capacity, OnOk};
ghost use Rattle.flat_facts.specs.Begins.{post_of};
ghost use Rattle.flat_rules.specs.Legal.{number_if};
ghost use Rattle.flat_watch.specs.HangingGets.{got};
ghost use Rattle.flat_watch.specs.Told.{news};
ghost use Rattle.flat_gets.specs.Pairs.{IsGot, IsSameBut, IsStarted, IsTold, IsUnasked, hanging_get_at};
ghost use Rattle.flat_gets.specs.Pairs.{events_of, former_events, part_events, part_of};
ghost use Rattle.flat_gets.specs.Pairs.{is_child, still_waiting, waiting_in};

use flat_base::{NoMemory, PairNo, SessionNo};
use flat_scene::{Event, PostedEvent, Watch, WatcherValue};
use flat_states::roomy_journal::RoomyJournal;
use flat_watch::{GetAnswer, HangingGet, HeldAnswer, news};
use std::alloc::Global;

/// What of a pair is watched: the layout or the status of its view, or the child of its
/// viewport.
#[derive(Clone, Copy, PartialEq, Eq)]
pub enum WatchedPart {
    Layout,
    Status,
    Child,
}

impl WatchedPart {
    /// What a get watches.
    pub fn of(get: Watch) -> WatchedPart
        ensures { result ≡ part_of get }
    {
        match get {
            Watch::Layout => WatchedPart::Layout,
            Watch::Status => WatchedPart::Status,
            Watch::Child(_) => WatchedPart::Child,
        }
    }
}

/// A get of the child of an earlier use, which waits.
#[derive(Clone, Copy, PartialEq, Eq)]
pub struct FormerGet {
    pub get: Watch,
    /// What its watcher answered last.
    pub last: Option<WatcherValue>,
}

/// What is kept of the watchers of a pair.
#[derive(Drop)]
pub struct PairWatchers {
    /// Of the layout and the status of its view.
    pub layout: HangingGet,
    pub status: HangingGet,
    /// Of the child of the last use of its viewport end.
    pub child: HangingGet,
    /// The gets of children of earlier uses that wait, by rising uses.
    pub former: Vec<FormerGet>,
}

/// Posts the answer to a held get, if there is one. Answers how many events that is.
fn post_answer(answer: Option<HeldAnswer>, p: PairNo, s: SessionNo, log: &mut RoomyJournal) -> usize
    requires place { length log.old.history < 2 ^ 32 }
    requires room { number_if (is_some answer) ≤ log.old.post_room }
    ensures posts { log.new.posts ≡ log.old.posts ++ map (post_of (length log.old.history) s)
        (events_of p answer) }
    ensures count { result ≡ number_if (is_some answer) }
    ensures history { log.new.history ≡ log.old.history }
    ensures room { log.new.room ≡ log.old.room }
    ensures post_room { log.new.post_room + result ≡ log.old.post_room }
{
    match answer {
        None => 0,
        Some(given) => {
            log.post(PostedEvent {
                entry: log.len(),
                session: s,
                event: Event::Told(p, given.get, given.value),
            });
            1
        }
    }
}

/// The answer to a former get, where this is told now.
fn former_answer(former: &FormerGet, now: Option<WatcherValue>) -> Option<HeldAnswer>
    ensures posts { (p : PairNo) → events_of p result ≡ former_events p now (former.now ∷ []) }
    ensures some { is_some result ≡ is_some (news now former.now.last) }
{
    match news(now, former.last) {
        None => None,
        Some(value) => Some(HeldAnswer {
            get: former.get,
            value,
        }),
    }
}

/// Posts the answers to those of the former gets for which there is news. Answers how
/// many.
fn post_former(
    former: &[FormerGet],
    p: PairNo,
    s: SessionNo,
    now: Option<WatcherValue>,
    log: &mut RoomyJournal,
) -> usize
    requires place { length log.old.history < 2 ^ 32 }
    requires room { length former.now ≤ log.old.post_room }
    ensures posts { log.new.posts ≡ log.old.posts ++ map (post_of (length log.old.history) s)
        (former_events p now former.now) }
    ensures count { result ≡ length (former_events p now former.now) }
    ensures few { result ≤ length former.now }
    ensures history { log.new.history ≡ log.old.history }
    ensures room { log.new.room ≡ log.old.room }
    ensures post_room { log.new.post_room + result ≡ log.old.post_room }
{
    let mut count = 0usize;
    for one in former {
        count += post_answer(former_answer(one, now), p, s, log);
    }
    count
}

impl PairWatchers {
    /// Nothing was asked.
    pub fn new(alloc: Global) -> PairWatchers
        ensures { IsUnasked result }
    {
        PairWatchers {
            layout: HangingGet::new(),
            status: HangingGet::new(),
            child: HangingGet::new(),
            former: Vec::new(alloc),
        }
    }

    /// Makes the room for one more use of the viewport end.
    pub fn reserve_use(&mut self) -> Result<(), NoMemory>
        ensures same { IsSameBut self.old self.new }
        ensures room { OnOk result (length self.new.former.items < vec_capacity self.new.former) }
    {
        self.former.reserve(1)?;
        Ok(())
    }

    /// What is kept of a part's watcher.
    fn hanging_get(&self, part: WatchedPart) -> HangingGet
        ensures { result ≡ hanging_get_at part self.now }
    {
        match part {
            WatchedPart::Layout => self.layout,
            WatchedPart::Status => self.status,
            WatchedPart::Child => self.child,
        }
    }

    /// Whether a get of a part would wait, where this is told now.
    pub fn would_wait(&self, part: WatchedPart, now: Option<WatcherValue>) -> bool
        ensures { result ≡ (not (is_some (hanging_get_at part self.now).waits)
            && not (is_some (news now (hanging_get_at part self.now).last))) }
    {
        let hanging_get = self.hanging_get(part);
        hanging_get.waits().is_none() && news(now, hanging_get.last()).is_none()
    }

    /// A get, where this is told now of what it watches. It takes no memory.
    pub fn get(&mut self, get: Watch, now: Option<WatcherValue>) -> GetAnswer
        ensures gets { IsGot (part_of get) get now self.old self.new }
        ensures answer { result ≡ got (is_some (hanging_get_at (part_of get) self.old).waits)
            (news now (hanging_get_at (part_of get) self.old).last) }
    {
        match get {
            Watch::Layout => self.layout.get(get, now),
            Watch::Status => self.status.get(get, now),
            Watch::Child(_) => self.child.get(get, now),
        }
    }

    /// This is told now of a part: its gets that wait are answered where that is news.
    /// Answers how many. It takes no memory.
    pub fn tell(
        &mut self,
        part: WatchedPart,
        p: PairNo,
        s: SessionNo,
        now: Option<WatcherValue>,
        log: &mut RoomyJournal,
    ) -> usize
        requires place { length log.old.history < 2 ^ 32 }
        requires room { waiting_in self.old ≤ log.old.post_room }
        requires few { waiting_in self.old < 2 ^ 32 }
        ensures told { IsTold part now self.old self.new }
        ensures free { is_child part ≡ false → self.new.former ≡ self.old.former }
        ensures posts { log.new.posts ≡ log.old.posts ++ map (post_of (length log.old.history) s)
            (part_events part p now self.old) }
        ensures count { result ≡ length (part_events part p now self.old) }
        ensures due { waiting_in self.new + result ≡ waiting_in self.old }
        ensures history { log.new.history ≡ log.old.history }
        ensures room { log.new.room ≡ log.old.room }
        ensures post_room { log.new.post_room + result ≡ log.old.post_room }
    {
        match part {
            WatchedPart::Layout => post_answer(self.layout.tell(now), p, s, log),
            WatchedPart::Status => post_answer(self.status.tell(now), p, s, log),
            WatchedPart::Child => {
                let earlier = post_former(self.former.as_slice(), p, s, now, log);
                self.former.retain(|one| news(now, one.last).is_none());
                earlier + post_answer(self.child.tell(now), p, s, log)
            }
        }
    }

    /// The viewport end is used anew. Nothing was asked of the new child; a get of the
    /// one before goes on to wait. It takes no memory.
    pub fn start_use(&mut self)
        requires { length self.old.former.items < vec_capacity self.old.former }
        ensures { IsStarted self.old self.new }
    {
        if let Some(get) = self.child.waits() {
            let last = self.child.last();
            self.former.push_reserved(FormerGet { get, last });
        }
        self.child = HangingGet::new();
    }
}
