ghost use Rattle.std.specs.Prelude.{◌≡◌, ℕ, ◌+◌, ◌-◌, ◌<◌, ◌≤◌, ◌^◌, true, false, [], All, List, length};
ghost use Rattle.std.specs.Prelude.{slice_index_or, sum_by, vec_capacity, IfErr, IfOk, OnOk};
ghost use Rattle.flat_scene.specs.declared.journal.Entry.{Entry};
ghost use Rattle.flat_scene.specs.declared.setup.Setup.{Setup};
ghost use Rattle.flat_scene.specs.History.{◌▹◌};
ghost use Rattle.flat_rules.specs.Legal.{is_now, number_if};
ghost use Rattle.flat_rules.specs.AllPosts.{posts};
ghost use Rattle.flat_rules.specs.Watch.{told};
ghost use Rattle.flat_gets.specs.declared.pair.PairWatchers.{PairWatchers};
ghost use Rattle.flat_gets.specs.Dues.{due_told};
ghost use Rattle.flat_gets.specs.Listed.{KeptGets, no_gets, rises_from};
ghost use Rattle.flat_gets.specs.Pairs.{IsUnasked, watcher_at, waiting_in};
ghost use Rattle.flat_gets.specs.Watchers.{AreWatched, HasRoomAt, IsAsked, IsJoin, IsSettled, TellsEach, TellsView};
ghost use Rattle.flat_gets.specs.Watchers.{WatchedUpTo, is_held, replied, told_and_due};

use crate::pair::{PairWatchers, WatchedPart};
use crate::session::SessionGets;
use crate::watcher_values::{WatcherValues, told_of};
use flat_base::{FlatlandError, NoMemory, PairNo, SessionNo};
use flat_scene::{Reply, Setup, Watch};
use flat_states::roomy_journal::RoomyJournal;
use flat_watch::GetAnswer;
use std::alloc::Global;

/// What is kept of the gets of all sessions: of each pair its watchers, and of each
/// session which pairs of its own have gets that may wait.
#[derive(Drop)]
pub struct Watchers {
    pub pairs: Vec<PairWatchers>,
    /// The sessions, the first of them session 1.
    pub sessions: Vec<SessionGets>,
}

fn new_pairs(alloc: Global, n: usize) -> Result<Vec<PairWatchers>, NoMemory>
    ensures count { IfOk result (λ pairs. length pairs.items ≡ n) }
    ensures none { IfOk result (λ pairs. All IsUnasked pairs.items) }
{
    let mut pairs = Vec::with_capacity(alloc, n)?;
    for _ in 0..n {
        pairs.push_reserved(PairWatchers::new(alloc));
    }
    Ok(pairs)
}

fn new_sessions(alloc: Global, n: u32) -> Result<Vec<SessionGets>, NoMemory>
    ensures count { IfOk result (λ sessions. length sessions.items ≡ n) }
    ensures none { IfOk result (λ sessions. All (λ one. one ≡ no_gets) sessions.items) }
{
    let mut sessions = Vec::with_capacity(alloc, n as usize)?;
    for _ in 0..n {
        sessions.push_reserved(SessionGets::new(alloc));
    }
    Ok(sessions)
}

/// The reply to a get.
fn reply_of(answer: GetAnswer) -> Reply
    ensures { result ≡ replied answer }
{
    match answer {
        GetAnswer::Now(value) => Reply::Now(value),
        GetAnswer::Held => Reply::Held,
        GetAnswer::BadHangingGet => Reply::Closed(Some(FlatlandError::BadHangingGet), None),
    }
}

/// Whether a reply has a value.
fn count_now(reply: Reply) -> u32
    ensures { result ≡ number_if (is_now reply) }
{
    match reply {
        Reply::Now(_) => 1,
        _ => 0,
    }
}

/// The gets of a part of each of these pairs are answered where there is news. Answers
/// how many.
fn tell_each<T: WatcherValues>(
    pairs: &mut Vec<PairWatchers>,
    listed: &[PairNo],
    part: WatchedPart,
    s: SessionNo,
    tells: &T,
    log: &mut RoomyJournal,
) -> usize
    requires rising { rises_from 0 listed.now ≡ true }
    requires known { All (λ p. p.0 < length pairs.old.items) listed.now }
    requires place { length log.old.history < 2 ^ 32 }
    requires room { sum_by waiting_in pairs.old.items ≤ log.old.post_room }
    requires few { sum_by waiting_in pairs.old.items < 2 ^ 32 }
    ensures told { (setup : Setup) (history : List Entry) → T.stands tells.now setup history →
        TellsEach part (λ p. told setup history (watcher_at part p 0)) (length log.old.history) s
        listed.now pairs.old.items pairs.new.items log.old.posts log.new.posts result }
    ensures pushed { length log.new.posts ≡ length log.old.posts + result }
    ensures due { sum_by waiting_in pairs.new.items + result ≡ sum_by waiting_in pairs.old.items }
    ensures count { length pairs.new.items ≡ length pairs.old.items }
    ensures history { log.new.history ≡ log.old.history }
    ensures room { log.new.room ≡ log.old.room }
    ensures post_room { log.new.post_room + result ≡ log.old.post_room }
{
    let mut count = 0usize;
    for p in listed {
        let now = told_of(tells, part, *p);
        let pair = &mut pairs[p.0 as usize];
        count += pair.tell(part, *p, s, now, log);
    }
    count
}

impl Watchers {
    /// Before any entry.
    pub fn new(alloc: Global, setup: &Setup) -> Result<Watchers, NoMemory>
        ensures watched { IfOk result (AreWatched setup.now []) }
        ensures none { IfOk result (λ watchers. due_told watchers ≡ 0) }
    {
        let pairs = new_pairs(alloc, setup.pairs.len())?;
        let sessions = new_sessions(alloc, setup.sessions)?;
        Ok(Watchers { pairs, sessions })
    }

    /// How many answers a session has had.
    pub fn answers(&self, s: SessionNo) -> u32
        requires some { 0 < s.0 }
        requires within { s.0 ≤ length self.now.sessions.items }
        ensures { (one : KeptGets) → one ≡ slice_index_or self.now.sessions.items (s.0 - 1) one →
            result ≡ one.answers }
    {
        self.sessions[s.0 as usize - 1].answers()
    }

    /// A session asks for a value of a pair. The room is made for so many posts.
    pub fn ask<T: WatcherValues>(
        &mut self,
        s: SessionNo,
        p: PairNo,
        get: Watch,
        tells: &T,
        log: &mut RoomyJournal,
        posts: usize,
    ) -> Result<Reply, NoMemory>
        requires some { 0 < s.0 }
        requires within { s.0 ≤ length self.old.sessions.items }
        requires known { p.0 < length self.old.pairs.items }
        requires few { told_and_due self.old < 2 ^ 32 - 1 }
        ensures asked { IfOk result (λ reply. (setup : Setup) (history : List Entry) →
            T.stands tells.now setup history → IsAsked setup history s p get reply self.old
            self.new) }
        ensures due { IfOk result (λ reply. due_told self.new ≤ due_told self.old
            + number_if (is_held reply)) }
        ensures reserved { IfOk result (λ reply. posts ≤ log.new.post_room) }
        ensures watched { IfErr result (λ e. (setup : Setup) (history : List Entry) →
            AreWatched setup history self.old → AreWatched setup history self.new) }
        ensures same_due { IfErr result (λ e. due_told self.new ≡ due_told self.old) }
        ensures history { log.new.history ≡ log.old.history }
        ensures posts { log.new.posts ≡ log.old.posts }
        ensures room { log.new.room ≡ log.old.room }
        ensures post_room { log.old.post_room ≤ log.new.post_room }
    {
        log.reserve(posts)?;
        let part = WatchedPart::of(get);
        let now = told_of(tells, part, p);
        let pair = &mut self.pairs[p.0 as usize];
        let session = &mut self.sessions[s.0 as usize - 1];
        session.list(pair.would_wait(part, now), part, p)?;
        let reply = reply_of(pair.get(get, now));
        session.count(count_now(reply));
        Ok(reply)
    }

    /// Makes the room for one more use of the viewport end of a pair.
    pub fn reserve_use(&mut self, p: PairNo) -> Result<(), NoMemory>
        requires { p.0 < length self.old.pairs.items }
        ensures watched { (setup : Setup) (history : List Entry) →
            AreWatched setup history self.old → AreWatched setup history self.new }
        ensures due { due_told self.new ≡ due_told self.old }
        ensures sessions { self.new.sessions ≡ self.old.sessions }
        ensures count { length self.new.pairs.items ≡ length self.old.pairs.items }
        ensures room { OnOk result (HasRoomAt p self.new) }
    {
        self.pairs[p.0 as usize].reserve_use()
    }

    /// The gets of a pair's view that wait are answered where there is news, which its
    /// owner hears. Answers how many. It takes no memory.
    fn tell_view<T: WatcherValues>(
        &mut self,
        owner: SessionNo,
        p: PairNo,
        tells: &T,
        log: &mut RoomyJournal,
    ) -> usize
        requires some { 0 < owner.0 }
        requires within { owner.0 ≤ length self.old.sessions.items }
        requires known { p.0 < length self.old.pairs.items }
        requires place { length log.old.history < 2 ^ 32 }
        requires room { due_told self.old ≤ log.old.post_room }
        requires few { told_and_due self.old < 2 ^ 32 - 1 }
        requires free { HasRoomAt p self.old }
        ensures told { (setup : Setup) (history : List Entry) → T.stands tells.now setup history →
            TellsView (told setup history) (length log.old.history) owner p self.old self.new
            log.old.posts log.new.posts result }
        ensures due { due_told self.new + result ≡ due_told self.old }
        ensures free { HasRoomAt p self.new }
        ensures size { length self.new.pairs.items ≡ length self.old.pairs.items }
        ensures count { length log.new.posts ≡ length log.old.posts + result }
        ensures history { log.new.history ≡ log.old.history }
        ensures room { log.new.room ≡ log.old.room }
        ensures post_room { log.new.post_room + result ≡ log.old.post_room }
    {
        let layout = tells.layout(p);
        let status = tells.status(p);
        let pair = &mut self.pairs[p.0 as usize];
        let first = pair.tell(WatchedPart::Layout, p, owner, layout, log);
        let second = pair.tell(WatchedPart::Status, p, owner, status, log);
        let session = &mut self.sessions[owner.0 as usize - 1];
        session.count((first + second) as u32);
        first + second
    }

    /// A viewport end is used anew, if its token was held: the gets of the pair's view are
    /// answered for which there is news, unless its owner is closed. Answers how many. It
    /// takes no memory.
    pub fn join<T: WatcherValues>(
        &mut self,
        is_held: bool,
        owner: SessionNo,
        closed: bool,
        p: PairNo,
        tells: &T,
        log: &mut RoomyJournal,
    ) -> usize
        requires some { closed ≡ false → 0 < owner.0 }
        requires within { closed ≡ false → owner.0 ≤ length self.old.sessions.items }
        requires known { p.0 < length self.old.pairs.items }
        requires place { length log.old.history < 2 ^ 32 - 1 }
        requires room { due_told self.old ≤ log.old.post_room }
        requires few { told_and_due self.old < 2 ^ 32 - 1 }
        requires free { HasRoomAt p self.old }
        ensures watched { (setup : Setup) (history : List Entry) (entry : Entry) →
            IsJoin setup history entry is_held owner closed p →
            T.stands tells.now setup (history ▹ entry) → log.old.history ≡ history → log.old.posts
            ≡ posts setup history → AreWatched setup history self.old → AreWatched setup
            (history ▹ entry) self.new × (log.new.posts ≡ posts setup (history ▹ entry)) }
        ensures due { due_told self.new + result ≡ due_told self.old }
        ensures count { length log.new.posts ≡ length log.old.posts + result }
        ensures history { log.new.history ≡ log.old.history }
        ensures room { log.new.room ≡ log.old.room }
        ensures post_room { log.new.post_room + result ≡ log.old.post_room }
    {
        if !is_held {
            return 0;
        }
        if closed {
            self.pairs[p.0 as usize].start_use();
            return 0;
        }
        let count = self.tell_view(owner, p, tells, log);
        self.pairs[p.0 as usize].start_use();
        count
    }

    /// Answers the gets of a session that wait and for which there is news, unless it is
    /// passed over. It looks at the pairs that are listed alone. Answers how many. It
    /// takes no memory.
    pub fn settle<T: WatcherValues>(
        &mut self,
        s: SessionNo,
        is_passed: bool,
        tells: &T,
        log: &mut RoomyJournal,
    ) -> usize
        requires watched { (setup : Setup) × ((n : ℕ) × ((after : List Entry)
            × ((before : List Entry) × WatchedUpTo setup n after before self.old))) }
        requires some { is_passed ≡ false → 0 < s.0 }
        requires within { is_passed ≡ false → s.0 ≤ length self.old.sessions.items }
        requires place { length log.old.history < 2 ^ 32 }
        requires room { due_told self.old ≤ log.old.post_room }
        requires few { told_and_due self.old < 2 ^ 32 - 1 }
        ensures settled { is_passed ≡ false → (setup : Setup) (history : List Entry) →
            T.stands tells.now setup history → IsSettled (told setup history)
            (length log.old.history) s self.old self.new log.old.posts log.new.posts result }
        ensures same { is_passed ≡ true → self.new ≡ self.old }
        ensures none { is_passed ≡ true → (result ≡ 0) × (log.new.posts ≡ log.old.posts) }
        ensures due { due_told self.new + result ≡ due_told self.old }
        ensures count { length log.new.posts ≡ length log.old.posts + result }
        ensures history { log.new.history ≡ log.old.history }
        ensures room { log.new.room ≡ log.old.room }
        ensures post_room { log.new.post_room + result ≡ log.old.post_room }
    {
        if is_passed {
            return 0;
        }
        let place = s.0 as usize - 1;
        let session = &mut self.sessions[place];
        let pairs = &mut self.pairs;
        let layouts = tell_each(pairs, session.views(), WatchedPart::Layout, s, tells, log);
        let statuses = tell_each(pairs, session.views(), WatchedPart::Status, s, tells, log);
        let children = tell_each(
            pairs,
            session.viewports(),
            WatchedPart::Child,
            s,
            tells,
            log,
        );
        let count = layouts + statuses + children;
        session.count(count as u32);
        session.forget(pairs.as_slice());
        count
    }
}
