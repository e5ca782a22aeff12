ghost use Rattle.std.specs.Prelude.{◌≡◌, ◌+◌, ◌<◌, ◌≤◌, ◌==◌, ◌^◌, Some, None, [], ◌∷◌, ◌++◌, not};
ghost use Rattle.std.specs.Prelude.{true, false, filter, length, map, OnOk, OnErr, cond};
ghost use Rattle.std.specs.Prelude.{vec_capacity};
ghost use Rattle.std.specs.List.{list_any};
ghost use Rattle.flat_rules.specs.Legal.{all_but_last};
ghost use Rattle.flat_facts.specs.Lives.{lives_then, lives_after, pair_named, uses_last};
ghost use Rattle.flat_facts.specs.Lives.{is_new_viewport};
ghost use Rattle.flat_facts.specs.Begins.{post_of};
ghost use Rattle.flat_links.specs.Viewports.{marked, marked_by, with_out, place_of, is_back};
ghost use Rattle.flat_links.specs.Viewports.{back_events, still_out};

use crate::tokens::OutToken;
use flat_base::{ContentId, NoMemory, PairNo, SessionNo};
use flat_facts::live_viewport::LiveViewport;
use flat_facts::lives::{drop_named, pair_named};
use flat_facts::stamps::{is_seen, stamp_then};
use flat_scene::{Call, Event, PostedEvent};
use flat_states::roomy_journal::RoomyJournal;
use std::alloc::Global;

impl OutToken {
    /// Whether the first so many presents have seen the release.
    pub fn is_back(&self, taken: u32) -> bool
        ensures { result ≡ is_back taken self.now }
    {
        is_seen(self.released, taken)
    }
}

/// The token of a pair, where it is out, is marked as that of a viewport released
/// after so many presents.
pub fn mark(out: &mut [OutToken], pair: PairNo, presents: u32)
    ensures { out.new ≡ map (marked_by (Some pair) presents) out.old }
{
    for one in out.iter_mut() {
        let is_it = pair.0 == one.pair.0;
        one.released = stamp_then(one.released, is_it, presents);
    }
}

/// The same for the pair that there is, if there is one.
fn mark_if(out: &mut [OutToken], pair: Option<PairNo>, presents: u32)
    ensures { out.new ≡ map (marked_by pair presents) out.old }
{
    match pair {
        Some(pair) => mark(out, pair, presents),
        None => {}
    }
}

/// Whether the token of a pair is out.
pub fn is_out(out: &[OutToken], p: PairNo) -> bool
    ensures { result ≡ list_any (λ one. one.pair.0 == p.0) out.now }
{
    out.iter().any(|one| one.pair.0 == p.0)
}

/// Where a pair's token has its place among those that are out.
fn place_of(out: &[OutToken], p: PairNo) -> usize
    ensures place { result ≡ place_of p.0 out.now }
    ensures within { result ≤ length out.now }
{
    let mut place = 0usize;
    for one in out {
        if p.0 < one.pair.0 {
            return place;
        }
        place += 1;
    }
    place
}

/// Posts that tokens come back: those whose release the first so many presents
/// have seen. Answers how many.
fn post_back(out: &[OutToken], taken: u32, s: SessionNo, log: &mut RoomyJournal) -> usize
    requires place { length log.old.history < 2 ^ 32 }
    requires room { length out.now ≤ log.old.post_room }
    ensures posts { log.new.posts ≡ log.old.posts ++ map (post_of (length log.old.history) s)
        (back_events taken out.now) }
    ensures count { result ≡ length (back_events taken out.now) }
    ensures history { log.new.history ≡ log.old.history }
    ensures room { log.new.room ≡ log.old.room }
    ensures post_room { log.new.post_room + result ≡ log.old.post_room }
{
    let mut count = 0usize;
    for one in out {
        if one.is_back(taken) {
            log.post(PostedEvent {
                entry: log.len(),
                session: s,
                event: Event::TokenBack(one.pair),
            });
            count += 1;
        }
    }
    count
}

/// The viewports of a session that live, in the order in which they were made, and
/// the tokens that are out, by rising pairs.
#[derive(Drop)]
pub struct Viewports {
    pub live: Vec<LiveViewport>,
    pub out: Vec<OutToken>,
}

impl Viewports {
    /// None of either.
    pub fn new(alloc: Global) -> Viewports
        ensures live { result.live.items ≡ [] }
        ensures out { result.out.items ≡ [] }
    {
        Viewports {
            live: Vec::new(alloc),
            out: Vec::new(alloc),
        }
    }

    /// Makes the room for one more viewport.
    pub fn reserve(&mut self) -> Result<(), NoMemory>
        ensures live { self.new.live.items ≡ self.old.live.items }
        ensures out { self.new.out.items ≡ self.old.out.items }
        ensures room_live { OnOk result (length self.new.live.items < vec_capacity self.new.live) }
        ensures room_out { OnOk result (length self.new.out.items < vec_capacity self.new.out) }
    {
        self.live.reserve(1)?;
        self.out.reserve(1)?;
        Ok(())
    }

    /// The same, and the room for so many posts, as for its token's return.
    pub fn reserve_with(&mut self, log: &mut RoomyJournal, posts: usize) -> Result<(), NoMemory>
        ensures live { self.new.live.items ≡ self.old.live.items }
        ensures out { self.new.out.items ≡ self.old.out.items }
        ensures room_live { OnOk result (length self.new.live.items < vec_capacity self.new.live) }
        ensures room_out { OnOk result (length self.new.out.items < vec_capacity self.new.out) }
        ensures history { log.new.history ≡ log.old.history }
        ensures posts { log.new.posts ≡ log.old.posts }
        ensures room { log.new.room ≡ log.old.room }
        ensures post_room { log.old.post_room ≤ log.new.post_room }
        ensures reserved { OnOk result (posts ≤ log.new.post_room) }
    {
        log.reserve(posts)?;
        self.reserve()
    }

    /// A viewport is released, if that is what the id names.
    fn release(&mut self, name: ContentId, presents: u32)
        ensures live { self.new.live.items
            ≡ filter (λ one. not (one.name.0 == name.0)) self.old.live.items }
        ensures out { self.new.out.items
            ≡ map (marked_by (pair_named self.old.live.items name.0) presents) self.old.out.items }
        ensures room_live { vec_capacity self.new.live ≡ vec_capacity self.old.live }
        ensures room_out { vec_capacity self.new.out ≡ vec_capacity self.old.out }
    {
        let pair = pair_named(self.live.as_slice(), name);
        mark_if(self.out.as_mut_slice(), pair, presents);
        drop_named(&mut self.live, name);
    }

    /// Notes a call that makes no viewport.
    fn note_one(&mut self, call: &Call, presents: u32)
        requires { is_new_viewport call.now ≡ false }
        ensures live { self.new.live.items ≡ lives_then self.old.live.items call.now }
        ensures out { self.new.out.items ≡ map (marked self.old.live.items (call.now ∷ []) presents)
            self.old.out.items }
        ensures room_live { vec_capacity self.new.live ≡ vec_capacity self.old.live }
        ensures room_out { vec_capacity self.new.out ≡ vec_capacity self.old.out }
    {
        match call {
            Call::ReleaseViewport { c } => self.release(*c, presents),
            Call::Clear => self.live.clear(),
            _ => {}
        }
    }

    /// Notes calls, none of which makes a viewport. It takes no memory.
    pub fn note_calls(&mut self, calls: &[Call], presents: u32)
        requires { list_any is_new_viewport calls.now ≡ false }
        ensures live { self.new.live.items ≡ lives_after self.old.live.items calls.now }
        ensures out { self.new.out.items ≡ map (marked self.old.live.items calls.now presents)
            self.old.out.items }
        ensures room_live { vec_capacity self.new.live ≡ vec_capacity self.old.live }
        ensures room_out { vec_capacity self.new.out ≡ vec_capacity self.old.out }
    {
        for call in calls {
            self.note_one(call, presents);
        }
    }

    /// A viewport joins, whose token goes out. It takes no memory.
    pub fn join(&mut self, name: ContentId, pair: PairNo)
        requires room_live { length self.old.live.items < vec_capacity self.old.live }
        requires room_out { length self.old.out.items < vec_capacity self.old.out }
        ensures live { self.new.live.items
            ≡ self.old.live.items ++ (record { name = name; pair = pair }) ∷ [] }
        ensures out { self.new.out.items ≡ with_out (record { pair = pair; released = None })
            self.old.out.items }
        ensures count { length self.new.out.items ≡ length self.old.out.items + 1 }
    {
        self.live.push_reserved(LiveViewport { name, pair });
        let place = place_of(self.out.as_slice(), pair);
        let token = OutToken {
            pair,
            released: None,
        };
        let _joined = self.out.insert(place, token);
    }

    /// Uses the viewport end of a pair by the last of these calls, and notes the
    /// others. It takes no memory.
    pub fn use_end(&mut self, calls: &[Call], p: PairNo, presents: u32)
        requires others { list_any is_new_viewport (all_but_last calls.now) ≡ false }
        requires last { uses_last p calls.now ≡ true }
        requires room_live { length self.old.live.items < vec_capacity self.old.live }
        requires room_out { length self.old.out.items < vec_capacity self.old.out }
        ensures live { self.new.live.items ≡ lives_after self.old.live.items calls.now }
        ensures out { self.new.out.items ≡ with_out (record { pair = p; released = None })
            (map (marked self.old.live.items calls.now presents) self.old.out.items) }
        ensures count { length self.new.out.items ≡ length self.old.out.items + 1 }
    {
        let place = calls.len() - 1;
        self.note_calls(&calls[..place], presents);
        if let Call::CreateViewport { c, .. } = &calls[place] {
            self.join(*c, p);
        }
    }

    /// At the end of a frame, of which the first so many presents were taken, the
    /// tokens come back whose release it has seen. Answers how many.
    pub fn take_back(&mut self, taken: u32, s: SessionNo, log: &mut RoomyJournal) -> usize
        requires place { length log.old.history < 2 ^ 32 }
        requires room { length self.old.out.items ≤ log.old.post_room }
        ensures live { self.new.live.items ≡ self.old.live.items }
        ensures out { self.new.out.items ≡ still_out taken self.old.out.items }
        ensures posts { log.new.posts ≡ log.old.posts ++ map (post_of (length log.old.history) s)
            (back_events taken self.old.out.items) }
        ensures count { result ≡ length (back_events taken self.old.out.items) }
        ensures history { log.new.history ≡ log.old.history }
        ensures room { log.new.room ≡ log.old.room }
        ensures post_room { log.new.post_room + result ≡ log.old.post_room }
        ensures due { length self.new.out.items + result ≡ length self.old.out.items }
    {
        let count = post_back(self.out.as_slice(), taken, s, log);
        self.out.retain(|one| !one.is_back(taken));
        count
    }
}
