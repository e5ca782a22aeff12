//! Which pairs of a session have gets that may wait.
ghost use Rattle.std.specs.Prelude.{◌≡◌, ◌+◌, ◌<◌, ◌≤◌, ◌^◌, ◌&&◌, ◌==◌, [], not, true, false, cond, filter, length};
ghost use Rattle.std.specs.Prelude.{nat_lt, slice_index_or, OnErr, OnOk};
ghost use Rattle.std.specs.List.Sorted.{IsPartitionPoint};
ghost use Rattle.flat_base.specs.declared.ids.PairNo.{PairNo};
ghost use Rattle.flat_gets.specs.Listed.{rises_from, view_waits, viewport_waits};
ghost use Rattle.flat_gets.specs.Listed.{waits_at, with_pair};
ghost use Rattle.flat_gets.specs.Pairs.{is_child};

use crate::pair::{PairWatchers, WatchedPart};
use flat_base::{NoMemory, PairNo};
use std::alloc::Global;
use std::marker::Model;

/// What is kept of the gets of a session: how many answers it has had, and the pairs of
/// its views and of its viewports of which a get may wait, each by rising numbers.
#[derive(Drop)]
pub struct SessionGets {
    answers: u32,
    views: Vec<PairNo>,
    viewports: Vec<PairNo>,
}

impl Model for SessionGets {
    ghost use Rattle.std.specs.Prelude.{◌≡◌, true};
    ghost use Rattle.flat_gets.specs.Listed.{KeptGets, rises_from};

    ghost Value = { KeptGets };

    ghost view = { λ gets. record {
      answers = gets.answers;
      views = gets.views.items;
      viewports = gets.viewports.items;
    } };

    ghost invariant = { λ gets. (rises_from 0 gets.views.items ≡ true)
        × (rises_from 0 gets.viewports.items ≡ true) };
}

/// The place of the first pair that isn't below this one.
fn place_of(listed: &[PairNo], p: PairNo) -> usize
    requires { rises_from 0 listed.now ≡ true }
    ensures bound { result ≤ length listed.now }
    ensures point { IsPartitionPoint (λ (q : PairNo). nat_lt q.0 p.0 ≡ true)
        (λ (q : PairNo). nat_lt q.0 p.0 ≡ false) listed.now result }
{
    listed.partition_point(|q| q.0 < p.0)
}

/// Whether a pair stands at a place.
fn has_at(listed: &[PairNo], place: usize, p: PairNo) -> bool
    ensures { (d : PairNo) → result ≡ (nat_lt place (length listed.now)
        && (slice_index_or listed.now place d).0 == p.0) }
{
    match listed.get(place) {
        Some(q) => q.0 == p.0,
        None => false,
    }
}

/// Lists a pair, unless it is listed.
fn list_pair(listed: &mut Vec<PairNo>, p: PairNo) -> Result<(), NoMemory>
    requires { rises_from 0 listed.old.items ≡ true }
    ensures listed { OnOk result (listed.new.items ≡ with_pair p listed.old.items) }
    ensures same { OnErr result (listed.new.items ≡ listed.old.items) }
    ensures rising { rises_from 0 listed.new.items ≡ true }
{
    let place = place_of(listed.as_slice(), p);
    if has_at(listed.as_slice(), place, p) {
        return Ok(());
    }
    listed.insert(place, p)?;
    Ok(())
}

/// Whether a get of the view of a pair waits.
fn view_waits(pairs: &[PairWatchers], p: PairNo) -> bool
    ensures { result ≡ waits_at view_waits pairs.now p }
{
    match pairs.get(p.0 as usize) {
        Some(pair) => pair.layout.waits().is_some() || pair.status.waits().is_some(),
        None => false,
    }
}

/// Whether a get of the viewport of a pair waits.
fn viewport_waits(pairs: &[PairWatchers], p: PairNo) -> bool
    ensures { result ≡ waits_at viewport_waits pairs.now p }
{
    match pairs.get(p.0 as usize) {
        Some(pair) => pair.child.waits().is_some() || !pair.former.is_empty(),
        None => false,
    }
}

impl SessionGets {
    /// Nothing was asked.
    pub fn new(alloc: Global) -> SessionGets
        ensures { result ≡ record { answers = 0; views = []; viewports = [] } }
    {
        SessionGets {
            answers: 0,
            views: Vec::new(alloc),
            viewports: Vec::new(alloc),
        }
    }

    /// How many answers the session has had.
    pub fn answers(&self) -> u32
        ensures { result ≡ self.now.answers }
    {
        self.answers
    }

    /// The pairs of its views of which a get may wait.
    pub fn views(&self) -> &[PairNo]
        ensures value { result.now ≡ self.now.views }
        ensures rising { rises_from 0 self.now.views ≡ true }
    {
        self.views.as_slice()
    }

    /// The pairs of its viewports of which a get may wait.
    pub fn viewports(&self) -> &[PairNo]
        ensures value { result.now ≡ self.now.viewports }
        ensures rising { rises_from 0 self.now.viewports ≡ true }
    {
        self.viewports.as_slice()
    }

    /// It had so many answers more.
    pub fn count(&mut self, more: u32)
        requires { self.old.answers + more < 2 ^ 32 }
        ensures { self.new ≡ record self.old { answers = self.old.answers + more } }
    {
        self.answers += more;
    }

    /// A get of a part of a pair is to wait, or not.
    pub fn list(&mut self, waits: bool, part: WatchedPart, p: PairNo) -> Result<(), NoMemory>
        ensures answers { self.new.answers ≡ self.old.answers }
        ensures views { OnOk result (self.new.views ≡ cond (waits && not (is_child part))
            (with_pair p self.old.views) self.old.views) }
        ensures viewports { OnOk result (self.new.viewports ≡ cond (waits && is_child part)
            (with_pair p self.old.viewports) self.old.viewports) }
        ensures same { OnErr result (self.new ≡ self.old) }
    {
        if !waits {
            return Ok(());
        }
        match part {
            WatchedPart::Child => list_pair(&mut self.viewports, p),
            _ => list_pair(&mut self.views, p),
        }
    }

    /// Keeps those pairs of which a get still waits.
    pub fn forget(&mut self, pairs: &[PairWatchers])
        ensures answers { self.new.answers ≡ self.old.answers }
        ensures views { self.new.views ≡ filter (waits_at view_waits pairs.now) self.old.views }
        ensures viewports { self.new.viewports
            ≡ filter (waits_at viewport_waits pairs.now) self.old.viewports }
    {
        self.views.retain(|p| view_waits(pairs, *p));
        self.viewports.retain(|p| viewport_waits(pairs, *p));
    }
}
