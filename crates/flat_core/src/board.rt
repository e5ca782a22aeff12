ghost use Rattle.std.specs.Prelude.{◌≡◌, IsTrue, true, ◌+◌, ◌<◌, ◌^◌, false, [], length, sum, IfOk, All, ℕ};
ghost use Rattle.flat_base.specs.declared.ids.FenceNo.{FenceNo};
ghost use Rattle.flat_base.specs.declared.ids.PairNo.{PairNo};
ghost use Rattle.flat_base.specs.declared.ids.SessionNo.{SessionNo};
ghost use Rattle.flat_scene.specs.Journals.{history_of};
ghost use Rattle.flat_scene.specs.Setups.{is_declared};
ghost use Rattle.flat_scene.specs.Heads.{is_within_limits};
ghost use Rattle.flat_topology.specs.Members.{is_member};
ghost use Rattle.flat_fence.specs.Fences.{has};
ghost use Rattle.flat_gets.specs.Dues.{due_told};
ghost use Rattle.flat_gets.specs.Watchers.{AreWatched};
ghost use Rattle.flat_links.specs.AllEnds.{HasNone};
ghost use Rattle.flat_links.specs.SessionLinks.{AreLinked};
ghost use Rattle.flat_states.specs.Flags.{has_end};
ghost use Rattle.flat_states.specs.Presents.{IsNew};
ghost use Rattle.flat_core.specs.Journals.{FamiliesStandAlone, IsDecidedByGlimpses, IsQuietBeside};
ghost use Rattle.flat_rules.specs.Ends.{has_view};
ghost use Rattle.flat_rules.specs.Legal.{number_if, Legal};
ghost use Rattle.flat_rules.specs.AllPosts.{posts};

mod closes;
mod frames;
mod presents;
mod views;
mod waits;

use flat_base::{NoMemory, ShareList};
use flat_fence::FenceSet;
use flat_gets::watching::Watchers;
use flat_links::entries::new_ends;
use flat_links::link_table::LinkTable;
use flat_links::viewports::Viewports;
use flat_links::with_view::with_view;
use flat_rules::{families_are_alone, glimpses_decide_outcomes};
use flat_scene::{CallList, Journal, PresentArgs, SessionSet, Setup};
use flat_snap::Snapshot;
use flat_states::frame_clock::FrameClock;
use flat_states::ratios::Ratios;
use flat_states::roomy_journal::RoomyJournal;
use flat_states::state::{SessionState, new_states};
use flat_states::used_view_ends::UsedViewEnds;
use std::alloc::Global;
use std::marker::Model;
use std::sync::Arc;
pub use waits::asked_of;

/// The machine and its journal. Each call below that answers a reply makes one
/// entry; so do `begin` and `done`. What it answers and what it posts is decided by
/// the rules and by the history alone.
///
/// Contracts see the setup, the shares, and the history, the newest entry first.
#[derive(Drop)]
pub struct Board {
    alloc: Global,
    setup: Setup,
    shares: ShareList,
    log: RoomyJournal,
    /// How many events may still be posted for what was entered so far.
    owed: usize,
    clock: FrameClock,
    fences: FenceSet,
    /// The view ends that were used.
    view_ends: UsedViewEnds,
    /// The sessions, the first of them session 1.
    sessions: Vec<SessionState>,
    /// The viewports of each session.
    viewports: Vec<Viewports>,
    links: LinkTable,
    watchers: Watchers,
}

impl Model for Board {
    ghost use Rattle.flat_states.specs.Machines.{Machine, Stands, HasRoom};
    ghost use Rattle.flat_links.specs.AllEnds.{AreEnds};
    ghost use Rattle.flat_core.specs.Dues.{all_due};
    ghost use Rattle.flat_links.specs.SessionLinks.{AreLinked};
    ghost use Rattle.flat_gets.specs.Watchers.{AreWatched};

    ghost Value = { Machine };

    ghost view = { λ b. record { setup = b.setup; shares = b.shares; history = b.log.history } };

    ghost invariant = { λ b. Stands b.setup b.log.history b.clock b.fences b.view_ends
        b.sessions.items × HasRoom b.setup b.shares b.log b.owed
        (all_due b.sessions.items b.viewports.items b.watchers)
        × AreEnds b.setup b.log.history b.viewports.items
        × AreLinked b.setup b.log.history b.links.linked_sessions.items b.links.pairs.items
        × AreWatched b.setup b.log.history b.watchers };
}

impl Board {
    /// A board before any entry, with room for all that the shares allow: those of
    /// the display, and then of the sessions.
    pub fn open(alloc: Global, setup: Setup, shares: ShareList) -> Result<Board, NoMemory>
        requires limits { IsTrue (is_within_limits setup) }
        requires actors { length shares ≡ setup.sessions + 1 }
        requires total { sum shares < 2 ^ 32 }
        ensures { IfOk result (λ board. board
            ≡ record { setup = setup; shares = shares; history = [] }) }
    {
        let total = total_of(shares.as_slice());
        let log = RoomyJournal::new(alloc, total)?;
        let ratios = Ratios::new(setup.ratio);
        let (fences, views) = new_sets(alloc, &setup)?;
        let (sessions, ends) = new_sessions(alloc, setup.sessions)?;
        let (links, watchers) = new_pairs(alloc, &setup)?;
        Ok(Board {
            alloc,
            setup,
            shares,
            log,
            owed: 0,
            clock: FrameClock {
                frames: 0,
                is_open: false,
                time: 0,
                ratios,
            },
            fences,
            view_ends: views,
            sessions,
            viewports: ends,
            links,
            watchers,
        })
    }

    /// The sessions that are open and have a view whose end isn't lost.
    pub(crate) fn with_view(&self) -> SessionSet
        ensures members { (s : SessionNo) → is_declared self.now.setup s ≡ true →
            is_member result s.0 ≡ has_view self.now.setup self.now.history s }
        ensures others { (s : ℕ) → self.now.setup.sessions < s → is_member result s ≡ false }
    {
        with_view(self.sessions.as_slice(), &self.links.pairs)
    }

    /// All that was entered and posted, the oldest first: the one legal history
    /// for which the board stands, and exactly the events that the rules give it.
    ///
    /// Where the owners that the setup names are declared, the family of each session
    /// is alone in it. And what neighbours can't change of a session is the same in
    /// every legal history that gives the same glimpses of it.
    pub fn journal(&self) -> &Journal
        ensures entries { history_of result.now.entries.items ≡ self.now.history }
        ensures posts { result.now.posts.items ≡ posts self.now.setup self.now.history }
        ensures legal { Legal self.now.setup self.now.history }
        ensures families { FamiliesStandAlone self.now.setup self.now.history }
        ensures neighbours { (s : SessionNo) →
            IsDecidedByGlimpses self.now.setup s self.now.history }
        ensures others { (s : SessionNo) → IsQuietBeside self.now.setup s self.now.history }
    {
        families_are_alone();
        glimpses_decide_outcomes();
        self.log.journal()
    }

    /// The setup that it was opened with.
    pub fn setup(&self) -> &Setup
        ensures { result.now ≡ self.now.setup }
    {
        &self.setup
    }
}

/// The fences, none of which is signalled, and the view ends, none of which was used.
fn new_sets(alloc: Global, setup: &Setup) -> Result<(FenceSet, UsedViewEnds), NoMemory>
    requires { IsTrue (is_within_limits setup.now) }
    ensures fences { IfOk result (λ new. length new.0 ≡ length setup.now.fences) }
    ensures none { IfOk result (λ new. (f : FenceNo) → has new.0 f ≡ false) }
    ensures views { IfOk result (λ new. length new.1 ≡ length setup.now.pairs) }
    ensures unused { IfOk result (λ new. (p : PairNo) → has_end new.1 p ≡ false) }
{
    let fences = FenceSet::new(alloc, setup.fences.len() as u32)?;
    let views = UsedViewEnds::new(alloc, setup.pairs.len() as u32)?;
    Ok((fences, views))
}

/// What is kept of sessions that made no entry.
fn new_sessions(alloc: Global, n: u32) -> Result<(Vec<SessionState>, Vec<Viewports>), NoMemory>
    ensures count { IfOk result (λ new. length new.0.items ≡ n) }
    ensures new { IfOk result (λ new. All IsNew new.0.items) }
    ensures ends { IfOk result (λ new. length new.1.items ≡ n) }
    ensures none { IfOk result (λ new. All HasNone new.1.items) }
{
    let states = new_states(alloc, n)?;
    let ends = new_ends(alloc, n)?;
    Ok((states, ends))
}

/// What is kept of pairs that nobody has used.
fn new_pairs(alloc: Global, setup: &Setup) -> Result<(LinkTable, Watchers), NoMemory>
    ensures tied { IfOk result (λ new. AreLinked setup.now [] new.0.linked_sessions.items
        new.0.pairs.items) }
    ensures watched { IfOk result (λ new. AreWatched setup.now [] new.1) }
    ensures told { IfOk result (λ new. due_told new.1 ≡ 0) }
{
    let links = LinkTable::new(alloc, setup)?;
    let watchers = Watchers::new(alloc, setup)?;
    Ok((links, watchers))
}

/// A fence's value.
fn number_if(is_signalled: bool) -> u32
    ensures { result ≡ number_if is_signalled }
{
    if is_signalled { 1 } else { 0 }
}

fn total_of(shares: &[u32]) -> u32
    requires { sum shares.now < 2 ^ 32 }
    ensures { result ≡ sum shares.now }
{
    shares.iter().sum()
}
