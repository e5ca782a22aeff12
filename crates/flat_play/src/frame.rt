//! The last finished frame. A frame is composed without a joined tree, which points and
//! probes want: what is shown is joined at the first of them, and stays for the next ones
//! and for later frames before which neither a session nor the pixel ratio changed.
ghost use Rattle.std.specs.Prelude.{◌≡◌, ◌+◌, ◌<◌, ◌^◌, List, [], true, length};
ghost use Rattle.std.specs.Prelude.{IfOk, IsTrue, OnErr, OnOk};
ghost use Rattle.std.specs.List.{list_any};
ghost use Rattle.std.specs.Arc.{arc_value};
ghost use Rattle.flat_scene.specs.declared.frames.FrameOut.{FrameOut};
ghost use Rattle.flat_scene.specs.declared.setup.Setup.{Setup};
ghost use Rattle.flat_scene.specs.declared.journal.Entry.{Entry};
ghost use Rattle.flat_scene.specs.Frames.{setup_at};
ghost use Rattle.flat_scene.specs.Setups.{at_ratio};
ghost use Rattle.flat_scene.specs.Heads.{is_setup};
ghost use Rattle.flat_topology.specs.Changes.{AreSame};
ghost use Rattle.flat_topology.specs.Connected.{joined_lists};
ghost use Rattle.flat_topology.specs.Fit.{FitsSetup};
ghost use Rattle.flat_topology.specs.Hits.{hit_list};
ghost use Rattle.flat_rules.specs.Shown.{shown_states};
ghost use Rattle.flat_report.specs.Report.{frame_at};
ghost use Rattle.flat_core.specs.Views.{AreViewed};
ghost use Rattle.flat_core.specs.Starts.{IsStart};
ghost use Rattle.flat_play.specs.Last.{IsJoined};
ghost use Rattle.flat_rules.specs.Ends.{to_begin};
ghost use Rattle.flat_play.specs.Probing.{answer_of};

use flat_base::{Actor, FrameNo, NoMemory};
use flat_core::{FrameStart, shown_states_fit};
use flat_hit::HitIndex;
use flat_join::{ShownStates, join};
use flat_report::ProbeAnswer;
use flat_reuse::{Drawing, Reuse};
use flat_scene::{FrameOut, HitList, ProbeLine, SessionSet, Setup};
use flat_tree::{tree_of, trees_follow};
use std::alloc::Global;
use std::sync::Arc;

/// The last finished frame: what is kept of it for the next one, and for points.
#[derive(Drop)]
pub struct LastFrame {
    /// Its number, 0 where there is none.
    pub frame: FrameNo,
    /// What it was composed of. Contracts see what its sessions show.
    pub reuse: Reuse,
    /// The pixel ratio at which it was composed.
    pub ratio: u32,
    /// What they show, joined, once that was asked for.
    pub joined: Option<Arc<HitIndex>>,
}

/// What shown states are, joined at a pixel ratio, if that isn't done yet.
fn joined_once(
    alloc: Global,
    setup: &Setup,
    ratio: u32,
    shown: &ShownStates,
    joined: Option<Arc<HitIndex>>,
) -> Result<Arc<HitIndex>, NoMemory>
    requires setup { is_setup setup.now ≡ true }
    requires count { length shown.now ≡ setup.now.sessions }
    requires fit { FitsSetup setup.now shown.now }
    requires joined { IsJoined (at_ratio ratio setup.now) shown.now joined }
    ensures { IfOk result (λ all. arc_value all
        ≡ joined_lists (at_ratio ratio setup.now) shown.now) }
{
    match joined {
        Some(joined) => Ok(joined),
        None => {
            let joined = HitIndex::new(alloc, join(alloc, shown, setup, ratio)?)?;
            Ok(Arc::new(alloc, joined)?)
        }
    }
}

/// Whether a set has a session.
fn has_any(set: &SessionSet) -> bool
    ensures { result ≡ list_any (λ has. has) set.now.has }
{
    set.has.iter().any(|has| *has)
}

impl LastFrame {
    ghost use Rattle.flat_play.specs.Last.{IsLast, MayFollow, ShowsStart, StaysLast};

    /// No frame: nothing is shown.
    pub fn none(alloc: Global, setup: &Setup) -> Result<LastFrame, NoMemory>
        requires { is_setup setup.now ≡ true }
        ensures number { IfOk result (λ last. last.frame.0 ≡ 0) }
        ensures is { IfOk result (λ last. IsLast setup.now last) }
        ensures shows { IfOk result (λ last. last.reuse ≡ shown_states setup.now []) }
        ensures ratio { IfOk result (λ last. last.ratio ≡ setup.now.ratio) }
    {
        shown_states_fit();
        let shown = ShownStates::new(alloc, setup.sessions)?;
        let mut reuse = Reuse::new(alloc)?;
        let _nothing = reuse.draw_next(alloc, &shown, setup, setup.ratio)?;
        Ok(LastFrame {
            frame: FrameNo(0),
            reuse,
            ratio: setup.ratio,
            joined: None,
        })
    }

    /// The next frame, as it is composed of what the sessions show, at a pixel ratio.
    /// Those outside `changed` show what they showed in this one. Where what is shown,
    /// the pixel ratio, and who has a view are those of a begin, it is the frame of this
    /// begin.
    ///
    /// What is kept is that of the next frame from then on, but for its number.
    pub fn compose_next(
        &mut self,
        alloc: Global,
        setup: &Setup,
        ratio: u32,
        shown: &ShownStates,
        changed: SessionSet,
        with_view: SessionSet,
    ) -> Result<FrameOut, NoMemory>
        requires setup { is_setup setup.now ≡ true }
        requires count { length shown.now ≡ setup.now.sessions }
        requires fit { FitsSetup setup.now shown.now }
        requires same { AreSame changed self.old.reuse shown.now }
        requires few { self.old.frame.0 + 1 < 2 ^ 32 }
        ensures frame { (begun : List Entry) → shown.now ≡ shown_states setup.now begun →
            at_ratio ratio setup.now ≡ setup_at setup.now begun →
            AreViewed setup.now begun with_view → IfOk result (λ frame. frame
            ≡ frame_at setup.now (self.old.frame.0 + 1) begun) }
        ensures is { OnOk result (IsLast setup.now self.new) }
        ensures shows { OnOk result (self.new.reuse ≡ shown.now) }
        ensures ratio { self.new.ratio ≡ ratio }
        ensures number { self.new.frame ≡ self.old.frame }
    {
        trees_follow();
        self.joined = None;
        self.ratio = ratio;
        let Drawing { items, views } = self
            .reuse
            .draw_changed(alloc, shown, setup, ratio, changed)?;
        let tree = tree_of(alloc, views, with_view)?;
        Ok(FrameOut {
            frame: FrameNo(self.frame.0 + 1),
            items,
            tree,
        })
    }

    /// The next frame, composed as it starts. What is kept is that of the next frame from then
    /// on, but for its number.
    pub fn compose(
        &mut self,
        alloc: Global,
        setup: &Setup,
        start: &FrameStart,
    ) -> Result<FrameOut, NoMemory>
        requires setup { is_setup setup.now ≡ true }
        requires follows { MayFollow setup.now start.now self.old }
        ensures frame { (history : List Entry) → IsStart setup.now history start.now →
            IfOk result (λ frame. frame
            ≡ frame_at setup.now (self.old.frame.0 + 1) (to_begin history)) }
        ensures shows { OnOk result (ShowsStart setup.now start.now self.new) }
        ensures number { self.new.frame ≡ self.old.frame }
    {
        self.compose_next(
            alloc,
            setup,
            start.ratio,
            &start.shown,
            start.changed,
            start.with_view,
        )
    }

    /// Whether there is a frame, and the next one has its items: no session changed, and the
    /// pixel ratio is the same.
    pub(crate) fn stays(&self, start: &FrameStart) -> bool
        ensures some { IsTrue result → 0 < self.now.frame.0 }
        ensures shown { length self.now.reuse ≡ length start.now.shown →
            AreSame start.now.changed self.now.reuse start.now.shown → IsTrue result →
            self.now.reuse ≡ start.now.shown }
        ensures ratio { IsTrue result → self.now.ratio ≡ start.now.ratio }
    {
        if self.frame.0 == 0 {
            return false;
        }
        if has_any(&start.changed) {
            return false;
        }
        self.ratio == start.ratio
    }

    /// Who is hit at a point. What the sessions show is joined at the first one.
    pub fn hits(
        &mut self,
        alloc: Global,
        setup: &Setup,
        x: i32,
        y: i32,
    ) -> Result<HitList, NoMemory>
        requires setup { is_setup setup.now ≡ true }
        requires is { IsLast setup.now self.old }
        ensures hits { IfOk result (λ hits. hits
            ≡ hit_list (at_ratio self.old.ratio setup.now) self.old.reuse x y) }
        ensures stays { OnOk result (StaysLast setup.now self.old self.new) }
        ensures kept { OnErr result (StaysLast setup.now self.old self.new) }
    {
        let joined = joined_once(
            alloc,
            setup,
            self.ratio,
            self.reuse.shown(),
            self.joined.take(),
        )?;
        let found = joined.hits(alloc, x, y)?;
        self.joined = Some(joined);
        Ok(found)
    }

    /// The answer to a line of a probe: the number, and who is hit where a point is asked
    /// for.
    pub fn answer(
        &mut self,
        alloc: Global,
        setup: &Setup,
        actor: Actor,
        line: u32,
        asked: ProbeLine,
    ) -> Result<ProbeAnswer, NoMemory>
        requires setup { is_setup setup.now ≡ true }
        requires is { IsLast setup.now self.old }
        ensures answer { IfOk result (λ answer. answer
            ≡ answer_of (at_ratio self.old.ratio setup.now) self.old.reuse self.old.frame.0 actor
            line asked) }
        ensures stays { OnOk result (StaysLast setup.now self.old self.new) }
    {
        let hits = match asked {
            ProbeLine::Hit(x, y) => self.hits(alloc, setup, x, y)?,
            ProbeLine::Await(_) => HitList::new(alloc),
        };
        Ok(ProbeAnswer {
            actor,
            line,
            asked,
            frame: self.frame,
            hits,
        })
    }

    /// One more handle of what the sessions show, joined, as points are answered by it.
    pub fn share_joined(&mut self, alloc: Global, setup: &Setup) -> Result<Arc<HitIndex>, NoMemory>
        requires setup { is_setup setup.now ≡ true }
        requires is { IsLast setup.now self.old }
        ensures joined { IfOk result (λ all. arc_value all
            ≡ joined_lists (at_ratio self.old.ratio setup.now) self.old.reuse) }
        ensures stays { OnOk result (StaysLast setup.now self.old self.new) }
    {
        let joined = joined_once(
            alloc,
            setup,
            self.ratio,
            self.reuse.shown(),
            self.joined.take(),
        )?;
        let shared = Arc::try_clone(&joined)?;
        self.joined = Some(joined);
        Ok(shared)
    }
}
