//! What is kept of the frames that a board finishes. It hangs on the history alone, and not on
//! who reads which lines: so a play, a race and a judge of reports each have one.
ghost use Rattle.std.specs.Prelude.{◌≡◌, ◌+◌, ◌<◌, ◌^◌, ◌++◌, ◌∷◌, [], true, List, length, map};
ghost use Rattle.std.specs.Prelude.{IfOk, OnErr, OnOk, Some};
ghost use Rattle.flat_base.specs.Last.{last_item};
ghost use Rattle.flat_core.specs.Starts.{IsStart};
ghost use Rattle.flat_display.specs.Shows.{Shows};
ghost use Rattle.flat_places.specs.declared.script.Script.{Script};
ghost use Rattle.flat_play.specs.Keeping.{Keeps, KeepsMore, keeping_of};
ghost use Rattle.flat_play.specs.Last.{IsLast, MayFollow, ShowsStart};
ghost use Rattle.flat_report.specs.FrameTexts.{unchanged};
ghost use Rattle.flat_report.specs.Report.{frame_at};
ghost use Rattle.flat_rules.specs.Ends.{to_begin};
ghost use Rattle.flat_rules.specs.Legal.{frames};
ghost use Rattle.flat_scene.specs.Heads.{is_setup};
ghost use Rattle.flat_scene.specs.declared.frames.FrameOut.{FrameOut};
ghost use Rattle.flat_scene.specs.declared.frames.LostDisplay.{LostDisplay};
ghost use Rattle.flat_scene.specs.declared.journal.Entry.{Entry};
ghost use Rattle.flat_tree.specs.Trees.{tree_of};

use crate::frame::LastFrame;
use crate::kept_frames::{FramesToKeep, KeptFrames};
use flat_base::{Actor, FrameNo, NoMemory, TryCopy};
use flat_core::FrameStart;
use flat_display::{Display, DisplaySet};
use flat_places::Script;
use flat_report::{HitAnswer, HitAnswers};
use flat_scene::{DisplayLine, NodeList, SessionSet, Setup, ViewTree};
use flat_tree::{tree_of, trees_follow};
use std::alloc::Global;

/// What is kept of the finished frames.
#[derive(Drop)]
pub struct FrameStore {
    /// What a word writes of them.
    pub kept: KeptFrames,
    /// The last of them: what the next one and points are composed from.
    pub last: LastFrame,
    /// The answers to the points that were asked for.
    pub answers: HitAnswers,
}

impl FrameStore {
    ghost use Rattle.flat_play.specs.Storing.{AnswersLine, AnswersPoint, FinishesNext};
    ghost use Rattle.flat_play.specs.Storing.{LacksNext, StaysStored, StoreStands};

    /// Before the first frame.
    pub fn new(
        alloc: Global,
        script: &Script,
        keeping: FramesToKeep,
    ) -> Result<FrameStore, NoMemory>
        requires { is_setup script.now.setup ≡ true }
        ensures stands { IfOk result (StoreStands script.now []) }
        ensures keeping { IfOk result (λ store. keeping_of store.kept ≡ keeping) }
    {
        let last = LastFrame::none(alloc, &script.setup)?;
        Ok(FrameStore {
            kept: KeptFrames::new(alloc, keeping),
            last,
            answers: HitAnswers::new(alloc),
        })
    }

    /// Finishes the next frame, which starts so: it is composed and kept. If nothing changed that
    /// its items hang on, it has those of the last one, and nothing is composed.
    pub fn finish(
        &mut self,
        alloc: Global,
        script: &Script,
        start: &FrameStart,
    ) -> Result<(), NoMemory>
        requires setup { is_setup script.now.setup ≡ true }
        requires follows { MayFollow script.now.setup start.now self.old.last }
        ensures finishes { (history : List Entry) → StoreStands script.now history self.old →
            IsStart script.now.setup history start.now →
            OnOk result (FinishesNext script.now history start.now self.old self.new) }
        ensures lacks { OnErr result (LacksNext self.old self.new) }
    {
        self.keep_next(alloc, script, start)?;
        self.last.frame = FrameNo(self.last.frame.0 + 1);
        Ok(())
    }

    /// Shows the last frame to the displays that aren't lost.
    pub fn show(&self, set: &mut DisplaySet, displays: &mut Vec<Box<dyn Display>>)
        requires { length displays.old.items ≡ set.old.displays }
        ensures shows { (script : Script) (before : List FrameOut) (frame : FrameOut) →
            Keeps script self.now.kept (before ++ frame ∷ []) → (more : List LostDisplay)
            × (set.new ≡ record set.old { lost = set.old.lost ++ more })
            × Shows (λ d. shown d) (λ d. faults d) frame set.old.lost 1 displays.old.items
            displays.new.items more }
        ensures same { set.new.displays ≡ set.old.displays }
        ensures length { length displays.new.items ≡ length displays.old.items }
        ensures kinds { map (λ d. d.vtable) displays.new.items
            ≡ map (λ d. d.vtable) displays.old.items }
    {
        if let Some(frame) = self.kept.last() {
            set.show(displays, frame);
        }
    }

    /// Answers a line of the display by the last frame, if it asks for a point. Out of memory,
    /// the answers stay as they are.
    pub fn answer_line(
        &mut self,
        alloc: Global,
        setup: &Setup,
        number: u32,
        text: DisplayLine,
    ) -> Result<(), NoMemory>
        requires setup { is_setup setup.now ≡ true }
        requires is { IsLast setup.now self.old.last }
        ensures answers { OnOk result (AnswersLine setup.now number text self.old self.new) }
        ensures stays { OnErr result (StaysStored setup.now self.old self.new) }
    {
        match text {
            DisplayLine::Hit(x, y) => self.answer_point(alloc, setup, number, x, y),
            _ => Ok(()),
        }
    }

    /// Answers a line that asks who is hit at a point, by the last frame.
    fn answer_point(
        &mut self,
        alloc: Global,
        setup: &Setup,
        number: u32,
        x: i32,
        y: i32,
    ) -> Result<(), NoMemory>
        requires setup { is_setup setup.now ≡ true }
        requires is { IsLast setup.now self.old.last }
        ensures answers { OnOk result (AnswersPoint setup.now number x y self.old self.new) }
        ensures stays { OnErr result (StaysStored setup.now self.old self.new) }
    {
        let hits = self.last.hits(alloc, setup, x, y)?;
        self.answers.push(HitAnswer {
            actor: Actor::Display,
            line: number,
            frame: self.last.frame,
            hits,
        })
    }

    /// Keeps the next frame, composed or with the items of the last one.
    fn keep_next(
        &mut self,
        alloc: Global,
        script: &Script,
        start: &FrameStart,
    ) -> Result<(), NoMemory>
        requires setup { is_setup script.now.setup ≡ true }
        requires follows { MayFollow script.now.setup start.now self.old.last }
        ensures keeps { (history : List Entry) → StoreStands script.now history self.old →
            IsStart script.now.setup history start.now →
            OnOk result (KeepsMore script.now (frame_at script.now.setup (frames history + 1)
            (to_begin history)) self.old.kept self.new.kept) }
        ensures shows { IsLast script.now.setup self.old.last →
            OnOk result (ShowsStart script.now.setup start.now self.new.last) }
        ensures number { self.new.last.frame ≡ self.old.last.frame }
        ensures points { self.new.answers ≡ self.old.answers }
    {
        trees_follow();
        if self.last.stays(start) {
            return self.keep_unchanged(alloc, script, start.with_view);
        }
        let frame = self.last.compose(alloc, &script.setup, start)?;
        self.kept.keep(script, frame)
    }

    /// Keeps the next frame, which has the items of the last one.
    fn keep_unchanged(
        &mut self,
        alloc: Global,
        script: &Script,
        with_view: SessionSet,
    ) -> Result<(), NoMemory>
        requires few { self.old.last.frame.0 + 1 < 2 ^ 32 }
        ensures keeps { (frames : List FrameOut) (last : FrameOut) →
            Keeps script.now self.old.kept frames → last_item frames ≡ Some last →
            OnOk result (KeepsMore script.now (unchanged (record { 0 = self.old.last.frame.0 + 1 })
            (tree_of last.tree.nodes with_view) last) self.old.kept self.new.kept) }
        ensures others { self.new ≡ record self.old { kept = self.new.kept } }
    {
        let tree = self.next_tree(alloc, with_view)?;
        let number = FrameNo(self.last.frame.0 + 1);
        self.kept.keep_unchanged(script, number, tree)
    }

    /// The view tree of the next frame, where its views are those of the last one.
    fn next_tree(&self, alloc: Global, with_view: SessionSet) -> Result<ViewTree, NoMemory>
        ensures { (script : Script) (frames : List FrameOut) (last : FrameOut) →
            Keeps script self.now.kept frames → last_item frames ≡ Some last →
            IfOk result (λ tree. tree ≡ tree_of last.tree.nodes with_view) }
    {
        let views = match self.kept.last() {
            Some(last) => last.tree.nodes.copy(alloc)?,
            None => NodeList::new(alloc),
        };
        tree_of(alloc, views, with_view)
    }
}
