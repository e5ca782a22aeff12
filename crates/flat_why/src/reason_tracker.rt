//! Hears of each entry of a run once it is made, and writes at the end of each frame why
//! its sessions are on the display, or aren't (specs/Noted).
//!
//! What a begin shows, takes and leaves waiting is known once it is entered, and stays so
//! until its frame ends: so where each session hangs is looked at there.
ghost use Rattle.std.specs.Prelude.{◌≡◌, ◌==◌, ◌++◌, ◌-◌, ◌<◌, ◌≤◌, suc, false, true, not, [], IfOk, OnOk, All, List};
ghost use Rattle.std.specs.Prelude.{None, Some, drop, length, find, filter, map, replicate, take};
ghost use Rattle.std.specs.Option.{option_copied};
ghost use Rattle.flat_base.specs.Last.{last_item};
ghost use Rattle.flat_base.specs.declared.ids.Actor.TheVariants.{Session};
ghost use Rattle.flat_base.specs.declared.ids.PairNo.{PairNo};
ghost use Rattle.flat_base.specs.declared.ids.SessionNo.{SessionNo};
ghost use Rattle.flat_scene.specs.declared.journal.Entry.{Entry};
ghost use Rattle.flat_scene.specs.declared.journal.EntryKind.TheVariants.{Begin, Finish};
ghost use Rattle.flat_scene.specs.Frames.{is_signalled, ratio, sessions_to, taken};
ghost use Rattle.flat_scene.specs.History.{◌▹◌, is_begin, is_closed, is_finish, presents};
ghost use Rattle.flat_scene.specs.Setups.{is_declared};
ghost use Rattle.flat_scene.specs.Heads.{is_setup};
ghost use Rattle.flat_places.specs.declared.script.Script.{Script};
ghost use Rattle.flat_report.specs.Report.{finished};
ghost use Rattle.flat_rules.specs.Ends.{is_done, to_begin};
ghost use Rattle.flat_rules.specs.Legal.{begin_time};
ghost use Rattle.flat_rules.specs.Shown.{shown_states};
ghost use Rattle.flat_topology.specs.Fit.{FitsSetup};
ghost use Rattle.flat_why.specs.Reasons.{hold_of, is_waiting, waiting_of, closing_by, closing_of, dues_by, nothing_by};
ghost use Rattle.flat_why.specs.Reasons.{first_of, standing_in, used_by};
ghost use Rattle.flat_why.specs.Noted.{closings_in, uses_in, with_closing, with_use, newest, IsKnown, WhysStand};
ghost use Rattle.flat_why.specs.Noted.{WhysTell};
ghost use Rattle.flat_why.specs.Text.{why_text};

use crate::entries::{closing_by, due_by, used_by};
use crate::holds::{is_waiting, waiting_of};
use crate::reasons::{AttachPoint, CloseReason, MadePresent, PendingPresent};
use crate::tables::{no_closings, no_standings, no_uses, note_standings};
use crate::text::{ExplainedFrame, push_sessions, push_waits};
use flat_base::{Actor, NoMemory, PairNo, SessionNo};
use flat_core::{Board, shown_states_fit};
use flat_join::ShownStates;
use flat_page::Page;
use flat_places::Script;
use flat_scene::{Entry, EntryKind, FrameOut, WaitCondition};
use std::alloc::Global;
use std::collections::VecDeque;

/// What is known of a run so far: what its frames' causes hang on, and their text.
#[derive(Drop)]
pub struct ReasonTracker {
    /// The lines of the frames that are finished.
    pub page: Page,
    /// How many they are.
    pub frames: u32,
    /// How each session was closed, session 1 first.
    pub closings: Vec<Option<CloseReason>>,
    /// How many presents its owner had made at the last use of each pair's viewport end.
    pub last_uses: Vec<Option<u32>>,
    /// The presents that no begin has taken, in the order in which they were made.
    pub dues: VecDeque<MadePresent>,
    /// Where each session hangs in the frame begun last.
    pub standings: Vec<AttachPoint>,
    /// The presents that it left waiting.
    pub waits: Vec<PendingPresent>,
}

/// The entry that a board made last, if it made one.
fn newest(board: &Board) -> Option<&Entry>
    ensures { option_copied result ≡ newest board.now.history }
{
    board.journal().entries.as_slice().last()
}

impl ReasonTracker {
    /// Before any entry.
    pub fn new(alloc: Global, script: &Script) -> Result<ReasonTracker, NoMemory>
        ensures { IfOk result (WhysStand script.now []) }
    {
        let setup = &script.setup;
        let closings = no_closings(alloc, setup.sessions)?;
        let last_uses = no_uses(alloc, setup.pairs.len())?;
        let standings = no_standings(alloc, setup.sessions)?;
        Ok(ReasonTracker {
            page: Page::new(alloc),
            frames: 0,
            closings,
            last_uses,
            dues: VecDeque::new(alloc),
            standings,
            waits: Vec::new(alloc),
        })
    }

    /// Notes how an entry closes its session.
    fn note_closing(&mut self, s: SessionNo, entry: &Entry)
        requires some { 0 < s.0 }
        requires few { s.0 ≤ length self.old.closings.items }
        ensures closings { self.new.closings.items
            ≡ with_closing s (closing_by entry.now.line entry.now.reply) self.old.closings.items }
        ensures rest { self.new ≡ record self.old { closings = self.new.closings } }
    {
        if let Some(closing) = closing_by(entry) {
            self.closings[s.0 as usize - 1] = Some(closing);
        }
    }

    /// Notes the use of a viewport end.
    fn note_use(&mut self, board: &Board, s: SessionNo, entry: &Entry)
        requires declared { is_declared board.now.setup s ≡ true }
        requires pairs { (p : PairNo) → used_by entry.now.kind entry.now.reply ≡ Some p →
            p.0 < length self.old.last_uses.items }
        ensures uses { self.new.last_uses.items ≡ with_use (used_by entry.now.kind entry.now.reply)
            (length (presents s board.now.history)) self.old.last_uses.items }
        ensures rest { self.new ≡ record self.old { last_uses = self.new.last_uses } }
    {
        if let Some(p) = used_by(entry) {
            let made = board.value(Actor::Display, WaitCondition::Presents(s, 0));
            self.last_uses[p.0 as usize] = Some(made);
        }
    }

    /// Notes a present.
    fn note_present(&mut self, alloc: Global, s: SessionNo, entry: &Entry) -> Result<(), NoMemory>
        requires { entry.now.actor ≡ Session s }
        ensures dues { OnOk result (self.new.dues.items ≡ self.old.dues.items
            ++ dues_by entry.now.actor entry.now.kind entry.now.reply) }
        ensures rest { self.new ≡ record self.old { dues = self.new.dues } }
    {
        if let Some(due) = due_by(alloc, s, entry)? {
            self.dues.push_back(due)?;
        }
        Ok(())
    }

    /// Notes what an entry of a session tells.
    fn note_session(
        &mut self,
        alloc: Global,
        script: &Script,
        board: &Board,
        s: SessionNo,
        entry: &Entry,
    ) -> Result<(), NoMemory>
        requires of { board.now.setup ≡ script.now.setup }
        requires setup { is_setup script.now.setup ≡ true }
        requires by { entry.now.actor ≡ Session s }
        requires before { (old : List Entry) × (board.now.history ≡ (old ▹ entry.now))
            × WhysStand script.now old self.old }
        ensures { OnOk result (WhysStand script.now board.now.history self.new) }
    {
        // proof: the entries so far are legal.
        let _journal = board.journal();
        self.note_closing(s, entry);
        self.note_use(board, s, entry);
        self.note_present(alloc, s, entry)
    }

    /// Keeps the first present where it waits, as the last, and says what holds it.
    fn note_wait(&mut self, board: &Board, time: u64) -> Result<(), NoMemory>
        requires time { time ≡ begin_time board.now.history }
        requires known { All (IsKnown board.now.setup) self.old.dues.items }
        requires sessions { length self.old.closings.items ≡ board.now.setup.sessions }
        requires closed { (s : SessionNo) → is_declared board.now.setup s ≡ true →
            closings_in self.old.closings.items s ≡ closing_of s board.now.history }
        ensures dues { OnOk result (self.new.dues.items ≡ drop 1 self.old.dues.items
            ++ filter (is_waiting board.now.setup board.now.history) (take 1 self.old.dues.items)) }
        ensures waits { OnOk result (self.new.waits.items ≡ self.old.waits.items
            ++ map (waiting_of board.now.setup board.now.history)
            (filter (is_waiting board.now.setup board.now.history) (take 1 self.old.dues.items))) }
        ensures rest { self.new
            ≡ record self.old { dues = self.new.dues; waits = self.new.waits } }
    {
        let Some(due) = self.dues.pop_front() else {
            return Ok(());
        };
        if !is_waiting(self.closings.as_slice(), board, &due) {
            return Ok(());
        }
        self.waits.push(waiting_of(board, time, &due))?;
        self.dues.push_back(due)?;
        Ok(())
    }

    /// Keeps those presents alone that a begin left waiting, and says what holds them.
    fn note_waits(&mut self, board: &Board, time: u64) -> Result<(), NoMemory>
        requires time { time ≡ begin_time board.now.history }
        requires known { All (IsKnown board.now.setup) self.old.dues.items }
        requires sessions { length self.old.closings.items ≡ board.now.setup.sessions }
        requires closed { (s : SessionNo) → is_declared board.now.setup s ≡ true →
            closings_in self.old.closings.items s ≡ closing_of s board.now.history }
        ensures dues { OnOk result (self.new.dues.items
            ≡ filter (is_waiting board.now.setup board.now.history) self.old.dues.items) }
        ensures waits { OnOk result
            (self.new.waits.items ≡ map (waiting_of board.now.setup board.now.history)
            (filter (is_waiting board.now.setup board.now.history) self.old.dues.items)) }
        ensures rest { self.new
            ≡ record self.old { dues = self.new.dues; waits = self.new.waits } }
    {
        self.waits.clear();
        for _ in 0..self.dues.len() {
            self.note_wait(board, time)?;
        }
        Ok(())
    }

    /// Notes the begin of a frame.
    fn begin(
        &mut self,
        script: &Script,
        board: &Board,
        shown: &ShownStates,
        time: u64,
    ) -> Result<(), NoMemory>
        requires of { board.now.setup ≡ script.now.setup }
        requires setup { is_setup script.now.setup ≡ true }
        requires shown { shown.now ≡ shown_states script.now.setup board.now.history }
        requires before { (old : List Entry) × (entry : Entry) × (entry.kind ≡ Begin time)
            × (board.now.history ≡ (old ▹ entry)) × WhysStand script.now old self.old }
        ensures { OnOk result (WhysStand script.now board.now.history self.new) }
    {
        // proof: the entries so far are legal.
        let _journal = board.journal();
        shown_states_fit();
        self.note_waits(board, time)?;
        note_standings(
            self.standings.as_mut_slice(),
            board,
            shown,
            self.closings.as_slice(),
            self.last_uses.as_slice(),
            self.waits.as_slice(),
        );
        Ok(())
    }

    /// Writes the lines of a frame that ends: what it shows is known, with the pixel ratio
    /// at its begin.
    fn finish(
        &mut self,
        alloc: Global,
        script: &Script,
        board: &Board,
        scale: u32,
        shown: &ShownStates,
        frame: Option<&FrameOut>,
    ) -> Result<(), NoMemory>
        requires of { board.now.setup ≡ script.now.setup }
        requires setup { is_setup script.now.setup ≡ true }
        requires shown { shown.now ≡ shown_states script.now.setup (to_begin board.now.history) }
        requires ratio { scale ≡ ratio script.now.setup (to_begin board.now.history) }
        requires frame { option_copied frame
            ≡ last_item (finished script.now.setup board.now.history) }
        requires before { (old : List Entry) × (entry : Entry) × (entry.kind ≡ Finish)
            × (board.now.history ≡ (old ▹ entry)) × WhysStand script.now old self.old }
        ensures { OnOk result (WhysStand script.now board.now.history self.new) }
    {
        // proof: the entries so far are legal.
        let _journal = board.journal();
        shown_states_fit();
        let Some(frame) = frame else {
            return Ok(());
        };
        let scene = ExplainedFrame {
            shown,
            ratio: scale,
            frame,
            standings: self.standings.as_slice(),
        };
        push_sessions(&mut self.page, alloc, script, &scene)?;
        push_waits(&mut self.page, script, frame.frame, self.waits.as_slice())?;
        self.frames = frame.frame.0;
        Ok(())
    }

    /// Notes an entry that neither begins a frame nor ends one.
    fn note_between(
        &mut self,
        alloc: Global,
        script: &Script,
        board: &Board,
        entry: &Entry,
    ) -> Result<(), NoMemory>
        requires of { board.now.setup ≡ script.now.setup }
        requires setup { is_setup script.now.setup ≡ true }
        requires no_begin { is_begin entry.now.kind ≡ false }
        requires no_finish { is_finish entry.now.kind ≡ false }
        requires before { (old : List Entry) × (board.now.history ≡ (old ▹ entry.now))
            × WhysStand script.now old self.old }
        ensures { OnOk result (WhysStand script.now board.now.history self.new) }
    {
        // proof: the entries so far are legal.
        let _journal = board.journal();
        match entry.actor {
            Actor::Session(s) => self.note_session(alloc, script, board, s, entry),
            _ => Ok(()),
        }
    }

    /// Notes the entry that a board made last. What the frame begun last shows is known,
    /// with the pixel ratio at its begin, and the frame that was finished last.
    pub fn note(
        &mut self,
        alloc: Global,
        script: &Script,
        board: &Board,
        scale: u32,
        shown: &ShownStates,
        frame: Option<&FrameOut>,
    ) -> Result<(), NoMemory>
        requires of { board.now.setup ≡ script.now.setup }
        requires setup { is_setup script.now.setup ≡ true }
        requires shown { shown.now ≡ shown_states script.now.setup (to_begin board.now.history) }
        requires ratio { scale ≡ ratio script.now.setup (to_begin board.now.history) }
        requires frame { option_copied frame
            ≡ last_item (finished script.now.setup board.now.history) }
        requires before { (old : List Entry) × (entry : Entry)
            × (board.now.history ≡ (old ▹ entry)) × WhysStand script.now old self.old }
        ensures { OnOk result (WhysStand script.now board.now.history self.new) }
    {
        let Some(entry) = newest(board) else {
            return Ok(());
        };
        match entry.kind {
            EntryKind::Begin(time) => self.begin(script, board, shown, time),
            EntryKind::Finish => self.finish(alloc, script, board, scale, shown, frame),
            _ => self.note_between(alloc, script, board, entry),
        }
    }

    /// The whole text.
    pub fn into_text(self) -> Result<Vec<u8>, NoMemory>
        ensures { (script : Script) (history : List Entry) → WhysTell script history self →
            IfOk result (λ text. text.items ≡ why_text script history) }
    {
        let ReasonTracker {
            mut page,
            frames,
            closings: _,
            last_uses: _,
            dues: _,
            standings: _,
            waits: _,
        } = self;
        page.ends(b"why", b"frames", frames as usize)?;
        Ok(page.into_text())
    }
}
