//! A play on its way. Lines run on the board itself, with no lock, since nobody enters
//! beside them. What a begin decides stays until the next one: the frame is composed at its
//! done.
ghost use Rattle.std.specs.Prelude.{◌≡◌, ◌+◌, ◌<◌, ◌^◌, [], true, length, Some, OnOk, OnErr};
ghost use Rattle.std.specs.Prelude.{slice_get};
ghost use Rattle.std.specs.Option.{option_copied};
ghost use Rattle.flat_base.specs.declared.ids.Actor.TheVariants.{Display, Session};
ghost use Rattle.flat_core.specs.Machines.{MayCall};
ghost use Rattle.flat_core.specs.Starts.{is_beside, IsStart};
ghost use Rattle.flat_play.specs.Playing.{session_text, display_text};
ghost use Rattle.flat_play.specs.Runs.{PlaysLine};
ghost use Rattle.flat_play.specs.Showing.{IsShown, KeepsDisplays};
ghost use Rattle.flat_play.specs.Touching.{GoesOnByEnds};
ghost use Rattle.flat_playable.specs.Playable.{is_playable};
ghost use Rattle.flat_report.specs.Report.{finished};
ghost use Rattle.flat_rules.specs.Legal.{frames};
ghost use Rattle.flat_scene.specs.Heads.{is_setup};
ghost use Rattle.flat_scene.specs.Interleave.{entry_of_display, IsWritten};
ghost use Rattle.flat_scene.specs.declared.journal.EntryKind.TheVariants.{Begin, Finish};
ghost use Rattle.flat_scene.specs.declared.script.LineBody.TheVariants as body;
ghost use Rattle.flat_scene.specs.declared.script.ScriptLine.{ScriptLine};

use crate::store::FrameStore;
use flat_base::{Actor, NoMemory, SessionNo, TryCopy};
use flat_core::{Board, FrameStart, shown_states_fit};
use flat_display::{Display, DisplaySet};
use flat_places::Script;
use flat_scene::{DisplayLine, LineBody, SessionLine};
use flat_session::{SessionReader, lines_are_read};
use std::alloc::Global;

/// A run: the board, the sessions, and what is shown.
#[derive(Drop)]
pub struct Play {
    pub board: Board,
    /// The sessions as they read their lines, session 1 first.
    pub readers: Vec<SessionReader>,
    /// What the last begin decided of its frame.
    pub start: FrameStart,
    /// What is kept of the finished frames.
    pub store: FrameStore,
}

impl Play {
    ghost use Rattle.flat_play.specs.Last.{IsLast};
    ghost use Rattle.flat_play.specs.Playing.{BeginsFrame, EndsStand, EntersBeside};
    ghost use Rattle.flat_play.specs.Playing.{FinishesFrame, HasPlayed, PlayStands};
    ghost use Rattle.flat_play.specs.Storing.{FramesStand};

    /// Begins a frame.
    fn begin(&mut self, number: u32, time: u64)
        requires may { MayCall self.old.board Display [] (Begin time) }
        requires start { IsStart self.old.board.setup self.old.board.history self.old.start }
        ensures { BeginsFrame self.old self.new number time }
    {
        let _frame = self.board.begin(number, time, &mut self.start);
    }

    /// Ends the frame that is open: it is composed and kept, shown to the displays
    /// that aren't lost, and entered.
    fn finish(
        &mut self,
        alloc: Global,
        script: &Script,
        number: u32,
        set: &mut DisplaySet,
        displays: &mut Vec<Box<dyn Display>>,
    ) -> Result<(), NoMemory>
        requires setup { is_setup script.now.setup ≡ true }
        requires of { self.old.board.setup ≡ script.now.setup }
        requires may { MayCall self.old.board Display [] Finish }
        requires frames { FramesStand script.now self.old.board.history self.old.start
            self.old.store }
        requires few { frames self.old.board.history + 1 < 2 ^ 32 }
        requires number { length displays.old.items ≡ set.old.displays }
        ensures finishes { OnOk result (FinishesFrame script.now self.old self.new number) }
        ensures shows { OnOk result (IsShown (λ d. shown d) (λ d. faults d)
            (finished script.now.setup self.old.board.history)
            (finished script.now.setup self.new.board.history) set.old set.new displays.old.items
            displays.new.items) }
        ensures unshown { OnErr result ((set.new ≡ set.old) × (displays.new ≡ displays.old)) }
        ensures displays { KeepsDisplays (λ d. d.vtable) set.old set.new displays.old.items
            displays.new.items }
    {
        // proof: the entries so far are legal, so what the frame shows fits the setup.
        let _journal = self.board.journal();
        shown_states_fit();
        self.store.finish(alloc, script, &self.start)?;
        self.store.show(set, displays);
        let _frame = self.board.done(number);
        Ok(())
    }

    /// Makes the entry of a line that begins no frame and ends none. A point that it asks for is
    /// answered by the last finished frame.
    fn enter_beside(
        &mut self,
        alloc: Global,
        number: u32,
        text: DisplayLine,
    ) -> Result<(), NoMemory>
        requires beside { is_beside text ≡ true }
        requires may { MayCall self.old.board Display [] (entry_of_display text) }
        requires setup { is_setup self.old.board.setup ≡ true }
        requires is { IsLast self.old.board.setup self.old.store.last }
        ensures { OnOk result (EntersBeside self.old self.new number text) }
    {
        let setup = self.board.setup();
        self.store.answer_line(alloc, setup, number, text)?;
        let _reply = self.board.enter_display(number, text);
        Ok(())
    }

    /// Plays a line of a session.
    fn play_session(
        &mut self,
        alloc: Global,
        script: &Script,
        place: usize,
        s: SessionNo,
        number: u32,
        text: &SessionLine,
    ) -> Result<(), NoMemory>
        requires line { slice_get script.now.lines place
            ≡ Some (record { number = number; actor = Session s; body = body.Session text.now }) }
        requires playable { is_playable script.now ≡ true }
        requires stands { PlayStands script.now place self.old }
        ensures plays { OnOk result (PlaysLine script.now place number self.old self.new) }
        ensures frames { OnOk result (finished script.now.setup self.new.board.history
            ≡ finished script.now.setup self.old.board.history) }
        ensures kept { OnOk result (self.new.store.kept ≡ self.old.store.kept) }
    {
        lines_are_read();
        let text = text.copy(alloc)?;
        let reader = &mut self.readers[s.0 as usize - 1];
        let _reply = reader.call(&mut self.board, number, text)?;
        Ok(())
    }

    /// Plays the display's line at a place of the script; `text` is what it says.
    fn play_display(
        &mut self,
        alloc: Global,
        script: &Script,
        place: usize,
        text: DisplayLine,
        set: &mut DisplaySet,
        displays: &mut Vec<Box<dyn Display>>,
    ) -> Result<(), NoMemory>
        requires place { place < length script.now.lines }
        requires line { (line : ScriptLine) → slice_get script.now.lines place ≡ Some line →
            (line.actor ≡ Display) × (line.body ≡ body.Display text) }
        requires playable { is_playable script.now ≡ true }
        requires stands { PlayStands script.now place self.old }
        requires number { length displays.old.items ≡ set.old.displays }
        ensures plays { (line : ScriptLine) → slice_get script.now.lines place ≡ Some line →
            OnOk result (PlaysLine script.now place line.number self.old self.new) }
        ensures shows { OnOk result (IsShown (λ d. shown d) (λ d. faults d)
            (finished script.now.setup self.old.board.history)
            (finished script.now.setup self.new.board.history) set.old set.new displays.old.items
            displays.new.items) }
        ensures unshown { OnErr result ((set.new ≡ set.old) × (displays.new ≡ displays.old)) }
        ensures displays { KeepsDisplays (λ d. d.vtable) set.old set.new displays.old.items
            displays.new.items }
    {
        // proof: the entries so far are legal.
        let _journal = self.board.journal();
        let line = script.lines.at(place);
        match text {
            DisplayLine::Begin(time) => {
                self.begin(line.number, time);
                Ok(())
            }
            DisplayLine::Done => self.finish(alloc, script, line.number, set, displays),
            _ => self.enter_beside(alloc, line.number, text),
        }
    }

    /// Plays the line at a place of the script. Where it finishes a frame, this is
    /// shown to the displays before the entry is made. A line of a probe leaves the run
    /// as it is.
    pub fn play_line(
        &mut self,
        alloc: Global,
        script: &Script,
        place: usize,
        set: &mut DisplaySet,
        displays: &mut Vec<Box<dyn Display>>,
    ) -> Result<(), NoMemory>
        requires place { place < length script.now.lines }
        requires playable { is_playable script.now ≡ true }
        requires stands { PlayStands script.now place self.old }
        requires number { length displays.old.items ≡ set.old.displays }
        ensures plays { (line : ScriptLine) → slice_get script.now.lines place ≡ Some line →
            OnOk result (PlaysLine script.now place line.number self.old self.new) }
        ensures shows { OnOk result (IsShown (λ d. shown d) (λ d. faults d)
            (finished script.now.setup self.old.board.history)
            (finished script.now.setup self.new.board.history) set.old set.new displays.old.items
            displays.new.items) }
        ensures unshown { OnErr result ((set.new ≡ set.old) × (displays.new ≡ displays.old)) }
        ensures displays { KeepsDisplays (λ d. d.vtable) set.old set.new displays.old.items
            displays.new.items }
    {
        let line = script.lines.at(place);
        match line.actor {
            Actor::Session(s) => match session_text(&line.body) {
                Some(text) => self.play_session(alloc, script, place, s, line.number, text),
                None => unreachable!(),
            },
            Actor::Display => match display_text(&line.body) {
                Some(text) => self.play_display(alloc, script, place, text, set, displays),
                None => unreachable!(),
            },
            Actor::Probe(_) => Ok(()),
        }
    }

    /// Ends the session after so many others, behind all lines of the script.
    fn end_next(&mut self, script: &Script, before: u32)
        requires within { before < script.now.setup.sessions }
        requires playable { is_playable script.now ≡ true }
        requires stands { EndsStand script.now before self.old }
        ensures stands { EndsStand script.now (before + 1) self.new }
        ensures ends { GoesOnByEnds self.old.board.history self.new.board.history }
        ensures frames { finished script.now.setup self.new.board.history
            ≡ finished script.now.setup self.old.board.history }
        ensures kept { self.new.store.kept ≡ self.old.store.kept }
    {
        lines_are_read();
        let reader = &mut self.readers[before as usize];
        let _reply = reader.end(&mut self.board, script.count + 1);
    }

    /// Ends all sessions in their order.
    pub fn end_all(&mut self, script: &Script)
        requires playable { is_playable script.now ≡ true }
        requires stands { PlayStands script.now (length script.now.lines) self.old }
        ensures played { HasPlayed script.now self.new.board self.new.store.kept
            self.new.store.answers }
        ensures written { IsWritten script.now.setup self.new.board.history }
        ensures ends { GoesOnByEnds self.old.board.history self.new.board.history }
        ensures frames { finished script.now.setup self.new.board.history
            ≡ finished script.now.setup self.old.board.history }
        ensures kept { self.new.store.kept ≡ self.old.store.kept }
    {
        for before in 0..script.setup.sessions {
            self.end_next(script, before);
        }
    }
}

/// The line of a session that a body is.
fn session_text(body: &LineBody) -> Option<&SessionLine>
    ensures { option_copied result ≡ session_text body.now }
{
    match body {
        LineBody::Session(text) => Some(text),
        _ => None,
    }
}

/// The line of the display that a body is.
fn display_text(body: &LineBody) -> Option<DisplayLine>
    ensures { result ≡ display_text body.now }
{
    match body {
        LineBody::Display(text) => Some(*text),
        _ => None,
    }
}
