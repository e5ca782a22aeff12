//! A run in which each actor makes its next entry when it is told to. At the end all make
//! those that are left, so that each run comes to its end.
ghost use Rattle.std.specs.Prelude.{◌≡◌, ◌≢◌, ◌⊎◌, ◌||◌, ◌+◌, ◌<◌, ◌≤◌, ℕ, suc, [], List, true, false, length, map};
ghost use Rattle.std.specs.Prelude.{replicate, slice_get, Some, IfOk, OnOk};
ghost use Rattle.flat_scene.specs.Setups.{at_ratio};
ghost use Rattle.flat_scene.specs.Heads.{is_setup};
ghost use Rattle.flat_rules.specs.Legal.{frames};
ghost use Rattle.flat_playable.specs.Playable.{is_playable};
ghost use Rattle.flat_report.specs.declared.probes.ProbeAnswer.{ProbeAnswer};
ghost use Rattle.flat_report.specs.Probes.{frame_seen};
ghost use Rattle.flat_play.specs.Last.{IsLast, StaysLast};
ghost use Rattle.flat_play.specs.Playing.{display_text};
ghost use Rattle.flat_play.specs.Probing.{answer_of, with_answer};
ghost use Rattle.flat_base.specs.declared.ids.Actor.TheVariants.{Session};
ghost use Rattle.flat_judge.specs.declared.session_cursor.SessionCursor.{SessionCursor};
ghost use Rattle.flat_judge.specs.GuidedRuns.{AreBehind, DisplayGoes, Goes, GoesOn, Grown, HaveEnded, ProbeGoes};
ghost use Rattle.flat_judge.specs.GuidedRuns.{ProbeGoesOn, asked_here};
ghost use Rattle.flat_judge.specs.Heeding.{AllHeed, CouldSee, HasSeen, Heeds, SeenBehind, is_reached};

use crate::opening::{first_places, new_seats};
use crate::probe_guide::ProbeGuide;
use crate::replay_screen::ReplayScreen;
use crate::session_cursor::SessionCursor;
use flat_base::{Actor, Items, NoMemory, SessionNo};
use flat_places::Script;
use flat_play::no_answers;
use flat_report::ProbeAnswers;
use flat_scene::{DisplayLine, LineBody, ProbeLine, ScriptLine};
use std::alloc::Global;

/// A run that follows a guide.
#[derive(Drop)]
pub struct GuidedRun {
    /// The board and what is shown. The sessions are in `seats`.
    pub screen: ReplayScreen,
    /// The sessions, session 1 first.
    pub seats: Vec<SessionCursor>,
    /// How many lines of the script the display has passed.
    pub place: usize,
    /// How many lines each probe has passed.
    pub places: Items<usize>,
    pub answers: Vec<ProbeAnswers>,
}

/// The line of the display that a line is.
fn display_text(line: &ScriptLine) -> Option<DisplayLine>
    ensures { result ≡ display_text line.now.body }
{
    match &line.body {
        LineBody::Display(text) => Some(*text),
        _ => None,
    }
}

/// What a line asks of a probe, if it is one of the probe's.
fn asked_here(probe: usize, line: &ScriptLine) -> Option<ProbeLine>
    ensures { result ≡ asked_here probe line.now.actor line.now.body }
{
    let Actor::Probe(p) = line.actor else {
        return None;
    };
    match &line.body {
        LineBody::Probe(asked) if p as usize == probe => Some(*asked),
        _ => None,
    }
}

impl GuidedRun {
    ghost use Rattle.flat_judge.specs.GuidedRuns.{IsWhole, RunStands};

    /// A run of which no line is read.
    pub fn new(alloc: Global, script: &Script) -> Result<GuidedRun, NoMemory>
        requires { is_playable script.now ≡ true }
        ensures stands { IfOk result (RunStands script.now) }
        ensures no_entry { IfOk result (λ run. run.screen.board.history ≡ []) }
        ensures no_answer { IfOk result (λ run. run.answers.items
            ≡ replicate script.now.setup.probes []) }
    {
        let seats = new_seats(alloc, script)?;
        let places = first_places(alloc, script.setup.probes)?;
        let answers = no_answers(alloc, script.setup.probes)?;
        let screen = ReplayScreen::new(alloc, script)?;
        Ok(GuidedRun {
            screen,
            seats,
            place: 0,
            places,
            answers,
        })
    }

    /// Makes the next entry of a session that hasn't ended.
    pub fn session_turn(&mut self, alloc: Global, script: &Script, k: usize) -> Result<(), NoMemory>
        requires playable { is_playable script.now ≡ true }
        requires within { k < length self.old.seats.items }
        requires open { (seat : SessionCursor) → slice_get self.old.seats.items k ≡ Some seat →
            seat.has_ended ≡ false }
        requires stands { RunStands script.now self.old }
        ensures stands { OnOk result (RunStands script.now self.new) }
        ensures on { OnOk result (GoesOn k self.old.seats.items self.new.seats.items) }
        ensures goes { OnOk result (Goes (Session (record { 0 = k + 1 }))
            self.old.screen.board self.new.screen.board true) }
        ensures place { OnOk result (self.new.place ≡ self.old.place) }
        ensures answers { self.new.answers ≡ self.old.answers }
    {
        let seat = &mut self.seats[k];
        seat.turn(
            alloc,
            script,
            &mut self.screen.board,
            SessionNo(k as u32 + 1),
        )?;
        Ok(())
    }

    /// Passes the line at the display's place, and says whether it is one of the display's. If
    /// it is, its entry is made.
    fn display_step(&mut self, alloc: Global, script: &Script) -> Result<bool, NoMemory>
        requires playable { is_playable script.now ≡ true }
        requires within { self.old.place < length script.now.lines }
        requires stands { RunStands script.now self.old }
        ensures stands { OnOk result (RunStands script.now self.new) }
        ensures place { OnOk result (self.new.place ≡ self.old.place + 1) }
        ensures seats { OnOk result (self.new.seats ≡ self.old.seats) }
        ensures goes { IfOk result (DisplayGoes self.old.screen.board self.new.screen.board) }
        ensures answers { self.new.answers ≡ self.old.answers }
    {
        // proof: the entries so far are legal.
        let _journal = self.screen.board.journal();
        let line = script.lines.at(self.place);
        match display_text(line) {
            Some(text) => {
                self.screen.enter(alloc, script, line.number, text)?;
                self.place += 1;
                Ok(true)
            }
            None => {
                self.place += 1;
                Ok(false)
            }
        }
    }

    /// Makes the next entry of the display, if there is a line left for one, and says so.
    pub fn display_turn(&mut self, alloc: Global, script: &Script) -> Result<bool, NoMemory>
        requires playable { is_playable script.now ≡ true }
        requires stands { RunStands script.now self.old }
        ensures stands { OnOk result (RunStands script.now self.new) }
        ensures place { OnOk result ((self.new.place ≡ length script.now.lines)
            ⊎ (self.old.place < self.new.place)) }
        ensures last { IfOk result (λ made. made ≡ false →
            self.new.place ≡ length script.now.lines) }
        ensures seats { OnOk result (self.new.seats ≡ self.old.seats) }
        ensures goes { IfOk result (DisplayGoes self.old.screen.board self.new.screen.board) }
        ensures answers { OnOk result (self.new.answers ≡ self.old.answers) }
    {
        for _ in self.place..script.lines.len() {
            if self.display_step(alloc, script)? {
                return Ok(true);
            }
        }
        Ok(false)
    }

    /// Whether the next line of a probe is answered by the last frame. If the guide names a
    /// later frame it waits for that one, unless no frame comes any more.
    fn is_due(&self, guide: &ProbeGuide, probe: usize, is_last: bool) -> bool
        requires { probe < length self.now.answers.items }
        ensures last { is_last ≡ true → result ≡ true }
        ensures heeds { (named : List ℕ) (one : List ProbeAnswer) →
            slice_get guide.now.seen.items probe ≡ Some named →
            slice_get self.now.answers.items probe ≡ Some one →
            result ≡ (is_last || is_reached (slice_get named (length one))
            self.now.screen.store.last.frame.0) }
    {
        let before = self.answers[probe].len();
        is_last || guide.is_due(probe, before, self.screen.store.last.frame.0)
    }

    /// Answers a line of a probe by the last frame.
    fn answer(
        &mut self,
        alloc: Global,
        script: &Script,
        probe: usize,
        line: &ScriptLine,
        asked: ProbeLine,
    ) -> Result<(), NoMemory>
        requires setup { is_setup script.now.setup ≡ true }
        requires is { IsLast script.now.setup self.old.screen.store.last }
        requires probe { probe < length self.old.answers.items }
        ensures answers { OnOk result (self.new.answers.items ≡ with_answer probe
            (answer_of (at_ratio self.old.screen.store.last.ratio script.now.setup) self.old.screen.store.last.reuse
            self.old.screen.store.last.frame.0 line.now.actor line.now.number asked)
            self.old.answers.items) }
        ensures last { OnOk result
            (StaysLast script.now.setup self.old.screen.store.last self.new.screen.store.last) }
        ensures others { self.new ≡ record self.old {
          screen = record self.old.screen {
            store = record self.old.screen.store { last = self.new.screen.store.last };
          };
          answers = self.new.answers;
        } }
    {
        let setup = &script.setup;
        let last = &mut self.screen.store.last;
        let answer = last.answer(alloc, setup, line.actor, line.number, asked)?;
        self.answers[probe].push(answer)
    }

    /// Passes the line at a probe's place, and says so. If it is one of the probe's, the last
    /// frame answers it; but if it isn't due, the probe stays before it.
    fn probe_step(
        &mut self,
        alloc: Global,
        script: &Script,
        probe: usize,
        is_due: bool,
    ) -> Result<bool, NoMemory>
        requires playable { is_playable script.now ≡ true }
        requires probe { probe < length self.old.places }
        requires within { (place : ℕ) → slice_get self.old.places probe ≡ Some place →
            place < length script.now.lines }
        requires stands { RunStands script.now self.old }
        ensures stands { OnOk result (RunStands script.now self.new) }
        ensures place { self.new.place ≡ self.old.place }
        ensures seats { self.new.seats ≡ self.old.seats }
        ensures goes { IfOk result (λ on. ProbeGoes probe is_due on self.old.places
            self.new.places) }
        ensures board { self.new.screen.board ≡ self.old.screen.board }
        ensures others { OnOk result ((n : ℕ) → n ≢ probe → slice_get self.new.answers.items n
            ≡ slice_get self.old.answers.items n) }
        ensures heeds { (last : ℕ) (named : List ℕ) (one : List ProbeAnswer) →
            CouldSee script.now last probe named →
            slice_get self.old.answers.items probe ≡ Some one →
            is_due ≡ is_reached (slice_get named (length one)) (frames self.old.screen.board.history) →
            HasSeen (frames self.old.screen.board.history) named (map frame_seen one) →
            IfOk result (SeenBehind probe (frames self.old.screen.board.history) named
            self.new.answers.items) }
    {
        let place = *self.places.at(probe);
        let line = script.lines.at(place);
        match asked_here(probe, line) {
            Some(asked) => {
                if !is_due {
                    return Ok(false);
                }
                self.answer(alloc, script, probe, line, asked)?;
                self.places.set(probe, place + 1);
                Ok(true)
            }
            None => {
                self.places.set(probe, place + 1);
                Ok(true)
            }
        }
    }

    /// Answers the lines of a probe that are due.
    fn answer_probe(
        &mut self,
        alloc: Global,
        script: &Script,
        guide: &ProbeGuide,
        probe: usize,
        is_last: bool,
    ) -> Result<(), NoMemory>
        requires playable { is_playable script.now ≡ true }
        requires probe { probe < length self.old.places }
        requires stands { RunStands script.now self.old }
        ensures stands { OnOk result (RunStands script.now self.new) }
        ensures place { self.new.place ≡ self.old.place }
        ensures seats { self.new.seats ≡ self.old.seats }
        ensures go { OnOk result (ProbeGoesOn script.now probe is_last self.old.places
            self.new.places) }
        ensures board { OnOk result (self.new.screen.board ≡ self.old.screen.board) }
        ensures others { OnOk result ((n : ℕ) → n ≢ probe → slice_get self.new.answers.items n
            ≡ slice_get self.old.answers.items n) }
        ensures heeds { OnOk result ((last : ℕ) →
            (is_last ≡ true → last ≡ frames self.old.screen.board.history) →
            Heeds script.now guide.now.seen.items last (frames self.old.screen.board.history) probe
            self.old.answers.items →
            Heeds script.now guide.now.seen.items last (suc (frames self.old.screen.board.history)) probe
            self.new.answers.items) }
    {
        for _ in *self.places.at(probe)..script.lines.len() {
            let is_due = self.is_due(guide, probe, is_last);
            if !self.probe_step(alloc, script, probe, is_due)? {
                return Ok(());
            }
        }
        Ok(())
    }

    /// Answers the lines of all probes that are due.
    pub fn answer_probes(
        &mut self,
        alloc: Global,
        script: &Script,
        guide: &ProbeGuide,
        is_last: bool,
    ) -> Result<(), NoMemory>
        requires playable { is_playable script.now ≡ true }
        requires stands { RunStands script.now self.old }
        ensures stands { OnOk result (RunStands script.now self.new) }
        ensures place { self.new.place ≡ self.old.place }
        ensures seats { self.new.seats ≡ self.old.seats }
        ensures behind { is_last ≡ true → OnOk result (AreBehind script.now
            script.now.setup.probes self.new.places) }
        ensures board { OnOk result (self.new.screen.board ≡ self.old.screen.board) }
        ensures heeds { OnOk result ((last : ℕ) →
            (is_last ≡ true → last ≡ frames self.old.screen.board.history) →
            AllHeed script.now guide.now.seen.items last (frames self.old.screen.board.history)
            self.old.answers.items →
            AllHeed script.now guide.now.seen.items last (suc (frames self.old.screen.board.history))
            self.new.answers.items) }
    {
        for probe in 0..self.places.len() {
            self.answer_probe(alloc, script, guide, probe, is_last)?;
        }
        Ok(())
    }

    /// Makes all entries of a session that are left.
    fn end_session(&mut self, alloc: Global, script: &Script, k: usize) -> Result<(), NoMemory>
        requires playable { is_playable script.now ≡ true }
        requires within { k < length self.old.seats.items }
        requires stands { RunStands script.now self.old }
        requires before { HaveEnded k self.old.seats.items }
        ensures stands { OnOk result (RunStands script.now self.new) }
        ensures ended { OnOk result (HaveEnded (k + 1) self.new.seats.items) }
        ensures place { OnOk result (self.new.place ≡ self.old.place) }
        ensures grown { OnOk result (Grown self.old.screen.board.history self.new.screen.board.history) }
        ensures answers { OnOk result (self.new.answers ≡ self.old.answers) }
    {
        for _ in self.seats[k].place..script.lines.len() + 1 {
            if self.seats[k].has_ended {
                return Ok(());
            }
            self.session_turn(alloc, script, k)?;
        }
        Ok(())
    }

    /// Makes all entries of the sessions that are left.
    fn end_sessions(&mut self, alloc: Global, script: &Script) -> Result<(), NoMemory>
        requires playable { is_playable script.now ≡ true }
        requires stands { RunStands script.now self.old }
        ensures stands { OnOk result (RunStands script.now self.new) }
        ensures ended { OnOk result (HaveEnded script.now.setup.sessions self.new.seats.items) }
        ensures place { OnOk result (self.new.place ≡ self.old.place) }
        ensures grown { OnOk result (Grown self.old.screen.board.history self.new.screen.board.history) }
        ensures answers { OnOk result (self.new.answers ≡ self.old.answers) }
    {
        for k in 0..self.seats.len() {
            self.end_session(alloc, script, k)?;
        }
        Ok(())
    }

    /// Makes all entries of the display that are left.
    fn end_display(&mut self, alloc: Global, script: &Script) -> Result<(), NoMemory>
        requires playable { is_playable script.now ≡ true }
        requires stands { RunStands script.now self.old }
        ensures stands { OnOk result (RunStands script.now self.new) }
        ensures place { OnOk result (self.new.place ≡ length script.now.lines) }
        ensures grown { OnOk result (Grown self.old.screen.board.history self.new.screen.board.history) }
        ensures answers { OnOk result (self.new.answers ≡ self.old.answers) }
    {
        for _ in self.place..script.lines.len() {
            if !self.display_turn(alloc, script)? {
                return Ok(());
            }
        }
        Ok(())
    }

    /// Makes all entries that are left, and answers all lines of probes that are left.
    pub fn end(
        &mut self,
        alloc: Global,
        script: &Script,
        guide: &ProbeGuide,
    ) -> Result<(), NoMemory>
        requires playable { is_playable script.now ≡ true }
        requires stands { RunStands script.now self.old }
        ensures whole { OnOk result (IsWhole script.now self.new) }
        ensures grown { OnOk result (Grown self.old.screen.board.history self.new.screen.board.history) }
        ensures heeds { OnOk result (self.old.screen.board.history ≡ self.new.screen.board.history →
            AllHeed script.now guide.now.seen.items (frames self.old.screen.board.history)
            (suc (frames self.old.screen.board.history)) self.old.answers.items →
            AllHeed script.now guide.now.seen.items (frames self.old.screen.board.history)
            (suc (frames self.old.screen.board.history)) self.new.answers.items) }
    {
        self.end_display(alloc, script)?;
        self.end_sessions(alloc, script)?;
        self.answer_probes(alloc, script, guide, true)?;
        Ok(())
    }
}
