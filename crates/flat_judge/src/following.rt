//! A run that follows a text: whose entry the text says is next makes its next entry, as long
//! as the text is that of the run's report.
ghost use Rattle.std.specs.Prelude.{◌≡◌, ◌≤◌, ◌+◌, ◌⊎◌, ℕ, suc, [], List, Some, true, drop, length};
ghost use Rattle.std.specs.Prelude.{replicate, IfOk, OnOk};
ghost use Rattle.flat_base.specs.declared.ids.Actor.TheVariants.{Display, Session};
ghost use Rattle.flat_scene.specs.Setups.{is_declared};
ghost use Rattle.flat_scene.specs.declared.journal.Entry.{Entry};
ghost use Rattle.flat_scene.specs.History.{◌▹◌, is_finish};
ghost use Rattle.flat_rules.specs.Legal.{frames};
ghost use Rattle.flat_playable.specs.Playable.{is_playable};
ghost use Rattle.flat_judge.specs.Following.{HasStopped, StoppedBefore, IsAlong, IsLineTold, IsPart};
ghost use Rattle.flat_judge.specs.Following.{IsShownTold, MakesNext, Stays, next_actor};
ghost use Rattle.flat_judge.specs.FollowedRuns.{Follows};
ghost use Rattle.flat_judge.specs.GuidedRuns.{IsWhole, RunStands, ScreenStands};
ghost use Rattle.flat_judge.specs.Heeding.{AllHeed, HeedsSo, SeesAsTold};
ghost use Rattle.flat_judge.specs.Hints.{AreHints};

use crate::entry_texts::title_text;
use crate::guided_run::GuidedRun;
use crate::losses::read_losses;
use crate::passing::pass;
use crate::probe_guide::ProbeGuide;
use crate::reading::next_actor;
use crate::replay_screen::ReplayScreen;
use crate::telling::{pass_events, pass_frame, pass_line};
use flat_base::{Actor, Items, NoMemory, SessionNo};
use flat_places::Script;
use flat_scene::{Entry, EntryKind, LostDisplay};
use std::alloc::Global;

/// How far a run has followed a text.
#[derive(Drop)]
pub struct ReplayProgress {
    /// The displays that were lost so far, as the text says.
    pub lost: Items<LostDisplay>,
    /// How many bytes of the text the entries so far have.
    pub at: usize,
    /// How many events were posted so far.
    pub posted: usize,
}

impl ReplayProgress {
    /// Passes the last entry's own line, and says whether the text has it.
    fn tell_line(
        &mut self,
        alloc: Global,
        script: &Script,
        text: &[u8],
        screen: &ReplayScreen,
        entry: &Entry,
    ) -> Result<bool, NoMemory>
        requires shows { ScreenStands script.now screen.now }
        requires within { self.old.at ≤ length text.now }
        ensures within { OnOk result (self.new.at ≤ length text.now) }
        ensures tells { (before : List Entry) → screen.now.board.history ≡ (before ▹ entry.now) →
            IsPart script.now text.now before entry.now [] (frames before) self.old →
            IfOk result (Stays script.now text.now (frames before) (self.old.at + 1)
            (IsLineTold script.now text.now before entry.now) self.new) }
    {
        match pass_line(alloc, script, text, self.at, screen, entry)? {
            Some(at) => {
                self.at = at;
                Ok(true)
            }
            None => Ok(false),
        }
    }

    /// Passes the lines of the frame that the last entry finished, and of the displays that
    /// were lost at it, and says whether the text has them.
    fn tell_frame(
        &mut self,
        alloc: Global,
        script: &Script,
        text: &[u8],
        screen: &ReplayScreen,
    ) -> Result<bool, NoMemory>
        requires shows { ScreenStands script.now screen.now }
        requires within { self.old.at ≤ length text.now }
        ensures within { OnOk result (self.new.at ≤ length text.now) }
        ensures tells { (before : List Entry) (entry : Entry) → screen.now.board.history
            ≡ (before ▹ entry) → is_finish entry.kind ≡ true →
            IsLineTold script.now text.now before entry self.old →
            IfOk result (Stays script.now text.now (frames (before ▹ entry)) self.old.at
            (IsShownTold script.now text.now before entry) self.new) }
    {
        match pass_frame(text, self.at, screen) {
            Some(at) => {
                let behind = read_losses(alloc, &mut self.lost, text, at, screen.store.last.frame)?;
                self.at = behind;
                Ok(true)
            }
            None => Ok(false),
        }
    }

    /// Passes the same, where the last entry finished a frame.
    fn tell_shown(
        &mut self,
        alloc: Global,
        script: &Script,
        text: &[u8],
        screen: &ReplayScreen,
        entry: &Entry,
    ) -> Result<bool, NoMemory>
        requires shows { ScreenStands script.now screen.now }
        requires within { self.old.at ≤ length text.now }
        ensures within { OnOk result (self.new.at ≤ length text.now) }
        ensures tells { (before : List Entry) → screen.now.board.history ≡ (before ▹ entry.now) →
            IsLineTold script.now text.now before entry.now self.old →
            IfOk result (Stays script.now text.now (frames (before ▹ entry.now)) self.old.at
            (IsShownTold script.now text.now before entry.now) self.new) }
    {
        match entry.kind {
            EntryKind::Finish => self.tell_frame(alloc, script, text, screen),
            _ => Ok(true),
        }
    }

    /// Passes the lines of the last entry's events, and says whether the text has them.
    fn tell_events(
        &mut self,
        alloc: Global,
        script: &Script,
        text: &[u8],
        screen: &ReplayScreen,
    ) -> Result<bool, NoMemory>
        requires shows { ScreenStands script.now screen.now }
        requires within { self.old.at ≤ length text.now }
        ensures { (before : List Entry) (entry : Entry) → screen.now.board.history
            ≡ (before ▹ entry) → IsShownTold script.now text.now before entry self.old →
            IfOk result (Stays script.now text.now (frames (before ▹ entry)) self.old.at
            (IsAlong script.now text.now (before ▹ entry)) self.new) }
    {
        match pass_events(alloc, script, text, self.at, screen, self.posted)? {
            Some(at) => {
                self.at = at;
                self.posted = screen.board.journal().posts.len();
                Ok(true)
            }
            None => Ok(false),
        }
    }
}

/// A run that follows a text.
#[derive(Drop)]
pub struct FollowedRun {
    pub run: GuidedRun,
    pub along: ReplayProgress,
}

impl FollowedRun {
    /// Makes the next entry of a session, if it hasn't ended, and says so.
    fn session_entry(
        &mut self,
        alloc: Global,
        script: &Script,
        text: &[u8],
        s: SessionNo,
    ) -> Result<bool, NoMemory>
        requires playable { is_playable script.now ≡ true }
        requires stands { RunStands script.now self.old.run }
        requires declared { is_declared script.now.setup s ≡ true }
        requires along { IsAlong script.now text.now self.old.run.screen.board.history
            self.old.along }
        requires turn { next_actor script.now (drop self.old.along.at text.now) ≡ Some (Session s) }
        ensures stands { OnOk result (RunStands script.now self.new.run) }
        ensures makes { IfOk result (MakesNext script.now text.now self.old.run.screen.board.history
            self.new.run.screen.board.history self.old.along) }
        ensures along { self.new.along ≡ self.old.along }
        ensures answers { OnOk result (self.new.run.answers ≡ self.old.run.answers) }
    {
        let k = s.0 as usize - 1;
        if self.run.seats[k].has_ended {
            return Ok(false);
        }
        self.run.session_turn(alloc, script, k)?;
        // proof: the entries so far are legal.
        let _journal = self.run.screen.board.journal();
        Ok(true)
    }

    /// Makes the next entry of the display, if it has one left, and says so.
    fn display_entry(
        &mut self,
        alloc: Global,
        script: &Script,
        text: &[u8],
    ) -> Result<bool, NoMemory>
        requires playable { is_playable script.now ≡ true }
        requires stands { RunStands script.now self.old.run }
        requires along { IsAlong script.now text.now self.old.run.screen.board.history
            self.old.along }
        requires turn { next_actor script.now (drop self.old.along.at text.now) ≡ Some Display }
        ensures stands { OnOk result (RunStands script.now self.new.run) }
        ensures makes { IfOk result (MakesNext script.now text.now self.old.run.screen.board.history
            self.new.run.screen.board.history self.old.along) }
        ensures along { self.new.along ≡ self.old.along }
        ensures answers { OnOk result (self.new.run.answers ≡ self.old.run.answers) }
    {
        let made = self.run.display_turn(alloc, script)?;
        // proof: the entries so far are legal.
        let _journal = self.run.screen.board.journal();
        Ok(made)
    }

    /// Makes the next entry of whom the text says, if there is one, and says so.
    fn next_entry(&mut self, alloc: Global, script: &Script, text: &[u8]) -> Result<bool, NoMemory>
        requires playable { is_playable script.now ≡ true }
        requires stands { RunStands script.now self.old.run }
        requires along { IsAlong script.now text.now self.old.run.screen.board.history
            self.old.along }
        ensures stands { OnOk result (RunStands script.now self.new.run) }
        ensures makes { IfOk result (MakesNext script.now text.now self.old.run.screen.board.history
            self.new.run.screen.board.history self.old.along) }
        ensures along { self.new.along ≡ self.old.along }
        ensures answers { OnOk result (self.new.run.answers ≡ self.old.run.answers) }
    {
        match next_actor(script, &text[self.along.at..]) {
            Some(Actor::Display) => self.display_entry(alloc, script, text),
            Some(Actor::Session(s)) => self.session_entry(alloc, script, text, s),
            Some(Actor::Probe(_)) => Ok(false),
            None => Ok(false),
        }
    }

    /// Passes the lines of the last entry, and says whether the text has them.
    fn tell(&mut self, alloc: Global, script: &Script, text: &[u8]) -> Result<bool, NoMemory>
        requires stands { RunStands script.now self.old.run }
        requires within { self.old.along.at ≤ length text.now }
        ensures tells { (before : List Entry) (entry : Entry) → self.old.run.screen.board.history
            ≡ (before ▹ entry) →
            IsPart script.now text.now before entry [] (frames before) self.old.along →
            IfOk result (Stays script.now text.now (frames (before ▹ entry))
            (self.old.along.at + 1) (IsAlong script.now text.now (before ▹ entry))
            self.new.along) }
        ensures run { OnOk result (self.new.run ≡ self.old.run) }
    {
        let screen = &self.run.screen;
        let entries = screen.board.journal().entries.as_slice();
        let Some(entry) = entries.last() else {
            return Ok(false);
        };
        let along = &mut self.along;
        if !along.tell_line(alloc, script, text, screen, entry)? {
            return Ok(false);
        }
        if !along.tell_shown(alloc, script, text, screen, entry)? {
            return Ok(false);
        }
        along.tell_events(alloc, script, text, screen)
    }

    /// Makes the next entry of whom the text says, and says whether there is one, whose lines
    /// the text has.
    fn turn(
        &mut self,
        alloc: Global,
        script: &Script,
        text: &[u8],
        guide: &ProbeGuide,
    ) -> Result<bool, NoMemory>
        requires playable { is_playable script.now ≡ true }
        requires stands { RunStands script.now self.old.run }
        requires along { IsAlong script.now text.now self.old.run.screen.board.history
            self.old.along }
        ensures stands { OnOk result (RunStands script.now self.new.run) }
        ensures goes { IfOk result (Follows script.now text.now self.old self.new) }
        ensures heeds { OnOk result ((last : ℕ) →
            AllHeed script.now guide.now.seen.items last
            (suc (frames self.old.run.screen.board.history)) self.old.run.answers.items →
            HeedsSo script.now text.now guide.now.seen.items last self.new.run) }
    {
        if !self.next_entry(alloc, script, text)? {
            return Ok(false);
        }
        if !self.tell(alloc, script, text)? {
            return Ok(false);
        }
        self.run.answer_probes(alloc, script, guide, false)?;
        Ok(true)
    }

    /// Makes entries as long as the text has the lines of the run's report and says whose is
    /// next.
    fn follow(
        &mut self,
        alloc: Global,
        script: &Script,
        text: &[u8],
        guide: &ProbeGuide,
    ) -> Result<(), NoMemory>
        requires playable { is_playable script.now ≡ true }
        requires stands { RunStands script.now self.old.run }
        requires along { IsAlong script.now text.now self.old.run.screen.board.history
            self.old.along }
        ensures stands { OnOk result (RunStands script.now self.new.run) }
        ensures stops { OnOk result (HasStopped script.now text.now
            self.new.run.screen.board.history self.new.along) }
        ensures heeds { OnOk result ((last : ℕ) →
            AllHeed script.now guide.now.seen.items last
            (suc (frames self.old.run.screen.board.history)) self.old.run.answers.items →
            HeedsSo script.now text.now guide.now.seen.items last self.new.run) }
    {
        for _ in self.along.at..text.len() + 1 {
            if !self.turn(alloc, script, text, guide)? {
                return Ok(());
            }
        }
        Ok(())
    }

    /// A run without an entry.
    pub(crate) fn new(alloc: Global, script: &Script) -> Result<FollowedRun, NoMemory>
        requires { is_playable script.now ≡ true }
        ensures stands { IfOk result (λ followed. RunStands script.now followed.run) }
        ensures no_entry { IfOk result (λ followed. followed.run.screen.board.history ≡ []) }
        ensures no_loss { IfOk result (λ followed. followed.along.lost ≡ []) }
        ensures no_event { IfOk result (λ followed. followed.along.posted ≡ 0) }
        ensures no_answer { IfOk result (λ followed. followed.run.answers.items
            ≡ replicate script.now.setup.probes []) }
    {
        Ok(FollowedRun {
            run: GuidedRun::new(alloc, script)?,
            along: ReplayProgress {
                lost: Items::new(alloc),
                at: 0,
                posted: 0,
            },
        })
    }

    /// Follows a text from its first line on, as far as it is the run's report.
    fn begin(
        &mut self,
        alloc: Global,
        script: &Script,
        text: &[u8],
        guide: &ProbeGuide,
    ) -> Result<(), NoMemory>
        requires playable { is_playable script.now ≡ true }
        requires stands { RunStands script.now self.old.run }
        requires no_entry { self.old.run.screen.board.history ≡ [] }
        requires no_loss { self.old.along.lost ≡ [] }
        requires no_event { self.old.along.posted ≡ 0 }
        requires no_answer { self.old.run.answers.items ≡ replicate script.now.setup.probes [] }
        ensures stands { OnOk result (RunStands script.now self.new.run) }
        ensures stops { OnOk result (HasStopped script.now text.now
            self.new.run.screen.board.history self.new.along) }
        ensures heeds { OnOk result ((last : ℕ) →
            HeedsSo script.now text.now guide.now.seen.items last self.new.run) }
    {
        self.run.answer_probes(alloc, script, guide, false)?;
        let title = title_text(alloc, script.version)?;
        match pass(text, 0, title.as_slice()) {
            Some(at) => {
                self.along.at = at;
                self.follow(alloc, script, text, guide)
            }
            None => Ok(()),
        }
    }

    /// Follows a text, and then makes all that is left of the run.
    pub(crate) fn run_all(
        &mut self,
        alloc: Global,
        script: &Script,
        text: &[u8],
        guide: &ProbeGuide,
    ) -> Result<(), NoMemory>
        requires playable { is_playable script.now ≡ true }
        requires stands { RunStands script.now self.old.run }
        requires no_entry { self.old.run.screen.board.history ≡ [] }
        requires no_loss { self.old.along.lost ≡ [] }
        requires no_event { self.old.along.posted ≡ 0 }
        requires no_answer { self.old.run.answers.items ≡ replicate script.now.setup.probes [] }
        requires hints { AreHints script.now text.now guide.now.seen.items }
        ensures whole { OnOk result (IsWhole script.now self.new.run) }
        ensures stopped { OnOk result (StoppedBefore script.now text.now
            self.new.run.screen.board.history self.new.along) }
        ensures sees { OnOk result (SeesAsTold script.now text.now self.new.run) }
    {
        self.begin(alloc, script, text, guide)?;
        self.run.end(alloc, script, guide)?;
        Ok(())
    }
}
