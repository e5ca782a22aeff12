//! The board of a run and what is shown of it. The sessions are each at a place of their own,
//! and what the display does hangs on the history alone, not on how far anybody has read.
ghost use Rattle.std.specs.Prelude.{◌≡◌, ◌+◌, ◌<◌, ◌^◌, [], true, IfOk, OnOk};
ghost use Rattle.flat_base.specs.declared.ids.Actor.TheVariants.{Display};
ghost use Rattle.flat_core.specs.Machines.{MayCall};
ghost use Rattle.flat_playable.specs.Playable.{is_playable};
ghost use Rattle.flat_rules.specs.Legal.{frames};
ghost use Rattle.flat_scene.specs.Interleave.{entry_of_display};
ghost use Rattle.flat_scene.specs.declared.journal.EntryKind.TheVariants as kind;

use flat_base::NoMemory;
use flat_core::{Board, FrameStart, shown_states_fit};
use flat_places::Script;
use flat_play::{FrameStore, FramesToKeep, open_board};
use flat_scene::DisplayLine;
use std::alloc::Global;

/// A board, and what is shown and kept of its frames.
#[derive(Drop)]
pub struct ReplayScreen {
    pub board: Board,
    /// What the last begin decided of its frame.
    pub start: FrameStart,
    /// What is kept of the finished frames.
    pub store: FrameStore,
}

impl ReplayScreen {
    ghost use Rattle.flat_judge.specs.GuidedRuns.{HasEntered, ScreenStands};

    /// Before the first entry.
    pub(crate) fn new(alloc: Global, script: &Script) -> Result<ReplayScreen, NoMemory>
        requires { is_playable script.now ≡ true }
        ensures stands { IfOk result (ScreenStands script.now) }
        ensures no_entry { IfOk result (λ screen. screen.board.history ≡ []) }
    {
        let start = FrameStart::new(alloc, &script.setup)?;
        let store = FrameStore::new(alloc, script, FramesToKeep::Texts)?;
        let board = open_board(alloc, script)?;
        Ok(ReplayScreen {
            board,
            start,
            store,
        })
    }

    /// Makes the entry of a line of the display. A frame that it ends is shown to nobody.
    pub(crate) fn enter(
        &mut self,
        alloc: Global,
        script: &Script,
        number: u32,
        text: DisplayLine,
    ) -> Result<(), NoMemory>
        requires playable { is_playable script.now ≡ true }
        requires stands { ScreenStands script.now self.old }
        requires may { MayCall self.old.board Display [] (entry_of_display text) }
        requires few { frames self.old.board.history + 1 < 2 ^ 32 }
        ensures stands { OnOk result (ScreenStands script.now self.new) }
        ensures enters { OnOk result (HasEntered number (entry_of_display text) self.old.board
            self.new.board) }
    {
        match text {
            DisplayLine::Begin(time) => {
                let _frame = self.board.begin(number, time, &mut self.start);
                Ok(())
            }
            DisplayLine::Done => self.end_frame(alloc, script, number),
            _ => {
                self.store.answer_line(alloc, &script.setup, number, text)?;
                let _reply = self.board.enter_display(number, text);
                Ok(())
            }
        }
    }

    /// Ends the frame that is open.
    fn end_frame(&mut self, alloc: Global, script: &Script, number: u32) -> Result<(), NoMemory>
        requires playable { is_playable script.now ≡ true }
        requires stands { ScreenStands script.now self.old }
        requires may { MayCall self.old.board Display [] kind.Finish }
        requires few { frames self.old.board.history + 1 < 2 ^ 32 }
        ensures stands { OnOk result (ScreenStands script.now self.new) }
        ensures enters { OnOk result (HasEntered number kind.Finish self.old.board
            self.new.board) }
    {
        // proof: the entries so far are legal, so what the frame shows fits the setup.
        let _journal = self.board.journal();
        shown_states_fit();
        self.store.finish(alloc, script, &self.start)?;
        let _frame = self.board.done(number);
        Ok(())
    }
}
