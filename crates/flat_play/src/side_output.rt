//! What is noted line by line while a script is played: why content is not on the display,
//! since what a begin shows and leaves waiting is known only then; and the picture of each
//! frame, so that no frame's items are kept for it.
ghost use Rattle.std.specs.Prelude.{◌≡◌, ℕ, true, List, length, IfOk, OnOk};
ghost use Rattle.flat_places.specs.declared.script.Script.{Script};
ghost use Rattle.flat_scene.specs.declared.journal.Entry.{Entry};
ghost use Rattle.flat_scene.specs.Heads.{is_setup};
ghost use Rattle.flat_rules.specs.Legal.{frames};
ghost use Rattle.flat_why.specs.Text.{why_text};
ghost use Rattle.flat_play.specs.Explaining.{StandsExplained, ToldExplained, is_film, is_on};
ghost use Rattle.flat_play.specs.declared.side_output.SideOutput.TheVariants as explaining;
ghost use Rattle.flat_play.specs.Storing.{FramesStand};
ghost use Rattle.flat_play.specs.Touching.{GoesOnAt};

use crate::play::Play;
use flat_base::{FrameNo, NoMemory};
use flat_places::Script;
use flat_rules::items_are_drawable;
use flat_texts::Film;
use flat_why::ReasonTracker;
use std::alloc::Global;

/// What a play is to tell of its sessions beside its report.
#[derive(Drop)]
pub enum SideOutput {
    /// Nothing.
    Off,
    /// Why each of them is on the display, or isn't.
    On(ReasonTracker),
    /// The pictures of its frames.
    Film(Film),
}

impl SideOutput {
    /// Notes the entry that a line made, if it made one: there were so many before it, and
    /// this frame was the last one.
    pub fn note(
        &mut self,
        alloc: Global,
        script: &Script,
        play: &Play,
        entries: usize,
        frame: FrameNo,
    ) -> Result<(), NoMemory>
        requires setup { is_setup script.now.setup ≡ true }
        requires of { play.now.board.setup ≡ script.now.setup }
        requires frames { FramesStand script.now play.now.board.history play.now.start
            play.now.store }
        requires before { (old : List Entry) × (number : ℕ) × (length old ≡ entries)
            × GoesOnAt number old play.now.board.history
            × StandsExplained script.now old self.old × (frames old ≡ frame.0) }
        ensures stands { OnOk result (StandsExplained script.now play.now.board.history
            self.new) }
        ensures on { OnOk result (is_on self.new ≡ is_on self.old) }
        ensures film { OnOk result (is_film self.new ≡ is_film self.old) }
    {
        match self {
            SideOutput::Off => Ok(()),
            SideOutput::On(whys) => {
                if play.board.journal().entries.len() == entries {
                    return Ok(());
                }
                let start = &play.start;
                let frame = play.store.kept.last();
                whys.note(alloc, script, &play.board, start.ratio, &start.shown, frame)
            }
            SideOutput::Film(film) => {
                if play.store.last.frame.0 == frame.0 {
                    return Ok(());
                }
                items_are_drawable();
                match play.store.kept.last() {
                    Some(frame) => film.push(frame),
                    None => unreachable!(),
                }
            }
        }
    }

    /// The text of a run to its end, where it was asked for.
    pub fn into_text(self) -> Result<Vec<u8>, NoMemory>
        requires { is_on self ≡ true }
        ensures { (script : Script) (history : List Entry) →
            ToldExplained script history self →
            IfOk result (λ text. text.items ≡ why_text script history) }
    {
        match self {
            SideOutput::On(whys) => whys.into_text(),
            SideOutput::Off | SideOutput::Film(_) => unreachable!(),
        }
    }

    /// The pictures of a run's frames, where these were asked for.
    pub fn into_film(self) -> Film
        requires { is_film self ≡ true }
        ensures { explaining.Film result ≡ self }
    {
        match self {
            SideOutput::Film(film) => film,
            SideOutput::Off | SideOutput::On(_) => unreachable!(),
        }
    }
}
