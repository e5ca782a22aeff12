//! A script is run as a whole: its lines, then the End of each session. What it leaves is a
//! `FinishedPlay`.
ghost use Rattle.std.specs.Prelude.{map, ◌≡◌, ◌<◌, ◌^◌, [], true, length};
ghost use Rattle.std.specs.Prelude.{IfOk};
ghost use Rattle.flat_playable.specs.Playable.{is_playable};
ghost use Rattle.flat_play.specs.Beginning.{AreBegun};
ghost use Rattle.flat_why.specs.Text.{why_text};
ghost use Rattle.flat_play.specs.Explaining.{StandsExplained, TellsAll};
ghost use Rattle.flat_play.specs.Runs.{HasRunInOrder};
ghost use Rattle.flat_display.specs.Had.{AreKept};
ghost use Rattle.flat_play.specs.Touches.{touch_of};
ghost use Rattle.flat_pointer.specs.Lines.{rise_after};

use crate::kept_frames::{FramesToKeep, KeptFrames};
use crate::play::Play;
use crate::run::{LinesPlayed, PlayInput, play_lines};
use crate::side_output::SideOutput;
use crate::store::FrameStore;
use flat_base::NoMemory;
use flat_core::Board;
use flat_display::{Display, DisplaySet};
use flat_places::Script;
use flat_pointer::{PointerLine, PointerTouch};
use flat_report::{HitAnswers, ProbeAnswers};
use flat_why::ReasonTracker;
use std::alloc::Global;

/// A script that was run to its end.
#[derive(Drop)]
pub struct FinishedPlay {
    /// Its journal is that of the run.
    pub board: Board,
    /// What is kept of the finished frames.
    pub kept: KeptFrames,
    /// The answers to the points that were asked for.
    pub answers: HitAnswers,
    /// The answers of probes: those of each, in the order of its lines.
    pub probes: Vec<ProbeAnswers>,
    /// Which displays were lost.
    pub set: DisplaySet,
}

impl FinishedPlay {
    /// What is kept of the frames. All else is let go here: a crate that drops a board has
    /// to prove the drop of every type in it.
    pub fn into_kept(self) -> KeptFrames
        ensures { result ≡ self.kept }
    {
        let FinishedPlay {
            board,
            kept,
            answers: _,
            probes: _,
            set: _,
        } = self;
        drop(board);
        kept
    }

    /// Lets all of it go.
    pub fn let_go(self) {
        drop(self);
    }
}

/// Lets a board go, for crates above that would else have to prove how.
pub fn let_go(board: Board) {
    drop(board);
}

/// Plays a script to its end, and answers lines of pointers on the way: whom one that goes
/// down hits, in the frame that was finished last before its line. Beside, it notes what is
/// asked for.
pub(crate) fn play_whole(
    alloc: Global,
    script: &Script,
    keeping: FramesToKeep,
    lines: &[PointerLine],
    explaining: &mut SideOutput,
    displays: &mut Vec<Box<dyn Display>>,
) -> Result<(FinishedPlay, Vec<PointerTouch>), NoMemory>
    requires playable { is_playable script.now ≡ true }
    requires rise { rise_after 0 lines.now ≡ true }
    requires unexplained { StandsExplained script.now [] explaining.old }
    requires few { length displays.old.items < 2 ^ 32 }
    ensures run { IfOk result (λ ran. HasRunInOrder (λ d. shown d) (λ d. faults d) script.now
        displays.old.items displays.new.items keeping ran.0) }
    ensures touches { IfOk result (λ ran. ran.1.items
        ≡ map (touch_of script.now.setup ran.0.board.history) lines.now) }
    ensures tells { IfOk result (λ ran. TellsAll script.now ran.0.board.history explaining.old
        explaining.new) }
    ensures kept { AreKept (λ d. shown d) (λ d. faults d) (AreBegun script.now)
        displays.old.items displays.new.items (λ d. d.vtable) }
{
    let mut set = DisplaySet::new(alloc, displays.len() as u32)?;
    let input = PlayInput {
        script,
        pointers: lines,
    };
    let LinesPlayed {
        mut play,
        touches,
        probes,
    } = play_lines(alloc, input, keeping, explaining, &mut set, displays)?;
    play.end_all(script);
    let Play {
        board,
        readers: _,
        start: _,
        store,
    } = play;
    let FrameStore {
        kept,
        last: _,
        answers,
    } = store;
    let played = FinishedPlay {
        board,
        kept,
        answers,
        probes,
        set,
    };
    Ok((played, touches))
}

/// Plays a script to its end, as [`play_script`] does, and answers lines of pointers
/// on the way: whom one that goes down hits, in the frame that was finished last
/// before its line.
pub fn play_touched(
    alloc: Global,
    script: &Script,
    keeping: FramesToKeep,
    lines: &[PointerLine],
    displays: &mut Vec<Box<dyn Display>>,
) -> Result<(FinishedPlay, Vec<PointerTouch>), NoMemory>
    requires playable { is_playable script.now ≡ true }
    requires rise { rise_after 0 lines.now ≡ true }
    requires few { length displays.old.items < 2 ^ 32 }
    ensures run { IfOk result (λ ran. HasRunInOrder (λ d. shown d) (λ d. faults d) script.now
        displays.old.items displays.new.items keeping ran.0) }
    ensures touches { IfOk result (λ ran. ran.1.items
        ≡ map (touch_of script.now.setup ran.0.board.history) lines.now) }
    ensures kept { AreKept (λ d. shown d) (λ d. faults d) (AreBegun script.now)
        displays.old.items displays.new.items (λ d. d.vtable) }
{
    play_whole(
        alloc,
        script,
        keeping,
        lines,
        &mut SideOutput::Off,
        displays,
    )
}

/// Plays a script to its end: its lines in written order, and then an End of each
/// session. Each frame is shown to the displays before it is finished.
pub fn play_script(
    alloc: Global,
    script: &Script,
    keeping: FramesToKeep,
    displays: &mut Vec<Box<dyn Display>>,
) -> Result<FinishedPlay, NoMemory>
    requires playable { is_playable script.now ≡ true }
    requires few { length displays.old.items < 2 ^ 32 }
    ensures run { IfOk result (HasRunInOrder (λ d. shown d) (λ d. faults d) script.now
        displays.old.items displays.new.items keeping) }
    ensures kept { AreKept (λ d. shown d) (λ d. faults d) (AreBegun script.now)
        displays.old.items displays.new.items (λ d. d.vtable) }
{
    let (played, _touches) = play_touched(alloc, script, keeping, &[], displays)?;
    Ok(played)
}

/// Plays a script to its end, as [`play_script`] does, and writes of each finished frame why
/// each session is on the display, or isn't.
pub fn play_explained(
    alloc: Global,
    script: &Script,
    displays: &mut Vec<Box<dyn Display>>,
) -> Result<(FinishedPlay, Vec<u8>), NoMemory>
    requires playable { is_playable script.now ≡ true }
    requires few { length displays.old.items < 2 ^ 32 }
    ensures run { IfOk result (λ ran. HasRunInOrder (λ d. shown d) (λ d. faults d) script.now
        displays.old.items displays.new.items FramesToKeep.Last ran.0) }
    ensures text { IfOk result (λ ran. ran.1.items ≡ why_text script.now ran.0.board.history) }
    ensures kept { AreKept (λ d. shown d) (λ d. faults d) (AreBegun script.now)
        displays.old.items displays.new.items (λ d. d.vtable) }
{
    let mut whys = SideOutput::On(ReasonTracker::new(alloc, script)?);
    let (played, _touches) = play_whole(
        alloc,
        script,
        FramesToKeep::Last,
        &[],
        &mut whys,
        displays,
    )?;
    match whys.into_text() {
        Ok(text) => Ok((played, text)),
        Err(NoMemory) => {
            played.let_go();
            Err(NoMemory)
        }
    }
}
