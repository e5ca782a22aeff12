//! A play of which the picture of each frame is gathered.
ghost use Rattle.std.specs.Prelude.{◌≡◌, ◌<◌, ◌^◌, [], true, length, IfOk};
ghost use Rattle.flat_display.specs.Had.{AreKept};
ghost use Rattle.flat_play.specs.Beginning.{AreBegun};
ghost use Rattle.flat_play.specs.Runs.{HasRunInOrder};
ghost use Rattle.flat_playable.specs.Playable.{is_playable};
ghost use Rattle.flat_report.specs.Report.{finished};
ghost use Rattle.flat_texts.specs.Filming.{IsFilm};

use crate::kept_frames::FramesToKeep;
use crate::side_output::SideOutput;
use crate::whole::{FinishedPlay, play_whole};
use flat_base::NoMemory;
use flat_display::Display;
use flat_places::Script;
use flat_texts::Film;
use std::alloc::Global;

/// Plays a script to its end, as [`play_script`] does, and gathers the picture of each finished
/// frame in a film that has none.
pub fn play_filmed(
    alloc: Global,
    script: &Script,
    film: Film,
    displays: &mut Vec<Box<dyn Display>>,
) -> Result<(FinishedPlay, Film), NoMemory>
    requires playable { is_playable script.now ≡ true }
    requires empty { IsFilm script.now.setup [] film }
    requires few { length displays.old.items < 2 ^ 32 }
    ensures run { IfOk result (λ ran. HasRunInOrder (λ d. shown d) (λ d. faults d) script.now
        displays.old.items displays.new.items FramesToKeep.Last ran.0) }
    ensures film { IfOk result (λ ran. IsFilm script.now.setup
        (finished script.now.setup ran.0.board.history) ran.1) }
    ensures kept { AreKept (λ d. shown d) (λ d. faults d) (AreBegun script.now)
        displays.old.items displays.new.items (λ d. d.vtable) }
{
    let mut noted = SideOutput::Film(film);
    let (played, _touches) = play_whole(
        alloc,
        script,
        FramesToKeep::Last,
        &[],
        &mut noted,
        displays,
    )?;
    Ok((played, noted.into_film()))
}
