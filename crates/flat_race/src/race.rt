//! A race. Each seat knows its own part of the history, and what others did only to the
//! point that it has seen; the whole is known when all seats are home (`close`).
ghost use Rattle.std.specs.Prelude.{◌≡◌, ◌<◌, ◌^◌, true, length, Some, IfOk};
ghost use Rattle.flat_playable.specs.Playable.{is_playable};
ghost use Rattle.flat_display.specs.Had.{AreKept};
ghost use Rattle.flat_scene.specs.Journals.{history_of};
ghost use Rattle.flat_stage.specs.Displays.{IsNewCompositor};
ghost use Rattle.flat_stage.specs.Homes.{AreFresh};
ghost use Rattle.flat_report.specs.Report.{finished};
ghost use Rattle.flat_play.specs.Beginning.{AreBegun};
ghost use Rattle.flat_play.specs.Keeping.{keeping_of};
ghost use Rattle.flat_play.specs.Runs.{HasRun};
ghost use Rattle.flat_race.specs.Directing.{IsNewFilm};
ghost use Rattle.flat_race.specs.declared.running.StoppedRace.{StoppedRace};
ghost use Rattle.flat_race.specs.Ends.{AreAtRest, HaveEnded, IsHandedOut, MayRace};
ghost use Rattle.flat_race.specs.Sessions.{IsStageOf};

use crate::gate::Gate;
use crate::race_frames::RaceFrames;
use crate::running::{RaceContext, RaceState, Raced, StoppedRace, on_threads};
use flat_base::NoMemory;
use flat_display::{Display, DisplaySet};
use flat_places::Script;
use flat_play::{FinishedPlay, FrameStore, FramesToKeep, let_go, open_board};
use flat_rules::{journals_keep_seats, seats_tell_actors};
use flat_stage::{Compositor, SessionSeats, Stage};
use std::alloc::Global;
use std::mem;
use std::sync::Wait;
use std::thread::Threads;

/// What is kept of frames before the first one.
fn new_film(
    alloc: Global,
    script: &Script,
    keeping: FramesToKeep,
    displays: u32,
) -> Result<RaceFrames, NoMemory>
    requires playable { is_playable script.now ≡ true }
    ensures new { IfOk result (IsNewFilm script.now displays) }
    ensures keeping { IfOk result (λ film. keeping_of film.store.kept ≡ keeping) }
{
    let set = DisplaySet::new(alloc, displays)?;
    let store = FrameStore::new(alloc, script, keeping)?;
    Ok(RaceFrames {
        store,
        set,
        probes: Vec::new(alloc),
    })
}

/// A stage for a script: a board before any entry, with room for all its lines.
fn new_stage(alloc: Global, script: &Script) -> Result<(Stage, Compositor, SessionSeats), NoMemory>
    requires playable { is_playable script.now ≡ true }
    ensures of { IfOk result (λ r. IsStageOf r.0 script.now) }
    ensures compositor { IfOk result (λ r. IsNewCompositor r.0 r.1) }
    ensures own { IfOk result (λ r. r.2.stage ≡ r.0) }
    ensures sessions { IfOk result (λ r. AreFresh r.0 script.now.setup.sessions r.2.seats) }
{
    let board = open_board(alloc, script)?;
    Stage::new(alloc, board)
}

/// Ends a race: all seats are handed back, and the board out.
fn close(stage: Stage, script: &Script, ended: RaceState) -> FinishedPlay
    requires playable { is_playable script.now ≡ true }
    requires of { IsStageOf stage script.now }
    requires ended { HaveEnded stage script.now ended.compositor.display ended.seats ended.film }
    ensures out { IsHandedOut script.now ended.compositor.display ended.film result }
    ensures begun { AreBegun script.now (finished script.now.setup
        (history_of ended.compositor.display.seen)) }
{
    seats_tell_actors();
    journals_keep_seats();
    let RaceState {
        compositor,
        seats,
        film,
    } = ended;
    let board = stage.close(compositor, seats);
    let RaceFrames { store, set, probes } = film;
    let FrameStore {
        kept,
        last: _,
        answers,
    } = store;
    FinishedPlay {
        board,
        kept,
        answers,
        probes,
        set,
    }
}

/// Ends a race in which an actor found no memory. What was done by then begins the script.
fn close_stopped(stage: Stage, script: &Script, stopped: Option<StoppedRace>)
    requires playable { is_playable script.now ≡ true }
    requires of { IsStageOf stage script.now }
    requires rest { (one : StoppedRace) → stopped ≡ Some one →
        AreAtRest stage script.now one.compositor.display one.seats }
    ensures { (one : StoppedRace) → stopped ≡ Some one → AreBegun script.now
        (finished script.now.setup (history_of one.compositor.display.seen)) }
{
    seats_tell_actors();
    journals_keep_seats();
    let Some(StoppedRace { compositor, seats }) = stopped else {
        return;
    };
    // proof: what each actor did is known of a stage that is closed.
    let_go(stage.close(compositor, seats));
}

/// Runs a race on a stage before any entry, and hands out what it leaves.
fn race_on<T: Threads + Wait + Sync, G: Gate>(
    context: &RaceContext<T, G>,
    stage: Stage,
    state: RaceState,
    displays: &mut Vec<Box<dyn Display>>,
) -> Result<FinishedPlay, NoMemory>
    requires may { MayRace stage context.now.script.now (length displays.old.items) state }
    ensures run { IfOk result (HasRun (λ d. shown d) (λ d. faults d) context.now.script.now
        displays.old.items displays.new.items (keeping_of state.film.store.kept)) }
    ensures kept { AreKept (λ d. shown d) (λ d. faults d) (AreBegun context.now.script.now)
        displays.old.items displays.new.items (λ d. d.vtable) }
{
    let shown_here = mem::replace(displays, Vec::new(context.alloc));
    let Raced {
        displays: shown,
        ended,
    } = on_threads(context, &stage, state, shown_here);
    *displays = shown;
    match ended {
        Ok(ended) => Ok(close(stage, context.script, ended)),
        Err(stopped) => {
            close_stopped(stage, context.script, stopped);
            Err(NoMemory)
        }
    }
}

/// Runs a script with each session on a thread of its own beside the compositor, which
/// composes each frame and shows it to the displays while the sessions go on; and each
/// probe on one, which is answered by the frame that it saw last among those that the
/// compositor published.
///
/// Where a thread can't be started, its session or probe is run here before the
/// display's lines. An entry is made once the gate is open for it, or was asked often
/// enough, and so is the look of a probe. Want of memory in one actor ends that actor
/// alone, and is answered once all have come back. Whatever the threads did, there is
/// one legal history, which interleaves the script's actors; the frames are those that
/// it finishes, and the probes were answered by them.
pub fn race_script<T: Threads + Wait + Sync, G: Gate>(
    rt: &T,
    alloc: Global,
    script: &Script,
    keeping: FramesToKeep,
    displays: &mut Vec<Box<dyn Display>>,
    gate: &G,
) -> Result<FinishedPlay, NoMemory>
    requires playable { is_playable script.now ≡ true }
    requires few { length displays.old.items < 2 ^ 32 }
    ensures run { IfOk result (HasRun (λ d. shown d) (λ d. faults d) script.now displays.old.items
        displays.new.items keeping) }
    ensures kept { AreKept (λ d. shown d) (λ d. faults d) (AreBegun script.now)
        displays.old.items displays.new.items (λ d. d.vtable) }
{
    let film = new_film(alloc, script, keeping, displays.len() as u32)?;
    let Ok((stage, compositor, seats)) = new_stage(alloc, script) else {
        drop(film);
        return Err(NoMemory);
    };
    let context = RaceContext {
        rt,
        alloc,
        script,
        gate,
    };
    let state = RaceState {
        compositor,
        seats,
        film,
    };
    race_on(&context, stage, state, displays)
}
