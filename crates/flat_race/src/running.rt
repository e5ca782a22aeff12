//! All actors of a race at once: the sessions and the probes on their threads, and the
//! compositor on this one.
ghost use Rattle.std.specs.Prelude.{◌≡◌, ◌<◌, [], length, map, replicate, Some, IfErr, IfOk, OnOk};
ghost use Rattle.flat_publish.specs.State.{newcomer};
ghost use Rattle.flat_race.specs.Ends.{HaveRaced, IsStopped, MayRace, StopsAt};

use crate::actor_context::ActorContext;
use crate::director::direct;
use crate::gate::Gate;
use crate::probe_threads::{meet_each, start_probes};
use crate::race_frames::RaceFrames;
use crate::threads::{COMPOSITOR, put_back, start_each};
use flat_display::Display;
use flat_places::Script;
use flat_publish::{ProbeSeats, Published};
use flat_stage::{Compositor, SessionSeats, Stage};
use flat_waits::SharedWaits;
use std::alloc::Global;
use std::sync::Wait;
use std::thread;
use std::thread::{Scope, Threads};

/// What a race is run with: threads and waits, memory, the script, and the gate.
#[derive(Drop)]
pub(crate) struct RaceContext<'a, T, G> {
    pub(crate) rt: &'a T,
    pub(crate) alloc: Global,
    pub(crate) script: &'a Script,
    pub(crate) gate: &'a G,
}

/// What a race changes, beside its stage and the displays: the compositor, the seats of the
/// sessions, and what is kept of frames. It goes into the race, and comes back if every actor
/// reached its end.
#[derive(Drop)]
pub(crate) struct RaceState {
    pub(crate) compositor: Compositor,
    pub(crate) seats: SessionSeats,
    pub(crate) film: RaceFrames,
}

/// What comes back if an actor ran out of memory once the compositor had begun.
#[derive(Drop)]
pub(crate) struct StoppedRace {
    pub(crate) compositor: Compositor,
    pub(crate) seats: SessionSeats,
}

/// When a race found no memory, and ends before its script does.
#[derive(Clone, Copy)]
pub(crate) enum RaceHalt {
    /// Before the compositor began. Seats of sessions may be away, and no display was shown
    /// anything.
    Early,
    /// Once it had begun. All seats are back.
    Late,
}

/// What comes back from a race: the displays, and the state or what [`StoppedRace`] keeps of it. If an
/// actor ran out of memory before the compositor began, the displays alone come back.
#[derive(Drop)]
pub(crate) struct Raced {
    pub(crate) displays: Vec<Box<dyn Display>>,
    pub(crate) ended: Result<RaceState, Option<StoppedRace>>,
}

/// Runs the sessions and the probes beside the compositor, and puts the seats of all
/// sessions back.
fn run_beside<'s, E, T: Threads + Wait + Sync, G: Gate>(
    scope: &Scope<'s, E>,
    context: &ActorContext<'s, T, G>,
    state: &mut RaceState,
    displays: &mut Vec<Box<dyn Display>>,
    published: &mut Published,
    probes: &mut ProbeSeats,
) -> Result<(), RaceHalt>
    requires may { MayRace context.now.stage.now context.now.script.now (length displays.old.items)
        state.old }
    requires unpublished { published.old
        ≡ record { home = published.old.home; frames = []; refused = []; given = 0 } }
    requires probes { probes.old ≡ replicate context.now.script.now.setup.probes
        (Some (newcomer published.old.home)) }
    ensures raced { OnOk result (HaveRaced (λ d. shown d) (λ d. faults d) context.now.stage.now
        context.now.script.now displays.old.items displays.new.items state.old state.new) }
    ensures stopped { IfErr result (StopsAt (λ d. shown d) (λ d. faults d)
        context.now.stage.now context.now.script.now displays.old.items displays.new.items
        state.new.compositor.display state.new.seats) }
    ensures kinds { map (λ d. d.vtable) displays.new.items
        ≡ map (λ d. d.vtable) displays.old.items }
{
    let Ok(out) = start_each(scope, context, &mut state.seats) else {
        return Err(RaceHalt::Early);
    };
    let Ok(asked) = start_probes(scope, context, published, probes) else {
        context.waits.end_frames();
        drop(out);
        return Err(RaceHalt::Early);
    };
    let directed = direct(
        context,
        &mut state.compositor,
        &mut state.film,
        displays,
        published,
    );
    context.waits.end_frames();
    let are_whole = put_back(context, &mut state.seats, out);
    let Ok(()) = directed else {
        drop(asked);
        return Err(RaceHalt::Late);
    };
    if !are_whole {
        drop(asked);
        return Err(RaceHalt::Late);
    }
    let Ok(answers) = meet_each(
        context.rt,
        context.alloc,
        context.script,
        published,
        &mut state.film.store.last,
        asked,
    ) else {
        return Err(RaceHalt::Late);
    };
    state.film.probes = answers;
    Ok(())
}

/// Runs all actors, and puts the seats of all sessions back. What is published to the
/// probes is let go at the end.
fn run_all<'s, E, T: Threads + Wait + Sync, G: Gate>(
    scope: &Scope<'s, E>,
    context: &ActorContext<'s, T, G>,
    state: &mut RaceState,
    displays: &mut Vec<Box<dyn Display>>,
) -> Result<(), RaceHalt>
    requires may { MayRace context.now.stage.now context.now.script.now (length displays.old.items)
        state.old }
    ensures raced { OnOk result (HaveRaced (λ d. shown d) (λ d. faults d) context.now.stage.now
        context.now.script.now displays.old.items displays.new.items state.old state.new) }
    ensures stopped { IfErr result (StopsAt (λ d. shown d) (λ d. faults d)
        context.now.stage.now context.now.script.now displays.old.items displays.new.items
        state.new.compositor.display state.new.seats) }
    ensures kinds { map (λ d. d.vtable) displays.new.items
        ≡ map (λ d. d.vtable) displays.old.items }
{
    let Ok((mut published, mut probes)) = Published::new(
        context.rt,
        context.alloc,
        context.script.setup.probes,
    ) else {
        return Err(RaceHalt::Early);
    };
    let run = run_beside(scope, context, state, displays, &mut published, &mut probes);
    published.close(context.rt);
    run
}

/// Runs the sessions beside the compositor, and answers what all of them leave.
fn run_in<'s, E, T: Threads + Wait + Sync, G: Gate>(
    scope: &Scope<'s, E>,
    context: &ActorContext<'s, T, G>,
    mut state: RaceState,
    mut displays: Vec<Box<dyn Display>>,
) -> Raced
    requires may { MayRace context.now.stage.now context.now.script.now (length displays.items)
        state }
    ensures raced { IfOk result.ended (λ e. HaveRaced (λ d. shown d) (λ d. faults d)
        context.now.stage.now context.now.script.now displays.items result.displays.items state e) }
    ensures stopped { IfErr result.ended (λ stopped. IsStopped (λ d. shown d) (λ d. faults d)
        context.now.stage.now context.now.script.now displays.items result.displays.items stopped) }
    ensures kinds { map (λ d. d.vtable) result.displays.items
        ≡ map (λ d. d.vtable) displays.items }
{
    match run_all(scope, context, &mut state, &mut displays) {
        Ok(()) => Raced {
            displays,
            ended: Ok(state),
        },
        Err(RaceHalt::Late) => {
            let RaceState {
                compositor,
                seats,
                film,
            } = state;
            drop(film);
            Raced {
                displays,
                ended: Err(Some(StoppedRace { compositor, seats })),
            }
        }
        Err(RaceHalt::Early) => {
            drop(state);
            Raced {
                displays,
                ended: Err(None),
            }
        }
    }
}

/// Runs each session on a thread of its own, and the compositor on this one.
pub(crate) fn on_threads<T: Threads + Wait + Sync, G: Gate>(
    context: &RaceContext<T, G>,
    stage: &Stage,
    state: RaceState,
    displays: Vec<Box<dyn Display>>,
) -> Raced
    requires may { MayRace stage.now context.now.script.now (length displays.items) state }
    ensures raced { IfOk result.ended (λ e. HaveRaced (λ d. shown d) (λ d. faults d) stage.now
        context.now.script.now displays.items result.displays.items state e) }
    ensures stopped { IfErr result.ended (λ stopped. IsStopped (λ d. shown d) (λ d. faults d)
        stage.now context.now.script.now displays.items result.displays.items stopped) }
    ensures kinds { map (λ d. d.vtable) result.displays.items
        ≡ map (λ d. d.vtable) displays.items }
{
    let (rt, alloc, script, gate) = (context.rt, context.alloc, context.script, context.gate);
    let waits = SharedWaits::new(script.setup.sessions.saturating_add(COMPOSITOR));
    let waits = &waits;
    thread::scope(
        thread::scope_env(),
        rt,
        move |scope| -> Raced
            requires { MayRace stage.now script.now (length displays.items) state }
            ensures { IfOk result.ended (λ e. HaveRaced (λ d. shown d) (λ d. faults d)
                stage.entry.now script.entry.now displays.items result.displays.items state e)
                × IfErr result.ended (λ stopped. IsStopped (λ d. shown d) (λ d. faults d)
                stage.entry.now script.entry.now displays.items result.displays.items stopped)
                × (map (λ d. d.vtable) result.displays.items ≡ map (λ d. d.vtable)
                displays.items) }
        {
            let context = ActorContext {
                rt,
                alloc,
                stage,
                script,
                gate,
                waits,
            };
            run_in(scope, &context, state, displays)
        },
    )
}
