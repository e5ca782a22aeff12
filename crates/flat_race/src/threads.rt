//! The sessions' threads. A promise is plain data, the stage, the script and the session,
//! and is kept by the seat that comes back. Where no thread can be started, the session is
//! run here with the same promise.
ghost use Rattle.std.specs.Prelude.{◌≡◌, ◌+◌, ◌<◌, true, length, IfOk};
ghost use Rattle.flat_playable.specs.Playable.{is_playable};
ghost use Rattle.flat_stage.specs.Homes.{AreFresh, fresh_view};
ghost use Rattle.flat_race.specs.OwnLines.{own_places};
ghost use Rattle.flat_race.specs.Sessions.{HasRun, IsStageOf};
ghost use Rattle.flat_race.specs.PlaceLists.{ArePlaces};
ghost use Rattle.flat_race.specs.SessionThreads.{AreBack, AreLeft, AreOut, IsOut};

use crate::actor_context::ActorContext;
use crate::gate::Gate;
use crate::own_lines::{PlaceList, places_by_session};
use crate::session::{SessionBack, both, run_session};
use flat_base::{NoMemory, SessionNo};
use flat_places::Script;
use flat_stage::{SessionSeat, SessionSeats, Stage};
use std::alloc::Global;
use std::mem;
use std::sync::Wait;
use std::thread::{Promise, PromisedHandle, Scope, Threads};

/// How many compositors a race has.
pub(crate) const COMPOSITOR: u32 = 1;

/// What a session's thread promises of the seat that it hands back.
#[derive(Drop)]
pub(crate) struct SeatPromise<'a> {
    stage: &'a Stage,
    script: &'a Script,
    session: SessionNo,
}

impl<'a> Promise<SessionBack> for SeatPromise<'a> {
    ghost use Rattle.flat_race.specs.Sessions.{HasRun};

    ghost kept_by = { λ p r. HasRun p.stage.now p.script.now p.session r };
}

/// A seat that is out: a thread has it, or its session was run here.
#[derive(Drop)]
pub(crate) enum LentSeat<'a> {
    Thread(PromisedHandle<SessionBack, SeatPromise<'a>>),
    Here(SessionBack),
}

impl<'a> LentSeat<'a> {
    /// Waits until the session's run is over.
    fn wait<R: Threads, G>(self, context: &ActorContext<R, G>, session: SessionNo) -> SessionBack
        requires { IsOut context.now.stage.now context.now.script.now session self }
        ensures { HasRun context.now.stage.now context.now.script.now session result }
    {
        match self {
            LentSeat::Thread(handle) => handle.join(context.rt),
            LentSeat::Here(back) => back,
        }
    }
}

/// Runs a session, whose lines stand at these places, on a thread of its own, or here
/// where none can be started. Those that weren't started yet enter nothing meanwhile.
fn start<'s, E, R: Threads + Wait + Sync, G: Gate>(
    scope: &Scope<'s, E>,
    context: &ActorContext<'s, R, G>,
    seat: SessionSeat,
    places: PlaceList,
) -> LentSeat<'s>
    requires playable { is_playable context.now.script.now ≡ true }
    requires of { IsStageOf context.now.stage.now context.now.script.now }
    requires fresh { seat ≡ fresh_view context.now.stage.now seat.session }
    requires places { places ≡ own_places seat.session context.now.script.now.lines }
    ensures { IsOut context.now.stage.now context.now.script.now seat.session result }
{
    let session = seat.session();
    let (rt, alloc, stage, script) = (context.rt, context.alloc, context.stage, context.script);
    let (gate, waits) = (context.gate, context.waits);
    match scope.spawn_with(
        SeatPromise {
            stage,
            script,
            session,
        },
        move || -> SessionBack
            requires { (is_playable script.now ≡ true) × IsStageOf stage.now script.now
                × (seat ≡ fresh_view stage.now seat.session)
                × (places ≡ own_places seat.session script.now.lines) }
            ensures { HasRun stage.entry.now script.entry.now seat.session result }
        {
            let context = ActorContext {
                rt,
                alloc,
                stage,
                script,
                gate,
                waits,
            };
            run_session(&context, seat, places.as_slice())
        },
    ) {
        Ok(handle) => LentSeat::Thread(handle),
        Err(refused) => {
            let later = script.setup.sessions.saturating_sub(session.0);
            waits.sit_out(later + COMPOSITOR);
            let back = (refused.value)();
            waits.sit_in(later + COMPOSITOR);
            LentSeat::Here(back)
        }
    }
}

/// Starts the next session behind the first so many: its seat and its places are handed
/// out.
fn start_next<'s, E, R: Threads + Wait + Sync, G: Gate>(
    scope: &Scope<'s, E>,
    context: &ActorContext<'s, R, G>,
    seats: &mut SessionSeats,
    places: &mut Vec<PlaceList>,
    before: u32,
) -> LentSeat<'s>
    requires playable { is_playable context.now.script.now ≡ true }
    requires of { IsStageOf context.now.stage.now context.now.script.now }
    requires own { seats.old.stage ≡ context.now.stage.now }
    requires next { before < context.now.script.now.setup.sessions }
    requires left { AreLeft context.now.stage.now context.now.script.now.setup.sessions before
        seats.old.seats }
    requires places { ArePlaces context.now.script.now.lines before places.old.items }
    requires many { length places.old.items ≡ context.now.script.now.setup.sessions }
    ensures out { IsOut context.now.stage.now context.now.script.now (record { 0 = before + 1 })
        result }
    ensures own { seats.new.stage ≡ seats.old.stage }
    ensures left { AreLeft context.now.stage.now context.now.script.now.setup.sessions (before + 1)
        seats.new.seats }
    ensures places { ArePlaces context.now.script.now.lines (before + 1) places.new.items }
    ensures many { length places.new.items ≡ length places.old.items }
{
    let Some(seat) = seats.take(SessionNo(before + 1)) else {
        unreachable!()
    };
    let own = mem::replace(&mut places[before as usize], PlaceList::new(context.alloc));
    start(scope, context, seat, own)
}

/// Starts each session. The seats are handed out, the first session's first.
pub(crate) fn start_each<'s, E, R: Threads + Wait + Sync, G: Gate>(
    scope: &Scope<'s, E>,
    context: &ActorContext<'s, R, G>,
    seats: &mut SessionSeats,
) -> Result<Vec<LentSeat<'s>>, NoMemory>
    requires playable { is_playable context.now.script.now ≡ true }
    requires of { IsStageOf context.now.stage.now context.now.script.now }
    requires own { seats.old.stage ≡ context.now.stage.now }
    requires fresh { AreFresh context.now.stage.now context.now.script.now.setup.sessions
        seats.old.seats }
    ensures out { IfOk result (λ out. AreOut context.now.stage.now context.now.script.now
        context.now.script.now.setup.sessions out.items) }
    ensures own { seats.new.stage ≡ seats.old.stage }
    ensures count { length seats.new.seats ≡ length seats.old.seats }
{
    let mut places = places_by_session(context.alloc, context.script)?;
    let Ok(mut out) = Vec::with_capacity(context.alloc, context.script.setup.sessions as usize)
    else {
        drop(places);
        return Err(NoMemory);
    };
    for before in 0..context.script.setup.sessions {
        let started = start_next(scope, context, seats, &mut places, before);
        out.push_reserved(started);
    }
    Ok(out)
}

/// Waits for each session, the last first, and puts its seat back. Whether all came
/// to their End.
pub(crate) fn put_back<'s, R: Threads, G>(
    context: &ActorContext<R, G>,
    seats: &mut SessionSeats,
    mut out: Vec<LentSeat<'s>>,
) -> bool
    requires playable { is_playable context.now.script.now ≡ true }
    requires out { AreOut context.now.stage.now context.now.script.now
        context.now.script.now.setup.sessions
        out.items }
    requires own { seats.old.stage ≡ context.now.stage.now }
    requires count { length seats.old.seats ≡ context.now.script.now.setup.sessions }
    ensures own { seats.new.stage ≡ seats.old.stage }
    ensures back { AreBack context.now.stage.now context.now.script.now 0 result seats.new.seats }
{
    let mut are_whole = true;
    while let Some(last) = out.pop() {
        let session = SessionNo(out.len() as u32 + 1);
        let SessionBack { seat, is_whole } = last.wait(context, session);
        are_whole = both(are_whole, is_whole);
        seats.put(seat);
    }
    are_whole
}
