//! A session. All that its lines ask for follows from its own entries, which its seat knows
//! whatever the others do.
ghost use Rattle.std.specs.Prelude.{◌≡◌, ◌+◌, ◌<◌, ◌≤◌, ◌^◌, ℕ, List, [], ◌∷◌, ◌++◌, Bool, true, ◌&&◌, false, length};
ghost use Rattle.std.specs.Prelude.{Some, slice_get, IsTrue, OnErr, OnOk};
ghost use Rattle.flat_base.specs.declared.ids.Actor.TheVariants.{Session};
ghost use Rattle.flat_scene.specs.declared.script.SessionLine.{SessionLine};
ghost use Rattle.flat_scene.specs.declared.script.ScriptLine.{ScriptLine};
ghost use Rattle.flat_scene.specs.History.{closes, is_session};
ghost use Rattle.flat_scene.specs.Journals.{history_of};
ghost use Rattle.flat_scene.specs.Interleave.{Follows, IsReading, session_lines};
ghost use Rattle.flat_core.specs.Machines.{MayLook};
ghost use Rattle.flat_rules.specs.Legal.{asked_of, value_of};
ghost use Rattle.flat_rules.specs.Owned.{is_played_line, is_played_condition};
ghost use Rattle.flat_playable.specs.Playable.{is_playable};
ghost use Rattle.flat_stage.specs.Homes.{fresh_view};
ghost use Rattle.flat_stage.specs.Readings.{SeatHasRead};
ghost use Rattle.flat_stage.specs.Seats.{GoesOn, HasRoom, is_ended, setup_of};
ghost use Rattle.flat_race.specs.OwnLines.{own_places};
ghost use Rattle.flat_race.specs.Sessions.{makes_entry, HasRun, IsSame, IsStageOf, SessionStands};

use crate::actor_context::ActorContext;
use crate::gate::{ASKS, Gate, LOOKS, ask};
use flat_base::{NoMemory, SessionNo, TryCopy};
use flat_core::asked_of;
use flat_scene::{Call, LineBody, SessionLine, WaitCondition};
use flat_session::EditOutcome;
use flat_stage::{SessionSeat, new_seats_have_read};
use flat_waits::Waiter;
use std::sync::Wait;
use std::thread;

/// The seat of a session that comes back, and whether the session came to its End. Where
/// it didn't, it found no memory, and its entries stop somewhere in its lines.
#[derive(Drop)]
pub struct SessionBack {
    pub seat: SessionSeat,
    pub is_whole: bool,
}

/// Whether two came to their End.
pub fn both(first: bool, second: bool) -> bool
    ensures { result ≡ (first && second) }
{
    first && second
}

/// Whether a line of an open session always makes an entry: all do but calls of its
/// own draft.
fn makes_entry(text: &SessionLine) -> bool
    ensures { result ≡ makes_entry text.now }
{
    match text {
        SessionLine::Call(Call::CreateView { .. } | Call::CreateViewport { .. }) => true,
        SessionLine::Call(_) => false,
        _ => true,
    }
}

/// Looks at a condition if there is news, and answers whether its value was enough.
fn look_once<R: Wait, G: Gate>(
    context: &ActorContext<R, G>,
    seat: &mut SessionSeat,
    waiter: &mut Waiter<'_>,
    c: WaitCondition,
) -> bool
    requires own { seat.old.stage ≡ context.now.stage.now }
    requires may { MayLook (setup_of seat.old.stage) (Session seat.old.session) c }
    ensures same { IsSame seat.old seat.new }
    ensures met { IsTrue result → asked_of c ≤ value_of (setup_of seat.old.stage)
        (history_of seat.new.seen) (Session seat.old.session) c }
{
    if !waiter.has_news() {
        return false;
    }
    if asked_of(c) <= seat.look(context.rt, context.stage, c) {
        return true;
    }
    waiter.found_too_little();
    false
}

/// Looks until the value of a condition is enough, or no actor can change it any more, and
/// answers whether it was enough. It looks again once something was entered, at most so
/// often as a Wait may look. The gate is asked each time, with one budget of the line.
fn look_again<R: Wait, G: Gate>(
    context: &ActorContext<R, G>,
    seat: &mut SessionSeat,
    number: u32,
    c: WaitCondition,
) -> bool
    requires own { seat.old.stage ≡ context.now.stage.now }
    requires owned { is_played_condition (setup_of seat.old.stage) seat.old.session c ≡ true }
    ensures same { IsSame seat.old seat.new }
    ensures met { IsTrue result → asked_of c ≤ value_of (setup_of seat.old.stage)
        (history_of seat.new.seen) (Session seat.old.session) c }
{
    let SessionNo(actor) = seat.session();
    let mut left = ASKS;
    let mut waiter = Waiter::new(context.waits);
    for _ in 0..LOOKS {
        left = ask(context.gate, actor, number, left);
        if look_once(context, seat, &mut waiter, c) {
            return true;
        }
        if waiter.is_over() {
            waiter.stop();
            return false;
        }
        thread::yield_now();
    }
    waiter.stop();
    false
}

/// Asks the gate as is due before a line of an open session.
fn pause<R: Wait, G: Gate>(
    context: &ActorContext<R, G>,
    seat: &mut SessionSeat,
    number: u32,
    text: &SessionLine,
)
    requires own { seat.old.stage ≡ context.now.stage.now }
    requires owned { is_played_line (setup_of seat.old.stage) seat.old.session text.now ≡ true }
    ensures { IsSame seat.old seat.new }
{
    match text {
        SessionLine::Wait(c) => {
            look_again(context, seat, number, *c);
        }
        _ => {
            if makes_entry(text) {
                ask(context.gate, seat.session().0, number, ASKS);
            }
        }
    }
}

/// Reads a line of the session that may make an entry. The gate hears of the entry.
fn enter_line<R: Wait, G: Gate>(
    context: &ActorContext<R, G>,
    seat: &mut SessionSeat,
    number: u32,
    text: SessionLine,
) -> Result<(), NoMemory>
    requires own { seat.old.stage ≡ context.now.stage.now }
    requires unended { is_ended seat.old.mine ≡ false }
    requires owned { is_played_line (setup_of seat.old.stage) seat.old.session text ≡ true }
    requires room { HasRoom seat.old }
    requires few { seat.old.refused + 1 < 2 ^ 32 }
    ensures goes_on { GoesOn seat.old seat.new }
    ensures kept { OnErr result (seat.new.mine ≡ seat.old.mine) }
    ensures follows { (given : List (ℕ × SessionLine)) → SeatHasRead given seat.old →
        OnOk result (SeatHasRead (given ++ (number, text) ∷ []) seat.new) }
{
    pause(context, seat, number, &text);
    let reply = seat.call(context.rt, context.stage, number, text)?;
    context.waits.enter();
    context.gate.passed(seat.session().0, number, &reply);
    Ok(())
}

/// Reads one line of the session. It waits only before a line that makes an entry.
fn read_line<R: Wait, G: Gate>(
    context: &ActorContext<R, G>,
    seat: &mut SessionSeat,
    number: u32,
    text: &SessionLine,
) -> Result<(), NoMemory>
    requires own { seat.old.stage ≡ context.now.stage.now }
    requires unended { is_ended seat.old.mine ≡ false }
    requires owned { is_played_line (setup_of seat.old.stage) seat.old.session text.now ≡ true }
    requires room { HasRoom seat.old }
    requires few { seat.old.refused + 1 < 2 ^ 32 }
    ensures goes_on { GoesOn seat.old seat.new }
    ensures kept { OnErr result (seat.new.mine ≡ seat.old.mine) }
    ensures follows { (given : List (ℕ × SessionLine)) → SeatHasRead given seat.old →
        OnOk result (SeatHasRead (given ++ (number, text.now) ∷ []) seat.new) }
{
    let line = text.copy(context.alloc)?;
    match seat.edit(line)? {
        EditOutcome::Read(_) => Ok(()),
        EditOutcome::Unread(line) => enter_line(context, seat, number, line),
    }
}

/// Reads the session's line at a place of the script.
fn read_next<R: Wait, G: Gate>(
    context: &ActorContext<R, G>,
    seat: &mut SessionSeat,
    place: usize,
) -> Result<(), NoMemory>
    requires place { place < length context.now.script.now.lines }
    requires mine { (next : ScriptLine) → slice_get context.now.script.now.lines place ≡ Some next →
        is_session seat.old.session next.actor ≡ true }
    requires playable { is_playable context.now.script.now ≡ true }
    requires of { IsStageOf context.now.stage.now context.now.script.now }
    requires stands { SessionStands context.now.script.now context.now.stage.now seat.old.session
        place
        seat.old }
    ensures stands { OnOk result (SessionStands context.now.script.now context.now.stage.now
        seat.old.session (place + 1) seat.new) }
    ensures kept { OnErr result (seat.new.mine ≡ seat.old.mine) }
    ensures same { (seat.new.stage ≡ seat.old.stage) × (seat.new.session ≡ seat.old.session) }
{
    let line = context.script.lines.at(place);
    match &line.body {
        LineBody::Session(text) => {
            read_line(context, seat, line.number, text)?;
            Ok(())
        }
        _ => Ok(()),
    }
}

/// Ends the session.
fn finish<R: Wait, G: Gate>(context: &ActorContext<R, G>, seat: &mut SessionSeat)
    requires playable { is_playable context.now.script.now ≡ true }
    requires of { IsStageOf context.now.stage.now context.now.script.now }
    requires stands { SessionStands context.now.script.now context.now.stage.now seat.old.session
        (length context.now.script.now.lines) seat.old }
    ensures same { (seat.new.stage ≡ seat.old.stage) × (seat.new.session ≡ seat.old.session) }
    ensures read { IsReading context.now.script.now.setup context.now.script.now.count
        (session_lines seat.old.session context.now.script.now.lines) (history_of seat.new.mine) }
{
    let SessionNo(actor) = seat.session();
    let number = context.script.count + 1;
    ask(context.gate, actor, number, ASKS);
    let reply = seat.end(context.rt, context.stage, number);
    context.waits.enter();
    context.gate.passed(actor, number, &reply);
}

/// Reads all lines of the session, which stand at these places, and ends it.
fn read_all<R: Wait, G: Gate>(
    context: &ActorContext<R, G>,
    seat: &mut SessionSeat,
    places: &[usize],
) -> Result<(), NoMemory>
    requires places { places.now ≡ own_places seat.old.session context.now.script.now.lines }
    requires playable { is_playable context.now.script.now ≡ true }
    requires of { IsStageOf context.now.stage.now context.now.script.now }
    requires fresh { seat.old ≡ fresh_view context.now.stage.now seat.old.session }
    ensures same { (seat.new.stage ≡ seat.old.stage) × (seat.new.session ≡ seat.old.session) }
    ensures read { OnOk result (IsReading context.now.script.now.setup context.now.script.now.count
        (session_lines seat.old.session context.now.script.now.lines) (history_of seat.new.mine)) }
    ensures begun { Follows context.now.script.now.setup context.now.script.now.count
        (session_lines seat.old.session context.now.script.now.lines) (history_of seat.new.mine) }
{
    new_seats_have_read();
    for i in 0..places.len() {
        read_next(context, seat, places[i])?;
    }
    finish(context, seat);
    Ok(())
}

/// Runs a session, whose lines stand at these places of the script: it reads each, and
/// ends. Where it finds no memory, it makes no further entry, and says so by `is_whole`. The
/// seat comes back in any case: its stage can't be closed without it.
pub fn run_session<R: Wait, G: Gate>(
    context: &ActorContext<R, G>,
    mut seat: SessionSeat,
    places: &[usize],
) -> SessionBack
    requires places { places.now ≡ own_places seat.session context.now.script.now.lines }
    requires playable { is_playable context.now.script.now ≡ true }
    requires of { IsStageOf context.now.stage.now context.now.script.now }
    requires fresh { seat ≡ fresh_view context.now.stage.now seat.session }
    ensures { HasRun context.now.stage.now context.now.script.now seat.session result }
{
    let is_whole = read_all(context, &mut seat, places).is_ok();
    context.waits.leave();
    SessionBack { seat, is_whole }
}
