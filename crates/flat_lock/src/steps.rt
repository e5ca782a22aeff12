//! The steps of a turn, and of a note.
ghost use Rattle.std.specs.Prelude.{◌≡◌, ◌≢◌, Some, IsTrue, IsFalse};
ghost use Rattle.flat_lock.specs.History.{GoesOn};
ghost use Rattle.flat_lock.specs.Steps.{IsShaped, IsSameSeat, IsResting, IsWaiting, HasTurn};
ghost use Rattle.flat_lock.specs.Steps.{HasDrawn, HasEntered, HasTaken, HasLeft, HasBeenTold};

use crate::has_history::HasHistory;
use crate::rule::{
    HistorySeen, NextServed, NoteMade, NoteTold, ServingRead, SharedTable, TableSeat, TicketDrawn,
};
use crossbeam_utils::Backoff;
use std::sync::Wait;
use std::thread;
use std::time::Duration;

const TICKET: usize = 0;

const SERVING: usize = 1;

const VALUE: usize = 0;

/// How many microseconds a seat sleeps that came at another's turn too often.
const NAP: u64 = 50;

// Draws the ticket of that number, if it is the next one. Else nothing changes.
fn draw_ticket<T: HasHistory>(table: &SharedTable<T>, seat: &mut TableSeat<T>, ticket: u64) -> bool
    requires shaped { IsShaped table.now.shared.table_id }
    requires own { seat.old.table_id ≡ table.now.shared.table_id }
    requires resting { IsResting seat.old.me }
    ensures same { IsSameSeat seat.old seat.new }
    ensures drawn { IsTrue result → HasDrawn ticket seat.old.me seat.new.me }
    ensures resting { IsFalse result → seat.new.me ≡ seat.old.me }
{
    let next = ticket.wrapping_add(1);
    table
        .shared
        .compare_exchange::<TicketDrawn>(seat, TICKET, ticket, next)
        == ticket
}

// Draws a ticket when it is the one that is served, so that nobody has the turn or
// waits for it with a ticket. A seat that comes at another time spins, lets other
// threads run, and then sleeps in between. It looks before it exchanges, since a
// failed exchange too takes the words from the seat that has the turn.
fn draw_served<T: HasHistory>(
    table: &SharedTable<T>,
    rt: &impl Wait,
    seat: &mut TableSeat<T>,
) -> u64
    requires shaped { IsShaped table.now.shared.table_id }
    requires own { seat.old.table_id ≡ table.now.shared.table_id }
    requires resting { IsResting seat.old.me }
    ensures same { IsSameSeat seat.old seat.new }
    ensures drawn { HasDrawn result seat.old.me seat.new.me }
{
    let backoff = Backoff::new();
    for _ in rt.forever() {
        let serving = table.shared.peek(SERVING);
        if table.shared.peek(TICKET) == serving && draw_ticket(table, seat, serving) {
            return serving;
        }
        if backoff.is_completed() {
            let word = (serving % (1 << 32)) as u32;
            table
                .shared
                .park_timeout(rt, SERVING, word, Duration::from_micros(NAP));
        } else {
            backoff.snooze();
        }
    }
    unreachable!()
}

// Reads the ticket that is served. Where it is the seat's, the seat has the value.
fn read_serving<T: HasHistory>(table: &SharedTable<T>, seat: &mut TableSeat<T>, ticket: u64) -> u64
    requires shaped { IsShaped table.now.shared.table_id }
    requires own { seat.old.table_id ≡ table.now.shared.table_id }
    requires waiting { IsWaiting ticket seat.old.me }
    ensures same { IsSameSeat seat.old seat.new }
    ensures served { result ≡ ticket → HasEntered T.history T.actor T.fixed seat.old.me
        seat.new.me }
    ensures waiting { result ≢ ticket → seat.new.me ≡ seat.old.me }
{
    table.shared.load::<ServingRead<T>>(seat, SERVING)
}

// Waits until the seat's ticket is served.
fn wait_for_ticket<T: HasHistory>(
    table: &SharedTable<T>,
    rt: &impl Wait,
    seat: &mut TableSeat<T>,
    ticket: u64,
)
    requires shaped { IsShaped table.now.shared.table_id }
    requires own { seat.old.table_id ≡ table.now.shared.table_id }
    requires waiting { IsWaiting ticket seat.old.me }
    ensures same { IsSameSeat seat.old seat.new }
    ensures served { HasEntered T.history T.actor T.fixed seat.old.me seat.new.me }
{
    for _ in rt.forever() {
        if read_serving(table, seat, ticket) == ticket {
            return;
        }
        thread::yield_now();
    }
    unreachable!()
}

/// Draws the ticket that is served, and takes the value out.
pub(crate) fn enter<T: HasHistory>(
    table: &SharedTable<T>,
    rt: &impl Wait,
    seat: &mut TableSeat<T>,
) -> T
    requires shaped { IsShaped table.now.shared.table_id }
    requires own { seat.old.table_id ≡ table.now.shared.table_id }
    requires resting { IsResting seat.old.me }
    ensures same { IsSameSeat seat.old seat.new }
    ensures turn { HasTurn seat.new.me }
    ensures taken { HasTaken T.history T.actor T.fixed seat.old.me result seat.new.me }
{
    let ticket = draw_served(table, rt, seat);
    wait_for_ticket(table, rt, seat, ticket);
    let Some(value) = table.shared.exchange(seat, VALUE, None) else {
        unreachable!()
    };
    value
}

/// Puts the value back, and serves the next ticket.
pub(crate) fn leave<T: HasHistory>(table: &SharedTable<T>, seat: &mut TableSeat<T>, value: T)
    requires shaped { IsShaped table.now.shared.table_id }
    requires own { seat.old.table_id ≡ table.now.shared.table_id }
    requires turn { HasTurn seat.old.me }
    requires longer { GoesOn T.actor seat.old.me.0.actor seat.old.me.0.seen (T.history value) }
    requires fixed { seat.old.me.0.fixed ≡ Some (T.fixed value) }
    ensures same { IsSameSeat seat.old seat.new }
    ensures left { HasLeft T.actor (T.history value) seat.old.me seat.new.me }
{
    let left = table.shared.exchange(seat, VALUE, Some(value));
    let None = left else { unreachable!() };
    table.shared.fetch_add::<NextServed<T>>(seat, SERVING, 1);
}

/// Tells a resting seat what another has seen, by a note of it.
pub(crate) fn tell<T: HasHistory>(
    table: &SharedTable<T>,
    from: &mut TableSeat<T>,
    to: &mut TableSeat<T>,
)
    requires shaped { IsShaped table.now.shared.table_id }
    requires own { from.old.table_id ≡ table.now.shared.table_id }
    requires own_too { to.old.table_id ≡ table.now.shared.table_id }
    requires resting { IsResting to.old.me }
    ensures from { IsSameSeat from.old from.new × (from.new.me ≡ from.old.me) }
    ensures same { IsSameSeat to.old to.new }
    ensures told { HasBeenTold T.actor from.old.me.0.seen to.old.me to.new.me }
{
    let note = table.shared.split_seat::<NoteMade>(from);
    table.shared.join_seat::<NoteTold>(to, note);
    table.shared.load::<HistorySeen<T>>(to, SERVING);
}
