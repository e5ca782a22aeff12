ghost use Rattle.std.specs.Prelude.{◌≡◌, ℕ, ◌<◌, List, [], ◌++◌, true, false, drop, length, Some};
ghost use Rattle.std.specs.Prelude.{IsTrue, IsFalse, IfOk, All, slice_get};
ghost use Rattle.flat_lock.specs.History.{StartsWith, GoesOn, entries_of};
ghost use Rattle.flat_lock.specs.Seats.{SeatView, AreNew, all_home};

use crate::deal::{deal, gather};
use crate::has_history::HasHistory;
use crate::rule::SharedTable;
use crate::seat::LockSeat;
use crate::seats::LockSeats;
use crate::steps;
use atomic_table::Table;
use flat_base::NoMemory;
use std::alloc::Global;
use std::marker::Model;
use std::snapshot::Snapshot;
use std::sync::Wait;

/// A lock over one value, whose turns go by tickets. Contracts see which lock it
/// is, how many seats it has, and the unchanging part of its value.
///
/// Each call that takes seats needs that they are of this lock.
#[derive(Drop)]
pub struct TicketLock<T: HasHistory> {
    pub(crate) table: SharedTable<T>,
}

impl<T: HasHistory> Model for TicketLock<T> {
    ghost use Rattle.flat_lock.specs.Seats.{LockView, lock_view};
    ghost use Rattle.flat_lock.specs.Steps.{IsShaped};

    ghost Value = { LockView T.Fixed };

    ghost view = { λ l. lock_view T.fixed l.table.shared.table_id l.table.shared.key.0.value
        l.table.shared.key.1 };

    ghost invariant = { λ l. IsShaped l.table.shared.table_id };
}

impl<T: HasHistory> TicketLock<T> {
    /// A lock over a value that stands for no entry, with all its seats at home.
    /// At [`NoMemory`] the value is dropped.
    pub fn new(
        alloc: Global,
        value: T,
        seats: u32,
    ) -> Result<(TicketLock<T>, LockSeats<T>), NoMemory>
    where
        T: Drop,
        requires some_seat { 0 < seats }
        requires empty { T.history value ≡ [] }
        ensures lock { IfOk result (λ r. (r.0.seats ≡ seats) × (r.0.fixed ≡ Some (T.fixed value))) }
        ensures seats { IfOk result (λ r. (r.1.lock ≡ r.0) × AreNew r.0 r.1.seats) }
    {
        let about = (Snapshot::of(&value), seats);
        let mut slots = Vec::new(alloc);
        slots.push(Some(value))?;
        let Ok((table, first)) = Table::new(alloc, &[0, 0], slots, &about) else {
            return Err(NoMemory);
        };
        let lock = TicketLock { table };
        let seats = deal(&lock, alloc, first, seats)?;
        let of = Snapshot::of(&lock);
        Ok((lock, LockSeats { seats, of }))
    }

    /// Waits for the seat's turn, and hands the value out. It takes no memory.
    ///
    /// The value's history is all that was given so far. So it begins with all
    /// that this seat had seen, and its entries of this seat's actor are those
    /// that the seat made. No other seat gets a turn until
    /// [`give`](TicketLock::give).
    pub fn turn(&self, rt: &impl Wait, seat: &mut LockSeat<T>) -> T
        requires own { seat.old.lock ≡ self.now }
        requires resting { IsFalse seat.old.has_turn }
        ensures seat { seat.new ≡ record seat.old { seen = T.history result; has_turn = true } }
        ensures longer { StartsWith (T.history result) seat.old.seen }
        ensures mine { seat.new.mine ≡ entries_of T.actor seat.new.actor (T.history result) }
        ensures others { All (λ e. T.actor e < self.now.seats) (T.history result) }
        ensures fixed { Some (T.fixed result) ≡ self.now.fixed }
    {
        steps::enter(&self.table, rt, &mut seat.seat)
    }

    /// Gives a value back, whose history goes on from the one taken by entries of
    /// this seat's actor, or by none. It waits for nobody and takes no memory.
    pub fn give(&self, seat: &mut LockSeat<T>, value: T)
        requires own { seat.old.lock ≡ self.now }
        requires turn { IsTrue seat.old.has_turn }
        requires longer { GoesOn T.actor seat.old.actor seat.old.seen (T.history value) }
        requires fixed { Some (T.fixed value) ≡ self.now.fixed }
        ensures seat { let new = drop (length seat.old.seen) (T.history value) in seat.new
            ≡ record seat.old {
              seen = T.history value;
              mine = seat.old.mine
                  ++ new;
              has_turn = false;
            } }
        ensures mine { seat.new.mine ≡ entries_of T.actor seat.new.actor (T.history value) }
    {
        steps::leave(&self.table, &mut seat.seat, value);
    }

    /// Lets a resting seat know what another has seen. It waits for nobody and
    /// takes no memory.
    ///
    /// What the told seat has seen is then all that was given so far, as if it
    /// had taken a turn. So it begins with all that either had seen, and so does
    /// the history of each value that the told seat takes from then on. The
    /// other seat stays as it is; it may have the turn, and has then seen what
    /// it took.
    pub fn tell(&self, from: &mut LockSeat<T>, to: &mut LockSeat<T>)
        requires own { from.old.lock ≡ self.now }
        requires own_too { to.old.lock ≡ self.now }
        requires resting { IsFalse to.old.has_turn }
        ensures from { from.new ≡ from.old }
        ensures to { to.new ≡ record to.old { seen = to.new.seen } }
        ensures told { StartsWith to.new.seen from.old.seen }
        ensures longer { StartsWith to.new.seen to.old.seen }
        ensures mine { to.new.mine ≡ entries_of T.actor to.new.actor to.new.seen }
        ensures others { All (λ e. T.actor e < self.now.seats) to.new.seen }
    {
        steps::tell(&self.table, &mut from.seat, &mut to.seat);
    }

    /// Ends the lock, once all its seats are home, and hands the value out.
    ///
    /// Its history begins with what each seat has seen. Its entries of each
    /// actor are those that the actor's seat made, and there are no others.
    pub fn close(self, seats: LockSeats<T>) -> T
        requires own { seats.lock ≡ self }
        requires home { IsTrue (all_home seats.seats) }
        ensures seats { (i : ℕ) (s : SeatView T.Entry T.Fixed) → slice_get seats.seats i
            ≡ Some (Some s) → StartsWith (T.history result) s.seen
            × (s.mine ≡ entries_of T.actor i (T.history result)) }
        ensures others { All (λ e. T.actor e < self.seats) (T.history result) }
        ensures fixed { Some (T.fixed result) ≡ self.fixed }
    {
        let (first, others) = seats.into_first();
        let LockSeat {
            place: _,
            seat: mut keeper,
        } = first;
        gather(&self, &mut keeper, others);
        let TicketLock { table } = self;
        let mut closed = table.close_with(keeper);
        let Some(value) = closed.take(0) else {
            unreachable!()
        };
        closed.free();
        value
    }
}
