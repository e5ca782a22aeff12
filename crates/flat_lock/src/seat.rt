ghost use Rattle.std.specs.Prelude.{◌≡◌, ◌<◌};

use crate::has_history::HasHistory;
use crate::rule::TableSeat;
use std::marker::Model;

/// What one actor knows of a lock. Contracts see of which lock it is, the
/// actor's number, the history that it has `seen`, the entries of its own actor
/// in it (`mine`), and whether it has the turn.
///
/// A seat crosses threads where the lock's value may. One that is dropped never
/// comes home, and while it has the turn, no other seat ever gets one.
#[derive(Drop)]
pub struct LockSeat<T: HasHistory> {
    pub(crate) place: u32,
    pub(crate) seat: TableSeat<T>,
}

impl<T: HasHistory> Model for LockSeat<T> {
    ghost use Rattle.flat_lock.specs.Seats.{SeatView};
    ghost use Rattle.flat_lock.specs.Places.{IsSeat, seat_view};

    ghost Value = { SeatView T.Entry T.Fixed };

    ghost view = { λ s. seat_view s.seat.table_id s.seat.me.0 };

    ghost invariant = { λ s. IsSeat s.place s.seat.me };
}

impl<T: HasHistory> LockSeat<T> {
    /// The number of the seat's actor, which is the seat's place.
    pub fn actor(&self) -> u32
        ensures number { result ≡ self.now.actor }
        ensures within { result < self.now.lock.seats }
    {
        self.place
    }
}
