ghost use Rattle.std.specs.Prelude.{◌≡◌, true, false, Some, None, IsTrue, IsFalse, IfSome, IfNone};
ghost use Rattle.std.specs.Prelude.{slice_get, slice_set};
ghost use Rattle.flat_lock.specs.Seats.{all_home, seat_at, AreInOrder, BelongsAt};

use crate::has_history::HasHistory;
use crate::lock::TicketLock;
use crate::seat::LockSeat;
use std::marker::Model;
use std::snapshot::Snapshot;

/// The seats of one lock. Contracts see at each place the seat that is at home
/// there, and None where it is away. Places count from 0, and a seat's place is
/// the number of its actor.
#[derive(Drop)]
pub struct LockSeats<T: HasHistory> {
    pub(crate) seats: Vec<Option<LockSeat<T>>>,
    pub(crate) of: Snapshot<TicketLock<T>>,
}

impl<T: HasHistory> Model for LockSeats<T> {
    ghost use Rattle.flat_lock.specs.Seats.{SeatsView, AreInOrder};

    ghost Value = { SeatsView T.Entry T.Fixed };

    ghost view = { λ s. record { lock = s.of.value; seats = s.seats.items } };

    ghost invariant = { λ s. AreInOrder s.of.value s.seats.items };
}

impl<T: HasHistory> LockSeats<T> {
    /// Hands out the seat at a place. It is None exactly where that seat is away
    /// or there is no such place, and then nothing changes.
    pub fn take(&mut self, i: u32) -> Option<LockSeat<T>>
        ensures seat { result ≡ seat_at self.old.seats i }
        ensures taken { IfSome result (λ s. BelongsAt self.old.lock i s) }
        ensures away { self.new ≡ record self.old { seats = slice_set self.old.seats i None } }
        ensures refused { IfNone result (self.new ≡ self.old) }
    {
        let home = self.seats.get_mut(i as usize)?;
        home.take()
    }

    /// Takes a seat of this lock back, at its place.
    pub fn put(&mut self, seat: LockSeat<T>)
        requires own { seat.lock ≡ self.old.lock }
        requires resting { IsFalse seat.has_turn }
        ensures { self.new ≡ record self.old {
          seats = slice_set self.old.seats seat.actor
              (Some seat);
        } }
    {
        let place = seat.actor() as usize;
        self.seats[place] = Some(seat);
    }

    /// Whether no seat is away.
    pub fn all_home(&self) -> bool
        ensures { result ≡ all_home self.now.seats }
    {
        self.seats.iter().all(|seat| seat.is_some())
    }

    // The first seat, and the seats with that one away.
    pub(crate) fn into_first(mut self) -> (LockSeat<T>, LockSeats<T>)
        requires home { IsTrue (all_home self.seats) }
        ensures first { slice_get self.seats 0 ≡ Some (Some result.0) }
        ensures others { result.1 ≡ record self { seats = slice_set self.seats 0 None } }
        ensures in_order { AreInOrder self.lock self.seats }
    {
        let Some(first) = self.seats[0].take() else {
            unreachable!()
        };
        (first, self)
    }
}
