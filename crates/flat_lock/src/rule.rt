//! The table that threads share, its rule, and the kinds of step.
//!
//! Word 0 is the next ticket to be drawn, and word 1 the ticket that is served.
//! The slot has the value. It is out with the seat that has the turn, from the
//! load that finds its ticket served until the add that serves the next one.
use crate::has_history::HasHistory;
use crate::view::View;
use atomic_table::{Join, Play, Seat, Split, Table, TableRule};
use std::alloc::Global;
use std::marker::PhantomData;
use std::snapshot::Snapshot;

/// The rule of the table: one history, and one turn at a time.
pub struct OneHistory<T> {
    value: PhantomData<T>,
}

impl<T: HasHistory> TableRule<Option<T>, View<T::Entry, T::Fixed>, (Snapshot<T>, u32)>
    for OneHistory<T> {
    ghost use Rattle.std.specs.Prelude.{Some};
    ghost use Rattle.flat_lock.specs.Rule.{LockRule};
    ghost use Rattle.flat_lock.specs.Steps.{first_view};

    ghost holds = { λ _. LockRule T.history T.actor T.fixed };

    ghost first = { λ key. first_view (Some (T.fixed key.0.value)) key.1 };
}

/// A ticket is drawn, where it is the one that was asked for: an exchange on word 0.
/// Else nothing changes.
pub(crate) struct TicketDrawn;

impl<S, E, F> Play<S, View<E, F>> for TicketDrawn {
    ghost use Rattle.flat_lock.specs.Steps.{DrawsTicket};

    ghost then = { DrawsTicket };
}

/// The served ticket is read: a load of word 1. The seat whose ticket it is
/// takes the slot out.
pub(crate) struct ServingRead<T> {
    value: PhantomData<T>,
}

impl<T: HasHistory> Play<Option<T>, View<T::Entry, T::Fixed>> for ServingRead<T> {
    ghost use Rattle.flat_lock.specs.Steps.{ReadsServing};

    ghost then = { ReadsServing T.history T.actor T.fixed };
}

/// The next ticket is served: an add on word 1. The slot comes home.
pub(crate) struct NextServed<T> {
    value: PhantomData<T>,
}

impl<T: HasHistory> Play<Option<T>, View<T::Entry, T::Fixed>> for NextServed<T> {
    ghost use Rattle.flat_lock.specs.Steps.{ServesNext};

    ghost then = { ServesNext T.history T.actor };
}

/// The first seat hands out the next actor.
pub(crate) struct SeatSplit;

impl<E, F> Split<View<E, F>> for SeatSplit {
    ghost use Rattle.flat_lock.specs.Steps.{splitting, split_off};

    ghost left = { splitting };

    ghost right = { split_off };
}

/// A seat ends, and the first seat keeps what it knew.
pub(crate) struct SeatJoined;

impl<E, F> Join<View<E, F>> for SeatJoined {
    ghost use Rattle.flat_lock.specs.Steps.{joining, spent};

    ghost both = { joining };

    ghost spent = { spent };
}

/// A seat makes a note of what it has seen.
pub(crate) struct NoteMade;

impl<E, F> Split<View<E, F>> for NoteMade {
    ghost use Rattle.flat_lock.specs.Steps.{noting, note_of};

    ghost left = { noting };

    ghost right = { note_of };
}

/// A seat is told by a note, which is left empty.
pub(crate) struct NoteTold;

impl<E, F> Join<View<E, F>> for NoteTold {
    ghost use Rattle.flat_lock.specs.Steps.{told, spent};

    ghost both = { told };

    ghost spent = { spent };
}

/// A seat that was told by a note sees all that was given so far: a load of
/// word 1, whatever it finds. A join tells its caller nothing, so it takes this
/// step for the caller to learn that the history begins with the note.
pub(crate) struct HistorySeen<T> {
    value: PhantomData<T>,
}

impl<T: HasHistory> Play<Option<T>, View<T::Entry, T::Fixed>> for HistorySeen<T> {
    ghost use Rattle.flat_lock.specs.Steps.{Hears};

    ghost then = { Hears T.actor };
}

/// The table of a lock over a `T`.
pub(crate) type SharedTable<T> = Table<
    Option<T>,
    View<<T as HasHistory>::Entry, <T as HasHistory>::Fixed>,
    (Snapshot<T>, u32),
    OneHistory<T>,
    Global,
>;

/// A seat at that table.
pub(crate) type TableSeat<T> = Seat<
    Option<T>,
    View<<T as HasHistory>::Entry, <T as HasHistory>::Fixed>,
>;
