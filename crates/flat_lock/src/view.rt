//! What a seat at the table knows.
ghost use Rattle.std.specs.Prelude.{ℕ, List, Bool, Option};
ghost use Rattle.flat_lock.specs.declared.view_parts.SeatAction.{SeatAction};
ghost use Rattle.flat_lock.specs.declared.view_parts.JoinedSeat.{JoinedSeat};
ghost use base.Fml.{ftrue};

use std::marker::{Model, PhantomData};

/// What a seat at the table knows. It has no bytes, and no value of it is made.
pub struct View<E, F> {
    marker: PhantomData<(E, F)>,
    // How many seats the lock has.
    pub ghost seats: { ℕ },
    // The unchanging part. A note has none.
    pub ghost fixed: { Option F },
    // The history that the seat has seen.
    pub ghost seen: { List E },
    // The history that the last note told it, which another seat had seen.
    pub ghost noted: { List E },
    // The entries of its actor.
    pub ghost mine: { List E },
    // The number of its actor.
    pub ghost actor: { ℕ },
    pub ghost turn: { SeatAction },
    // Whether it is the first seat, which alone splits and joins.
    pub ghost first: { Bool },
    // The first seat has handed out the actors below this number.
    pub ghost handed_out: { ℕ },
    // The seats that were joined into this one, the last one first.
    pub ghost ended: { List (JoinedSeat E) },
}

impl<E, F> Model for View<E, F> {
    ghost also_owns = { λ _. ftrue };
}
