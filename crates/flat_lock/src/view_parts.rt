//! Parts of a view. They are Rust types, of which no value is made, so that a
//! ghost field may have them.
ghost use Rattle.std.specs.Prelude.{ℕ, List};
ghost use base.Fml.{ftrue};

use std::marker::{Model, PhantomData};

/// What a seat does. A ticket's number never wraps; the table's words have it
/// modulo 2^64.
pub enum SeatAction {
    /// It has no ticket.
    Idle,
    /// It waits until its ticket is served.
    Waits(u64),
    /// Its ticket is served, and it has the value.
    Holds(u64),
    /// It is no actor's seat, but a note of what a seat had seen. One that was
    /// joined into a seat is left empty.
    Note,
}

/// What is left of a seat that was joined into the first one.
pub struct JoinedSeat<E> {
    marker: PhantomData<E>,
    pub ghost actor: { ℕ },
    pub ghost seen: { List E },
    pub ghost mine: { List E },
}

impl<E> Model for JoinedSeat<E> {
    ghost also_owns = { λ _. ftrue };
}
