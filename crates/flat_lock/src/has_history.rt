ghost use Rattle.std.specs.Prelude.{ℕ, List};

/// What a value means to a [`TicketLock`](crate::TicketLock) that holds it. It
/// has no call that runs, and asks for no law: the lock checks at each
/// [`give`](crate::TicketLock::give) that the meanings go on as they should.
///
/// A type of another crate is wrapped, as in
/// `struct Shared { board: Board }`, since a trait is implemented in its own
/// crate or in the type's.
pub trait HasHistory {
    /// What the history is a list of.
    type Entry;
    /// What stays the same from the lock's start to its end.
    type Fixed;

    // The entries for which the value stands, the oldest first.
    ghost history: { Self → List Self.Entry };

    // The number of the seat that an entry names: its actor's number.
    ghost actor: { Self.Entry → ℕ };

    // The unchanging part, which all values of one lock have in common.
    ghost fixed: { Self → Self.Fixed };
}
