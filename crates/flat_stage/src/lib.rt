//! The stage: seats by which sessions and the compositor step on one board, through a lock.
//!
//! Begin at [`Stage`]. A session's seat ([`SessionSeat`]) reads lines as a `SessionReader` of
//! flat_session does, each in a turn of the lock; the display's compositor has one of its own
//! ([`Compositor`]). What contracts see of seats stands in specs/Seats, Displays and Homes.
#![tactic(auto)]

mod compositor;
mod laws;
mod seats;
mod session;
mod shared_board;
mod stage;

pub use compositor::Compositor;
pub use laws::new_seats_have_read;
pub use seats::SessionSeats;
pub use session::SessionSeat;
pub use stage::Stage;
