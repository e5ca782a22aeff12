//! A lock whose turns go by tickets, over a value that stands for a history of
//! entries. Threads step with seats, and each seat's entries are its own: what
//! every seat saw and made is part of one history, which the lock hands out
//! when it ends.
//!
//! What a seat is told by `turn`, `give`, `tell` and `close` (lock) is said of `SeatView`
//! (specs/Seats); the rule of the table that makes it true is specs/Rule.
#![tactic(auto)]

mod deal;
mod has_history;
mod lock;
mod rule;
mod seat;
mod seats;
mod steps;
mod view;
mod view_parts;

pub use has_history::HasHistory;
pub use lock::TicketLock;
pub use seat::LockSeat;
pub use seats::LockSeats;
