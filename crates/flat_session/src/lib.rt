//! A session's step over a board: what one line does, whoever drives the session.
//!
//! Begin at [`SessionReader`]: `call` reads a line by specs/Reads, and makes its entry on a board.
//! What a line makes before the board is asked is a [`RequestedEntry`] (specs/Made).
//! [`lines_are_read`] says that the entries so made are the reading of the session's lines
//! (specs/Readings).
//! proofs/lemmas is about readers and what they may enter.
#![tactic(auto)]

mod judging;
mod laws;
mod requested_entry;
mod session_reader;

pub use laws::lines_are_read;
pub use requested_entry::RequestedEntry;
pub use session_reader::{EditOutcome, PreparedLine, SessionReader};
