//! The machine of the scene service: a `Board`, which takes entries one by one,
//! answers them by the rules, and keeps the journal.
//!
//! It stands for one legal history (`Machine`, flat_states: specs/Machines). board.rt has
//! the board and what it tells; what makes entries stands in board/, by what is entered,
//! and ends in entries.rt, which notes and logs;
//! begins.rt and dones.rt go through all sessions at a frame, polls.rt through the events;
//! pair_values.rt says what pairs tell.
//! What a frame starts with is a `FrameStart` (start.rt, specs/Starts); proofs/lemmas tells other
//! crates what leaves it as it is.
#![tactic(auto)]

mod begins;
mod board;
mod dones;
mod entries;
mod pair_values;
mod polls;
mod start;

pub use board::{Board, asked_of};
pub use flat_facts::shown_states_fit;
pub use polls::EventList;
pub use start::FrameStart;
