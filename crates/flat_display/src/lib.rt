//! Displays that are shown frames, and may fail.
//!
//! What a display was shown is *told* where its type says so. A display that
//! fails is lost: it is shown no more, and the others go on.
//!
//! Other crates may cite the lemmas of proofs/lemmas/: a caller's loop over frames
//! (Driving).
#![tactic(auto)]

mod counting_display;
mod display;
mod memory;
mod set;

pub use counting_display::CountingDisplay;
pub use display::Display;
pub use memory::MemDisplay;
pub use set::DisplaySet;
