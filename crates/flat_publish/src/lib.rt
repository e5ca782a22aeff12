//! Published frames: one writer publishes what each frame joins, and probes answer by
//! the last frame that they saw. A probe takes no lock, waits for nobody, and never goes
//! back. What a publish leaves is `Publishes` and `Refuses` (specs/State), what a probe
//! answers `frame_hits` (specs/Frames). The code is in published.rt and probe.rt, over what
//! both keep (latest_frame.rt).
//!
//! Other crates may cite the lemmas of proofs/lemmas/: beginnings of lists of frames
//! (Beginnings).
#![tactic(auto)]

mod frame;
mod latest_frame;
mod probe;
mod published;
mod rule;
mod seats;

pub use frame::Frame;
pub use probe::Probe;
pub use published::{BookMark, Published};
pub use seats::ProbeSeats;
