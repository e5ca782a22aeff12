//! Tests of `flatland`: races under gates, and plays where what is around them fails; of
//! its displays and its command words; and of the judge.
//!
//! `call` (calls) is a whole call of the service in memory. On it stand races under a gate with a
//! display (asking, holding, composing, counting), displays that fail (displays, six), sources and
//! sinks that fail (faults), and a play of a slice (slices).
#![tactic(auto)]

mod asking;
mod calls;
mod composing;
mod counting;
#[cfg(test)]
mod display;
mod displays;
mod faults;
#[cfg(test)]
mod gates;
mod holding;
#[cfg(test)]
mod orders;
#[cfg(test)]
mod outside;
#[cfg(test)]
mod reports;
mod six;
mod slices;
#[cfg(test)]
mod source;
#[cfg(test)]
mod words;

pub use asking::race_asked;
pub use calls::{FinishedCall, ServiceRequest, call, play, race};
pub use composing::presents_while_composed;
pub use counting::asked_for;
pub use displays::{FRAMES, frames_before, play_six, report_with};
pub use faults::{Fault, Faults, first_spared};
pub use holding::{HoldGate, race_held};
pub use slices::play_slice;
