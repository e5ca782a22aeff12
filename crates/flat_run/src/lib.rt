//! The service at work on a script: words, reading, the run and what is written of it.
//!
//! It keeps what a call answers, writes and shows (`IsAnswer`, specs/Promise), by a row
//! for each form of what it reads and of what it writes (`form_read`, `IsTextOf`:
//! specs/Forms). top.rt goes from words to a status, answers.rt from a source to what is
//! written, by reading.rt and texts.rt; load.rt runs the load, and judging.rt judges a report.
#![tactic(auto)]

mod answers;
mod film;
mod given;
mod judging;
mod laws;
mod load;
mod reading;
mod runs;
mod texts;
mod top;
mod why;
mod writing;

pub use laws::{reports_have_one_run, runs_are_one};
pub use top::{RaceHost, flatland, serve};
