//! Setups at run time, without a script: a builder that says what is wrong with a setup
//! (builder), and tests of what a session or the compositor may name in one (owned).
//!
//! Read `SetupBuilder` first. Which setups there are stands in specs/Heads of flat_scene;
//! which fault a call refuses, in specs/Faults; what may be named, in specs/Owned of flat_rules.
#![tactic(auto)]

mod builder;
mod fault;
mod laws;
mod owned;
mod parts;

pub use builder::{BuiltSetup, SetupBuilder};
pub use fault::{DISPLAY_OWES, ENTRIES_MAX, SESSION_OWES, SetupFault};
pub use laws::faultless_is_setup;
pub use owned::{may_call, may_direct, may_use, may_wait};
