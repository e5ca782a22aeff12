//! Which fences are signalled.
//!
//! A `FenceSet` (set) is seen as a flag for each fence (specs/Fences).
#![tactic(auto)]

mod set;

pub use set::FenceSet;
