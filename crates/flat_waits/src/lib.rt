//! Who waits in vain: the actors of a race count themselves while they wait for a value that
//! isn't there, so that all of them stop waiting once none of them can change it any more.
//!
//! `SharedWaits` (shared_waits) is what the threads share, and `Waiter` (waiter) one of them in a
//! Wait. What they count is a `WaitTally` (wait_tally), whose rule is specs/Tallies. Why no Wait
//! ends that could still be met is `OverMeansStuck` (specs/Stuck).
#![tactic(auto)]

mod laws;
mod shared_waits;
mod wait_tally;
mod waiter;

pub use laws::over_means_stuck;
pub use shared_waits::SharedWaits;
pub use wait_tally::{ActorUpdate, WaitTally};
pub use waiter::Waiter;
