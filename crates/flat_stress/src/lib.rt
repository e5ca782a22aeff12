//! The load of the service, as a script, and the line that sums its run up.
//!
//! A host session shows seven guests in viewports of its own, each guest shows 32
//! small fills, and in each later frame everything moves a little.
//!
//! `script` (load) writes the text of specs/Load, `summary` (load_totals) the line of
//! specs/Summary; specs/Laws says that each load is a script.
#![tactic(auto)]

mod laws;
mod load;
mod load_totals;
mod words;

pub use laws::{loads_are_scripts, loads_have_their_frames};
pub use load::script;
pub use load_totals::{LoadTotals, summary};
