//! Joins the shown trees of the sessions, as flat_topology says what the joined tree is.
//!
//! [`ShownStates`] holds what each session shows. [`join`] (joining, join_walk, scope) places the
//! nodes of the connected sessions: it answers `joined_lists` of flat_topology's specs/Connected.
//! [`ShownStates::find_connected`] (distances) tells how far each session is from the display:
//! `AreDistances` of specs/Distances. Read joining first.
//!
//! Other crates may cite the lemma of proofs/lemmas/ on the nodes of a state (Rooted).
#![tactic(auto)]

mod distances;
mod join_walk;
mod joining;
mod scope;
mod shown_states;

pub use crate::join_walk::{pair_of_display, viewer};
pub use crate::joining::join;
pub use crate::scope::{Scope, outermost, through};
pub use crate::shown_states::ShownStates;
