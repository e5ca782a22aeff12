//! A session's transforms, as a graph: nodes under the keys of a slab, the ids
//! that name them, and the root. A node lives on without a name for as long as
//! something may reach it.
//!
//! Each call of `Graph` (graph, setters) is one equation on `GraphState` (specs/State), or
//! its first reason (specs/Reasons); how a graph stands for a draft is specs/Stands.
//!
//! Other crates may cite the lemmas of proofs/lemmas/: names (DraftNames, NameLemmas),
//! what stands for a draft (StandingLaws), and what is left where nodes are dropped
//! (FewerNodes).
#![tactic(auto)]

mod graph;
mod laws;
mod names;
mod nodes;
mod setters;
mod shapes;

pub use graph::Graph;
pub use laws::graph_laws;
pub use names::{NamedNode, add_name, key_of, put_name, remove_name};
pub use nodes::{GraphNode, KeyList};
pub use shapes::is_bad_rect;
