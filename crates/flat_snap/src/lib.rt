//! The shared, immutable state that a session presents, and how it is built.
//!
//! `flat_nodes` (specs/Flat) lays a tree out as a list; a `Snapshot` is seen as the tree
//! (snapshot), a `SnapshotBuilder` as the part of one that was entered (builder).
//!
//! Other crates may cite the lemmas of proofs/lemmas/: what a builder adds, and
//! stretches of nodes (Adding, Rebuilding, Stretches).
#![tactic(auto)]

mod builder;
mod flat;
mod same;
mod snapshot;

pub use builder::SnapshotBuilder;
pub use flat::FlatNode;
pub use snapshot::Snapshot;
