//! What a board keeps of the pairs that link its sessions: the live viewports and the tokens
//! that are out (viewports), what each end of a pair is told ([`link_table::LinkTable`]), and which
//! sessions have a view (with_view). What an entry of a session does to them stands in entries.rt.
//! Each part stands for a history by a record of its own (specs/).
//!
//! Other crates may cite the lemmas of proofs/lemmas/, which are of pairs and links (PairIdle,
//! PairSteps, LinksSteps), of sessions that have a view (WithView), and of viewport ends: at a call
//! that uses one (ViewportUses), at any other entry (EndSteps) and at a done (DoneEnds).
#![tactic(auto)]

mod clears;
pub mod entries;
pub mod link_table;
mod link_values;
pub mod linked_sessions;
pub mod noted;
pub mod pairs;
pub mod session_links;
pub mod tokens;
pub mod told;
mod usage;
pub mod viewports;
pub mod with_view;
