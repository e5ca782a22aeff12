//! A session's contents: all that it ever made, by serial numbers, and the ids
//! that name some of them. A content stays when its name ends, since a transform
//! may hold it still.
//!
//! Each call of `ContentTable` (table, fills, images, viewports) is one equation on
//! `TableState` (specs/Table), or its first reason (specs/Reasons).
//!
//! Other crates may cite the lemmas of proofs/lemmas/: contents and drafts (Standing,
//! Others).
#![tactic(auto)]

mod fills;
mod images;
mod laws;
mod limits;
mod stored_content;
mod table;
mod viewports;

pub use laws::content_laws;
pub use stored_content::{StoredContent, StoredFill, StoredImage};
pub use table::ContentTable;
