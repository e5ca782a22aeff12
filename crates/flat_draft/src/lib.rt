//! One session's private draft: what its calls made of it, and the snapshots that
//! it presents.
//!
//! `Draft::call` and `Draft::present` (draft) have the effect and the reasons of flat_scene
//! (specs/Answers, specs/Parts), and stand for the draft of the rules (specs/Stands).
//!
//! Other crates may cite the lemmas of proofs/lemmas/: what a draft's calls keep
//! (Following).
#![tactic(auto)]

mod draft;
mod fault;
mod laws;
mod lay;
mod parts;

pub use draft::Draft;
pub use fault::DraftFault;
pub use laws::draft_laws;
