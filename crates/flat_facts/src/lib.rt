//! What legal histories say, by definitions alone: of views and of the last that stands, of
//! viewports that live and tokens that are out, of the serials by which trees show them,
//! of what trees show, of pixel ratios, and of what entries post. And the walks over an
//! entry's calls that keep these definitions: the view that calls leave, and whether they may
//! lose an end (views), what they clear (clears), how many contents they make (contents),
//! viewports that live by their names (live_viewport, lives), and stamps (stamps). No state is kept
//! here; what the crates above keep stands for a history by these facts.
//!
//! The functions of laws.rt do nothing: their contracts are laws. The others answer exactly
//! their definitions, for all arguments, and know no history.
//!
//! Other crates may cite the lemmas of proofs/lemmas/:
//! - of histories: Between, Earlier, Ratios, SerialSteps, Serials, ShownFits, StampSteps,
//!   Stamped, TokenLaw, TokensBack, Undeclared, Unwatched, Uses, ViewHistory, ViewLaw, ViewUses,
//!   ViewsLeft;
//! - of drafts and calls: Foreign, LiveCounts, Lives, Losses, ViewCalls;
//! - of sessions that have a view: HasView;
//! - of tests: Tests.
#![tactic(auto)]

pub mod clears;
pub mod contents;
mod laws;
pub mod live_viewport;
pub mod lives;
pub mod stamps;
pub mod views;

pub use laws::{last_view_stands, ratios_are_allowed, shown_states_fit, tokens_follow_releases};
