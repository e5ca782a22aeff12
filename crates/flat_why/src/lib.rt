//! Why a session's content is not on the display: of each finished frame and each session
//! that it is shown, and how many items are its own, or the first cause why it isn't.
//!
//! The reasons are specs/Reasons, why a session that is shown draws nothing specs/Blanks, and
//! the text specs/Text. `ReasonTracker` hears of each entry of a run and writes the text;
//! specs/Noted says how what it keeps stands for the history.
#![tactic(auto)]

mod blanks;
mod counts;
mod entries;
mod hidden;
mod holds;
mod laws;
mod reason_tracker;
mod reasons;
mod standings;
mod tables;
mod text;
mod words;

pub use laws::{hidden_have_causes, own_items_are_said, standings_decide, untaken_presents_wait};
pub use reason_tracker::ReasonTracker;
pub use reasons::{
    AttachPoint, BlankReason, CloseReason, DetachedReason, DisplayedSession, HiddenReason,
    HoldReason, MadePresent, PendingPresent, UnplacedReason,
};
