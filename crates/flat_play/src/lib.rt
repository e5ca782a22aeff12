//! The play of a script in written order: its lines are read over one board, its frames
//! composed and shown to displays, and lines of pointers and probes answered in between.
//! It keeps `HasRunInOrder` (specs/Runs): whole.rt runs a script, run.rt goes through its lines,
//! play.rt plays each.
//! A `FrameStore` (store.rt, specs/Storing) has what is kept of the frames: frame.rt composes
//! the next one and answers points, kept_frames.rt has what is written of them.
//!
//! Other crates may cite the lemmas of proofs/lemmas/: lines of the display beside its frames
//! (Beside), lines at their places (Places, Steps, Unread), what a line leaves (PlaySteps,
//! Readers, DisplaySteps), what is shown (FramesShown) and to how many sessions (FewViews),
//! what of it is joined (Joining), what is kept of frames (Storing), what displays have had
//! (Seen), what a play begins with (Starting), and lists of which an item is set (Slots).
#![tactic(auto)]

mod filming;
mod frame;
mod kept_frames;
mod play;
mod probes;
mod run;
mod side_output;
mod store;
mod touches;
mod trees;
mod whole;

pub use filming::play_filmed;
pub use frame::LastFrame;
pub use kept_frames::{FramesToKeep, KeptFrames};
pub use play::Play;
pub use probes::no_answers;
pub use run::open_board;
pub use store::FrameStore;
pub use whole::{FinishedPlay, let_go, play_explained, play_script, play_touched};
