//! The lines of a report: what it says of entries, of events, of frames and of displays
//! that were lost, and its first line and its last one.
//!
//! Each is put on a page as its definition says. Lines of entries and events stand in
//! entry_lines.rt, and their words by kinds in entry_words.rt (specs/EntryLines); those of
//! draw items, views, sessions apart and lost displays in frame_words.rt
//! (specs/FrameLines); the first one and the last one in ends.rt (specs/Ends). A flip and
//! an interaction have the numbers that a script has for them (flat_print).
//!
//! What is written of which entry, and in which order, flat_report says.
#![tactic(auto)]

mod ends;
mod entry_lines;
mod entry_words;
mod frame_words;
mod names;

pub use ends::{push_end, push_title};
pub use entry_lines::{push_entry, push_long, push_point, push_posts};
pub use entry_words::push_closing;
pub use frame_words::{push_item, push_losses, push_tree};
pub use names::pair_name;
