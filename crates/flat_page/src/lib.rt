//! The writer of lines: reports, scripts, loads, and the texts of focus, pointers, damage
//! and causes are put on a `Page` (page), word by word and line by line.
//!
//! Contracts see a page as its bytes; `Puts`, `Writes` and `WritesLines` (specs/Pages) say
//! what a call puts behind them, by the words and lines of specs/Words. A page has room behind
//! its text (room.rt), into which words and digits are written (digits.rt). The names of a
//! script's actors, as words, stand in names.rt; frames and lines by their numbers, as texts
//! have them in order, in specs/Happenings.
//!
//! Other crates may cite the lemmas of proofs/lemmas/: words and lines written one
//! after another (PageLemmas), lines and frames by their numbers (Merging), what is
//! written of them all (Telling), and the last item of a list (LastItems).
#![tactic(auto)]

mod digits;
mod names;
mod page;
mod room;

pub use names::{actor_name, name_at, session_name};
pub use page::Page;
