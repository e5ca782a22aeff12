//! Numbers, words and lines of a text.
//!
//! A text is cut into lines at line feeds, and a line into words at single
//! spaces. A number has one spelling only: `0`, or digits without a leading zero,
//! or `-` and digits without a leading zero; it has at most 20 digits.
//!
//! `number` reads and writes by specs/Number, `pieces` cuts by specs/Pieces.
//!
//! Other crates may cite the lemmas of proofs/lemmas/: numbers and their spellings
//! (NumberLemmas), and how many lines a text has (LineLemmas).
#![tactic(auto)]

mod number;
mod pieces;

pub use number::{push_number, read_natural, read_number};
pub use pieces::{cut_lines, line, next_piece, word};
