//! The canonical text of a script (`text_of`, specs/Print), and its printer: what it
//! writes of a script that some text has is read as that script, up to line numbers.
//!
//! Other crates may cite the lemmas of proofs/lemmas/: what is written is read again:
//! words and lines of a text (TextLemmas, OrderLemmas, RunLemmas), lines (AgainLemmas,
//! BodyWordLemmas).
#![tactic(auto)]

mod print_calls;
mod print_lines;
mod print_words;
mod printer;

pub use print_words::{flip_number, interaction_number};
pub use printer::print;
