//! The words of a line, place by place: numbers of a range (src/word_cursor.rt, and
//! src/numbers.rt for what one word says), and names of a script (src/named.rt,
//! src/names.rt). Each method of [`WordCursor`] reads the form of its name (specs/Places),
//! as `Reads` says (specs/Reads), and notes the lowest kind of the faults (src/kinds.rt,
//! specs/Kinds). Which words a version of scripts has says specs/Known (src/known.rt).
//!
//! Other crates may cite the lemmas of proofs/lemmas/: names (NameLemmas), and forms as
//! the code reads them (ReadsLemmas).
#![tactic(auto)]

mod kinds;
mod known;
mod name;
mod named;
mod names;
mod numbers;
mod script;
mod word_cursor;

pub use kinds::FaultKind;
pub use known::knows;
pub use name::{Name, NameList};
pub use names::{IndexedScript, NameMeaning, Names, is_word};
pub use script::Script;
pub use word_cursor::WordCursor;
