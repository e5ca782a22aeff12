//! The lines of a script: the form of each, and what it makes of the script so far.
//! [`Parser::words`] keeps `words_read` (specs/Lines; src/parser.rt), by the forms of
//! the head (specs/Head; src/forms.rt) and of the body (specs/Body; src/forms.rt,
//! src/session_forms.rt), with its calls (specs/Calls; src/call_forms.rt) and lists
//! (src/lists.rt). What can be read of a line before the lines before it says specs/Ahead
//! (src/ahead.rt).
//!
//! Other crates may cite the lemmas of proofs/lemmas/: forms and what they read
//! (FormLemmas), what names mean (IndexLemmas), lists (ListLemmas), and a line's step
//! (ParserLemmas, StepLemmas, FoundLemmas).
#![tactic(auto)]

mod ahead;
mod call_forms;
mod calls;
mod conditions;
mod counts;
mod declared;
mod forms;
mod lines;
mod lists;
mod parser;
mod session_forms;

pub use ahead::said_ahead;
pub use calls::CallName;
pub use lines::{LineError, TextPart};
pub use parser::Parser;
