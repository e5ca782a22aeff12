//! Extra lines: lines of a script's text that are no part of the script, and the
//! rest of the text.
#![tactic(auto)]

mod laws;
mod reading;
mod split;
mod whole;

pub use laws::{extra_laws, pointers_rise, rests_are_read};
pub use reading::{read_focus, read_pointers};
pub use split::{ByteList, ExtraLine, ExtraList, ExtraSet, SplitText, split_text};
pub use whole::{FocusScript, PointerScript, parse_focus, parse_pointers};
