//! The reader of scripts: text to script, or to its first fault. [`parse`] answers
//! `text_read` (specs/Grammar; src/parser.rt), line by line as flat_forms reads them.
//! [`parse_on`] answers the same by several threads: the head is read first, then each thread
//! looks at a piece of the body (src/ahead.rt), and at the end the lines are taken in turn,
//! which is all that hangs on the lines before (src/apart.rt; specs/Ahead).
#![tactic(auto)]

mod ahead;
mod apart;
mod parser;
mod plain;
mod script;

pub use parser::{is_skipped, parse, parse_on};
pub use plain::all_plain;
pub use script::{ScriptError, ScriptFault};
