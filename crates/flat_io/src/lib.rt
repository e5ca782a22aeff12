//! Sources and sinks of bytes, whose faults are known by counts alone, and the two
//! calls that read and write a whole text over them.
//!
//! What a source gives and what a sink holds is *told* where its type says so.
#![tactic(auto)]

mod counts;
mod memory;
mod sink;
mod source;
mod steady;
mod system;
mod whole;

pub use counts::{counted, is_next_among};
pub use memory::{MemSink, MemSource};
pub use sink::Sink;
pub use source::{Source, StreamFailed};
pub use steady::{SteadySink, SteadySource};
pub use system::{StdSink, StdSource, TellingRead, TellingWrite};
pub use whole::{ReadAll, WriteAll, read_all, write_all};
