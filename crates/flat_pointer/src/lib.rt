//! Pointer streams: to which session the lines of a pointer go.
//!
//! `Pointers` (pointers) keep the streams of specs/Streams, and `print_pointers` (text)
//! writes the text of specs/Text; specs/Laws says on what a stream hangs.
#![tactic(auto)]

mod laws;
mod pointers;
mod text;

pub use laws::pointer_laws;
pub use pointers::{POINTERS, PointerAnswer, Pointers};
pub use text::{PointerCall, PointerLine, PointerLines, PointerTouch, print_pointers};
