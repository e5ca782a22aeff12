//! The focus chain: the sessions from the root of the view tree to the one that has
//! the focus.
//!
//! A `Focus` (focus) keeps the chain of specs/Chains, and `print_focus` (text) writes the
//! text of specs/Text; specs/Laws says that a chain is a path from the root.
#![tactic(auto)]

mod focus;
mod laws;
mod text;

pub use focus::{Focus, FocusAnswer};
pub use laws::focus_laws;
pub use text::{FocusLine, FocusLines, print_focus};
