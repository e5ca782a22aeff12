//! A live stage: who writes a shell opens one, hands a client to each thread, and composes frames.
//!
//! Read [`Shell`] first, and then [`DisplayCompositor`]: it begins a frame, which is composed
//! ([`BegunFrame`]), shown and done ([`ComposedFrame`]). What each of them knows of the history
//! stands in specs/Live; the frames are those of flat_report's specs/Report.
#![tactic(auto)]

mod compositor;
mod compositor_parts;
mod fault;
mod frame;
mod shell;
mod waits;

pub use compositor::DisplayCompositor;
pub use fault::{BeginFault, CloseFault, DisplayFault};
pub use frame::{BegunFrame, ComposedFrame};
pub use shell::Shell;
