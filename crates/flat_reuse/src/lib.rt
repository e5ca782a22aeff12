//! Composition that keeps what did not change between frames.
//!
//! A session gives a list of pieces of its own: the items that its nodes paint, and
//! where the child views of its viewports come between them. What it gives depends
//! on what it shows and on the scope in which it is shown, and on nothing else, so
//! the pieces of a session are kept until one of the two changes.
//!
//! `draw_next` and `draw_changed` (reuse) answer `draw_list` and `view_nodes` of
//! flat_topology. `pieces` is specs/Pieces. A session's items are kept in a row, which
//! frames copy at once, and its links apart (specs/Parts); what is kept is
//! specs/Keeping (slots).
#![tactic(auto)]

mod follow;
mod piece;
mod reuse;
mod session_walk;
mod show;
mod slots;

pub use crate::reuse::Reuse;
pub use crate::show::Drawing;
