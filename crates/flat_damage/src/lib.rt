//! Damage: the rectangles outside of which two draw lists give the same pixels.
//!
//! `damage` (difference) answers specs/Damage; specs/Unchanged says what it means for pixels, and
//! `redraw` (redrawing) repaints by it, and `is_beside` (area) says which rows it leaves.
#![tactic(auto)]

mod area;
mod common;
mod difference;
mod laws;
mod rects;
mod redrawing;

pub use area::{area_of, is_beside};
pub use difference::{RECTS_MAX, damage};
pub use laws::damage_laws;
pub use redrawing::redraw;
