//! The texts that are written of a run in place of its report: the picture of its last
//! frame, the pictures of all of them, and what changed from frame to frame.
//!
//! `picture_of` (picture) gives the text of specs/Pictures, `Film` (film) that of specs/Films,
//! `FrameDamages` (damage) that of specs/Damages, and `finish_lines` (lines) the numbers of
//! specs/Lines.
#![tactic(auto)]

mod damage;
mod film;
mod lines;
mod picture;
mod strips;

pub use damage::{FrameDamage, FrameDamages};
pub use film::Film;
pub use lines::finish_lines;
pub use picture::picture_of;
