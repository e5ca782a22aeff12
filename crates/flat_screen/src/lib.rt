//! A display that keeps the picture of the last frame it was shown, by repainting what changed.
//!
//! Read [`PictureDisplay`] first. Contracts see it as a `Screen` (specs/Screens): its size, the
//! draw list that it shows, and how many of its shows failed. The colours that the list has are
//! those of flat_render's specs/Pixels.
#![tactic(auto)]

mod fault;
mod picture;

pub use fault::ScreenFault;
pub use picture::PictureDisplay;
