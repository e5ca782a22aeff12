//! Matrices and rectangles in fixed point: where a scene's transforms put their
//! contents on the display.
//!
//! A place is a signed number of 1/65536 units. Scales and matrix entries have
//! 16 bits below the point too. Every product is rounded towards 0. Matrix
//! entries saturate at -2^31 and 2^31, and places where a matrix maps them at
//! -2^46 and 2^46. Every call is total and takes no memory.
//!
//! `matrix` answers specs/Matrices, `rect` specs/Rectangles.
#![tactic(auto)]

mod matrix;
mod rect;

pub use matrix::{Matrix, compose, local, map_point, scaling};
pub use rect::{contains, intersect, is_empty, map_rect, sized, units};
