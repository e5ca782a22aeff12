//! The software renderer: the picture of a draw list, computed in tiles.
//!
//! `render` (rendering) gives each pixel the colour of flat_ink's specs/Pixels, and `render_into`
//! does so in the memory of an old picture. Neither tiles (tile_grid, drawing) nor which items are
//! left out (sorting) show in an answer.
//!
//! A picture is drawn by rows of tiles (band), each tile by the items that may be seen there
//! (flat_tile). Threads share the rows of tiles out by their work (picture_plan, spans).
//! `Picture::write_row` (words) and `ppm_of` (ppm) hand the colours out; `render_strips`
//! (rendering) makes the bytes without a picture (strips, parts). proofs/lemmas speaks of these
//! bytes.
#![tactic(auto)]

mod band;
mod drawing;
mod parts;
mod picture;
mod picture_plan;
mod ppm;
mod rendering;
mod sorting;
mod spans;
mod strips;
mod tile_grid;
mod words;

pub use picture::Picture;
pub use ppm::{ppm_head, ppm_of, ppm_rows};
pub use rendering::{is_too_large, render, render_into, render_strips};
pub use strips::Strip;
pub use tile_grid::PIXELS_MAX;
