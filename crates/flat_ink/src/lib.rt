//! What the renderer lays on pixels: areas of whole pixels, colours, and the ink of an item.
//!
//! specs/Pixels says which colour a draw list gives a pixel, and specs/Channels the same of one
//! channel. An item's ink on an area (brush) has for each channel one value, one for each column or
//! one for each row (channel_ink): a fill has one, an image those of its texels (texture), which
//! its axes find (axis). `area_of` (area) gives the pixels whose centres lie in a rectangle.
//!
//! Other crates may cite the lemmas of proofs/lemmas/.
#![tactic(auto)]

pub mod area;
pub mod axis;
pub mod brush;
pub mod channel_ink;
pub mod colour;
pub mod texture;
