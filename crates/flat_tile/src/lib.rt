//! Draw items drawn on one tile, a small part of a picture.
//!
//! What an item gives all tiles is found once (prepared_item). `draw` and `draw_chosen` (chosen)
//! draw a tile from black by items that are prepared: fills and images in their own size are laid
//! on it (laying, image_stamp), any other image is drawn channel by channel (tile), row by row
//! (plane). `draw_anew` (tile) draws a part of a tile by the items alone. specs/Tiles says how the
//! bytes of a tile lie, specs/Preparing what is prepared.
//!
//! Other crates may cite the lemmas of proofs/lemmas/.
#![tactic(auto)]

pub mod chosen;
mod image_stamp;
mod laying;
mod plane;
pub mod prepared_item;
pub mod tile;
