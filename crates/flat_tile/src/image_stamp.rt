ghost use Rattle.std.specs.Prelude.{◌≡◌, ◌+◌, ◌*◌, ◌<◌, ◌≤◌, ◌-◌, ℕ, length, slice_index, if◌then◌else◌};
ghost use Rattle.flat_ink.specs.Areas.{has_pixel, IsInArea, IsWindow};
ghost use Rattle.flat_tile.specs.Preparing.{stamped, IsStamp};
ghost use Rattle.flat_tile.specs.Tiles.{x_of, y_of, x_at, y_at, channel_at, pixels_of, tile_area, IsTile};

use crate::tile::Tile;
use flat_ink::area::Area;
use flat_ink::channel_ink::{TILE_SIDE, copy_ends, wash_ends};

/// What an opaque image in its own size gives the pixels of an area in a tile.
#[derive(Clone, Copy)]
pub struct ImageStamp {
    pub cut: Area,
    /// A red for each column.
    pub reds: [u8; TILE_SIDE],
    /// A green for each row.
    pub greens: [u8; TILE_SIDE],
    pub blue: u8,
}

/// The width of many small images, such as those of glyphs and pointers: their rows are stamped
/// once, and not at each end.
const SMALL_SIDE: usize = 16;

/// Stamps the three planes of a tile row by row: so many pixels at each end of each row, which
/// are all of its pixels. The compiler knows how many they are.
#[inline(always)]
fn stamp_rows_by(
    it: &ImageStamp,
    count: usize,
    tile: Tile,
    red: &mut [u8],
    green: &mut [u8],
    blue: &mut [u8],
)
    requires stamp { IsStamp it.now }
    requires few { count ≤ it.now.cut.x1 - it.now.cut.x0 }
    requires many { it.now.cut.x1 - it.now.cut.x0 ≤ 2 * count }
    requires tile { IsTile tile }
    requires red { length red.old ≡ pixels_of tile }
    requires green { length green.old ≡ pixels_of tile }
    requires blue { length blue.old ≡ pixels_of tile }
    requires cut { IsInArea (tile_area tile) it.now.cut }
    requires some { IsWindow it.now.cut }
    ensures red { (k : ℕ) → k < length red.old → slice_index red.new k
        ≡ (if has_pixel it.now.cut (x_of tile k) (y_of tile k) then stamped it.now 0
        (x_of tile k) (y_of tile k) else slice_index red.old k) }
    ensures green { (k : ℕ) → k < length green.old → slice_index green.new k
        ≡ (if has_pixel it.now.cut (x_of tile k) (y_of tile k) then stamped it.now 1
        (x_of tile k) (y_of tile k) else slice_index green.old k) }
    ensures blue { (k : ℕ) → k < length blue.old → slice_index blue.new k
        ≡ (if has_pixel it.now.cut (x_of tile k) (y_of tile k) then stamped it.now 2
        (x_of tile k) (y_of tile k) else slice_index blue.old k) }
{
    let cut = it.cut;
    let values = it.reds;
    for py in cut.y0..cut.y1 {
        let row = (py - tile.top) * tile.width;
        let reds = &mut red[row + (cut.x0 - tile.left)..row + (cut.x1 - tile.left)];
        copy_ends(values.as_slice(), count, reds);
        let greens = &mut green[row + (cut.x0 - tile.left)..row + (cut.x1 - tile.left)];
        wash_ends(it.greens[py - cut.y0], count, greens);
        let blues = &mut blue[row + (cut.x0 - tile.left)..row + (cut.x1 - tile.left)];
        wash_ends(it.blue, count, blues);
    }
}

/// Stamps the three planes of a tile.
fn stamp_rows(it: &ImageStamp, tile: Tile, red: &mut [u8], green: &mut [u8], blue: &mut [u8])
    requires stamp { IsStamp it.now }
    requires tile { IsTile tile }
    requires red { length red.old ≡ pixels_of tile }
    requires green { length green.old ≡ pixels_of tile }
    requires blue { length blue.old ≡ pixels_of tile }
    requires cut { IsInArea (tile_area tile) it.now.cut }
    requires some { IsWindow it.now.cut }
    ensures red { (k : ℕ) → k < length red.old → slice_index red.new k
        ≡ (if has_pixel it.now.cut (x_of tile k) (y_of tile k) then stamped it.now 0
        (x_of tile k) (y_of tile k) else slice_index red.old k) }
    ensures green { (k : ℕ) → k < length green.old → slice_index green.new k
        ≡ (if has_pixel it.now.cut (x_of tile k) (y_of tile k) then stamped it.now 1
        (x_of tile k) (y_of tile k) else slice_index green.old k) }
    ensures blue { (k : ℕ) → k < length blue.old → slice_index blue.new k
        ≡ (if has_pixel it.now.cut (x_of tile k) (y_of tile k) then stamped it.now 2
        (x_of tile k) (y_of tile k) else slice_index blue.old k) }
{
    let width = it.cut.x1 - it.cut.x0;
    if width == SMALL_SIDE {
        return stamp_rows_by(it, SMALL_SIDE, tile, red, green, blue);
    }
    if width >= TILE_SIDE / 2 {
        return stamp_rows_by(it, TILE_SIDE / 2, tile, red, green, blue);
    }
    if width >= TILE_SIDE / 4 {
        return stamp_rows_by(it, TILE_SIDE / 4, tile, red, green, blue);
    }
    if width >= TILE_SIDE / 8 {
        return stamp_rows_by(it, TILE_SIDE / 8, tile, red, green, blue);
    }
    if width >= TILE_SIDE / 16 {
        return stamp_rows_by(it, TILE_SIDE / 16, tile, red, green, blue);
    }
    if width >= TILE_SIDE / 32 {
        return stamp_rows_by(it, TILE_SIDE / 32, tile, red, green, blue);
    }
    stamp_rows_by(it, TILE_SIDE / 64, tile, red, green, blue);
}

/// Stamps a tile: its bytes are one plane after another.
pub fn stamp_tile(it: &ImageStamp, tile: Tile, bytes: &mut [u8])
    requires stamp { IsStamp it.now }
    requires tile { IsTile tile }
    requires size { length bytes.old ≡ 3 * pixels_of tile }
    requires cut { IsInArea (tile_area tile) it.now.cut }
    requires some { IsWindow it.now.cut }
    ensures { (m : ℕ) → m < length bytes.old → slice_index bytes.new m
        ≡ (if has_pixel it.now.cut (x_at tile m) (y_at tile m) then stamped it.now
        (channel_at tile m) (x_at tile m) (y_at tile m) else slice_index bytes.old m) }
{
    let size = tile.width * tile.height;
    let (red, rest) = bytes.split_at_mut(size);
    let (green, blue) = rest.split_at_mut(size);
    stamp_rows(it, tile, red, green, blue);
}
