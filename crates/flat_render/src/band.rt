ghost use Rattle.std.specs.Prelude.{◌≡◌, ◌+◌, ◌<◌, ◌*◌, ℕ, All, length, slice_index};
ghost use Rattle.flat_drawable.specs.Drawable.{IsDrawable};
ghost use Rattle.flat_render.specs.Bands.{AreChoices, IsChoice};
ghost use Rattle.flat_render.specs.Grids.{band_bytes, IsGrid};
ghost use Rattle.flat_render.specs.Plans.{IsPlan};
ghost use Rattle.flat_tile.specs.Preparing.{ArePrepared};
ghost use Rattle.flat_render.specs.Stored.{drawn_at};
ghost use Rattle.flat_tile.specs.Chosen.{drawn_in};
ghost use Rattle.flat_tile.specs.Tiles.{pixels_of, tile_area, IsTile};

use crate::picture_plan::PicturePlan;
use crate::sorting::sorted;
use crate::tile_grid::{TileGrid, bytes_of_tiles, tile};
use flat_scene::DrawItem;
use flat_tile::chosen::{draw, draw_chosen};
use flat_tile::prepared_item::PreparedItem;
use flat_tile::tile::Tile;

/// Draws a tile by the items with some numbers, which are those that may be seen there.
fn draw_tile(
    items: &[DrawItem],
    list: &[PreparedItem],
    places: &[usize],
    tile: Tile,
    bytes: &mut [u8],
)
    requires items { All IsDrawable items.now }
    requires prepared { ArePrepared items.now list.now }
    requires tile { IsTile tile }
    requires places { IsChoice (tile_area tile) items.now places.now (length items.now) }
    requires size { length bytes.old ≡ 3 * pixels_of tile }
    ensures { (m : ℕ) → m < length bytes.old → slice_index bytes.new m ≡ drawn_in tile items.now m }
{
    draw_chosen(items, list, places, tile, bytes);
}

/// Draws a row of tiles, each by all of the items.
fn draw_each(
    items: &[DrawItem],
    list: &[PreparedItem],
    grid: &TileGrid,
    row: usize,
    bytes: &mut [u8],
)
    requires items { All IsDrawable items.now }
    requires prepared { ArePrepared items.now list.now }
    requires grid { IsGrid grid.now }
    requires row { row < grid.now.down }
    requires size { length bytes.old ≡ band_bytes grid.now }
    ensures { (m : ℕ) → m < length bytes.old → slice_index bytes.new m
        ≡ drawn_at grid.now items.now (row * band_bytes grid.now + m) }
{
    let size = bytes_of_tiles(grid);
    for n in 0..grid.across {
        let start = n * size;
        let bytes_of_tile = &mut bytes[start..start + size];
        draw(
            items,
            list,
            tile(grid, row * grid.across + n),
            bytes_of_tile,
        );
    }
}

/// Draws a row of tiles, each by the items that may be seen there.
fn draw_picked(
    items: &[DrawItem],
    list: &[PreparedItem],
    lists: &[Vec<usize>],
    grid: &TileGrid,
    row: usize,
    bytes: &mut [u8],
)
    requires items { All IsDrawable items.now }
    requires prepared { ArePrepared items.now list.now }
    requires lists { AreChoices grid.now row items.now lists.now (length items.now) }
    requires grid { IsGrid grid.now }
    requires row { row < grid.now.down }
    requires size { length bytes.old ≡ band_bytes grid.now }
    ensures { (m : ℕ) → m < length bytes.old → slice_index bytes.new m
        ≡ drawn_at grid.now items.now (row * band_bytes grid.now + m) }
{
    let size = bytes_of_tiles(grid);
    for n in 0..grid.across {
        let start = n * size;
        let bytes_of_tile = &mut bytes[start..start + size];
        let tile = tile(grid, row * grid.across + n);
        draw_tile(items, list, lists[n].as_slice(), tile, bytes_of_tile);
    }
}

/// Draws a row of tiles, from black. Of many items it looks twice at those alone that may be seen
/// on a tile, if memory is there for their numbers.
pub fn draw_band(plan: &PicturePlan<'_>, row: usize, bytes: &mut [u8])
    requires plan { IsPlan plan.now }
    requires row { row < plan.now.grid.down }
    requires size { length bytes.old ≡ band_bytes plan.now.grid }
    ensures { (m : ℕ) → m < length bytes.old → slice_index bytes.new m
        ≡ drawn_at plan.now.grid plan.now.items.now (row * band_bytes plan.now.grid + m) }
{
    let (items, list, grid) = (plan.items, plan.list, &plan.grid);
    let Some(places) = plan.rows.get(row) else {
        return draw_each(items, list, grid, row, bytes);
    };
    match sorted(plan.alloc, items, list, places.as_slice(), grid, row) {
        Ok(lists) => draw_picked(items, list, lists.as_slice(), grid, row, bytes),
        Err(_) => draw_each(items, list, grid, row, bytes),
    }
}
