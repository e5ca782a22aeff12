ghost use Rattle.std.specs.Prelude.{◌≡◌, ◌<◌, ℕ, All};
ghost use Rattle.std.specs.Prelude.{if◌then◌else◌, length};
ghost use Rattle.std.specs.Prelude.{slice_index};
ghost use Rattle.flat_drawable.specs.Drawable.{IsDrawable};
ghost use Rattle.flat_ink.specs.Areas.{has_pixel};
ghost use Rattle.flat_render.specs.Damaged.{is_in_any};
ghost use Rattle.flat_render.specs.Grids.{grid_bytes, IsGrid};
ghost use Rattle.flat_render.specs.Stored.{stored_x, stored_y, drawn_at};

use crate::tile_grid::{TileGrid, bytes_of_tiles, count_of_tiles, tile};
use flat_base::Rect;
use flat_ink::area::{Area, area_of};
use flat_scene::DrawItem;
use flat_tile::tile::draw_anew;

/// Draws what is in a window anew, on all tiles.
fn redraw_tiles(items: &[DrawItem], grid: &TileGrid, window: Area, bytes: &mut [u8])
    requires items { All IsDrawable items.now }
    requires grid { IsGrid grid.now }
    requires size { length bytes.old ≡ grid_bytes grid.now }
    ensures { (i : ℕ) → i < length bytes.old → slice_index bytes.new i
        ≡ (if has_pixel window (stored_x grid.now i) (stored_y grid.now i) then drawn_at grid.now
        items.now i else slice_index bytes.old i) }
{
    let size = bytes_of_tiles(grid);
    for n in 0..count_of_tiles(grid) {
        let start = n * size;
        let bytes_of_tile = &mut bytes[start..start + size];
        draw_anew(items, tile(grid, n), window, bytes_of_tile);
    }
}

/// Draws what is in any of some rectangles anew.
pub fn redraw_rects(items: &[DrawItem], grid: &TileGrid, rects: &[Rect], bytes: &mut [u8])
    requires items { All IsDrawable items.now }
    requires grid { IsGrid grid.now }
    requires size { length bytes.old ≡ grid_bytes grid.now }
    ensures { (i : ℕ) → i < length bytes.old → slice_index bytes.new i
        ≡ (if is_in_any rects.now (stored_x grid.now i) (stored_y grid.now i) then drawn_at grid.now
        items.now i else slice_index bytes.old i) }
{
    for rect in rects {
        redraw_tiles(items, grid, area_of(*rect), bytes);
    }
}
