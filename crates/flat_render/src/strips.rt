//! Strips: the bytes of a picture, a row of tiles each. They are drawn one after the other in the
//! same memory, so that what is drawn is still in the processor's cache, and a strip that looks
//! like the one before it shares its bytes.
ghost use Rattle.std.specs.Prelude.{◌≡◌, ◌+◌, ◌-◌, ◌*◌, ◌<◌, ◌≤◌, ◌++◌, ℕ, IfOk, IsTrue};
ghost use Rattle.std.specs.Prelude.{length};
ghost use Rattle.std.specs.Arc.{arc_value};
ghost use Rattle.std.specs.List.{flat_map};
ghost use Rattle.flat_render.specs.Grids.{band_bytes, IsGrid};
ghost use Rattle.flat_render.specs.Plans.{IsPlan};
ghost use Rattle.flat_render.specs.Stored.{drawn_at};
ghost use Rattle.flat_render.specs.Strips.{rows_above, strip_in};

use crate::band::draw_band;
use crate::picture_plan::PicturePlan;
use crate::ppm::push_band;
use crate::tile_grid::{TileGrid, bytes_of_bands};
use flat_base::{Items, NoMemory};
use flat_tile::tile::CHANNELS;
use std::alloc::Global;
use std::mem::swap;
use std::sync::Arc;

/// Bytes that strips share.
pub type Strip = Arc<Items<u8>>;

/// The strip of a row of tiles.
fn strip_of(alloc: Global, grid: &TileGrid, n: usize, band: &[u8]) -> Result<Strip, NoMemory>
    requires grid { IsGrid grid.now }
    requires there { n < grid.now.down }
    requires size { length band.now ≡ band_bytes grid.now }
    ensures { IfOk result (λ strip. arc_value strip ≡ strip_in grid.now n band.now) }
{
    let room = grid
        .width
        .saturating_mul(grid.tile_h)
        .saturating_mul(CHANNELS);
    let mut out = Vec::with_capacity(alloc, room)?;
    push_band(&mut out, grid, n, band)?;
    let strip = Arc::new(alloc, Items::from_vec(out))?;
    Ok(strip)
}

/// Whether a row of tiles, which isn't the first one of those that are drawn, looks like the one
/// before it.
fn is_again(grid: &TileGrid, first: usize, n: usize, before: &[u8], band: &[u8]) -> bool
    requires grid { IsGrid grid.now }
    requires there { n < grid.now.down }
    requires order { first ≤ n }
    ensures later { IsTrue result → first < n }
    ensures same { IsTrue result → strip_in grid.now n band.now
        ≡ strip_in grid.now (n - 1) before.now }
{
    if n == first || (n + 1) * grid.tile_h > grid.height {
        return false;
    }
    before == band
}

/// The strip of a row of tiles: the last one, if its bytes are the same.
fn next_strip(
    alloc: Global,
    grid: &TileGrid,
    n: usize,
    band: &[u8],
    is_again: bool,
    last: &Strip,
) -> Result<Strip, NoMemory>
    requires grid { IsGrid grid.now }
    requires there { n < grid.now.down }
    requires size { length band.now ≡ band_bytes grid.now }
    requires again { IsTrue is_again → arc_value last.now ≡ strip_in grid.now n band.now }
    ensures { IfOk result (λ strip. arc_value strip ≡ strip_in grid.now n band.now) }
{
    if is_again {
        let same = Arc::try_clone(last)?;
        return Ok(same);
    }
    strip_of(alloc, grid, n, band)
}

/// The strips of the rows of tiles from one up to another.
pub fn draw_strips(plan: &PicturePlan<'_>, from: usize, upto: usize) -> Result<Vec<Strip>, NoMemory>
    requires plan { IsPlan plan.now }
    requires order { from ≤ upto }
    requires there { upto ≤ plan.now.grid.down }
    ensures { IfOk result (λ strips. rows_above plan.now.items.now plan.now.grid upto
        ≡ rows_above plan.now.items.now plan.now.grid from ++ flat_map arc_value strips.items) }
{
    let (alloc, grid) = (plan.alloc, &plan.grid);
    let size = bytes_of_bands(grid);
    let mut band = vec![in alloc; 0u8; size]?;
    let mut before = vec![in alloc; 0u8; size]?;
    let mut last = Arc::new(alloc, Items::new(alloc))?;
    let mut strips = Vec::with_capacity(alloc, upto - from)?;
    for n in from..upto {
        swap(&mut band, &mut before);
        draw_band(plan, n, band.as_mut_slice());
        let again = is_again(grid, from, n, before.as_slice(), band.as_slice());
        last = next_strip(alloc, grid, n, band.as_slice(), again, &last)?;
        strips.push(Arc::try_clone(&last)?)?;
    }
    Ok(strips)
}
