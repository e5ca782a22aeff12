ghost use Rattle.std.specs.Prelude.{◌≡◌, ◌+◌, ◌*◌, ◌/◌, ◌<◌, ◌≤◌, ◌++◌, ◌∷◌, [], ℕ, false, All, IfOk};
ghost use Rattle.std.specs.Prelude.{OnOk, length, if◌then◌else◌, slice_index_or};
ghost use Rattle.flat_drawable.specs.Drawable.{IsDrawable};
ghost use Rattle.flat_ink.specs.Areas.{has_pixel, is_among};
ghost use Rattle.flat_render.specs.Bands.{AreChoices, AreEmpty, AreRows, IsNoted, ServesRow};
ghost use Rattle.flat_render.specs.Grids.{IsGrid};
ghost use Rattle.flat_tile.specs.Preparing.{ArePrepared};

use crate::tile_grid::TileGrid;
use flat_base::NoMemory;
use flat_ink::area::Area;
use flat_ink::channel_ink::TILE_SIDE;
use flat_scene::DrawItem;
use flat_tile::prepared_item::PreparedItem;
use std::alloc::Global;

/// So many items are asked for each tile sooner than they are chosen for it.
const ITEMS_ON_EACH_TILE: usize = 32;

/// Some of the tiles of a row, or of the rows, from a first one up to a last one, which isn't
/// among them.
#[derive(Clone, Copy)]
struct Run {
    from: usize,
    upto: usize,
}

/// In which part of a line, whose parts have so many pixels each, a pixel lies. The compiler
/// knows the usual size, and divides by it without a division.
fn part_with(side: usize, x: usize) -> usize
    requires { 0 < side }
    ensures { result ≡ x / side }
{
    if side == TILE_SIDE {
        x / TILE_SIDE
    } else {
        x / side
    }
}

/// The tiles of a row in which an area may have a pixel.
fn columns_of(grid: &TileGrid, row: usize, area: Area) -> Run
    requires grid { IsGrid grid.now }
    requires row { row < grid.now.down }
    ensures within { result.upto ≤ grid.now.across }
    ensures others { (c px py : ℕ) → c < grid.now.across → c * grid.now.tile_w ≤ px →
        px < c * grid.now.tile_w + grid.now.tile_w → row * grid.now.tile_h ≤ py →
        py < row * grid.now.tile_h + grid.now.tile_h → is_among result.from result.upto c ≡ false →
        has_pixel area px py ≡ false }
{
    let top = row * grid.tile_h;
    if area.y1 <= top || area.y0 >= top + grid.tile_h {
        return Run { from: 0, upto: 0 };
    }
    Run {
        from: part_with(grid.tile_w, area.x0),
        upto: area.x1.div_ceil(grid.tile_w).min(grid.across),
    }
}

/// The rows of tiles in which an area may have a pixel.
fn rows_of(grid: &TileGrid, area: Area) -> Run
    requires { IsGrid grid.now }
    ensures within { result.upto ≤ grid.now.down }
    ensures others { (row px py : ℕ) → row < grid.now.down → row * grid.now.tile_h ≤ py →
        py < row * grid.now.tile_h + grid.now.tile_h → is_among result.from result.upto row
        ≡ false →
        has_pixel area px py ≡ false }
{
    Run {
        from: area.y0 / grid.tile_h,
        upto: area.y1.div_ceil(grid.tile_h).min(grid.down),
    }
}

/// Room for the numbers of items that lie evenly on so many parts, each on two of them.
fn room_for(items: usize, parts: usize) -> usize {
    items.saturating_mul(2) / parts.max(1)
}

/// So many lists without numbers, each with room for some.
fn empties(alloc: Global, count: usize, room: usize) -> Result<Vec<Vec<usize>>, NoMemory>
    ensures { IfOk result (λ lists. AreEmpty count lists.items) }
{
    let mut lists = Vec::with_capacity(alloc, count)?;
    for _ in 0..count {
        lists.push(Vec::with_capacity(alloc, room)?)?;
    }
    Ok(lists)
}

/// Puts a number at the end of some of the lists.
fn note(lists: &mut [Vec<usize>], n: usize, run: Run) -> Result<(), NoMemory>
    requires { run.upto ≤ length lists.old }
    ensures { OnOk result (IsNoted n run.from run.upto lists.old lists.new) }
{
    if run.from >= run.upto {
        return Ok(());
    }
    for c in run.from..run.upto {
        lists[c].push(n)?;
    }
    Ok(())
}

/// For each row of tiles, the numbers of the items that may be seen there: no lists if the items
/// are few.
pub fn sorted_rows(
    alloc: Global,
    items: &[DrawItem],
    list: &[PreparedItem],
    grid: &TileGrid,
) -> Result<Vec<Vec<usize>>, NoMemory>
    requires items { All IsDrawable items.now }
    requires prepared { ArePrepared items.now list.now }
    requires grid { IsGrid grid.now }
    ensures { IfOk result (λ lists. AreRows grid.now items.now lists.items (length items.now)) }
{
    if items.len() <= ITEMS_ON_EACH_TILE {
        return Ok(Vec::new(alloc));
    }
    let mut lists = empties(alloc, grid.down, room_for(items.len(), grid.down))?;
    for n in 0..items.len() {
        let rows = rows_of(grid, list[n].area);
        note(lists.as_mut_slice(), n, rows)?;
    }
    Ok(lists)
}

/// For each tile of a row, the numbers of the items that may be seen there. They are among those
/// that may be seen in the row.
pub fn sorted(
    alloc: Global,
    items: &[DrawItem],
    list: &[PreparedItem],
    places: &[usize],
    grid: &TileGrid,
    row: usize,
) -> Result<Vec<Vec<usize>>, NoMemory>
    requires items { All IsDrawable items.now }
    requires prepared { ArePrepared items.now list.now }
    requires places { ServesRow grid.now row items.now places.now (length items.now) }
    requires grid { IsGrid grid.now }
    requires row { row < grid.now.down }
    ensures { IfOk result (λ lists. AreChoices grid.now row items.now lists.items
        (length items.now)) }
{
    let mut lists = empties(alloc, grid.across, room_for(places.len(), grid.across))?;
    for k in 0..places.len() {
        let n = places[k];
        let columns = columns_of(grid, row, list[n].area);
        note(lists.as_mut_slice(), n, columns)?;
    }
    Ok(lists)
}
