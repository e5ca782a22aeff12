//! A plan: what is drawn, how it is cut into rows of tiles, and how these are shared out among
//! threads, so that each has about the same work.
ghost use Rattle.std.specs.Prelude.{◌+◌, ◌<◌, ◌≤◌};

use crate::tile_grid::TileGrid;
use flat_base::NoMemory;
use flat_ink::channel_ink::BlendRule;
use flat_scene::DrawItem;
use flat_tile::prepared_item::PreparedItem;
use rayon::current_num_threads;
use std::alloc::Global;
use std::thread::Threads;

/// The most work, in pixels that are replaced, that the caller does alone: for so little, starting
/// threads costs more than it saves.
const LIGHT: usize = 8_000_000;

/// What an item costs in a row of tiles beside its pixels, counted in such pixels.
const ITEM_WORK: usize = 1024;

/// How much longer it takes to lay a pixel over what is there than to replace it.
const COVER_WORK: usize = 3;

/// So many items tell how the work lies on a picture. Of more, each of them stands for as many as
/// follow it up to the next one.
const ITEMS_ASKED: usize = 2048;

/// The most threads that draw a picture: more of them would make tiles so low that items lie on
/// many.
pub const THREADS_MAX: usize = 8;

/// Items, what was found of each, and the grid of their picture.
#[derive(Clone, Copy)]
pub struct PicturePlan<'a> {
    pub alloc: Global,
    pub items: &'a [DrawItem],
    pub list: &'a [PreparedItem],
    pub grid: TileGrid,
    /// For each row of tiles, the numbers of the items that may be seen there, if they are many.
    pub rows: &'a [Vec<usize>],
    /// How much work each row of tiles is.
    pub works: &'a [usize],
}

/// Some rows of tiles, from a first one up to a last one, which isn't among them.
#[derive(Clone, Copy)]
pub struct TileRowSpan {
    pub from: usize,
    pub upto: usize,
    /// The most threads that are started to draw them, beside the one that is asked to.
    pub threads: usize,
}

/// How much work a pixel of an item is.
fn pixel_work(mix: BlendRule) -> usize {
    match mix {
        BlendRule::Replace => 1,
        BlendRule::Cover(_) => COVER_WORK,
    }
}

/// How much work it is to draw items.
fn work_of(list: &[PreparedItem]) -> usize {
    let mut work: usize = 0;
    for it in list {
        let area = it.area;
        let pixels = area
            .x1
            .saturating_sub(area.x0)
            .saturating_mul(area.y1.saturating_sub(area.y0));
        let more = pixels.saturating_mul(pixel_work(it.mix));
        work = work.saturating_add(more.saturating_add(ITEM_WORK));
    }
    work
}

/// How many threads may draw a picture: one for each processor.
pub fn most_threads(rt: &(impl Threads + Sync)) -> usize
    ensures some { 0 < result }
    ensures few { result ≤ THREADS_MAX }
{
    current_num_threads(rt).clamp(1, THREADS_MAX)
}

/// How many threads are started to draw a picture, of at most so many: none if there is little
/// work, or one processor.
pub fn threads_for(list: &[PreparedItem], most: usize) -> usize
    ensures { result ≤ most }
{
    if most <= 1 || work_of(list) <= LIGHT {
        0
    } else {
        most
    }
}

/// Adds what an item, and so many like it, cost in each row of tiles.
fn add_items(works: &mut Vec<usize>, grid: &TileGrid, it: &PreparedItem, count: usize) {
    let area = it.area;
    let height = grid.tile_h.max(1);
    let bottom = area.y1.min(grid.height);
    let width = area.x1.min(grid.width).saturating_sub(area.x0);
    let each = width.saturating_mul(pixel_work(it.mix));
    for row in area.y0 / height..bottom.div_ceil(height) {
        let top = row.saturating_mul(height);
        let rows = bottom
            .min(top.saturating_add(height))
            .saturating_sub(area.y0.max(top));
        if let Some(work) = works.get_mut(row) {
            let more = rows.saturating_mul(each).saturating_add(ITEM_WORK);
            *work = work.saturating_add(more.saturating_mul(count));
        }
    }
}

/// About how much work each row of tiles is, in pixels, if several threads are to share it.
pub fn works_for(
    alloc: Global,
    list: &[PreparedItem],
    grid: &TileGrid,
    threads: usize,
) -> Result<Vec<usize>, NoMemory> {
    if threads == 0 {
        return Ok(Vec::new(alloc));
    }
    let mut works = vec![in alloc; grid.width; grid.down]?;
    let step = list.len() / ITEMS_ASKED + 1;
    for n in 0..list.len().div_ceil(step) {
        if let Some(it) = list.get(n.saturating_mul(step)) {
            add_items(&mut works, grid, it, step);
        }
    }
    Ok(works)
}

/// How many of some threads draw the first part of what these share: the one that is started next,
/// if there is one. The caller goes on with the others, and so starts all of them one right after
/// the other. It draws but the last row of tiles, and waits: some kernels put the first thread that
/// is started on the caller's own processor, and leave it there until the caller waits.
pub fn first_share(threads: usize) -> usize
    ensures { result ≤ threads }
{
    threads.min(1)
}

/// How much work all rows of tiles are.
pub fn sum_of(works: &[usize]) -> usize {
    let mut sum: usize = 0;
    for work in works {
        sum = sum.saturating_add(*work);
    }
    sum
}

/// The row of tiles at which a span is cut in two, so that some of its threads draw what is before
/// it, and the others the rest: in the middle if none do.
pub fn cut_of(works: &[usize], span: TileRowSpan, some: usize) -> usize
    requires { span.from + 1 < span.upto }
    ensures after { span.from < result }
    ensures before { result < span.upto }
{
    let middle = span.from + (span.upto - span.from) / 2;
    if some == 0 {
        return middle;
    }
    let Some(here) = works.get(span.from..span.upto) else {
        return middle;
    };
    let (low, high) = (span.from + 1, span.upto - 1);
    let share = (sum_of(here) / span.threads.max(1)).saturating_mul(some);
    let mut sum: usize = 0;
    for n in 0..here.len() {
        if sum.saturating_add(here[n] / 2) >= share {
            return span.from.saturating_add(n).clamp(low, high);
        }
        sum = sum.saturating_add(here[n]);
    }
    high
}
