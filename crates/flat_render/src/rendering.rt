ghost use Rattle.std.specs.Prelude.{◌≡◌, ◌*◌, ◌<◌, ◌≤◌, ◌↔◌, All, IfOk, IsTrue, OnErr, OnOk};
ghost use Rattle.std.specs.Arc.{arc_value};
ghost use Rattle.std.specs.List.{flat_map};
ghost use Rattle.flat_drawable.specs.Drawable.{IsDrawable};
ghost use Rattle.flat_ink.specs.Pixels.{pixel};
ghost use Rattle.flat_render.specs.Pictures.{Shows, height_of, width_of};
ghost use Rattle.flat_render.specs.Ppm.{ppm_bytes};

use crate::parts::all_strips;
use crate::picture::Picture;
use crate::picture_plan::{PicturePlan, THREADS_MAX, most_threads, threads_for, works_for};
use crate::ppm::ppm_head;
use crate::sorting::sorted_rows;
use crate::spans::draw_rows;
use crate::strips::Strip;
use crate::tile_grid::{PIXELS_MAX, grid_for, stored};
use flat_base::{Items, NoMemory};
use flat_scene::ItemList;
use flat_tile::prepared_item::prepare_all;
use std::alloc::Global;
use std::sync::Arc;
use std::thread::Threads;

/// How many rows of tiles a picture's bytes have at least, if few items are drawn and it is high
/// enough: the lower a strip is, the more of them look like the one before.
const STRIPS: usize = 32;

/// So many items cost little more on low tiles than on high ones.
const ITEMS_ON_LOW_TILES: usize = 32;

/// Of which number the rows of tiles are a multiple. Many items lie on fewer tiles where these are
/// high.
fn step_for(threads: usize) -> usize
    requires { threads ≤ THREADS_MAX }
    ensures some { 0 < result }
    ensures small { result ≤ 64 }
{
    if threads == 0 { 1 } else { ROWS_EACH * threads }
}

/// The same if bytes are made.
fn step_for_strips(items: usize, threads: usize) -> usize
    requires { threads ≤ THREADS_MAX }
    ensures some { 0 < result }
    ensures small { result ≤ 64 }
{
    if items <= ITEMS_ON_LOW_TILES {
        STRIPS
    } else {
        step_for(threads)
    }
}

/// How many rows of tiles a picture has for each thread, if it is high enough: with fewer of them
/// the threads would have unequal work.
const ROWS_EACH: usize = 8;

/// Whether a display has more pixels than a picture may have, [`PIXELS_MAX`].
pub fn is_too_large(w: u32, h: u32) -> bool
    ensures { IsTrue result ↔ PIXELS_MAX < w * h }
{
    w as u64 * h as u64 > PIXELS_MAX as u64
}

/// The picture of a draw list on a display of `w` by `h` pixels, which isn't
/// [too large](is_too_large).
///
/// Its tiles are drawn in as many threads as serve. Each item has to be drawable,
/// as those of a frame are.
pub fn render(
    rt: &(impl Threads + Sync),
    alloc: Global,
    items: &ItemList,
    w: u32,
    h: u32,
) -> Result<Picture, NoMemory>
    requires items { All IsDrawable items.now }
    requires w { 0 < w }
    requires h { 0 < h }
    requires size { w * h ≤ PIXELS_MAX }
    ensures { IfOk result (λ picture. Shows picture w h (pixel items.now)) }
{
    let drawn = items.as_slice();
    let most = most_threads(rt);
    let prepared = prepare_all(rt, alloc, drawn, most)?;
    let list = prepared.as_slice();
    let threads = threads_for(list, most);
    let grid = grid_for(w, h, step_for(threads));
    let rows = sorted_rows(alloc, drawn, list, &grid)?;
    let works = works_for(alloc, list, &grid, threads)?;
    let plan = PicturePlan {
        alloc,
        items: drawn,
        list,
        grid,
        rows: rows.as_slice(),
        works: works.as_slice(),
    };
    let mut bytes = vec![in alloc; 0u8; stored(&grid)]?;
    draw_rows(rt, &plan, threads, bytes.as_mut_slice());
    Ok(Picture { grid, bytes })
}

/// Draws the picture of a draw list in place of another one, whose sides it has. Of the old
/// picture nothing is read, and its memory serves again. If memory runs out, it stays.
pub fn render_into(
    rt: &(impl Threads + Sync),
    alloc: Global,
    items: &ItemList,
    picture: &mut Picture,
) -> Result<(), NoMemory>
    requires { All IsDrawable items.now }
    ensures ok { OnOk result (Shows picture.new (width_of picture.old) (height_of picture.old)
        (pixel items.now)) }
    ensures err { OnErr result (picture.new ≡ picture.old) }
{
    let drawn = items.as_slice();
    let most = most_threads(rt);
    let prepared = prepare_all(rt, alloc, drawn, most)?;
    let list = prepared.as_slice();
    let threads = threads_for(list, most);
    let rows = sorted_rows(alloc, drawn, list, &picture.grid)?;
    let works = works_for(alloc, list, &picture.grid, threads)?;
    let plan = PicturePlan {
        alloc,
        items: drawn,
        list,
        grid: picture.grid,
        rows: rows.as_slice(),
        works: works.as_slice(),
    };
    draw_rows(rt, &plan, threads, picture.bytes.as_mut_slice());
    Ok(())
}

/// The bytes of the picture of a draw list in the form `P6`, as [`ppm_of`](crate::ppm_of) gives
/// those of [`render`], one run of them behind the other. No picture is kept, and rows of pixels
/// that look like those before them share their bytes.
pub fn render_strips(
    rt: &(impl Threads + Sync),
    alloc: Global,
    items: &ItemList,
    w: u32,
    h: u32,
) -> Result<Vec<Strip>, NoMemory>
    requires items { All IsDrawable items.now }
    requires w { 0 < w }
    requires h { 0 < h }
    requires size { w * h ≤ PIXELS_MAX }
    ensures { IfOk result (λ strips. flat_map arc_value strips.items
        ≡ ppm_bytes w h (pixel items.now)) }
{
    let drawn = items.as_slice();
    let most = most_threads(rt);
    let prepared = prepare_all(rt, alloc, drawn, most)?;
    let list = prepared.as_slice();
    let threads = threads_for(list, most);
    let grid = grid_for(w, h, step_for_strips(drawn.len(), threads));
    let rows = sorted_rows(alloc, drawn, list, &grid)?;
    let works = works_for(alloc, list, &grid, threads)?;
    let plan = PicturePlan {
        alloc,
        items: drawn,
        list,
        grid,
        rows: rows.as_slice(),
        works: works.as_slice(),
    };
    let head = ppm_head(alloc, w, h)?;
    let mut strips = Vec::with_capacity(alloc, 1)?;
    strips.push(Arc::new(alloc, Items::from_vec(head))?)?;
    let mut rows = all_strips(rt, &plan, threads)?;
    strips.append(&mut rows)?;
    Ok(strips)
}
