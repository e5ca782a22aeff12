//! Strips: the rows of a picture, so many in each run of bytes. Pictures that have the same rows
//! share the runs, so that a frame which changes little takes little time and memory.
ghost use Rattle.std.specs.Prelude.{◌≡◌, ◌+◌, ◌-◌, ◌*◌, ◌<◌, ◌≤◌, ◌++◌, ℕ, IfOk, OnOk, length, map, min};
ghost use Rattle.std.specs.Arc.{arc_value};
ghost use Rattle.flat_render.specs.declared.tile_grid.TheConstants.{PIXELS_MAX};
ghost use Rattle.flat_render.specs.Pictures.{width_of, height_of, pixel_of};
ghost use Rattle.flat_render.specs.Rows.{rows_bytes};
ghost use Rattle.flat_texts.specs.Strips.{AreStrips, AreStripsBeside, strip_of};

use flat_base::{Items, NoMemory, Rect};
use flat_damage::is_beside;
use flat_render::{Picture, ppm_rows};
use flat_report::{Run, TextPieces};
use std::alloc::Global;
use std::sync::Arc;

/// How many rows a strip has; the last one may have fewer.
pub const STRIP_ROWS: u32 = 32;

/// The rows of a picture from one up to another, in a run of their own.
fn strip(alloc: Global, picture: &Picture, from: u32, upto: u32) -> Result<Run, NoMemory>
    requires order { from ≤ upto }
    requires there { upto ≤ height_of picture.now }
    ensures { IfOk result (λ run. arc_value run ≡ rows_bytes
        (λ x y. pixel_of picture.now x (from + y)) (width_of picture.now) (upto - from)) }
{
    let bytes = ppm_rows(alloc, picture, from, upto)?;
    let run = Arc::new(alloc, Items::from_vec(bytes))?;
    Ok(run)
}

/// The n-th strip of a picture: the one that was there, if the damage leaves its rows.
fn next_strip(
    alloc: Global,
    picture: &Picture,
    rects: &[Rect],
    old: &[Run],
    n: u32,
) -> Result<Run, NoMemory>
    requires wide { width_of picture.now ≤ PIXELS_MAX }
    requires high { height_of picture.now ≤ PIXELS_MAX }
    requires there { n * STRIP_ROWS ≤ height_of picture.now }
    requires old { AreStripsBeside rects.now (width_of picture.now) (height_of picture.now)
        (pixel_of picture.now) (map arc_value old.now) }
    ensures { IfOk result (λ run. arc_value run
        ≡ strip_of (width_of picture.now) (height_of picture.now) (pixel_of picture.now) n) }
{
    let from = n * STRIP_ROWS;
    let upto = (from + STRIP_ROWS).min(picture.height());
    if (n as usize) < old.len() && is_beside(rects, picture.width(), picture.height(), from, upto) {
        let same = Arc::try_clone(&old[n as usize])?;
        return Ok(same);
    }
    strip(alloc, picture, from, upto)
}

/// The strips of a picture, in order, of which those that the damage leaves stand among the
/// `old` ones. They are put behind a text too.
pub(crate) fn push_strips(
    alloc: Global,
    picture: &Picture,
    rects: &[Rect],
    old: &[Run],
    text: &mut TextPieces,
) -> Result<Vec<Run>, NoMemory>
    requires wide { width_of picture.now ≤ PIXELS_MAX }
    requires high { height_of picture.now ≤ PIXELS_MAX }
    requires old { AreStripsBeside rects.now (width_of picture.now) (height_of picture.now)
        (pixel_of picture.now) (map arc_value old.now) }
    ensures text { OnOk result (text.new ≡ text.old ++ rows_bytes (pixel_of picture.now)
        (width_of picture.now) (height_of picture.now)) }
    ensures strips { IfOk result (λ runs. AreStrips (width_of picture.now) (height_of picture.now)
        (pixel_of picture.now) (map arc_value runs.items)) }
{
    let mut runs = Vec::new(alloc);
    for n in 0..picture.height().div_ceil(STRIP_ROWS) {
        let run = next_strip(alloc, picture, rects, old, n)?;
        text.push(Arc::try_clone(&run)?)?;
        runs.push(run)?;
    }
    Ok(runs)
}
