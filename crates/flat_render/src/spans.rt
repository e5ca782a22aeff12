//! Rows of tiles, drawn by several threads: each takes a span of them.
ghost use Rattle.std.specs.Prelude.{◌≡◌, ◌+◌, ◌*◌, ◌<◌, ℕ, length, slice_index};
ghost use Rattle.std.specs.Thread.{IsSync};
ghost use Rattle.flat_render.specs.Grids.{band_bytes, grid_bytes};
ghost use Rattle.flat_render.specs.Plans.{IsPlan, IsSpan};
ghost use Rattle.flat_render.specs.Stored.{drawn_at};

use crate::band::draw_band;
use crate::picture_plan::{PicturePlan, TileRowSpan, cut_of, first_share};
use crate::tile_grid::bytes_of_bands;
use std::thread::{Threads, join_mut};

/// Draws the rows of tiles of a span, for which it starts at most its number of threads.
#[cycle(spans)]
pub fn draw_span<R: Threads + Sync>(
    rt: &R,
    plan: &PicturePlan<'_>,
    span: TileRowSpan,
    bytes: &mut [u8],
)
    requires plan { IsPlan plan.now }
    requires span { IsSpan plan.now span bytes.old }
    ensures { (i : ℕ) → i < length bytes.old → slice_index bytes.new i
        ≡ drawn_at plan.now.grid plan.now.items.now (span.from * band_bytes plan.now.grid + i) }
{
    let TileRowSpan {
        from,
        upto,
        threads,
    } = span;
    if upto - from == 1 {
        return draw_band(plan, from, bytes);
    }
    let low = first_share(threads);
    let cut = cut_of(plan.works, span, low);
    let (front, back) = bytes.split_at_mut((cut - from) * bytes_of_bands(&plan.grid));
    let before = TileRowSpan {
        from,
        upto: cut,
        threads: low,
    };
    let after = TileRowSpan {
        from: cut,
        upto,
        threads: threads - low,
    };
    draw_both(rt, plan, before, after, front, back);
}

/// Draws two spans: one after the other, or, if the first has a thread, this draws the first while
/// the caller goes on with the second.
#[cycle(spans)]
fn draw_both<R: Threads + Sync>(
    rt: &R,
    plan: &PicturePlan<'_>,
    before: TileRowSpan,
    after: TileRowSpan,
    front: &mut [u8],
    back: &mut [u8],
)
    requires plan { IsPlan plan.now }
    requires front { IsSpan plan.now before front.old }
    requires back { IsSpan plan.now after back.old }
    ensures front { (i : ℕ) → i < length front.old → slice_index front.new i
        ≡ drawn_at plan.now.grid plan.now.items.now (before.from * band_bytes plan.now.grid + i) }
    ensures back { (i : ℕ) → i < length back.old → slice_index back.new i
        ≡ drawn_at plan.now.grid plan.now.items.now (after.from * band_bytes plan.now.grid + i) }
{
    if before.threads == 0 {
        draw_span(rt, plan, before, front);
        draw_span(rt, plan, after, back);
        return;
    }
    let before = TileRowSpan {
        threads: before.threads - 1,
        ..before
    };
    let mut first = ||
        requires { IsSync R.row × IsPlan plan.now × IsSpan plan.now before front.now }
        ensures { (i : ℕ) → i < length front.entry.now → slice_index front.exit.now i
            ≡ drawn_at plan.entry.now.grid plan.entry.now.items.now
            (before.from * band_bytes plan.entry.now.grid + i) }
    { draw_span(rt, plan, before, front) };
    let mut second = ||
        requires { IsSync R.row × IsPlan plan.now × IsSpan plan.now after back.now }
        ensures { (i : ℕ) → i < length back.entry.now → slice_index back.exit.now i
            ≡ drawn_at plan.entry.now.grid plan.entry.now.items.now
            (after.from * band_bytes plan.entry.now.grid + i) }
    { draw_span(rt, plan, after, back) };
    join_mut(rt, &mut first, &mut second);
}

/// Draws all rows of tiles, for which it starts at most so many threads.
pub fn draw_rows<R: Threads + Sync>(
    rt: &R,
    plan: &PicturePlan<'_>,
    threads: usize,
    bytes: &mut [u8],
)
    requires plan { IsPlan plan.now }
    requires size { length bytes.old ≡ grid_bytes plan.now.grid }
    ensures { (i : ℕ) → i < length bytes.old → slice_index bytes.new i
        ≡ drawn_at plan.now.grid plan.now.items.now i }
{
    if plan.grid.down == 0 {
        return;
    }
    let all = TileRowSpan {
        from: 0,
        upto: plan.grid.down,
        threads,
    };
    draw_span(rt, plan, all, bytes);
}
