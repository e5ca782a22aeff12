//! The strips of a picture, made by several threads: each makes those of a span.
ghost use Rattle.std.specs.Prelude.{◌≡◌, ◌<◌, ◌≤◌, ◌++◌, IfOk, OnOk};
ghost use Rattle.std.specs.Arc.{arc_value};
ghost use Rattle.std.specs.List.{flat_map};
ghost use Rattle.std.specs.Thread.{IsSync};
ghost use Rattle.flat_render.specs.Plans.{IsPlan};
ghost use Rattle.flat_render.specs.Strips.{rows_above, HasStrips};

use crate::picture_plan::{PicturePlan, TileRowSpan, cut_of, first_share};
use crate::strips::{Strip, draw_strips};
use flat_base::NoMemory;
use std::thread::{Threads, join};

/// Strips, or that memory ran out.
type Part = Result<Vec<Strip>, NoMemory>;

/// Strips behind others.
fn joined(mut strips: Vec<Strip>, mut more: Vec<Strip>) -> Part
    ensures { IfOk result (λ all. flat_map arc_value all.items
        ≡ flat_map arc_value strips.items ++ flat_map arc_value more.items) }
{
    strips.append(&mut more)?;
    Ok(strips)
}

/// The strips of a span, for which at most its number of threads are started.
#[cycle(parts)]
fn span_strips<R: Threads + Sync>(rt: &R, plan: &PicturePlan<'_>, span: TileRowSpan) -> Part
    requires plan { IsPlan plan.now }
    requires order { span.from ≤ span.upto }
    requires there { span.upto ≤ plan.now.grid.down }
    ensures { HasStrips plan.now span result }
{
    let TileRowSpan {
        from,
        upto,
        threads,
    } = span;
    if threads == 0 || upto - from <= 1 {
        return draw_strips(plan, from, upto);
    }
    let low = first_share(threads);
    let cut = cut_of(plan.works, span, low);
    let before = TileRowSpan {
        from,
        upto: cut,
        threads: 0,
    };
    let after = TileRowSpan {
        from: cut,
        upto,
        threads: threads - low,
    };
    let first = || -> Part
        requires { IsSync R.row × IsPlan plan.now × (before.from ≤ before.upto)
            × (before.upto ≤ plan.now.grid.down) }
        ensures { HasStrips plan.entry.now before result }
    { span_strips(rt, plan, before) };
    let second = || -> Part
        requires { IsSync R.row × IsPlan plan.now × (after.from ≤ after.upto)
            × (after.upto ≤ plan.now.grid.down) }
        ensures { HasStrips plan.entry.now after result }
    { span_strips(rt, plan, after) };
    let (front, back) = join(rt, first, second);
    let strips = front?;
    let more = back?;
    joined(strips, more)
}

/// All strips, for which at most so many threads are started.
pub fn all_strips<R: Threads + Sync>(rt: &R, plan: &PicturePlan<'_>, threads: usize) -> Part
    requires { IsPlan plan.now }
    ensures { IfOk result (λ strips. rows_above plan.now.items.now plan.now.grid plan.now.grid.down
        ≡ flat_map arc_value strips.items) }
{
    let all = TileRowSpan {
        from: 0,
        upto: plan.grid.down,
        threads,
    };
    span_strips(rt, plan, all)
}
