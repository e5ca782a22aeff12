ghost use Rattle.std.specs.Prelude.{◌≡◌, ◌++◌, fold, IfOk, OnOk};
ghost use Rattle.flat_damage.specs.Damage.{joined, hull, bounded, visible_rects};

use crate::difference::RECTS_MAX;
use flat_base::{Items, NoMemory, Rect};
use flat_scene::{DrawItem, RectList};
use std::alloc::Global;

/// The least rectangle that has all points of two.
fn join(p: Rect, q: Rect) -> Rect
    ensures { result ≡ joined p q }
{
    Rect {
        x0: p.x0.min(q.x0),
        y0: p.y0.min(q.y0),
        x1: p.x1.max(q.x1),
        y1: p.y1.max(q.y1),
    }
}

/// A rectangle joined with those of some items.
fn join_all(start: Rect, items: &[DrawItem]) -> Rect
    ensures { result ≡ fold joined start (visible_rects items.now) }
{
    let mut all = start;
    for item in items {
        all = join(all, item.visible);
    }
    all
}

/// The rectangle that has all of two lists.
fn hull_of(was: &[DrawItem], now: &[DrawItem]) -> Rect
    ensures { result ≡ hull (visible_rects was.now ++ visible_rects now.now) }
{
    if let Some((first, rest)) = was.split_first() {
        return join_all(join_all(first.visible, rest), now);
    }
    if let Some((first, rest)) = now.split_first() {
        return join_all(first.visible, rest);
    }
    Rect {
        x0: 0,
        y0: 0,
        x1: 0,
        y1: 0,
    }
}

/// Appends the visible rectangles of some items.
fn push_rects(rects: &mut RectList, items: &[DrawItem]) -> Result<(), NoMemory>
    ensures { OnOk result (rects.new ≡ rects.old ++ visible_rects items.now) }
{
    for item in items {
        rects.push(item.visible)?;
    }
    Ok(())
}

/// The rectangles of what is left of two lists, or where they are too many the
/// one that has them all.
pub fn rects_of(alloc: Global, was: &[DrawItem], now: &[DrawItem]) -> Result<RectList, NoMemory>
    ensures { IfOk result (λ rects. rects
        ≡ bounded (visible_rects was.now ++ visible_rects now.now)) }
{
    let mut rects = Items::new(alloc);
    if was.len() + now.len() > RECTS_MAX {
        rects.push(hull_of(was, now))?;
        return Ok(rects);
    }
    push_rects(&mut rects, was)?;
    push_rects(&mut rects, now)?;
    Ok(rects)
}
