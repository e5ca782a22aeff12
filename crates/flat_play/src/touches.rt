//! Lines of pointers are answered while the script is played, between its lines: so no
//! joined tree of an earlier frame is kept for them.
ghost use Rattle.std.specs.Prelude.{◌≡◌, ◌++◌, true, map, length, OnOk, IfOk, nat_le, take_while};
ghost use Rattle.flat_scene.specs.Setups.{at_ratio};
ghost use Rattle.flat_scene.specs.Heads.{is_setup};
ghost use Rattle.flat_play.specs.Last.{IsLast, StaysLast};
ghost use Rattle.flat_play.specs.Touching.{AnswersUpto, touch_in};

use crate::frame::LastFrame;
use flat_base::NoMemory;
use flat_pointer::{PointerCall, PointerLine, PointerTouch};
use flat_scene::{HitList, Setup};
use std::alloc::Global;

/// Answers a line of a pointer: whom it hits in the last finished frame, where it
/// goes down.
fn answer(
    alloc: Global,
    setup: &Setup,
    last: &mut LastFrame,
    line: PointerLine,
) -> Result<PointerTouch, NoMemory>
    requires setup { is_setup setup.now ≡ true }
    requires is { IsLast setup.now last.old }
    ensures touch { IfOk result (λ touch. touch
        ≡ touch_in (at_ratio last.old.ratio setup.now) last.old.reuse line) }
    ensures stays { OnOk result (StaysLast setup.now last.old last.new) }
{
    match line.call {
        PointerCall::Down { x, y } => {
            let hits = last.hits(alloc, setup, x, y)?;
            Ok(PointerTouch { line, hits })
        }
        _ => Ok(PointerTouch {
            line,
            hits: HitList::new(alloc),
        }),
    }
}

/// Answers some lines of pointers.
pub(crate) fn answer_all(
    alloc: Global,
    setup: &Setup,
    last: &mut LastFrame,
    lines: &[PointerLine],
    found: &mut Vec<PointerTouch>,
) -> Result<(), NoMemory>
    requires setup { is_setup setup.now ≡ true }
    requires is { IsLast setup.now last.old }
    ensures answers { OnOk result (found.new.items
        ≡ found.old.items
        ++ map (touch_in (at_ratio last.old.ratio setup.now) last.old.reuse) lines.now) }
    ensures stays { OnOk result (StaysLast setup.now last.old last.new) }
{
    for line in lines {
        found.push(answer(alloc, setup, last, *line)?)?;
    }
    Ok(())
}

/// How many of the lines, from the first, come up to that of a number.
fn count_upto(lines: &[PointerLine], number: u32) -> usize
    ensures { result ≡ length (take_while (λ line. nat_le line.number number) lines.now) }
{
    lines
        .iter()
        .take_while(|line| line.number <= number)
        .count()
}

/// Answers the lines that come next, up to that of a number, and hands back the
/// later ones.
pub(crate) fn answer_upto<'a>(
    alloc: Global,
    setup: &Setup,
    last: &mut LastFrame,
    lines: &'a [PointerLine],
    number: u32,
    found: &mut Vec<PointerTouch>,
) -> Result<&'a [PointerLine], NoMemory>
    requires setup { is_setup setup.now ≡ true }
    requires is { IsLast setup.now last.old }
    ensures answers { IfOk result (λ later. AnswersUpto (at_ratio last.old.ratio setup.now)
        last.old.reuse number lines.entry.now later.now found.old.items found.new.items) }
    ensures stays { OnOk result (StaysLast setup.now last.old last.new) }
{
    let (early, later) = lines.split_at(count_upto(lines, number));
    answer_all(alloc, setup, last, early, found)?;
    Ok(later)
}
