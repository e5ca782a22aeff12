//! The displays that were lost at a frame, as a text says line by line.
ghost use Rattle.std.specs.Prelude.{◌≡◌, ◌<◌, ◌≤◌, ◌&&◌, ◌==◌, not, drop, length, IfOk, IfSome, None, OnOk};
ghost use Rattle.flat_report.specs.Report.{is_lost_before};
ghost use Rattle.flat_judge.specs.Following.{NoMoreLost, ReadsLoss, ReadsLosses};
ghost use Rattle.flat_judge.specs.Following.{fits_behind};

use crate::entry_texts::loss_text;
use crate::passing::pass;
use crate::reading::next_display;
use flat_base::{FrameNo, Items, NoMemory};
use flat_scene::LostDisplay;
use std::alloc::Global;

/// Whether one display may be lost before another.
fn is_before(one: LostDisplay, next: LostDisplay) -> bool
    ensures { result ≡ (is_lost_before one next && not (next.display == one.display)) }
{
    let is_earlier = one.frame.0 < next.frame.0
        || (one.frame.0 == next.frame.0 && one.display < next.display);
    is_earlier && next.display != one.display
}

/// Whether a display may be lost behind all of these.
fn is_behind(lost: &[LostDisplay], next: LostDisplay) -> bool
    ensures { result ≡ fits_behind lost.now next }
{
    lost.iter().all(|one| is_before(*one, next))
}

/// Reads the next display that was lost at a frame, and answers the place behind its line.
fn read_loss(
    alloc: Global,
    lost: &mut Items<LostDisplay>,
    text: &[u8],
    at: usize,
    frame: FrameNo,
) -> Result<Option<usize>, NoMemory>
    requires { at ≤ length text.now }
    ensures some { IfOk result (λ found. IfSome found (λ next.
        (next ≤ length text.now) × ReadsLoss frame.0 lost.old lost.new text.now at next)) }
    ensures none { IfOk result (λ found. found ≡ None → (lost.new ≡ lost.old)
        × NoMoreLost frame.0 lost.old (drop at text.now)) }
{
    let Some(display) = next_display(&text[at..]) else {
        return Ok(None);
    };
    let one = LostDisplay { display, frame };
    if !is_behind(lost.as_slice(), one) {
        return Ok(None);
    }
    let line = loss_text(alloc, one)?;
    let Some(next) = pass(text, at, line.as_slice()) else {
        return Ok(None);
    };
    lost.push(one)?;
    Ok(Some(next))
}

/// Reads the displays that were lost at a frame, and answers the place behind their lines.
pub(crate) fn read_losses(
    alloc: Global,
    lost: &mut Items<LostDisplay>,
    text: &[u8],
    at: usize,
    frame: FrameNo,
) -> Result<usize, NoMemory>
    requires within { at ≤ length text.now }
    ensures within { IfOk result (λ next. next ≤ length text.now) }
    ensures reads { IfOk result (ReadsLosses frame.0 lost.old lost.new text.now at) }
{
    let mut place = at;
    for _ in at..text.len() {
        match read_loss(alloc, lost, text, place, frame)? {
            Some(next) => place = next,
            None => return Ok(place),
        }
    }
    Ok(place)
}
