//! Which presents wait, and what holds them back (specs/Reasons).
ghost use Rattle.std.specs.Prelude.{◌≡◌, ◌==◌, suc, true, not, None, length, find};
ghost use Rattle.flat_rules.specs.Legal.{begin_time};
ghost use Rattle.flat_scene.specs.Frames.{is_signalled};
ghost use Rattle.flat_scene.specs.History.{is_closed};
ghost use Rattle.flat_scene.specs.Setups.{is_declared};
ghost use Rattle.flat_why.specs.Reasons.{closing_of, hold_of, is_waiting, waiting_of};
ghost use Rattle.flat_why.specs.Noted.{closings_in, IsKnown};

use crate::reasons::{CloseReason, HoldReason, MadePresent, PendingPresent};
use crate::standings::taken;
use flat_base::{Actor, FenceNo, SessionNo};
use flat_core::Board;
use flat_scene::WaitCondition;

/// Whether a fence is signalled, as a session may ask.
fn is_signalled(board: &Board, s: SessionNo, f: FenceNo) -> bool
    requires { is_declared board.now.setup s ≡ true }
    ensures { result ≡ is_signalled board.now.setup board.now.history f }
{
    board.value(Actor::Session(s), WaitCondition::Fence(f)) > 0
}

/// The first of a session's fences that isn't signalled.
fn first_unsignalled(board: &Board, s: SessionNo, acquire: &[FenceNo]) -> Option<FenceNo>
    requires { is_declared board.now.setup s ≡ true }
    ensures { result
        ≡ find (λ f. not (is_signalled board.now.setup board.now.history f)) acquire.now }
{
    for f in acquire {
        if !is_signalled(board, s, *f) {
            return Some(*f);
        }
    }
    None
}

/// What holds a present back at a time.
fn hold_of(board: &Board, now: u64, is_first: bool, due: &MadePresent) -> HoldReason
    requires { is_declared board.now.setup due.now.session ≡ true }
    ensures { result
        ≡ hold_of now (is_signalled board.now.setup board.now.history) is_first due.now }
{
    if now < due.time {
        return HoldReason::Time(due.time);
    }
    if let Some(f) = first_unsignalled(board, due.session, due.acquire.as_slice()) {
        return HoldReason::Fence(f);
    }
    if is_first {
        return HoldReason::Unsquashable;
    }
    HoldReason::Behind
}

/// Whether a session was closed.
fn is_closed(closings: &[Option<CloseReason>], board: &Board, s: SessionNo) -> bool
    requires declared { is_declared board.now.setup s ≡ true }
    requires sessions { length closings.now ≡ board.now.setup.sessions }
    requires closed { (s : SessionNo) → is_declared board.now.setup s ≡ true →
        closings_in closings.now s ≡ closing_of s board.now.history }
    ensures { result ≡ is_closed s board.now.history }
{
    closings[s.0 as usize - 1].is_some()
}

/// Whether a present waits.
pub fn is_waiting(closings: &[Option<CloseReason>], board: &Board, due: &MadePresent) -> bool
    requires known { IsKnown board.now.setup due.now }
    requires sessions { length closings.now ≡ board.now.setup.sessions }
    requires closed { (s : SessionNo) → is_declared board.now.setup s ≡ true →
        closings_in closings.now s ≡ closing_of s board.now.history }
    ensures { result ≡ is_waiting board.now.setup board.now.history due.now }
{
    let s = due.session;
    if is_closed(closings, board, s) {
        return false;
    }
    taken(board, s) < due.number
}

/// Whether a number is the next one after another.
fn is_next(number: u32, before: u32) -> bool
    ensures { result ≡ (number == suc before) }
{
    before < number && number - before == 1
}

/// A present that waits, with what holds it.
pub fn waiting_of(board: &Board, time: u64, due: &MadePresent) -> PendingPresent
    requires time { time ≡ begin_time board.now.history }
    requires known { IsKnown board.now.setup due.now }
    ensures { result ≡ waiting_of board.now.setup board.now.history due.now }
{
    let is_first = is_next(due.number, taken(board, due.session));
    PendingPresent {
        session: due.session,
        number: due.number,
        hold: hold_of(board, time, is_first, due),
    }
}
