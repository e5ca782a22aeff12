//! What is kept of all sessions, or of all pairs, one after another (specs/Noted).
ghost use Rattle.std.specs.Prelude.{◌≡◌, true, IfOk, None, length, map, replicate};
ghost use Rattle.flat_scene.specs.Frames.{sessions_to, taken};
ghost use Rattle.flat_scene.specs.Heads.{is_setup};
ghost use Rattle.flat_why.specs.Reasons.{first_of, nothing_by, standing_in};
ghost use Rattle.flat_why.specs.Noted.{closings_in, uses_in};

use crate::reasons::{AttachPoint, CloseReason, DetachedReason, PendingPresent};
use crate::standings::{nothing, standing_at};
use flat_base::{NoMemory, SessionNo};
use flat_core::Board;
use flat_join::ShownStates;
use std::alloc::Global;

/// Notes where each session hangs.
pub fn note_standings(
    standings: &mut [AttachPoint],
    board: &Board,
    shown: &ShownStates,
    closings: &[Option<CloseReason>],
    last_uses: &[Option<u32>],
    waits: &[PendingPresent],
)
    requires setup { is_setup board.now.setup ≡ true }
    requires sessions { length closings.now ≡ board.now.setup.sessions }
    requires standings { length standings.old ≡ board.now.setup.sessions }
    requires made { length shown.now ≡ board.now.setup.sessions }
    ensures { standings.new ≡ map (λ s. standing_in board.now.setup shown.now
        (taken board.now.setup board.now.history) (uses_in last_uses.now)
        (nothing_by (closings_in closings.now s) (first_of s waits.now)) s)
        (sessions_to board.now.setup.sessions) }
{
    for i in 0..standings.len() {
        let s = SessionNo(i as u32 + 1);
        let nothing = nothing(closings[i], s, waits);
        standings[i] = standing_at(board, shown, last_uses, nothing, s);
    }
}

pub fn no_closings(alloc: Global, sessions: u32) -> Result<Vec<Option<CloseReason>>, NoMemory>
    ensures { IfOk result (λ closings. closings.items ≡ replicate sessions None) }
{
    let mut closings = Vec::with_capacity(alloc, sessions as usize)?;
    for _ in 0..sessions {
        closings.push(None)?;
    }
    Ok(closings)
}

pub fn no_uses(alloc: Global, pairs: usize) -> Result<Vec<Option<u32>>, NoMemory>
    ensures { IfOk result (λ uses. uses.items ≡ replicate pairs None) }
{
    let mut uses = Vec::with_capacity(alloc, pairs)?;
    for _ in 0..pairs {
        uses.push(None)?;
    }
    Ok(uses)
}

pub fn no_standings(alloc: Global, sessions: u32) -> Result<Vec<AttachPoint>, NoMemory>
    ensures { IfOk result (λ standings. length standings.items ≡ sessions) }
{
    let mut standings = Vec::with_capacity(alloc, sessions as usize)?;
    for _ in 0..sessions {
        standings.push(AttachPoint::Nowhere(DetachedReason::Unpresented))?;
    }
    Ok(standings)
}
