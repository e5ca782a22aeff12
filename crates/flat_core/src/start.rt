//! What a frame starts with.
ghost use Rattle.std.specs.Prelude.{[], IfOk};
ghost use Rattle.flat_core.specs.Starts.{IsStart};

use flat_base::NoMemory;
use flat_join::ShownStates;
use flat_scene::{SessionSet, Setup};
use std::alloc::Global;

/// What a begin decides of its frame. Whoever composes the frame reads it, and nothing that is
/// entered before the next begin changes it.
#[derive(Drop)]
pub struct FrameStart {
    /// What the frame shows of each session.
    pub shown: ShownStates,
    /// The sessions of which it may show another state than the frame before.
    pub changed: SessionSet,
    /// The sessions that have a view whose end isn't lost.
    pub with_view: SessionSet,
    /// The display's pixel ratio.
    pub ratio: u32,
}

impl FrameStart {
    /// Before the first frame: nothing is shown, and no session has a view.
    pub fn new(alloc: Global, setup: &Setup) -> Result<FrameStart, NoMemory>
        ensures { IfOk result (IsStart setup.now []) }
    {
        Ok(FrameStart {
            shown: ShownStates::new(alloc, setup.sessions)?,
            changed: SessionSet { has: [false; 16] },
            with_view: SessionSet { has: [false; 16] },
            ratio: setup.ratio,
        })
    }
}
