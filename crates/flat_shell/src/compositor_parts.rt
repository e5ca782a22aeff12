ghost use Rattle.std.specs.Prelude.{◌≡◌, ◌<◌, ◌^◌, None, IfOk};
ghost use Rattle.std.specs.Arc.{arc_value};

use flat_base::{FrameNo, NoMemory};
use flat_scene::{FrameOut, Setup};
use flat_stage::Stage;
use std::alloc::Global;
use std::sync::Arc;

/// What a compositor has beside its seat, whether a frame is open or not.
#[derive(Drop)]
pub(crate) struct CompositorParts {
    pub(crate) alloc: Global,
    pub(crate) stage: Arc<Stage>,
    pub(crate) setup: Arc<Setup>,
    /// How many entries the display may make, and how many it made.
    pub(crate) share: u32,
    pub(crate) made: u32,
    /// When the last frame began, 0 before the first.
    pub(crate) time: u64,
    /// How many frames are finished, and the last of them.
    pub(crate) frames: FrameNo,
    pub(crate) shown: Option<FrameOut>,
}

impl CompositorParts {
    /// What a compositor has before any entry, which may make so many.
    pub(crate) fn new(
        alloc: Global,
        stage: &Arc<Stage>,
        setup: &Arc<Setup>,
        share: u32,
    ) -> Result<CompositorParts, NoMemory>
        ensures stage { IfOk result (λ keeper. arc_value keeper.stage ≡ arc_value stage.now) }
        ensures setup { IfOk result (λ keeper. arc_value keeper.setup ≡ arc_value setup.now) }
        ensures share { IfOk result (λ keeper. keeper.share ≡ share) }
        ensures few { IfOk result (λ keeper. keeper.share < 2 ^ 32) }
        ensures made { IfOk result (λ keeper. keeper.made ≡ 0) }
        ensures time { IfOk result (λ keeper. keeper.time ≡ 0) }
        ensures frames { IfOk result (λ keeper. keeper.frames.0 ≡ 0) }
        ensures shown { IfOk result (λ keeper. keeper.shown ≡ None) }
    {
        Ok(CompositorParts {
            alloc,
            stage: Arc::try_clone(stage)?,
            setup: Arc::try_clone(setup)?,
            share,
            made: 0,
            time: 0,
            frames: FrameNo(0),
            shown: None,
        })
    }
}
