ghost use Rattle.std.specs.Prelude.{◌≡◌, false};
ghost use Rattle.flat_stage_tests.specs.Room.{MayBegin};

use crate::cast::new_cast;
use flat_scene::DisplayLine;
use flat_stage::{Compositor, Stage};
use std::sync::Wait;
use std::test::Fail;

/// The pixel ratios of two frames, of which the first is looked at before and after
/// another ratio is set.
fn ratios<R: Wait>(rt: &R, stage: &Stage, compositor: &mut Compositor) -> [u32; 3]
    requires own { compositor.old.display.stage ≡ stage.now }
    requires closed { compositor.old.is_open ≡ false }
    requires may { MayBegin 10 0 compositor.old.display }
{
    compositor.enter(rt, stage, 1, DisplayLine::Dpr(131_072));
    compositor.begin(rt, stage, 2, 0);
    let at_begin = compositor.start().ratio;
    compositor.enter(rt, stage, 3, DisplayLine::Dpr(32_768));
    let later = compositor.start().ratio;
    compositor.done(rt, stage, 4);
    compositor.begin(rt, stage, 5, 0);
    [at_begin, later, compositor.start().ratio]
}

#[test]
fn a_frame_keeps_its_ratio(rt: HostRuntime) -> Result<(), Fail> {
    let mut cast = new_cast(rt.alloc())?;
    let ratios = ratios(&rt, &cast.stage, &mut cast.compositor);
    assert_eq!(rt; ratios, [131_072, 131_072, 32_768]);
    Ok(())
}
