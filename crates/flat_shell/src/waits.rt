//! A wait of the display: it makes no entry, and looks again and again at a condition.
ghost use Rattle.std.specs.Prelude.{◌≡◌, true};
ghost use Rattle.flat_scene.specs.declared.script.DisplayLine.TheVariants as display;
ghost use Rattle.flat_rules.specs.Owned.{is_played_display};
ghost use Rattle.flat_stage.specs.Seats.{setup_of};
ghost use Rattle.flat_shell.specs.Live.{HasLooked, Waits};

use crate::compositor::DisplayCompositor;
use crate::fault::DisplayFault;
use flat_client::{FIRST_NAP, LONGEST_NAP};
use flat_core::asked_of;
use flat_scene::{DisplayLine, WaitCondition};
use flat_setup::may_direct;
use std::sync::Wait;
use std::thread;
use std::time::{Clock, Duration};

impl DisplayCompositor {
    /// Looks at a condition until its value is enough, or so many times, but once at least.
    /// It makes no entry, and sleeps between two looks. At [`DisplayFault::Unmet`] it was never
    /// enough.
    pub fn wait<R: Wait + Clock>(
        &mut self,
        rt: &R,
        c: WaitCondition,
        looks: u32,
    ) -> Result<u32, DisplayFault>
        ensures waits { Waits c self.old self.new result }
        ensures stays { self.new.stage ≡ self.old.stage }
    {
        if !may_direct(&self.keeper.setup, DisplayLine::Wait(c)) {
            return Err(DisplayFault::NotOwned);
        }
        let value = self.look_often(rt, c, looks);
        if asked_of(c) <= value {
            Ok(value)
        } else {
            Err(DisplayFault::Unmet(value))
        }
    }

    /// The value of a condition once it is enough, or at the last look.
    fn look_often<R: Wait + Clock>(&mut self, rt: &R, c: WaitCondition, looks: u32) -> u32
        requires { is_played_display (setup_of self.old.stage) (display.Wait c) ≡ true }
        ensures { HasLooked c result self.old self.new }
    {
        let mut value = self.look(rt, c);
        let mut nap = FIRST_NAP;
        for _ in 1..looks {
            if asked_of(c) <= value {
                return value;
            }
            thread::sleep(rt, Duration::from_micros(nap));
            nap = (2 * nap).min(LONGEST_NAP);
            value = self.look(rt, c);
        }
        value
    }

    /// The value of a condition now.
    fn look<R: Wait>(&mut self, rt: &R, c: WaitCondition) -> u32
        requires { is_played_display (setup_of self.old.stage) (display.Wait c) ≡ true }
        ensures { HasLooked c result self.old self.new }
    {
        self.compositor.look(rt, &self.keeper.stage, c)
    }
}
