//! A wait: it makes no entry, and looks again and again at a condition.
ghost use Rattle.std.specs.Prelude.{◌≡◌, true};
ghost use Rattle.flat_rules.specs.Owned.{is_played_condition};
ghost use Rattle.flat_client.specs.Clients.{HasLooked, Stays, Waits, setup_for};

use crate::client::Client;
use crate::error::CallError;
use flat_core::asked_of;
use flat_scene::WaitCondition;
use flat_setup::may_wait;
use std::sync::Wait;
use std::thread;
use std::time::{Clock, Duration};

/// How long a wait sleeps between its first two looks, in microseconds. The time doubles
/// after each look.
pub const FIRST_NAP: u64 = 50;

/// How long it sleeps at most.
pub const LONGEST_NAP: u64 = 2_000;

impl Client {
    /// Looks at a condition until its value is enough, or so many times, but once at least.
    /// It makes no entry, and sleeps between two looks. At [`CallError::Unmet`] it was never
    /// enough.
    pub fn wait<R: Wait + Clock>(
        &mut self,
        rt: &R,
        c: WaitCondition,
        looks: u32,
    ) -> Result<u32, CallError>
        ensures waits { Waits c self.old self.new result }
        ensures stays { Stays self.old self.new }
    {
        self.settle(rt)?;
        if !may_wait(&self.setup, self.seat.session(), c) {
            return Err(CallError::NotOwned);
        }
        let value = self.look_often(rt, c, looks);
        if asked_of(c) <= value {
            Ok(value)
        } else {
            Err(CallError::Unmet(value))
        }
    }

    /// The value of a condition once it is enough, or at the last look.
    fn look_often<R: Wait + Clock>(&mut self, rt: &R, c: WaitCondition, looks: u32) -> u32
        requires { is_played_condition (setup_for self.old) self.old.seat.session c ≡ true }
        ensures { HasLooked c result self.old self.new }
    {
        let mut value = self.look(rt, c);
        let mut nap = FIRST_NAP;
        for _ in 1..looks {
            if asked_of(c) <= value {
                return value;
            }
            thread::sleep(rt, Duration::from_micros(nap));
            nap = (2 * nap).min(LONGEST_NAP);
            value = self.look(rt, c);
        }
        value
    }

    /// The value of a condition now.
    fn look<R: Wait>(&mut self, rt: &R, c: WaitCondition) -> u32
        requires { is_played_condition (setup_for self.old) self.old.seat.session c ≡ true }
        ensures { HasLooked c result self.old self.new }
    {
        // proof: the session is declared
        let _ = self.seat.session();
        self.seat.look(rt, &self.stage, c)
    }
}
