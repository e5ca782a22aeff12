//! The probes that weren't taken yet. All are made with who publishes, so that taking one
//! takes no memory.
ghost use Rattle.std.specs.Prelude.{◌≡◌, slice_index_or, slice_set, None};

use crate::probe::Probe;
use std::marker::Model;

/// The probes of a [`Published`](crate::Published). Contracts see at each place the
/// probe that is at home there.
#[derive(Drop)]
pub struct ProbeSeats {
    pub(crate) probes: Vec<Option<Probe>>,
}

impl Model for ProbeSeats {
    ghost use Rattle.std.specs.Prelude.{List, Option};
    ghost use Rattle.flat_publish.specs.State.{Seen};

    ghost Value = { List (Option Seen) };

    ghost view = { λ s. s.probes.items };
}

impl ProbeSeats {
    /// Hands out the probe at a place, from 0: None where it was taken, and where there
    /// is no such place. It takes no memory.
    pub fn take(&mut self, i: u32) -> Option<Probe>
        ensures probe { result ≡ slice_index_or self.old i None }
        ensures left { self.new ≡ slice_set self.old i None }
    {
        match self.probes.get_mut(i as usize) {
            Some(seat) => seat.take(),
            None => None,
        }
    }
}
