//! Gates, which say when an entry may be made or a probe may look. One is asked a bounded
//! number of times for a line, so that one that stays shut stops no run.
ghost use Rattle.std.specs.Prelude.{◌≡◌, ◌≤◌, ◌-◌, true};

use flat_scene::Reply;
use std::thread;

/// Says when an entry of a race may be made or a probe may look, and is told of each
/// that was and of each answer to a probe's line.
///
/// Actors are numbered from 0: the display, then the sessions and then the probes in
/// order of declaration. A line's number counts from 1, and a session's End has the
/// number after the last line's.
pub trait Gate: Sync {
    /// Whether the entry of a line may be made, or the look of a probe's. It is asked
    /// again and again until it says so, at most [`ASKS`] times for one line; after that
    /// it is made anyway.
    fn open(&self, actor: u32, line: u32) -> bool;

    /// The entry of a line was made, and answered with this reply; Done where a probe's
    /// line was answered.
    fn passed(&self, actor: u32, line: u32, reply: &Reply);
}

/// The gate that is always open.
#[derive(Clone, Copy)]
pub struct OpenGate;

impl Gate for OpenGate {
    fn open(&self, _actor: u32, _line: u32) -> bool
        ensures { result ≡ true }
    {
        true
    }

    fn passed(&self, _actor: u32, _line: u32, _reply: &Reply) {}
}

/// How often the gate is asked for one line at most.
pub const ASKS: u32 = 1_000_000;

/// How many turns a Wait has at most, and how often an `await` looks at the frame.
pub const LOOKS: u32 = 100_000;

/// Asks until the gate is open, or until no ask is left, and answers how many are left.
pub(crate) fn ask<G: Gate>(gate: &G, actor: u32, line: u32, left: u32) -> u32
    ensures { result ≤ left - 1 }
{
    for asked in 0..left {
        if gate.open(actor, line) {
            return left - asked - 1;
        }
        thread::yield_now();
    }
    0
}
