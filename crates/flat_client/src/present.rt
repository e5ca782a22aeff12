ghost use Rattle.std.specs.Prelude.{◌≡◌, [], false};

use flat_base::Items;
use flat_scene::{Inset, PresentArgs};
use std::alloc::Global;

/// No inset on any side.
pub const NO_INSET: Inset = Inset {
    top: 0,
    right: 0,
    bottom: 0,
    left: 0,
};

/// An accepted present.
#[derive(Clone, Copy, PartialEq, Eq)]
pub struct AcceptedPresent {
    /// Its number, from 1.
    pub number: u32,
    /// How many presents the session may make before it gains credits.
    pub credits: u32,
}

/// The arguments of a present with no fences, for a frame at that time or later. It takes
/// no memory.
pub fn present_at(alloc: Global, time: u64) -> PresentArgs
    ensures { result ≡ record { time = time; acquire = []; release = []; unsquashable = false } }
{
    PresentArgs {
        time,
        acquire: Items::new(alloc),
        release: Items::new(alloc),
        unsquashable: false,
    }
}
