ghost use Rattle.std.specs.Prelude.{◌≡◌, Ok};
ghost use Rattle.flat_io.specs.Kept.{counted};

use crate::display::Display;
use flat_io::{StreamFailed, counted};
use flat_scene::FrameOut;
use std::marker::Model;

/// A display that counts its frames, tells nothing and never fails. Contracts
/// see the count, which stands still at 2^64 - 1.
#[derive(Drop)]
pub struct CountingDisplay {
    frames: u64,
}

impl Model for CountingDisplay {
    ghost use Rattle.std.specs.Prelude.{ℕ};

    ghost Value = { ℕ };

    ghost view = { λ t. t.frames };
}

impl CountingDisplay {
    /// A display that was shown nothing. It takes no memory.
    pub fn new() -> CountingDisplay
        ensures { result ≡ 0 }
    {
        CountingDisplay { frames: 0 }
    }

    /// How many frames it was shown.
    pub fn frames(&self) -> u64
        ensures { result ≡ self.now }
    {
        self.frames
    }
}

impl Display for CountingDisplay {
    ghost faults = { λ _. 0 };

    /// Counts the frame.
    fn show(&mut self, _frame: &FrameOut) -> Result<(), StreamFailed>
        ensures { (result ≡ Ok tt) × (self.new ≡ counted self.old) }
    {
        self.frames = counted(self.frames);
        Ok(())
    }
}
