ghost use Rattle.std.specs.Prelude.{◌≡◌, ◌⊎◌, ◌==◌, [], ◌∷◌, ◌++◌, true, false, OnOk, OnErr, IsTrue, is_err};
ghost use Rattle.flat_io.specs.Kept.{counted, is_next_among};
ghost use Rattle.flat_display.specs.Kept.{FailingDisplay, told_frames, after_fault, after_keeping, after_silence};

use crate::display::Display;
use flat_base::{Items, NoMemory, TryCopy};
use flat_io::{StreamFailed, counted, is_next_among};
use flat_scene::FrameOut;
use std::alloc::Global;
use std::marker::Model;

/// A display over memory that fails at chosen calls. Contracts see the frames
/// that it keeps, whether it tells them, those calls, and its counts.
#[derive(Drop)]
pub struct MemDisplay {
    alloc: Global,
    frames: Items<FrameOut>,
    is_told: bool,
    fail: Vec<u32>,
    calls: u64,
    faults: u64,
}

impl Model for MemDisplay {
    ghost use Rattle.flat_display.specs.Kept.{FailingDisplay};

    ghost Value = { FailingDisplay };

    ghost view = { λ d. record {
      frames = d.frames;
      is_told = d.is_told;
      fail = d.fail.items;
      calls = d.calls;
      faults = d.faults;
    } };
}

impl MemDisplay {
    /// A display that fails exactly at the calls of `show` whose numbers, from 1,
    /// are in `fail`. It takes no memory.
    pub fn new(alloc: Global, fail: Vec<u32>) -> MemDisplay
        ensures { result ≡ record {
          frames = [];
          is_told = true;
          fail = fail.items;
          calls = 0;
          faults = 0;
        } }
    {
        MemDisplay {
            alloc,
            frames: Items::new(alloc),
            is_told: true,
            fail,
            calls: 0,
            faults: 0,
        }
    }

    /// The frames that it keeps: all that it took while it tells them, and those
    /// before the first one that found no room from then on.
    pub fn frames(&self) -> &[FrameOut]
        ensures { result.now ≡ self.now.frames }
    {
        self.frames.as_slice()
    }

    // Keeps a copy of the frame, or tells nothing from now on.
    fn keep(&mut self, frame: &FrameOut)
        ensures { (self.new ≡ record self.old { frames = self.old.frames ++ frame.now ∷ [] })
            ⊎ (self.new ≡ record self.old { is_told = false }) }
    {
        if self.push_copy(frame).is_err() {
            self.is_told = false;
        }
    }

    fn push_copy(&mut self, frame: &FrameOut) -> Result<(), NoMemory>
        ensures ok { OnOk result (self.new ≡ record self.old {
          frames = self.old.frames ++ frame.now
              ∷ [];
        }) }
        ensures err { OnErr result (self.new ≡ self.old) }
    {
        self.frames.push(frame.copy(self.alloc)?)
    }
}

impl Display for MemDisplay {
    ghost shown = { told_frames };

    ghost faults = { λ d. d.faults };

    /// Keeps a copy of the frame, or fails. One whose copy finds no room is
    /// dropped, as is all that comes after it, and from then on the display tells
    /// nothing.
    fn show(&mut self, frame: &FrameOut) -> Result<(), StreamFailed>
        ensures fails { is_err result ≡ is_next_among self.old.fail self.old.calls }
        ensures err { OnErr result (self.new ≡ after_fault self.old) }
        ensures ok { OnOk result ((self.new ≡ after_keeping self.old frame.now) ⊎ (self.new
            ≡ after_silence self.old)) }
        ensures silent { OnOk result (self.old.is_told ≡ false → self.new
            ≡ after_silence self.old) }
    {
        let fails = is_next_among(&self.fail, self.calls);
        self.calls = counted(self.calls);
        if fails {
            self.faults = counted(self.faults);
            return Err(StreamFailed);
        }
        if self.is_told {
            self.keep(frame);
        }
        Ok(())
    }
}
