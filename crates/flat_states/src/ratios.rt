//! The display's pixel ratio: now, at the last begin, and as layouts tell it.
//!
//! Why three: a ratio that is set acts from the next begin on, and what layouts tell is
//! what finished frames had. So a begin notes the ratio of then, and the end of its frame
//! makes that the one that is told.
ghost use Rattle.std.specs.Prelude.{◌≡◌, ℕ, List, []};
ghost use Rattle.flat_scene.specs.declared.journal.Entry.{Entry};
ghost use Rattle.flat_scene.specs.declared.setup.Setup.{Setup};
ghost use Rattle.flat_facts.specs.Begins.{begun, finished};
ghost use Rattle.flat_states.specs.Machines.{ratios_of};

/// The display's pixel ratios.
#[derive(Clone, Copy, PartialEq, Eq)]
pub struct Ratios {
    /// The one set last, or the head's.
    pub latest: u32,
    /// The one with which the last frame began, or the head's before the first.
    pub begun: u32,
    /// The one with which the last finished frame began, or the head's before the first.
    pub finished: u32,
}

impl Ratios {
    /// Before any entry, by the head.
    pub fn new(ratio: u32) -> Ratios
        ensures { (setup : Setup) → ratio ≡ setup.ratio → result ≡ ratios_of setup [] }
    {
        Ratios {
            latest: ratio,
            begun: ratio,
            finished: ratio,
        }
    }

    /// After a ratio was set.
    pub fn set(self, ratio: u32) -> Ratios
        ensures { result ≡ record self { latest = ratio } }
    {
        Ratios {
            latest: ratio,
            begun: self.begun,
            finished: self.finished,
        }
    }

    /// After a frame began.
    pub fn begin(self) -> Ratios
        ensures { (setup : Setup) (h : List Entry) (line time : ℕ) → self ≡ ratios_of setup h →
            result ≡ ratios_of setup (begun h line time) }
    {
        Ratios {
            latest: self.latest,
            begun: self.latest,
            finished: self.finished,
        }
    }

    /// After the open frame ended.
    pub fn finish(self) -> Ratios
        ensures { (setup : Setup) (h : List Entry) (line : ℕ) → self ≡ ratios_of setup h →
            result ≡ ratios_of setup (finished h line) }
    {
        Ratios {
            latest: self.latest,
            begun: self.begun,
            finished: self.begun,
        }
    }
}
