//! What is kept of a session for the ends that it owns.
ghost use Rattle.std.specs.Prelude.{◌≡◌, ℕ, Option, false, true};
ghost use Rattle.flat_rules.specs.Stamps.{is_seen};
ghost use Rattle.flat_links.specs.Hearing.{IsCalm, is_within};

use flat_base::PairNo;

/// What the begin of a frame saw of a session.
#[derive(Clone, Copy, PartialEq, Eq)]
pub struct SeenAtBegin {
    pub closed: bool,
    /// How many of its presents frames had taken.
    pub taken: u32,
    /// The pair of the view that it shows.
    pub view: Option<PairNo>,
    /// It is connected to the display.
    pub connected: bool,
}

/// What is kept of a session for the ends that it owns.
#[derive(Clone, Copy, PartialEq, Eq)]
pub struct SessionLinks {
    /// How many contents its calls made; a count at its end stays there.
    pub contents: u64,
    /// How many presents it had made at its last entry that may have lost an end: one
    /// that released its view, or cleared.
    pub losing: Option<u32>,
    /// By the begin of the last frame.
    pub begun: SeenAtBegin,
    /// By the begin of the last frame that is finished.
    pub finished: SeenAtBegin,
}

impl SessionLinks {
    /// Whether what the begun frame saw of the session tells others something anew: it
    /// closed, shows another view, is connected or no more, or lost an end.
    pub fn may_tell(self) -> bool
        ensures { result ≡ false → IsCalm self }
    {
        if self.begun.closed != self.finished.closed {
            return true;
        }
        if self.begun.connected != self.finished.connected {
            return true;
        }
        if self.begun.view != self.finished.view {
            return true;
        }
        self.may_lose()
    }

    /// Whether the begun frame may have seen the loss of an end that the one before
    /// hadn't seen.
    fn may_lose(self) -> bool
        ensures { result ≡ false → (stamp : Option ℕ) → is_within stamp self.losing ≡ true → is_seen
            stamp self.begun.taken ≡ is_seen stamp self.finished.taken }
    {
        if self.begun.taken == self.finished.taken {
            return false;
        }
        match self.losing {
            Some(last) => self.begun.taken <= last || self.finished.taken <= last,
            None => false,
        }
    }
}
