//! Stamps: when a session's calls did something, and whether a frame has seen it.
//!
//! Why stamps: a call works when a frame takes the present behind it, and many presents
//! may wait. So what a call does isn't queued until then. It leaves a stamp, which is how
//! many presents its session had made before; a frame has seen it exactly where it took
//! more presents than that. So a frame counts what it takes, looks at no call again, and
//! goes through no pair of which nobody asks.
ghost use Rattle.std.specs.Prelude.{◌≡◌};
ghost use Rattle.flat_rules.specs.Stamps.{is_seen, stamp_then};

/// Whether the first so many presents have seen what has that stamp.
pub fn is_seen(stamp: Option<u32>, taken: u32) -> bool
    ensures { result ≡ is_seen stamp taken }
{
    match stamp {
        Some(stamp) => stamp < taken,
        None => false,
    }
}

/// A stamp after an entry: it is set where the entry does it, and it wasn't set.
pub fn stamp_then(stamp: Option<u32>, does_it: bool, presents: u32) -> Option<u32>
    ensures { result ≡ stamp_then stamp does_it presents }
{
    match stamp {
        Some(set) => Some(set),
        None => { if does_it { Some(presents) } else { None } }
    }
}
