//! What a frame is, and the book that only grows: the list of all frames, which exists in
//! proofs alone. Its one word holds the number of the last frame. The contracts of
//! `left_right` can't say that two readers see one list; the book does, and costs no byte.
use flat_base::FrameNo;
use flat_hit::HitIndex;
use flat_topology::GlobalTopology;
use logbook::{Gain, Plain, Play, Rule, Seen, Word};
use std::sync::Arc;

/// A frame as contracts see it. No value of it is made.
pub struct Frame {
    pub number: FrameNo,
    pub joined: GlobalTopology,
}

/// A frame as it is kept.
#[derive(Drop)]
pub struct Numbered {
    pub number: FrameNo,
    pub joined: Arc<HitIndex>,
}

/// The rule of the book: its word is the number of the last frame, and the numbers rise.
pub struct FramesRise;

impl Rule<Frame, u64> for FramesRise {
    ghost use Rattle.std.specs.Prelude.{[]};
    ghost use base.Fml.{ftrue};
    ghost use Rattle.flat_publish.specs.Book.{IsKept};

    ghost holds = { λ cells log. IsKept cells log };

    ghost first = { [] };

    ghost hinted = { λ n log. Unit {0} };

    ghost shows = { λ log. [] };

    ghost keeps = { λ names log. ftrue };

    ghost moves = { λ ask before after answer. Unit {0} };
}

/// A step tells no more than what it adds.
pub struct NothingGained;

impl Gain<Frame, u64> for NothingGained {
    ghost use base.Fml.{ftrue};

    ghost after = { λ names about answer. ftrue };
}

/// A step that adds a frame.
pub struct FrameAdded;

impl Play<Frame, u64> for FrameAdded {
    ghost use Rattle.flat_publish.specs.Book.{Adds};

    ghost then = { Adds };
}

impl Plain<Numbered, Frame, u64> for FrameAdded {
    ghost use Rattle.std.specs.Prelude.{None};
    ghost use Rattle.flat_publish.specs.Kept.{frame_of};

    ghost ask = { frame_of };

    ghost state = { λ n. None };
}

/// The frames that somebody has seen.
pub type FramesSeen = Seen<Frame, u64, FramesRise>;

/// The number of the last frame.
pub type LastNumber = Word<Frame, u64, FramesRise>;
