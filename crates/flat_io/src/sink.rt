ghost use Rattle.std.specs.Prelude.{◌≡◌, ℕ, ◌+◌, ◌<◌, ◌≤◌, length, take, List, Option, None};
ghost use Rattle.std.specs.Prelude.{IsTrue, IfOk, OnOk, OnErr};
ghost use Rattle.flat_io.specs.Counts.{has_risen};
ghost use Rattle.flat_io.specs.Told.{Appends};

use crate::source::StreamFailed;

/// A taker of bytes.
pub trait Sink {
    // The bytes that it holds, where it tells them.
    ghost held: { Self → Option (List ℕ) } = { λ _. None };

    // How many of its writes failed. The count never falls, and stands still at 2^64 - 1.
    ghost faults: { Self → ℕ };

    // How many of its writes took nothing of a piece that isn't empty. Likewise.
    ghost stalls: { Self → ℕ };

    // How many writes were made to it, where it counts them. The count rises by one at most.
    ghost writes: { Self → ℕ } = { λ _. 0 };

    /// Appends a prefix of the piece to what is held, and answers its length. 0
    /// for a piece that isn't empty comes only where the count of stalls rose in
    /// this call.
    ///
    /// `StreamFailed` comes only where the count of faults rose in this call; then what
    /// is held is as before. A count that stands at its end counts as risen. A write that
    /// doesn't fail leaves the count of faults as it was, and one that takes bytes leaves
    /// that of stalls too.
    fn write(&mut self, piece: &[u8]) -> Result<usize, StreamFailed>
        ensures within { IfOk result (λ count. count ≤ length piece.now) }
        ensures taken { IfOk result (λ count. Appends (take count piece.now) (held self.old)
            (held self.new)) }
        ensures stalled { IfOk result (λ count. count ≡ 0 → 0 < length piece.now →
            IsTrue (has_risen (stalls self.old) (stalls self.new))) }
        ensures failed { OnErr result (IsTrue (has_risen (faults self.old) (faults self.new))) }
        ensures same { OnErr result (held self.new ≡ held self.old) }
        ensures faults { faults self.old ≤ faults self.new }
        ensures stalls { stalls self.old ≤ stalls self.new }
        ensures steady { OnOk result (faults self.new ≡ faults self.old) }
        ensures flows { IfOk result (λ count. 0 < count → stalls self.new ≡ stalls self.old) }
        ensures writes { writes self.new ≤ writes self.old + 1 };
}
