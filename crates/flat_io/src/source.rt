ghost use Rattle.std.specs.Prelude.{◌≡◌, ℕ, ◌+◌, ◌<◌, ◌≤◌, [], length, List, Option, None, IsTrue, IfOk, OnOk, OnErr};
ghost use Rattle.flat_io.specs.Counts.{has_risen};
ghost use Rattle.flat_io.specs.Told.{WhereTold};
ghost use Rattle.flat_io.specs.Reads.{Takes};

/// A read or a write failed. The count of faults of the source or the sink rose.
#[derive(Clone, Copy, Debug, PartialEq, Eq)]
pub struct StreamFailed;

/// A giver of bytes.
pub trait Source {
    // The bytes that it has left, where it tells them.
    ghost left: { Self → Option (List ℕ) } = { λ _. None };

    // How many of its reads failed. The count never falls, and stands still at 2^64 - 1.
    ghost faults: { Self → ℕ };

    // How many reads were made of it, where it counts them. The count rises by one at most.
    ghost reads: { Self → ℕ } = { λ _. 0 };

    /// Takes bytes from the front of what is left, at most as many as the buffer
    /// has room for, and answers their number. 0 for a buffer that isn't empty
    /// comes at the end alone, where nothing is left. What stands in the buffer
    /// behind that number is not said.
    ///
    /// `StreamFailed` comes only where the count of faults rose in this call (a count
    /// that stands at its end counts as risen); then what is left is as before. A
    /// read that doesn't fail leaves that count as it was.
    fn read(&mut self, into: &mut [u8]) -> Result<usize, StreamFailed>
        ensures within { IfOk result (λ count. count ≤ length into.old) }
        ensures taken { IfOk result (λ count. Takes count into.new (left self.old)
            (left self.new)) }
        ensures end { IfOk result (λ count. count ≡ 0 → 0 < length into.old →
            WhereTold (left self.old) (left self.new) (λ _ after. after ≡ [])) }
        ensures failed { OnErr result (IsTrue (has_risen (faults self.old) (faults self.new))) }
        ensures same { OnErr result (left self.new ≡ left self.old) }
        ensures faults { faults self.old ≤ faults self.new }
        ensures steady { OnOk result (faults self.new ≡ faults self.old) }
        ensures reads { reads self.new ≤ reads self.old + 1 };
}
