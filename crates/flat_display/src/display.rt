ghost use Rattle.std.specs.Prelude.{◌≡◌, ℕ, ◌≤◌, ◌∷◌, [], List, Option, None, IsTrue, OnOk, OnErr};
ghost use Rattle.flat_io.specs.Counts.{has_risen};
ghost use Rattle.flat_io.specs.Told.{Appends};
ghost use Rattle.flat_scene.specs.declared.frames.FrameOut.{FrameOut};

use flat_io::StreamFailed;
use flat_scene::FrameOut;

/// A taker of frames.
pub trait Display: Drop {
    // The frames that it took, where it tells them.
    ghost shown: { Self → Option (List FrameOut) } = { λ _. None };

    // How many of its shows failed. The count never falls, and stands still at 2^64 - 1.
    ghost faults: { Self → ℕ };

    /// Takes a frame. `StreamFailed` comes only where the count of faults rose in this
    /// call (a count that stands at its end counts as risen); then what was shown
    /// is as before. A show that doesn't fail leaves that count as it was.
    fn show(&mut self, frame: &FrameOut) -> Result<(), StreamFailed>
        ensures shown { OnOk result (Appends (frame.now ∷ []) (shown self.old) (shown self.new)) }
        ensures failed { OnErr result (IsTrue (has_risen (faults self.old) (faults self.new))) }
        ensures same { OnErr result (shown self.new ≡ shown self.old) }
        ensures faults { faults self.old ≤ faults self.new }
        ensures steady { OnOk result (faults self.new ≡ faults self.old) };
}
