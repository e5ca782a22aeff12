ghost use Rattle.std.specs.Prelude.{◌≡◌, ◌<◌, Bool, false, ◌||◌, ◌==◌, length, IfOk};
ghost use Rattle.flat_base.specs.declared.ids.FenceNo.{FenceNo};
ghost use Rattle.flat_fence.specs.Fences.{has};

use flat_base::{FenceNo, NoMemory};
use std::alloc::Global;
use std::marker::Model;

/// Which fences are signalled, of those whose numbers are below a number. A fence
/// that is signalled stays so. Contracts see a flag for each fence.
#[derive(Drop)]
pub struct FenceSet {
    flags: Vec<bool>,
}

impl Model for FenceSet {
    ghost use Rattle.std.specs.Prelude.{Bool, List};

    ghost Value = { List Bool };

    ghost view = { λ set. set.flags.items };
}

impl FenceSet {
    /// A set of the fences below `count`, none of which is signalled.
    pub fn new(alloc: Global, count: u32) -> Result<FenceSet, NoMemory>
        ensures size { IfOk result (λ set. length set ≡ count) }
        ensures none { IfOk result (λ set. (f : FenceNo) → has set f ≡ false) }
    {
        let flags = Vec::from_elem(alloc, false, count as usize)?;
        Ok(FenceSet { flags })
    }

    /// Signals a fence, for good. It takes no memory.
    pub fn signal(&mut self, f: FenceNo)
        requires { f.0 < length self.old }
        ensures size { length self.new ≡ length self.old }
        ensures members { (g : FenceNo) → has self.new g ≡ (has self.old g || f.0 == g.0) }
    {
        self.flags[f.0 as usize] = true;
    }

    /// Whether a fence is signalled; one that isn't below the set's number never is.
    pub fn is_signalled(&self, f: FenceNo) -> bool
        ensures { result ≡ has self.now f }
    {
        self.flags.get(f.0 as usize).copied().unwrap_or(false)
    }
}
