ghost use Rattle.std.specs.Prelude.{◌≡◌, ◌<◌, false, ◌||◌, ◌==◌, length, IfOk};
ghost use Rattle.flat_base.specs.declared.ids.PairNo.{PairNo};
ghost use Rattle.flat_states.specs.Flags.{has_end};

use flat_base::{NoMemory, PairNo};
use std::alloc::Global;
use std::marker::Model;

/// Which view ends were used. One that is used stays so. Contracts see a flag for
/// each pair.
#[derive(Drop)]
pub struct UsedViewEnds {
    flags: Vec<bool>,
}

impl Model for UsedViewEnds {
    ghost use Rattle.std.specs.Prelude.{Bool, List};

    ghost Value = { List Bool };

    ghost view = { λ set. set.flags.items };
}

impl UsedViewEnds {
    /// A set of the ends of so many pairs, none of which is used.
    pub fn new(alloc: Global, count: u32) -> Result<UsedViewEnds, NoMemory>
        ensures size { IfOk result (λ set. length set ≡ count) }
        ensures none { IfOk result (λ set. (p : PairNo) → has_end set p ≡ false) }
    {
        let flags = Vec::from_elem(alloc, false, count as usize)?;
        Ok(UsedViewEnds { flags })
    }

    /// Uses an end, for good. It takes no memory.
    pub fn set(&mut self, p: PairNo)
        requires { p.0 < length self.old }
        ensures size { length self.new ≡ length self.old }
        ensures members { (q : PairNo) → has_end self.new q ≡ (has_end self.old q || p.0 == q.0) }
    {
        self.flags[p.0 as usize] = true;
    }

    /// Whether an end was used.
    pub fn is_used(&self, p: PairNo) -> bool
        ensures { result ≡ has_end self.now p }
    {
        self.flags.get(p.0 as usize).copied().unwrap_or(false)
    }
}
