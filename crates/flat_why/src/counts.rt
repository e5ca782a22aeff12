//! How many of a frame's items are each session's own, in one pass over them.
ghost use Rattle.std.specs.Prelude.{◌≡◌, ◌==◌, ◌+◌, ◌-◌, ◌<◌, ◌≤◌, ◌^◌, length, replicate};
ghost use Rattle.std.specs.Prelude.{count_by, All, IfOk};
ghost use Rattle.flat_base.specs.declared.ids.SessionNo.{SessionNo};
ghost use Rattle.flat_why.specs.Noted.{counts_in, with_item};

use flat_base::{NoMemory, SessionNo};
use flat_scene::DrawItem;
use std::alloc::Global;

fn no_counts(alloc: Global, sessions: u32) -> Result<Vec<usize>, NoMemory>
    ensures { IfOk result (λ counts. counts.items ≡ replicate sessions 0) }
{
    let mut counts = Vec::with_capacity(alloc, sessions as usize)?;
    for _ in 0..sessions {
        counts.push(0)?;
    }
    Ok(counts)
}

/// Counts one more item of a session, where it is one of those that are counted.
fn count_one(counts: &mut Vec<usize>, s: SessionNo)
    requires { All (λ n. n + 1 < 2 ^ 64) counts.old.items }
    ensures { counts.new.items ≡ with_item s counts.old.items }
{
    let place = s.0 as usize;
    if 0 < place && place <= counts.len() {
        counts[place - 1] += 1;
    }
}

/// How many items each session has, session 1 first.
pub fn count_items(alloc: Global, sessions: u32, items: &[DrawItem]) -> Result<Vec<usize>, NoMemory>
    ensures count { IfOk result (λ counts. length counts.items ≡ sessions) }
    ensures each { IfOk result (λ counts. (s : SessionNo) → 0 < s.0 → s.0 ≤ sessions →
        counts_in counts.items s ≡ count_by (λ item. item.session.0 == s.0) items.now) }
{
    let mut counts = no_counts(alloc, sessions)?;
    for item in items {
        count_one(&mut counts, item.session);
    }
    Ok(counts)
}
