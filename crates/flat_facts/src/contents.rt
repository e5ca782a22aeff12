//! How many contents calls make, as far as a count goes.
ghost use Rattle.std.specs.Prelude.{◌≡◌, ℕ, ◌+◌, length};
ghost use Rattle.flat_facts.specs.Contents.{capped};
ghost use Rattle.flat_rules.specs.Serials.{makes_content, contents_made};

use flat_scene::Call;

/// The count of contents after a call. A count at its end stays there.
fn count_one(count: u64, call: &Call) -> u64
    ensures { (n : ℕ) → count ≡ capped n → result ≡ capped (n + length (makes_content call.now)) }
{
    match call {
        Call::CreateViewport { .. } => count.saturating_add(1),
        Call::CreateImage { .. } => count.saturating_add(1),
        Call::CreateFilledRect { .. } => count.saturating_add(1),
        _ => count,
    }
}

/// The count of contents after calls.
pub fn count_contents(count: u64, calls: &[Call]) -> u64
    ensures { (n : ℕ) → count ≡ capped n → result ≡ capped (n + length (contents_made calls.now)) }
{
    let mut now = count;
    for call in calls {
        now = count_one(now, call);
    }
    now
}
