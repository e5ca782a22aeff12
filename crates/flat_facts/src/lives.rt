//! The viewports of a session that live, by their names.
ghost use Rattle.std.specs.Prelude.{◌≡◌, ◌==◌, not, filter, vec_capacity};
ghost use Rattle.flat_facts.specs.Lives.{pair_named};

use crate::live_viewport::LiveViewport;
use flat_base::{ContentId, PairNo};

/// The pair of the live viewport that an id names.
pub fn pair_named(live: &[LiveViewport], name: ContentId) -> Option<PairNo>
    ensures { result ≡ pair_named live.now name.0 }
{
    for one in live {
        if one.name.0 == name.0 {
            return Some(one.pair);
        }
    }
    None
}

/// Takes the live viewport that an id names away.
pub fn drop_named(live: &mut Vec<LiveViewport>, name: ContentId)
    ensures live { live.new.items ≡ filter (λ one. not (one.name.0 == name.0)) live.old.items }
    ensures room { vec_capacity live.new ≡ vec_capacity live.old }
{
    live.retain(|one| one.name.0 != name.0);
}
