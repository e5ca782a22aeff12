ghost use Rattle.std.specs.Prelude.{◌≡◌};
ghost use Rattle.flat_links.specs.Clears.{ClearsOne, ClearsLive};

use crate::pairs::PairState;
use flat_base::PairNo;
use flat_facts::clears::{from_first, has_clear, is_cleared};
use flat_facts::live_viewport::LiveViewport;
use flat_facts::stamps::stamp_then;
use flat_scene::Call;

/// The viewport of a pair is cleared.
fn clear_pair(pairs: &mut [PairState], p: PairNo, presents: u32)
    ensures { ClearsOne p presents pairs.old pairs.new }
{
    let place = p.0 as usize;
    if place < pairs.len() {
        let cleared = stamp_then(pairs[place].cleared, true, presents);
        pairs[place].cleared = cleared;
    }
}

/// Those of the live viewports that the calls clear are cleared.
fn clear_live(pairs: &mut [PairState], live: &[LiveViewport], calls: &[Call], presents: u32)
    ensures { ClearsLive live.now calls.now presents pairs.old pairs.new }
{
    for one in live {
        if is_cleared(one.name, calls) {
            clear_pair(pairs, one.pair, presents);
        }
    }
}

/// Notes what the calls of an entry clear, where these viewports of its session
/// lived, and it had made so many presents, before. It takes no memory. Where there
/// is a Clear, each live viewport is looked for among the calls from the first
/// release up to it.
pub fn note_clears(pairs: &mut [PairState], live: &[LiveViewport], calls: &[Call], presents: u32)
    ensures { ClearsLive live.now calls.now presents pairs.old pairs.new }
{
    if has_clear(calls) {
        clear_live(pairs, live, from_first(calls), presents);
    }
}
