ghost use Rattle.std.specs.Prelude.{◌≡◌, Some, [], ◌∷◌};
ghost use Rattle.flat_links.specs.Views.{EndsViews, EndsOne};

use flat_base::PairNo;
use flat_facts::stamps::stamp_then;
use flat_facts::views::view_then;
use flat_scene::{Call, ViewportProps};

/// What is kept of a pair, but for its token.
#[derive(Clone, Copy, PartialEq, Eq)]
pub struct PairState {
    /// How many presents the owner of the view end had made when the view ended.
    pub ended: Option<u32>,
    /// How many presents its owner had made at the first Clear while a viewport of
    /// the pair lived.
    pub cleared: Option<u32>,
    /// The serial of the viewport that the last use made, as far as a count goes.
    pub serial: u64,
    /// The properties of the last use, as they were given, where the viewport end was
    /// used, and as a finished frame has seen them last.
    pub given: Option<ViewportProps>,
    pub seen: Option<ViewportProps>,
    /// What will be seen of it once the frame begun last has ended.
    pub pending: Option<ViewportProps>,
}

/// The view of a pair ends.
fn end_pair(pairs: &mut [PairState], p: PairNo, presents: u32)
    ensures { EndsOne (Some p) presents pairs.old pairs.new }
{
    let place = p.0 as usize;
    if place < pairs.len() {
        let ended = stamp_then(pairs[place].ended, true, presents);
        pairs[place].ended = ended;
    }
}

/// The view ends, if there is one.
fn end_view(pairs: &mut [PairState], view: Option<PairNo>, presents: u32)
    ensures { EndsOne view presents pairs.old pairs.new }
{
    match view {
        Some(p) => end_pair(pairs, p, presents),
        None => {}
    }
}

/// What a call does to the stamps of views.
fn note_one(pairs: &mut [PairState], view: Option<PairNo>, call: &Call, presents: u32)
    ensures { EndsViews view (call.now ∷ []) presents pairs.old pairs.new }
{
    match call {
        Call::ReleaseView => end_view(pairs, view, presents),
        Call::Clear => end_view(pairs, view, presents),
        _ => {}
    }
}

/// Notes the calls of an entry, where its session had this view and had made so
/// many presents before. It takes no memory.
pub fn note_views(pairs: &mut [PairState], view: Option<PairNo>, calls: &[Call], presents: u32)
    ensures { EndsViews view calls.now presents pairs.old pairs.new }
{
    let mut now = view;
    for call in calls {
        note_one(pairs, now, call, presents);
        now = view_then(now, call);
    }
}
