//! Where a session hangs, or why it hangs nowhere (specs/Reasons).
ghost use Rattle.std.specs.Prelude.{◌≡◌, ◌<◌, ◌≤◌, true, length, slice_index_or, Option, Some, None, option_map};
ghost use Rattle.std.specs.Option.{option_copied};
ghost use Rattle.std.specs.List.{list_any};
ghost use Rattle.flat_base.specs.declared.ids.Actor.TheVariants.{Session};
ghost use Rattle.flat_scene.specs.Frames.{taken};
ghost use Rattle.flat_scene.specs.Setups.{is_declared};
ghost use Rattle.flat_scene.specs.Heads.{owners_declared};
ghost use Rattle.flat_snap.specs.Flat.{flat_nodes};
ghost use Rattle.flat_join.specs.Distances.{leads_to};
ghost use Rattle.flat_topology.specs.Shown.{is_shown_by, state_of};
ghost use Rattle.flat_rules.specs.Ends.{viewport_owner};
ghost use Rattle.flat_why.specs.Reasons.{has_viewport, parting_of, hanging_by, viewed_by, standing_in, nothing_by};
ghost use Rattle.flat_why.specs.Reasons.{first_of};
ghost use Rattle.flat_why.specs.Noted.{uses_in};

use crate::reasons::{AttachPoint, CloseReason, DetachedReason, PendingPresent, UnplacedReason};
use flat_base::{Actor, PairNo, SessionNo};
use flat_core::Board;
use flat_join::ShownStates;
use flat_scene::{Content, Setup, WaitCondition};
use flat_snap::Snapshot;

/// How many presents of a session frames have taken.
pub fn taken(board: &Board, s: SessionNo) -> u32
    requires { is_declared board.now.setup s ≡ true }
    ensures { result ≡ taken board.now.setup board.now.history s }
{
    board.value(Actor::Session(s), WaitCondition::Taken(0))
}

/// Whether a content is a viewport of a pair.
fn leads_to(content: Option<Content>, p: PairNo) -> bool
    ensures { result ≡ leads_to p.0 content }
{
    match content {
        Some(Content::Viewport { pair, .. }) => pair.0 == p.0,
        _ => false,
    }
}

/// Whether a state has a viewport of a pair on a node.
fn is_on_node(state: &Snapshot, p: PairNo) -> bool
    ensures { result ≡ list_any (λ n. leads_to p.0 n.content) (flat_nodes state.now) }
{
    for &i in state.viewport_nodes() {
        if leads_to(state.node(i).content, p) {
            return true;
        }
    }
    false
}

/// Whether a session shows a viewport of a pair.
fn is_shown_by(shown: &ShownStates, p: PairNo, q: SessionNo) -> bool
    requires some { 0 < q.0 }
    requires few { q.0 ≤ length shown.now }
    ensures { result ≡ is_shown_by shown.now p.0 q.0 }
{
    match shown.state(q) {
        Some(state) => is_on_node(state, p),
        None => false,
    }
}

/// Whether a state has a viewport of a pair, on a node or not.
fn has_viewport(state: &Snapshot, p: PairNo) -> bool
    ensures { result ≡ has_viewport p state.now }
{
    let uses = state.viewports();
    uses.as_slice().iter().any(|one| one.pair.0 == p.0)
}

/// Why a viewport is on no node of what its owner shows.
fn why_parted(
    shown: &ShownStates,
    p: PairNo,
    q: SessionNo,
    taken: u32,
    last_use: Option<u32>,
) -> UnplacedReason
    requires some { 0 < q.0 }
    requires few { q.0 ≤ length shown.now }
    ensures { result ≡ parting_of p (state_of shown.now q.0) taken last_use }
{
    let Some(made) = last_use else {
        return UnplacedReason::Unmade;
    };
    let Some(state) = shown.state(q) else {
        return UnplacedReason::Unshown;
    };
    if has_viewport(state, p) {
        return UnplacedReason::Loose;
    }
    if made < taken {
        return UnplacedReason::Ended;
    }
    UnplacedReason::Unshown
}

/// The number of presents at the last use of a pair's viewport end.
fn use_of(last_uses: &[Option<u32>], p: PairNo) -> Option<u32>
    ensures { result ≡ uses_in last_uses.now p }
{
    match last_uses.get(p.0 as usize) {
        Some(last_use) => *last_use,
        None => None,
    }
}

/// Where a view hangs whose pair's viewport end a session owns.
fn hanging_below(
    board: &Board,
    shown: &ShownStates,
    last_uses: &[Option<u32>],
    p: PairNo,
    q: SessionNo,
) -> AttachPoint
    requires owner { is_declared board.now.setup q ≡ true }
    requires made { length shown.now ≡ board.now.setup.sessions }
    ensures { result ≡ hanging_by board.now.setup shown.now
        (taken board.now.setup board.now.history) (uses_in last_uses.now) p
        (Some (Session q)) }
{
    if is_shown_by(shown, p, q) {
        return AttachPoint::Below(q);
    }
    let why = why_parted(shown, p, q, taken(board, q), use_of(last_uses, p));
    AttachPoint::Nowhere(DetachedReason::Parted {
        parent: q,
        pair: p,
        why,
    })
}

fn viewport_owner(setup: &Setup, p: PairNo) -> Option<Actor>
    ensures { result ≡ viewport_owner setup.now p }
{
    match setup.pairs.get(p.0 as usize) {
        Some(pair) => Some(pair.viewport),
        None => None,
    }
}

/// Where the view of a pair hangs.
fn hanging(board: &Board, shown: &ShownStates, last_uses: &[Option<u32>], p: PairNo) -> AttachPoint
    requires owners { owners_declared board.now.setup ≡ true }
    requires made { length shown.now ≡ board.now.setup.sessions }
    ensures { result ≡ viewed_by board.now.setup shown.now
        (taken board.now.setup board.now.history) (uses_in last_uses.now) (Some p) }
{
    match viewport_owner(board.setup(), p) {
        Some(Actor::Display) => AttachPoint::OnDisplay,
        Some(Actor::Session(q)) => hanging_below(board, shown, last_uses, p, q),
        _ => AttachPoint::Nowhere(DetachedReason::Viewless),
    }
}

/// Where a session hangs, where it is known why, if nothing is shown of it.
pub fn standing_at(
    board: &Board,
    shown: &ShownStates,
    last_uses: &[Option<u32>],
    nothing: DetachedReason,
    s: SessionNo,
) -> AttachPoint
    requires declared { is_declared board.now.setup s ≡ true }
    requires owners { owners_declared board.now.setup ≡ true }
    requires made { length shown.now ≡ board.now.setup.sessions }
    ensures { result ≡ standing_in board.now.setup shown.now
        (taken board.now.setup board.now.history) (uses_in last_uses.now) nothing s }
{
    let Some(state) = shown.state(s) else {
        return AttachPoint::Nowhere(nothing);
    };
    match state.view() {
        Some(p) => hanging(board, shown, last_uses, p),
        None => AttachPoint::Nowhere(DetachedReason::Viewless),
    }
}

/// The first of a session's presents that wait.
fn first_of(s: SessionNo, waits: &[PendingPresent]) -> Option<PendingPresent>
    ensures { result ≡ first_of s waits.now }
{
    waits
        .iter()
        .copied()
        .find(|waiting| waiting.session.0 == s.0)
}

/// Why nothing is shown of a session.
pub fn nothing(
    closing: Option<CloseReason>,
    s: SessionNo,
    waits: &[PendingPresent],
) -> DetachedReason
    ensures { result ≡ nothing_by closing (first_of s waits.now) }
{
    if let Some(closing) = closing {
        return DetachedReason::Closed(closing);
    }
    match first_of(s, waits) {
        Some(waiting) => DetachedReason::Held(waiting.hold),
        None => DetachedReason::Unpresented,
    }
}
