//! Why a session isn't on the display (specs/Hidden).
ghost use Rattle.std.specs.Prelude.{◌≡◌, length};
ghost use Rattle.flat_why.specs.Hidden.{hidden_by, hidden_in, is_cyclic, node_of};
ghost use Rattle.flat_why.specs.Noted.{stands_in};
ghost use Rattle.flat_why.specs.declared.reasons.AttachPoint.TheVariants.{Below};

use crate::reasons::{AttachPoint, HiddenReason};
use flat_base::SessionNo;
use flat_scene::ViewNode;

/// Where a session hangs.
fn standing_of(standings: &[AttachPoint], s: SessionNo) -> AttachPoint
    ensures { result ≡ stands_in standings.now s }
{
    match standings.get(s.0.saturating_sub(1) as usize) {
        Some(standing) => *standing,
        None => AttachPoint::OnDisplay,
    }
}

/// Whether a session hangs below itself, directly or through others.
fn is_cyclic(standings: &[AttachPoint], s: SessionNo) -> bool
    ensures { result ≡ is_cyclic (length standings.now) (stands_in standings.now) s }
{
    let mut standing = standing_of(standings, s);
    for _ in 0..standings.len() {
        let AttachPoint::Below(above) = standing else {
            return false;
        };
        if above.0 == s.0 {
            return true;
        }
        standing = standing_of(standings, above);
    }
    false
}

/// The node of a session in a view tree, if it is one.
pub fn node_of(nodes: &[ViewNode], s: SessionNo) -> Option<ViewNode>
    ensures { result ≡ node_of s nodes.now }
{
    nodes.iter().copied().find(|node| node.session.0 == s.0)
}

/// Why a session below another one isn't on the display, if it isn't.
fn hidden_below(
    standings: &[AttachPoint],
    nodes: &[ViewNode],
    s: SessionNo,
    parent: SessionNo,
) -> Option<HiddenReason>
    ensures { result ≡ hidden_by (length standings.now) (stands_in standings.now) nodes.now s
        (Below parent) }
{
    if node_of(nodes, parent).is_some() {
        return None;
    }
    if is_cyclic(standings, s) {
        return Some(HiddenReason::Cycle);
    }
    Some(HiddenReason::Parent(parent))
}

/// Why a session isn't on the display, if it isn't.
pub fn hidden_in(
    standings: &[AttachPoint],
    nodes: &[ViewNode],
    s: SessionNo,
) -> Option<HiddenReason>
    ensures { result ≡ hidden_in (length standings.now) (stands_in standings.now) nodes.now s }
{
    match standing_of(standings, s) {
        AttachPoint::OnDisplay => None,
        AttachPoint::Nowhere(cause) => Some(HiddenReason::Unhung(cause)),
        AttachPoint::Below(parent) => hidden_below(standings, nodes, s, parent),
    }
}
