ghost use Rattle.std.specs.Prelude.{◌≡◌, ◌↔◌, IsTrue, length};
ghost use Rattle.flat_snap.specs.Flat.{flat_nodes, lent};

use crate::flat::FlatNode;
use crate::snapshot::Snapshot;
use flat_base::{IntRect, PairNo};
use flat_scene::{Content, HitRegion, ViewportUse};

fn is_same_area(one: Option<IntRect>, other: Option<IntRect>) -> bool
    ensures { IsTrue result ↔ (one ≡ other) }
{
    one == other
}

fn is_same_region(one: HitRegion, other: HitRegion) -> bool
    ensures { IsTrue result ↔ (one ≡ other) }
{
    is_same_area(one.area, other.area) && one.interaction == other.interaction
}

fn are_same_regions(one: &[HitRegion], other: &[HitRegion]) -> bool
    ensures { IsTrue result ↔ (one.now ≡ other.now) }
{
    if one.len() != other.len() {
        return false;
    }
    for i in 0..one.len() {
        if !is_same_region(one[i], other[i]) {
            return false;
        }
    }
    true
}

fn is_same_content(one: Option<Content>, other: Option<Content>) -> bool
    ensures { IsTrue result ↔ (one ≡ other) }
{
    one == other
}

/// Whether two nodes are equal, and their subtrees end at one number.
fn is_same_node(one: &FlatNode<'_>, other: &FlatNode<'_>) -> bool
    ensures { IsTrue result ↔ (lent one.now ≡ lent other.now) }
{
    if one.serial != other.serial || one.opacity != other.opacity || one.end != other.end {
        return false;
    }
    if one.scale != other.scale || one.turn != other.turn || one.place != other.place {
        return false;
    }
    if !is_same_area(one.clip, other.clip) || !is_same_content(one.content, other.content) {
        return false;
    }
    are_same_regions(one.hits, other.hits)
}

/// Whether two trees have the same nodes, wherever their regions lie.
fn are_same_nodes(one: &Snapshot, other: &Snapshot) -> bool
    ensures { IsTrue result ↔ (flat_nodes one.now ≡ flat_nodes other.now) }
{
    if one.nodes() != other.nodes() {
        return false;
    }
    for i in 0..one.nodes() {
        if !is_same_node(&one.node(i), &other.node(i)) {
            return false;
        }
    }
    true
}

fn is_same_view(one: Option<PairNo>, other: Option<PairNo>) -> bool
    ensures { IsTrue result ↔ (one ≡ other) }
{
    one == other
}

fn is_same_use(one: ViewportUse, other: ViewportUse) -> bool
    ensures { IsTrue result ↔ (one ≡ other) }
{
    one == other
}

fn are_same_uses(one: &[ViewportUse], other: &[ViewportUse]) -> bool
    ensures { IsTrue result ↔ (one.now ≡ other.now) }
{
    if one.len() != other.len() {
        return false;
    }
    for i in 0..one.len() {
        if !is_same_use(one[i], other[i]) {
            return false;
        }
    }
    true
}

impl Snapshot {
    /// Whether both stand for one tree. It takes no memory, and looks at each node
    /// until one differs.
    pub fn same(&self, other: &Snapshot) -> bool
        ensures { IsTrue result ↔ (self.now ≡ other.now) }
    {
        if !is_same_view(self.view(), other.view()) {
            return false;
        }
        if !are_same_uses(self.viewports().as_slice(), other.viewports().as_slice()) {
            return false;
        }
        are_same_nodes(self, other)
    }
}
