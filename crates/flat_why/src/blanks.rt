//! Why a session that is on the display draws nothing (specs/Blanks). What its own nodes
//! tell is looked at first: only where some of them paint are all nodes placed.
ghost use Rattle.std.specs.Prelude.{◌≡◌, ◌<◌, ◌≤◌, length, is_none, IfOk, Some};
ghost use Rattle.flat_scene.specs.Setups.{at_ratio};
ghost use Rattle.flat_topology.specs.Fit.{FitsSetup};
ghost use Rattle.flat_topology.specs.Place.{placed_nodes};
ghost use Rattle.flat_topology.specs.Shown.{state_of, nodes_of};
ghost use Rattle.flat_why.specs.Blanks.{painted_size, paints, is_seen, has_area, has_size};
ghost use Rattle.flat_why.specs.Blanks.{some_node, some_paint, unseen_of, blank_of};

use crate::reasons::BlankReason;
use flat_base::{NoMemory, SESSIONS_MAX, SessionNo};
use flat_geom::{Matrix, is_empty, map_rect, sized};
use flat_join::{ShownStates, join};
use flat_scene::{Content, Setup};
use flat_snap::Snapshot;
use flat_topology::PlacedNode;
use std::alloc::Global;

/// The size at which a content is painted.
fn painted_size(content: Option<Content>) -> Option<(u32, u32)>
    ensures { result ≡ painted_size content }
{
    match content {
        Some(Content::Fill { w, h, .. }) => Some((w, h)),
        Some(Content::Image { w, h, .. }) => Some((w, h)),
        _ => None,
    }
}

fn paints(content: Option<Content>) -> bool
    ensures { result ≡ paints content }
{
    painted_size(content).is_some()
}

/// Whether a node paints, and is seen through with an opacity that isn't 0.
fn is_seen(at: &PlacedNode) -> bool
    ensures { result ≡ is_seen at.now }
{
    paints(at.content) && at.opacity != 0
}

fn has_area(m: Matrix, size: Option<(u32, u32)>) -> bool
    ensures { result ≡ has_area m size }
{
    match size {
        Some((w, h)) => !is_empty(map_rect(m, sized(w, h))),
        None => false,
    }
}

/// Whether what a node paints has a point on an endless display.
fn has_size(at: &PlacedNode) -> bool
    ensures { result ≡ has_size at.now }
{
    is_seen(at) && has_area(at.matrix, painted_size(at.content))
}

fn some_seen(s: SessionNo, nodes: &[PlacedNode]) -> bool
    ensures { result ≡ some_node s is_seen nodes.now }
{
    nodes.iter().any(|at| at.session.0 == s.0 && is_seen(at))
}

fn some_sized(s: SessionNo, nodes: &[PlacedNode]) -> bool
    ensures { result ≡ some_node s has_size nodes.now }
{
    nodes.iter().any(|at| at.session.0 == s.0 && has_size(at))
}

/// Why none of a session's nodes that paint is drawn.
fn unseen(s: SessionNo, nodes: &[PlacedNode]) -> BlankReason
    ensures { result ≡ unseen_of s nodes.now }
{
    if !some_seen(s, nodes) {
        return BlankReason::Transparent;
    }
    if !some_sized(s, nodes) {
        return BlankReason::Sizeless;
    }
    BlankReason::Clipped
}

/// Whether a state has no root.
fn is_rootless(state: &Snapshot) -> bool
    ensures { result ≡ is_none state.now.root }
{
    state.nodes() == 0
}

/// Whether a node of a state paints.
fn some_paints(state: &Snapshot) -> bool
    ensures { result ≡ some_paint (nodes_of (Some state.now)) }
{
    for i in 0..state.nodes() {
        if paints(state.node(i).content) {
            return true;
        }
    }
    false
}

/// Why a session draws nothing in a frame that shows these states, if it does.
pub fn why_blank(
    alloc: Global,
    setup: &Setup,
    ratio: u32,
    shown: &ShownStates,
    s: SessionNo,
) -> Result<BlankReason, NoMemory>
    requires some { 0 < s.0 }
    requires few { s.0 ≤ length shown.now }
    requires made { length shown.now ≡ setup.now.sessions }
    requires within { setup.now.sessions ≤ SESSIONS_MAX }
    requires fit { FitsSetup setup.now shown.now }
    ensures { IfOk result (λ blank. blank ≡ blank_of (state_of shown.now s.0) s
        (placed_nodes (at_ratio ratio setup.now) shown.now)) }
{
    let Some(state) = shown.state(s) else {
        return Ok(BlankReason::Rootless);
    };
    if is_rootless(state) {
        return Ok(BlankReason::Rootless);
    }
    if !some_paints(state) {
        return Ok(BlankReason::Contentless);
    }
    let joined = join(alloc, shown, setup, ratio)?;
    Ok(unseen(s, joined.nodes.as_slice()))
}
