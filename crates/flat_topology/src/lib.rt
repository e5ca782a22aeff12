//! How the shown trees of the sessions hang together below the display.
//!
//! A session's shown tree stands below a viewport of another one where both ends
//! of their pair are used: the viewport end by a node that the other session
//! shows, the view end by its own view. From the display's pair downwards these
//! links make one joined tree. The definitions of it stand in this crate's
//! `specs/`: which sessions are connected, where each node is placed, what is
//! drawn, the view tree, and what a point hits.
//!
//! This crate says what the joined tree is, and which laws hold of it; flat_join
//! computes it.
//!
//! Other crates may cite the lemmas of proofs/lemmas/: lists without repeats,
//! distances from the display, that the tree is whole, what a pixel ratio plays no
//! part in (Distinct, Distances, Whole, Ratios), and the scenes of the examples
//! (Samples).
#![tactic(auto)]

ghost use Rattle.flat_topology.specs.Laws.{JoinsTheConnected, JoinsEachOnce, ReachesNoCycle};
ghost use Rattle.flat_topology.specs.Laws.{JoinsAll, JoinsFewSessions, JoinsFew};
ghost use Rattle.flat_topology.specs.Laws.{PlacesLowOpacities, ParentsDecide, DrawsInPreorder};
ghost use Rattle.flat_topology.specs.Laws.{ViewsTheJoined, ViewsBelowParents, ViewsTheConnected};
ghost use Rattle.flat_topology.specs.Laws.{HitsEachOnce};

use flat_base::{Items, Rect, SessionNo};
use flat_geom::Matrix;
use flat_scene::{Content, RegionList};

/// A node of the joined tree in its place on the display.
#[derive(Drop)]
pub struct PlacedNode {
    pub session: SessionNo,
    /// The transform's serial number.
    pub serial: u32,
    /// From the node's own space to the display.
    pub matrix: Matrix,
    /// The part of the display to which the node is cut, in places.
    pub clip: Rect,
    /// In fixed point, all opacities from the display down to the node.
    pub opacity: u32,
    pub content: Option<Content>,
    pub hits: RegionList,
}

/// Placed nodes, in preorder.
pub type PlacedList = Items<PlacedNode>;

/// A session that is connected to the display.
#[derive(Clone, Copy)]
pub struct ConnectedSession {
    pub session: SessionNo,
    /// The number of the placed viewport node, from 0, below which the session
    /// hangs; None for the session of the display's pair.
    pub at: Option<u32>,
}

/// Connected sessions, in preorder of their views.
pub type ConnectedList = Items<ConnectedSession>;

/// The joined tree.
#[derive(Drop)]
pub struct GlobalTopology {
    /// The display's rectangle, in places.
    pub display: Rect,
    pub nodes: PlacedList,
    /// Also the sessions that show no node.
    pub connected: ConnectedList,
}

/// What follows where shown states fit the setup: the joined tree has exactly the
/// connected sessions, each once; no cycle of links is reached from the display;
/// its nodes are no more than the sessions' trees may have, and their opacities
/// at most one; and what a group of sessions shows decides which of them are
/// connected, where the group has all sessions that may be their parents.
///
/// The call does nothing. Its contract is a law about the definitions.
pub fn links_make_a_tree()
    ensures connected { JoinsTheConnected }
    ensures once { JoinsEachOnce }
    ensures acyclic { ReachesNoCycle }
    ensures whole { JoinsAll }
    ensures few { JoinsFew }
    ensures low { PlacesLowOpacities }
    ensures decided { ParentsDecide }
{}

/// Where shown states fit the setup, no more sessions are joined than there are
/// states.
///
/// The call does nothing. Its contract is a law about the definitions.
pub fn sessions_are_few()
    ensures { JoinsFewSessions }
{}

/// The view tree has one view for each session of the joined tree, in the same
/// order. Its parent is the session that it is below, and it stands at the placed
/// node below which the session hangs.
///
/// The call does nothing. Its contract is a law about the definitions.
pub fn views_follow_links()
    ensures sessions { ViewsTheJoined }
    ensures parents { ViewsBelowParents }
    ensures connected { ViewsTheConnected }
{}

/// A point hits each session at most once.
///
/// The call does nothing. Its contract is a law about the definitions.
pub fn hits_are_once()
    ensures { HitsEachOnce }
{}

/// The placed nodes stand in preorder of the joined tree, and so do the draw items
/// that they give: a node, then the child view below its viewport, then its
/// children, each before its younger siblings.
///
/// The call does nothing. Its contract is a law about the definitions.
pub fn draws_in_preorder()
    ensures { DrawsInPreorder }
{}
