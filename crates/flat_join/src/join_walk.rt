ghost use Rattle.std.specs.Prelude.{◌≡◌, ◌+◌, ◌-◌, ◌<◌, ◌≤◌, ◌^◌, length, IfOk, IfSome, OnOk, All};
ghost use Rattle.std.specs.Prelude.{Some, None, option_map, slice_get};
ghost use Rattle.flat_snap.specs.Flat.{lent};
ghost use Rattle.flat_topology.specs.Shown.{state_of, view_of};
ghost use Rattle.flat_topology.specs.Pairs.{display_pair};
ghost use Rattle.flat_topology.specs.Join.{viewer_from, is_view_of, linked_to, led_to};
ghost use Rattle.flat_topology.specs.Place.{linked_space, display_space, seen_through};
ghost use Rattle.flat_topology.specs.Place.{placed_nodes, placed_in};
ghost use Rattle.flat_topology.specs.Connected.{joined_count, connected_sessions};
ghost use Rattle.flat_topology.specs.Fit.{FitsSetup};
ghost use Rattle.flat_join.specs.Walking.{viewer_at, flat_of, space_of, tree_of, work, work_in};
ghost use Rattle.flat_join.specs.Walking.{pushed, HasPut, IsOf, Continues, IsOnTheWay};

use crate::scope::{Scope, outermost};
use crate::shown_states::ShownStates;
use flat_base::{Actor, NoMemory, PairNo, SessionNo};
use flat_scene::{Content, Setup};
use flat_snap::FlatNode;
use flat_topology::{ConnectedList, ConnectedSession, PlacedList};
use std::alloc::Global;

/// Nodes of a session that stand side by side, with all below them, from a number
/// to before another one.
#[derive(Clone, Copy)]
pub struct NodeRange {
    pub session: SessionNo,
    /// How many views may be below one another there.
    pub views: u32,
    pub next: u32,
    pub end: u32,
    /// What the nodes above hand on.
    pub scope: Scope,
}

/// A walk over the joined tree: what was placed, and what is left, the last
/// stretch first.
#[derive(Drop)]
pub struct JoinWalk {
    pub nodes: PlacedList,
    pub connected: ConnectedList,
    pub left: Vec<NodeRange>,
}

/// The pair whose viewport end the display owns.
pub fn pair_of_display(setup: &Setup) -> Option<usize>
    ensures { result ≡ display_pair setup.now }
{
    let pairs = setup.pairs.as_slice();
    pairs
        .iter()
        .position(|pair| pair.viewport == Actor::Display)
}

fn is_of_pair(view: Option<PairNo>, pair: usize) -> bool
    ensures { result ≡ is_view_of pair (option_map (λ view. view.0) view) }
{
    match view {
        Some(view) => view.0 as usize == pair,
        None => false,
    }
}

/// Whether a session shows the view of a pair.
pub fn shows(shown: &ShownStates, session: SessionNo, pair: usize) -> bool
    requires some { 0 < session.0 }
    requires few { session.0 ≤ length shown.now }
    ensures { result ≡ is_view_of pair (view_of (state_of shown.now session.0)) }
{
    match shown.state(session) {
        Some(state) => is_of_pair(state.view(), pair),
        None => false,
    }
}

/// Who shows the view of a pair.
pub fn viewer(shown: &ShownStates, pair: usize) -> Option<SessionNo>
    requires { length shown.now < 2 ^ 31 }
    ensures found { option_map (viewer_at shown.now) result ≡ viewer_from 1 shown.now pair }
    ensures within { IfSome result (λ s. (0 < s.0) × (s.0 ≤ length shown.now)) }
{
    for number in 1..shown.sessions() as u32 + 1 {
        let session = SessionNo(number);
        if shows(shown, session, pair) {
            return Some(session);
        }
    }
    None
}

/// How many nodes a session shows.
pub fn nodes_shown(shown: &ShownStates, session: SessionNo) -> u32
    requires some { 0 < session.0 }
    requires few { session.0 ≤ length shown.now }
    ensures { result ≡ length (flat_of (state_of shown.now session.0)) }
{
    match shown.state(session) {
        Some(state) => state.nodes(),
        None => 0,
    }
}

impl JoinWalk {
    /// The child view of a pair comes next, with at most so many views one below
    /// another.
    pub fn show(
        &mut self,
        shown: &ShownStates,
        pair: usize,
        views: u32,
        scope: Scope,
        at: Option<u32>,
    ) -> Result<(), NoMemory>
        requires few { length shown.now < 2 ^ 31 }
        requires whole { All (IsOf shown.now) self.old.left.items }
        ensures walk { OnOk result (Continues shown.now self.old (space_of scope) at
            (led_to shown.now views pair) self.new) }
        ensures work { OnOk result (work shown.now self.new.left.items ≤ work shown.now
            self.old.left.items + work_in (led_to shown.now views pair)) }
    {
        if views == 0 {
            return Ok(());
        }
        if let Some(session) = viewer(shown, pair) {
            self.connected.push(ConnectedSession { session, at })?;
            self.left.push(NodeRange {
                session,
                views: views - 1,
                next: 0,
                end: nodes_shown(shown, session),
                scope,
            })?;
        }
        Ok(())
    }

    /// The child view below a viewport comes next; nothing does below another
    /// content.
    fn show_linked(
        &mut self,
        shown: &ShownStates,
        content: Option<Content>,
        views: u32,
        scope: Scope,
        at: u32,
    ) -> Result<(), NoMemory>
        requires few { length shown.now < 2 ^ 31 }
        requires whole { All (IsOf shown.now) self.old.left.items }
        ensures walk { OnOk result (Continues shown.now self.old (linked_space (space_of scope)
            content) (Some at) (linked_to (led_to shown.now views) content) self.new) }
        ensures work { OnOk result (work shown.now self.new.left.items ≤ work shown.now
            self.old.left.items + work_in (linked_to (led_to shown.now views) content)) }
    {
        match content {
            Some(Content::Viewport { pair, props, .. }) => self.show(
                shown,
                pair.0 as usize,
                views,
                scope.linked(props),
                Some(at),
            ),
            _ => Ok(()),
        }
    }

    /// A stretch comes next, if it has a node.
    fn push(&mut self, s: NodeRange) -> Result<(), NoMemory>
        ensures nodes { self.new.nodes ≡ self.old.nodes }
        ensures connected { self.new.connected ≡ self.old.connected }
        ensures left { OnOk result (self.new.left.items ≡ pushed self.old.left.items s) }
    {
        if s.next < s.end {
            self.left.push(s)?;
        }
        Ok(())
    }

    /// Puts a node of a stretch into its place. The nodes below it come next, and
    /// then those after it.
    fn put(
        &mut self,
        alloc: Global,
        s: NodeRange,
        node: &FlatNode<'_>,
        scope: Scope,
    ) -> Result<(), NoMemory>
        requires { s.next < 2 ^ 32 - 1 }
        ensures { OnOk result (HasPut self.old s (lent node.now) scope self.new) }
    {
        self.nodes.push(scope.placed(alloc, s.session, node)?)?;
        self.push(NodeRange {
            next: node.end,
            ..s
        })?;
        self.push(NodeRange {
            next: s.next + 1,
            end: node.end,
            scope,
            ..s
        })?;
        Ok(())
    }

    /// Places the first node of a stretch. What is below it comes next, and then
    /// what is after it.
    fn place_first(
        &mut self,
        alloc: Global,
        shown: &ShownStates,
        s: NodeRange,
    ) -> Result<(), NoMemory>
        requires few { length shown.now < 2 ^ 31 }
        requires whole { All (IsOf shown.now) self.old.left.items }
        requires is { IsOf shown.now s }
        requires some { s.next < s.end }
        requires low { All (λ at. at.opacity < 2 ^ 32) (placed_in (space_of s.scope)
            (tree_of shown.now s)) }
        requires room { length self.old.nodes < 2 ^ 32 }
        ensures walk { OnOk result (Continues shown.now self.old (space_of s.scope) None
            (tree_of shown.now s) self.new) }
        ensures work { OnOk result (work shown.now self.new.left.items < work shown.now
            self.old.left.items + work_in (tree_of shown.now s)) }
    {
        let Some(state) = shown.state(s.session) else {
            return Ok(());
        };
        let node = state.node(s.next);
        let scope = s.scope.inner(&node);
        let at = self.nodes.len() as u32;
        self.put(alloc, s, &node, scope)?;
        self.show_linked(shown, node.content, s.views, scope, at)?;
        Ok(())
    }

    /// Goes over a stretch that was taken from those that are left.
    pub fn place(
        &mut self,
        alloc: Global,
        shown: &ShownStates,
        s: NodeRange,
    ) -> Result<(), NoMemory>
        requires few { length shown.now < 2 ^ 31 }
        requires whole { All (IsOf shown.now) self.old.left.items }
        requires is { IsOf shown.now s }
        requires low { All (λ at. at.opacity < 2 ^ 32) (placed_in (space_of s.scope)
            (tree_of shown.now s)) }
        requires room { length self.old.nodes < 2 ^ 32 }
        ensures walk { OnOk result (Continues shown.now self.old (space_of s.scope) None
            (tree_of shown.now s) self.new) }
        ensures work { OnOk result (work shown.now self.new.left.items < work shown.now
            self.old.left.items + work_in (tree_of shown.now s)) }
    {
        if s.next < s.end {
            self.place_first(alloc, shown, s)?;
        }
        Ok(())
    }
}
