//! The view tree: who is shown below whom, and who is apart.
//!
//! `tree_of` and `view_tree` answer what specs/Trees says; specs/Laws says that it is the
//! view tree of the shown states.
#![tactic(auto)]

ghost use Rattle.std.specs.Prelude.{◌≡◌, ◌+◌, ◌<◌, ◌≤◌, ◌++◌, IfOk, map};
ghost use Rattle.flat_topology.specs.Views.{viewport_bounds};
ghost use Rattle.flat_topology.specs.Connected.{connected_view};
ghost use Rattle.flat_tree.specs.Trees.{is_among, is_apart, if_apart, apart_below, tree_of};
ghost use Rattle.flat_tree.specs.Trees.{tree_from};
ghost use Rattle.flat_tree.specs.Laws.{ViewsGiveTrees, TreesFollow, ViewsAreATree, ViewsAreFew};

use flat_base::{NoMemory, Rect, Roomy, SESSIONS_MAX, SessionList, SessionNo};
use flat_geom::{map_rect, sized};
use flat_scene::{Content, NodeList, SessionSet, ViewNode, ViewTree};
use flat_topology::{
    ConnectedSession, GlobalTopology, PlacedNode, links_make_a_tree, sessions_are_few,
    views_follow_links,
};
use std::alloc::Global;

/// The rectangle of a placed viewport, uncut.
fn bounds(at: &PlacedNode) -> Rect
    ensures { result ≡ viewport_bounds at.now }
{
    match at.content {
        Some(Content::Viewport { props, .. }) => map_rect(at.matrix, sized(props.w, props.h)),
        _ => at.clip,
    }
}

/// The view of a connected session.
fn view(joined: &GlobalTopology, connected: &ConnectedSession) -> ViewNode
    ensures { result ≡ connected_view joined.now.display joined.now.nodes connected.now }
{
    let above = match connected.at {
        Some(at) => joined.nodes.get(at as usize),
        None => None,
    };
    match above {
        Some(at) => ViewNode {
            session: connected.session,
            parent: Some(at.session),
            bounds: bounds(at),
        },
        None => ViewNode {
            session: connected.session,
            parent: None,
            bounds: joined.display,
        },
    }
}

/// The views of the connected sessions, in order.
fn views(alloc: Global, joined: &GlobalTopology) -> Result<NodeList, NoMemory>
    ensures { IfOk result (λ views. views ≡ map (connected_view joined.now.display joined.now.nodes)
        joined.now.connected) }
{
    let connected = joined.connected.as_slice();
    let mut views = Roomy::with_capacity(alloc, connected.len())?;
    for c in connected {
        views.push(view(joined, c));
    }
    Ok(views.into_items())
}

/// Whether the session of a number has one of some views.
fn is_among(views: &NodeList, number: u32) -> bool
    ensures { result ≡ is_among views.now number }
{
    let views = views.as_slice();
    views.iter().any(|view| view.session.0 == number)
}

/// Appends the session of a number, if it is in a set and has no view.
fn add_apart(apart: &mut Roomy<SessionNo>, views: &NodeList, with_view: &SessionSet, before: u32)
    requires known { before < SESSIONS_MAX }
    requires room { 0 < apart.old.room }
    ensures items { apart.new.items
        ≡ apart.old.items ++ if_apart (is_apart views.now with_view.now (before + 1)) (before + 1) }
    ensures room { apart.old.room ≤ apart.new.room + 1 }
{
    let number = before + 1;
    if with_view.has[before as usize] && !is_among(views, number) {
        apart.push(SessionNo(number));
    }
}

/// The sessions of a set that have none of some views.
fn sessions_apart(
    alloc: Global,
    views: &NodeList,
    with_view: &SessionSet,
) -> Result<SessionList, NoMemory>
    ensures { IfOk result (λ apart. apart ≡ apart_below SESSIONS_MAX views.now with_view.now) }
{
    let mut apart = Roomy::with_capacity(alloc, SESSIONS_MAX as usize)?;
    for before in 0..SESSIONS_MAX {
        add_apart(&mut apart, views, with_view, before);
    }
    Ok(apart.into_items())
}

/// The view tree of these views, where these sessions are open and made a view
/// whose end isn't lost.
pub fn tree_of(alloc: Global, views: NodeList, with_view: SessionSet) -> Result<ViewTree, NoMemory>
    ensures { IfOk result (λ tree. tree ≡ tree_of views with_view) }
{
    let apart = sessions_apart(alloc, &views, &with_view)?;
    Ok(ViewTree {
        nodes: views,
        apart,
    })
}

/// The view tree of a joined tree, where these sessions are open and made a view
/// whose end isn't lost.
pub fn view_tree(
    alloc: Global,
    joined: &GlobalTopology,
    with_view: SessionSet,
) -> Result<ViewTree, NoMemory>
    ensures { IfOk result (λ tree. tree ≡ tree_from joined.now with_view) }
{
    tree_of(alloc, views(alloc, joined)?, with_view)
}

/// The view tree of the views of shown states is theirs, and so is that of the joined
/// tree of shown states.
///
/// The call does nothing. Its contract is a law about the definitions.
pub fn trees_follow()
    ensures views { ViewsGiveTrees }
    ensures joined { TreesFollow }
{
    views_follow_links();
}

/// The views of shown states that fit the setup are a tree, and no more than there
/// are states.
///
/// The call does nothing. Its contract is a law about the definitions.
pub fn views_are_a_tree()
    ensures tree { ViewsAreATree }
    ensures few { ViewsAreFew }
{
    links_make_a_tree();
    sessions_are_few();
    views_follow_links();
}
