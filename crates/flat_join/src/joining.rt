ghost use Rattle.std.specs.Prelude.{◌≡◌, ◌≤◌, ◌^◌, ◌<◌, length, All, IfOk};
ghost use Rattle.flat_scene.specs.Setups.{at_ratio};
ghost use Rattle.flat_topology.specs.Place.{placed_nodes};
ghost use Rattle.flat_topology.specs.Connected.{connected_sessions, joined_lists};
ghost use Rattle.flat_topology.specs.Fit.{FitsSetup};
ghost use Rattle.flat_join.specs.Walking.{IsOnTheWay};

use crate::join_walk::{JoinWalk, nodes_shown, pair_of_display};
use crate::scope::{outermost, whole_display};
use crate::shown_states::ShownStates;
use flat_base::{Items, NoMemory, OPACITY_MAX, SESSIONS_MAX, SessionNo};
use flat_scene::Setup;
use flat_topology::{GlobalTopology, links_make_a_tree};
use std::alloc::Global;

/// How many nodes all sessions show. Only room hangs on it.
fn nodes_in_all(shown: &ShownStates) -> usize
    requires { length shown.now < 2 ^ 31 }
{
    let mut nodes: usize = 0;
    for number in 1..shown.sessions() as u32 + 1 {
        nodes = nodes.saturating_add(nodes_shown(shown, SessionNo(number)) as usize);
    }
    nodes
}

/// A walk that has placed nothing yet, with room for all nodes.
fn start(
    alloc: Global,
    shown: &ShownStates,
    setup: &Setup,
    ratio: u32,
) -> Result<JoinWalk, NoMemory>
    requires { length shown.now < 2 ^ 31 }
    ensures { IfOk result (IsOnTheWay shown.now (placed_nodes (at_ratio ratio setup.now) shown.now)
        (connected_sessions (at_ratio ratio setup.now) shown.now)) }
{
    let mut walk = JoinWalk {
        nodes: Items::from_vec(Vec::with_capacity(alloc, nodes_in_all(shown))?),
        connected: Items::new(alloc),
        left: Vec::new(alloc),
    };
    if let Some(pair) = pair_of_display(setup) {
        walk.show(
            shown,
            pair,
            shown.sessions() as u32,
            outermost(setup, ratio),
            None,
        )?;
    }
    Ok(walk)
}

/// Joins the trees of the sessions that are connected to the display, and places
/// their nodes at the display's pixel ratio. The effort is that of the nodes that are
/// placed.
pub fn join(
    alloc: Global,
    shown: &ShownStates,
    setup: &Setup,
    ratio: u32,
) -> Result<GlobalTopology, NoMemory>
    requires made { length shown.now ≡ setup.now.sessions }
    requires few { setup.now.sessions ≤ SESSIONS_MAX }
    requires fit { FitsSetup setup.now shown.now }
    ensures lists { IfOk result (λ joined. joined
        ≡ joined_lists (at_ratio ratio setup.now) shown.now) }
    ensures low { IfOk result (λ joined. All (λ at. at.opacity ≤ OPACITY_MAX) joined.nodes) }
{
    links_make_a_tree();
    let mut walk = start(alloc, shown, setup, ratio)?;
    while let Some(stretch) = walk.left.pop() {
        walk.place(alloc, shown, stretch)?;
    }
    let JoinWalk {
        nodes,
        connected,
        left: _,
    } = walk;
    Ok(GlobalTopology {
        display: whole_display(setup),
        nodes,
        connected,
    })
}
