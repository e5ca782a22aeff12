ghost use Rattle.std.specs.Prelude.{◌≡◌, ◌≤◌, ◌++◌, option_to_list, IfOk, OnOk};
ghost use Rattle.flat_graph.specs.Reasons.{links_in};
ghost use Rattle.flat_collect.specs.Judge.{viewport_in};
ghost use Rattle.flat_collect.specs.Walking.{below, Says};

use flat_base::{NoMemory, TREE_NODES_MAX};
use flat_graph::Graph;

/// The keys of the children of a key's node.
pub fn children(graph: &Graph, key: usize) -> &[usize]
    ensures { result.now ≡ links_in graph.now key }
{
    match graph.node(key) {
        Some(node) => node.children.as_slice(),
        None => &[],
    }
}

/// The viewport that a key's node holds.
fn viewport(graph: &Graph, key: usize) -> Option<u32>
    ensures { result ≡ viewport_in graph.now key }
{
    let held = graph.node(key)?.content?;
    if held.viewport {
        Some(held.serial)
    } else {
        None
    }
}

/// Appends that viewport to a list.
fn list_viewport(graph: &Graph, key: usize, viewports: &mut Vec<u32>) -> Result<(), NoMemory>
    ensures { OnOk result (viewports.new.items
        ≡ viewports.old.items ++ option_to_list (viewport_in graph.now key)) }
{
    if let Some(serial) = viewport(graph, key) {
        viewports.push(serial)?;
    }
    Ok(())
}

/// Counts the nodes of the trees of the keys, and lists their viewports in preorder. The
/// answer is false where a path has more nodes than the levels, or the count goes above
/// 1,024.
pub fn walk(
    graph: &Graph,
    keys: &[usize],
    levels: u32,
    nodes: &mut u32,
    viewports: &mut Vec<u32>,
) -> Result<bool, NoMemory>
    requires { nodes.old ≤ TREE_NODES_MAX }
    ensures { IfOk result (Says (below (links_in graph.now) levels keys.now) (viewport_in graph.now)
        levels nodes.old viewports.old.items nodes.new viewports.new.items) }
{
    for &key in keys {
        if levels == 0 || *nodes == TREE_NODES_MAX {
            return Ok(false);
        }
        *nodes += 1;
        list_viewport(graph, key, viewports)?;
        if !walk(graph, children(graph, key), levels - 1, nodes, viewports)? {
            return Ok(false);
        }
    }
    Ok(true)
}
