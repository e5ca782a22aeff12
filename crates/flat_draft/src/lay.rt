ghost use Rattle.std.specs.Prelude.{◌≡◌, true, option_to_list, IfOk, OnOk};
ghost use Rattle.flat_scene.specs.Tree.{regions_of};
ghost use Rattle.flat_graph.specs.Reasons.{links_in};
ghost use Rattle.flat_collect.specs.Forest.{size};
ghost use Rattle.flat_collect.specs.Judge.{HasTree, graph_tree};
ghost use Rattle.flat_collect.specs.Walking.{below};
ghost use Rattle.flat_scene.specs.declared.trees.Children.TheVariants.{Empty};
ghost use Rattle.flat_snap.specs.Building.{adds};
ghost use Rattle.flat_snap.specs.Flat.{lent};
ghost use Rattle.flat_snap.specs.Forest.{as_node};
ghost use Rattle.flat_draft.specs.Shown as shown;
ghost use Rattle.flat_draft.specs.Shown.{HasRoom, all_shown, content_shown, shown_nodes};
ghost use Rattle.flat_draft.specs.Shown.{shown_tree};

use flat_base::{NoMemory, PATH_NODES_MAX, PairNo};
use flat_content::ContentTable;
use flat_graph::{Graph, GraphNode};
use flat_scene::{Content, HeldContent, HitRegion, Interaction};
use flat_snap::{FlatNode, Snapshot, SnapshotBuilder};
use std::alloc::Global;

/// The regions of a root on which none were ever set: the infinite one.
const EVERYWHERE: [HitRegion; 1] = [HitRegion {
    area: None,
    interaction: Interaction::Default,
}];

/// The hit regions of a node.
fn regions(node: &GraphNode, is_root: bool) -> &[HitRegion]
    ensures { result.now ≡ regions_of is_root node.now.hits }
{
    match &node.hits {
        Some(regions) => regions.as_slice(),
        None if is_root => &EVERYWHERE,
        None => &[],
    }
}

/// What a transform shows that holds a content.
fn content(contents: &ContentTable, held: Option<HeldContent>) -> Option<Content>
    ensures { result ≡ content_shown contents.now held }
{
    contents.content(held?.serial)
}

/// The node of a transform, which has no end yet.
fn leaf<'a>(contents: &ContentTable, node: &'a GraphNode, is_root: bool) -> FlatNode<'a>
    ensures { as_node (lent result) Empty ≡ shown.leaf contents.entry.now is_root node.entry.now }
{
    FlatNode {
        serial: node.serial,
        scale: node.scale,
        turn: node.turn,
        place: node.place,
        clip: node.clip,
        opacity: node.opacity,
        hits: regions(node, is_root),
        content: content(contents, node.content),
        end: 0,
    }
}

/// Builds the nodes of some keys, each with all below it.
fn lay(
    graph: &Graph,
    contents: &ContentTable,
    keys: &[usize],
    levels: u32,
    is_root: bool,
    builder: &mut SnapshotBuilder,
) -> Result<(), NoMemory>
    requires { HasRoom (below (links_in graph.now) levels keys.now) levels builder.old.room }
    ensures { OnOk result (builder.new
        ≡ adds builder.old (shown_nodes graph.now contents.now levels is_root keys.now)) }
{
    for &key in keys {
        let Some(node) = graph.node(key) else {
            continue;
        };
        builder.enter(&leaf(contents, node, is_root))?;
        let children = node.children.as_slice();
        lay(graph, contents, children, levels - 1, false, builder)?;
        builder.leave();
    }
    Ok(())
}

/// Builds the nodes of the paths from the root.
fn lay_root(
    graph: &Graph,
    contents: &ContentTable,
    builder: &mut SnapshotBuilder,
) -> Result<(), NoMemory>
    requires { HasRoom (graph_tree graph.now) PATH_NODES_MAX builder.old.room }
    ensures { OnOk result (builder.new ≡ adds builder.old (all_shown graph.now contents.now)) }
{
    match graph.root() {
        Some(root) => lay(graph, contents, &[root], PATH_NODES_MAX, true, builder),
        None => Ok(()),
    }
}

/// The snapshot of a graph that has a tree of so many nodes.
pub fn flatten(
    alloc: Global,
    graph: &Graph,
    contents: &ContentTable,
    view: Option<PairNo>,
    nodes: u32,
) -> Result<Snapshot, NoMemory>
    requires tree { HasTree graph.now }
    requires counted { nodes ≡ size (graph_tree graph.now) }
    ensures { IfOk result (λ snapshot. snapshot ≡ shown_tree view graph.now contents.now) }
{
    let mut builder = SnapshotBuilder::new(alloc, nodes)?;
    lay_root(graph, contents, &mut builder)?;
    let viewports = contents.uses(alloc)?;
    Ok(builder.finish(view, viewports))
}
