ghost use Rattle.std.specs.Prelude.{◌≡◌, ◌+◌, is_some, count_by, IfOk, OnOk, OnErr};
ghost use Rattle.flat_collect.specs.Sweep.{IsSwept};

use crate::reached_nodes::ReachedNodes;
use flat_base::NoMemory;
use flat_graph::Graph;
use std::alloc::Global;

/// Drops the nodes that are reached neither from the root nor from a transform that
/// has a name, and answers how many. All else stays.
///
/// Where there are as many nodes as names, it looks at none. Otherwise it takes a mark
/// for each place, goes once through what is reached and its links, and through the
/// places of the nodes only where it drops some. If memory runs out, the graph is as it
/// was.
pub fn sweep(alloc: Global, graph: &mut Graph) -> Result<u32, NoMemory>
    ensures swept { OnOk result (IsSwept graph.old graph.new) }
    ensures dropped { IfOk result (λ dropped. dropped + count_by is_some graph.new.nodes
        ≡ count_by is_some graph.old.nodes) }
    ensures kept { OnErr result (graph.new ≡ graph.old) }
{
    // Tells the proof that no two names lead to one node.
    let _ = graph.root();
    if graph.names().len() == graph.len() {
        return Ok(0);
    }
    let found = ReachedNodes::find(alloc, graph)?;
    if found.keys.len() == graph.len() {
        return Ok(0);
    }
    Ok(graph.keep(found.marks.as_slice()))
}
