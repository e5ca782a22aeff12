//! Whether a graph of transforms unfolds to a tree that can be presented, and which
//! of its nodes are still reached.
//!
//! `judge` (here; walk, cycle, repeats) answers the verdict of specs/Judge, and `sweep`
//! (sweeping, reached_nodes) leaves what specs/Sweep says.
//!
//! Other crates may cite the lemmas of proofs/lemmas/: that the graph stands for the
//! draft (Stands), how the judge walks (Walking), its verdicts (Verdicts), and what a
//! swept graph stands for (Swept).
#![tactic(auto)]

ghost use Rattle.std.specs.Prelude.{IfOk};
ghost use Rattle.flat_collect.specs.Judge.{IsJudged};

mod cycle;
mod laws;
mod reached_nodes;
mod repeats;
mod sweeping;
mod walk;

use crate::cycle::has_cycle;
pub use crate::laws::{sweep_laws, verdict_laws};
use crate::repeats::has_twice;
pub use crate::sweeping::sweep;
use crate::walk::walk;
use flat_base::{NoMemory, PATH_NODES_MAX, Reason};
use flat_graph::Graph;
use std::alloc::Global;

/// Whether a graph has a tree to present.
#[derive(Clone, Copy)]
pub enum TreeCheck {
    /// It has, of so many nodes: one for each path from the root, and none where
    /// there is no root.
    Good { nodes: u32 },
    /// It has none. The reason is Cycle, TreeTooLarge or ViewportTwice, the first
    /// that holds.
    Bad(Reason),
}

/// Judges the tree of the paths from the root.
///
/// It looks at no more than 1,025 of the tree's nodes, however many paths there
/// are. Only where these are too many or one lies too deep, it searches the graph
/// for a cycle, once through its nodes and links.
pub fn judge(alloc: Global, graph: &Graph) -> Result<TreeCheck, NoMemory>
    ensures { IfOk result (IsJudged graph.now) }
{
    let Some(root) = graph.root() else {
        return Ok(TreeCheck::Good { nodes: 0 });
    };
    let mut nodes = 0;
    let mut viewports = Vec::new(alloc);
    if walk(graph, &[root], PATH_NODES_MAX, &mut nodes, &mut viewports)? {
        if has_twice(viewports) {
            Ok(TreeCheck::Bad(Reason::ViewportTwice))
        } else {
            Ok(TreeCheck::Good { nodes })
        }
    } else if has_cycle(alloc, graph, root)? {
        Ok(TreeCheck::Bad(Reason::Cycle))
    } else {
        Ok(TreeCheck::Bad(Reason::TreeTooLarge))
    }
}
