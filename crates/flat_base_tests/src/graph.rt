use flat_base::TransformId;
use flat_graph::Graph;
use flat_scene::{GraphFault, HeldContent};
use std::alloc::Global;

pub const FIRST: TransformId = TransformId(1);

pub const SECOND: TransformId = TransformId(2);

pub const THIRD: TransformId = TransformId(3);

/// Makes three transforms.
pub fn create_three(graph: &mut Graph) -> Result<(), GraphFault> {
    for id in 1..=3 {
        graph.create(TransformId(id))?;
    }
    Ok(())
}

/// What the root's transform holds.
fn held_by_root(graph: &Graph) -> Option<HeldContent> {
    graph.node(graph.root()?)?.content
}

/// What the root of a new graph holds, where first all that is dropped is another content,
/// then its own, and then another transform that held it is the root.
fn drop_contents(
    graph: &mut Graph,
    held: HeldContent,
) -> Result<[Option<HeldContent>; 3], GraphFault> {
    create_three(graph)?;
    graph.set_root(FIRST)?;
    graph.set_content(FIRST, Some(held))?;
    graph.set_content(SECOND, Some(held))?;
    graph.drop_content(6);
    let kept = held_by_root(graph);
    graph.drop_content(7);
    let dropped = held_by_root(graph);
    graph.set_root(SECOND)?;
    Ok([kept, dropped, held_by_root(graph)])
}

fn dropped(alloc: Global, held: HeldContent) -> Result<[Option<HeldContent>; 3], GraphFault> {
    let mut graph = Graph::new(alloc);
    drop_contents(&mut graph, held)
}

#[test]
fn drops_a_content(rt: HostRuntime) {
    let held = HeldContent {
        serial: 7,
        viewport: true,
    };
    let expected = [Some(held), None, None];
    assert_eq!(rt; dropped(rt.alloc(), held).ok(), Some(expected));
}
