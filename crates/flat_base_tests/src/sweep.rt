use crate::graph::{FIRST, SECOND, THIRD, create_three};
use flat_collect::sweep;
use flat_graph::Graph;
use flat_scene::GraphFault;
use std::alloc::Global;

/// How often a transform is made and released in turn.
const TURNS: u32 = 1000;

/// How many transforms are swept away.
fn swept(alloc: Global, graph: &mut Graph) -> Result<u32, GraphFault> {
    match sweep(alloc, graph) {
        Ok(swept) => Ok(swept),
        Err(_) => Err(GraphFault::Memory),
    }
}

/// Whether transforms that are made and released in a new graph are counted.
fn make_and_release(graph: &mut Graph) -> Result<bool, GraphFault> {
    let mut are_counted = true;
    for turn in 1..=TURNS {
        are_counted = graph.create(FIRST)? == turn && are_counted;
        graph.release(FIRST)?;
    }
    Ok(are_counted)
}

/// Whether they are counted, and how many are swept away, and then how many again.
fn sweep_released(alloc: Global, graph: &mut Graph) -> Result<(bool, u32, u32), GraphFault> {
    let are_counted = make_and_release(graph)?;
    let first = swept(alloc, graph)?;
    let again = swept(alloc, graph)?;
    Ok((are_counted, first, again))
}

#[test]
fn sweeps_what_was_made_and_released(rt: HostRuntime) {
    let mut graph = Graph::new(rt.alloc());
    let told = sweep_released(rt.alloc(), &mut graph).ok();
    assert_eq!(rt; told, Some((true, TURNS, 0)));
}

/// How many are swept away of a new graph of two transforms of which one was released, the
/// serial number of the next, and whether it has the place of that one.
fn use_again(alloc: Global, graph: &mut Graph) -> Result<(u32, u32, bool), GraphFault> {
    graph.create(FIRST)?;
    graph.create(SECOND)?;
    let place = graph.key(SECOND)?;
    graph.release(SECOND)?;
    let swept = swept(alloc, graph)?;
    let serial = graph.create(THIRD)?;
    Ok((swept, serial, graph.key(THIRD)? == place))
}

#[test]
fn swept_places_are_used_again(rt: HostRuntime) {
    let mut graph = Graph::new(rt.alloc());
    let told = use_again(rt.alloc(), &mut graph).ok();
    assert_eq!(rt; told, Some((1, 3, true)));
}

/// How many are swept away of a new graph whose first two transforms are children of each
/// other, where one is released, and where both are, and how many are left.
fn sweep_cycle(alloc: Global, graph: &mut Graph) -> Result<(u32, u32, usize), GraphFault> {
    create_three(graph)?;
    graph.add_child(FIRST, SECOND)?;
    graph.add_child(SECOND, FIRST)?;
    graph.release(FIRST)?;
    let none = swept(alloc, graph)?;
    graph.release(SECOND)?;
    let both = swept(alloc, graph)?;
    Ok((none, both, graph.len()))
}

#[test]
fn sweeps_a_cycle_that_nothing_reaches(rt: HostRuntime) {
    let mut graph = Graph::new(rt.alloc());
    let told = sweep_cycle(rt.alloc(), &mut graph).ok();
    assert_eq!(rt; told, Some((0, 2, 1)));
}
