ghost use Rattle.std.specs.Prelude.{◌≡◌, ◌+◌, ◌^◌, ◌<◌, ◌≤◌, length, OnSome, slice_get, IfOk};
ghost use Rattle.std.specs.Prelude.{IsTrue, ◌↔◌, Some};
ghost use Rattle.flat_scene.specs.Cycles.{HasCycle};
ghost use Rattle.flat_graph.specs.Reasons.{links_in};
ghost use Rattle.flat_collect.specs.Search.{IsSearch, Tells, trail};

use flat_base::NoMemory;
use flat_graph::Graph;
use std::alloc::Global;

/// How far the search has come with a key.
#[derive(Clone, Copy)]
pub enum SearchMark {
    /// It was not met.
    New,
    /// It is on the path, and so many of its children are done.
    Open(usize),
    /// No node below it reaches itself.
    Done,
}

/// What a step of the search comes to.
#[derive(Clone, Copy)]
pub enum SearchStep {
    /// There is more to do.
    On,
    /// There is a cycle.
    Found,
    /// There is none.
    Ended,
}

/// The child at a place, if there are so many.
fn child_at(graph: &Graph, key: usize, i: usize) -> Option<usize>
    ensures child { result ≡ slice_get (links_in graph.now key) i }
    ensures room { OnSome result (i + 1 < 2 ^ 64) }
{
    let node = graph.node(key)?;
    let children = node.children.as_slice();
    if i < children.len() {
        Some(children[i])
    } else {
        None
    }
}

/// One step of the search, which has come to a key below the path.
fn advance(
    graph: &Graph,
    root: usize,
    key: &mut usize,
    marks: &mut Vec<SearchMark>,
    path: &mut Vec<usize>,
) -> Result<SearchStep, NoMemory>
    requires { IsSearch (links_in graph.now) root marks.old.items (trail key.old path.old.items) }
    ensures { IfOk result (Tells (links_in graph.now) root marks.old.items path.old.items key.old
        marks.new.items key.new path.new.items) }
{
    let SearchMark::Open(i) = marks[*key] else {
        return match path.pop() {
            Some(parent) => {
                *key = parent;
                Ok(SearchStep::On)
            }
            None => Ok(SearchStep::Ended),
        };
    };
    let Some(child) = child_at(graph, *key, i) else {
        marks[*key] = SearchMark::Done;
        return Ok(SearchStep::On);
    };
    match marks[child] {
        SearchMark::New => {
            path.push(*key)?;
            marks[child] = SearchMark::Open(0);
            *key = child;
            Ok(SearchStep::On)
        }
        SearchMark::Open(_) => Ok(SearchStep::Found),
        SearchMark::Done => {
            marks[*key] = SearchMark::Open(i + 1);
            Ok(SearchStep::On)
        }
    }
}

/// Whether a key that can be reached from the root reaches itself.
pub fn has_cycle(alloc: Global, graph: &Graph, root: usize) -> Result<bool, NoMemory>
    requires { graph.now.root ≡ Some root }
    ensures { IfOk result (λ found. IsTrue found ↔ HasCycle (links_in graph.now) root) }
{
    // Tells the proof that each link leads to a node.
    let _ = graph.root();
    let mut marks = Vec::from_elem(alloc, SearchMark::New, graph.places())?;
    let mut path = Vec::new(alloc);
    let mut key = root;
    marks[root] = SearchMark::Open(0);
    'search: loop {
        match advance(graph, root, &mut key, &mut marks, &mut path)? {
            SearchStep::On => {}
            SearchStep::Found => return Ok(true),
            SearchStep::Ended => return Ok(false),
        }
    }
}
