ghost use Rattle.std.specs.Prelude.{◌≡◌, ◌+◌, ◌-◌, ◌<◌, ◌≤◌, ◌↔◌, [], ◌++◌, length, reverse, find, IfOk, IsTrue};
ghost use Rattle.std.specs.Prelude.{slice_get, Some};
ghost use Rattle.flat_scene.specs.ViewTrees.{is_node};
ghost use Rattle.flat_focus.specs.Chains.{root_of, path_to, focus_in, stands_on, is_granted, answer_to};
ghost use Rattle.flat_focus.specs.Steps.{unfocused, framed, asked, on_the_way, way_on};

use flat_base::{NoMemory, Roomy, SessionNo};
use flat_scene::{ViewNode, ViewTree, is_node};
use std::alloc::Global;
use std::marker::Model;

/// The answer to a session that asks for the focus of another.
#[derive(Clone, Copy, PartialEq, Eq)]
pub enum FocusAnswer {
    /// It stands on the list from the root to that other, which has the focus now.
    Granted,
    /// Nothing changed.
    Denied,
}

/// Who has the focus: the sessions from the root of the last finished frame's view
/// tree to the one that has it. Contracts see for how many sessions there is room,
/// the nodes of that tree, and the chain.
///
/// Nothing but `new` takes memory.
#[derive(Drop)]
pub struct Focus {
    sessions: u32,
    nodes: Roomy<ViewNode>,
    chain: Roomy<SessionNo>,
    /// Where a list from the root is put together, the last session first.
    path: Roomy<SessionNo>,
}

impl Model for Focus {
    ghost use Rattle.std.specs.Prelude.{◌≡◌, ◌≤◌, ◌+◌, length};
    ghost use Rattle.flat_focus.specs.Chains.{Focusing};

    ghost Value = { Focusing };

    ghost view = { λ f. record {
      sessions = f.sessions;
      nodes = f.nodes.items;
      chain = f.chain.items;
    } };

    ghost invariant = { λ f. (length f.nodes.items ≤ f.sessions)
        × (f.sessions ≤ f.nodes.room + length f.nodes.items)
        × (f.sessions ≤ f.chain.room + length f.chain.items)
        × (f.sessions ≤ f.path.room + length f.path.items) };
}

fn root_of(nodes: &[ViewNode]) -> Option<SessionNo>
    ensures { result ≡ root_of nodes.now }
{
    match nodes {
        [root, ..] => Some(root.session),
        [] => None,
    }
}

/// The last session of a chain that is a node.
fn last_node(nodes: &[ViewNode], chain: &[SessionNo]) -> Option<SessionNo>
    ensures { result ≡ find (is_node nodes.now) (reverse chain.now) }
{
    chain
        .iter()
        .rev()
        .copied()
        .find(|session| is_node(nodes, *session))
}

/// Who has the focus after a frame with these nodes.
fn focus_in(nodes: &[ViewNode], chain: &[SessionNo]) -> Option<SessionNo>
    ensures { result ≡ focus_in nodes.now chain.now }
{
    match last_node(nodes, chain) {
        Some(session) => Some(session),
        None => root_of(nodes),
    }
}

/// Puts a node on the path, if it is the next one; its parent is then the next.
fn step(path: &mut Roomy<SessionNo>, node: ViewNode, next: Option<SessionNo>) -> Option<SessionNo>
    requires { 0 < path.old.room }
    ensures items { path.new.items ≡ path.old.items ++ on_the_way node next }
    ensures next { result ≡ way_on node next }
    ensures room { path.new.room + length path.new.items ≡ path.old.room + length path.old.items }
    ensures one { length path.new.items ≤ length path.old.items + 1 }
{
    match next {
        Some(session) => {
            if node.session.0 == session.0 {
                path.push(node.session);
                node.parent
            } else {
                Some(session)
            }
        }
        None => None,
    }
}

/// The node that so many nodes stand behind.
fn node_from_end(nodes: &[ViewNode], after: usize) -> ViewNode
    requires { after < length nodes.now }
    ensures { slice_get nodes.now (length nodes.now - 1 - after) ≡ Some result }
{
    nodes[nodes.len() - 1 - after]
}

/// Puts the list from the root to a session on an empty path, the last one first.
fn climb(path: &mut Roomy<SessionNo>, nodes: &[ViewNode], session: SessionNo)
    requires empty { path.old.items ≡ [] }
    requires room { length nodes.now ≤ path.old.room }
    ensures items { reverse path.new.items ≡ path_to nodes.now session }
    ensures few { length path.new.items ≤ length nodes.now }
    ensures room { path.new.room + length path.new.items ≡ path.old.room }
{
    let mut next = Some(session);
    for after in 0..nodes.len() {
        let node = node_from_end(nodes, after);
        next = step(path, node, next);
    }
}

/// Puts the items of a list, the last one first, in the place of those of another.
fn pour(from: &mut Roomy<SessionNo>, into: &mut Roomy<SessionNo>)
    requires { length from.old.items ≤ into.old.room + length into.old.items }
    ensures items { into.new.items ≡ reverse from.old.items }
    ensures room { into.new.room + length into.new.items ≡ into.old.room + length into.old.items }
    ensures rest { from.new.items ≡ [] }
    ensures spare { from.new.room + length from.new.items ≡ from.old.room + length from.old.items }
{
    into.clear();
    while let Some(session) = from.pop() {
        into.push(session);
    }
}

fn has(path: &[SessionNo], session: SessionNo) -> bool
    ensures { result ≡ stands_on path.now session }
{
    path.iter().any(|one| one.0 == session.0)
}

impl Focus {
    /// No frame was finished, and nobody has the focus. There is room for frames of
    /// so many sessions.
    pub fn new(alloc: Global, sessions: u32) -> Result<Focus, NoMemory>
        ensures { IfOk result (λ made. made ≡ unfocused sessions) }
    {
        Ok(Focus {
            sessions,
            nodes: Roomy::with_capacity(alloc, sessions as usize)?,
            chain: Roomy::with_capacity(alloc, sessions as usize)?,
            path: Roomy::with_capacity(alloc, sessions as usize)?,
        })
    }

    /// Whether there is room for a frame with this view tree.
    pub fn has_room(&self, tree: &ViewTree) -> bool
        ensures { IsTrue result ↔ length tree.now.nodes ≤ self.now.sessions }
    {
        tree.nodes.len() <= self.sessions as usize
    }

    /// Keeps the nodes of a frame.
    fn keep(&mut self, nodes: &[ViewNode])
        requires { length nodes.now ≤ self.old.sessions }
        ensures { self.new ≡ record self.old { nodes = nodes.now } }
    {
        self.nodes.clear();
        for node in nodes {
            self.nodes.push(*node);
        }
    }

    /// A frame was finished with this view tree.
    pub fn frame(&mut self, tree: &ViewTree)
        requires { length tree.now.nodes ≤ self.old.sessions }
        ensures { self.new ≡ framed tree.now.nodes self.old }
    {
        self.keep(tree.nodes.as_slice());
        match focus_in(self.nodes.as_slice(), self.chain.as_slice()) {
            Some(session) => self.give(session),
            None => self.chain.clear(),
        }
    }

    /// Gives the focus to a session.
    fn give(&mut self, session: SessionNo)
        ensures { self.new ≡ record self.old { chain = path_to self.old.nodes session } }
    {
        self.path.clear();
        climb(&mut self.path, self.nodes.as_slice(), session);
        pour(&mut self.path, &mut self.chain);
    }

    /// Whether one session stands on the list from the root to another.
    fn is_granted(&mut self, by: SessionNo, of: SessionNo) -> bool
        ensures answer { result ≡ is_granted self.old.nodes by of }
        ensures same { self.new ≡ self.old }
    {
        self.path.clear();
        climb(&mut self.path, self.nodes.as_slice(), of);
        has(self.path.as_slice(), by)
    }

    /// A session asks for the focus of another. It is granted exactly where it
    /// stands on the list from the root to that other, which is then the chain.
    pub fn request(&mut self, by: SessionNo, of: SessionNo) -> FocusAnswer
        ensures answer { result ≡ answer_to self.old.nodes by of }
        ensures after { self.new ≡ asked by of self.old }
    {
        if self.is_granted(by, of) {
            self.give(of);
            FocusAnswer::Granted
        } else {
            FocusAnswer::Denied
        }
    }

    /// The sessions from the root to the one that has the focus.
    pub fn chain(&self) -> &[SessionNo]
        ensures { result.now ≡ self.now.chain }
    {
        self.chain.as_slice()
    }
}
