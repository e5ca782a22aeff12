ghost use Rattle.std.specs.Prelude.{◌≡◌, ◌==◌, ℕ, ◌+◌, ◌<◌, Some, None, count_by, is_some, IfOk};
ghost use Rattle.std.specs.Prelude.{IfErr, OnOk, OnErr};
ghost use Rattle.std.specs.Option.{option_copied};
ghost use Rattle.std.specs.List.{list_any};
ghost use Rattle.flat_graph.specs.Names.{key_named, keys_named};
ghost use Rattle.flat_graph.specs.State.{GraphState, IsGraph, IsKept, node_at};

use crate::names::{
    NamedNode, add_name, has_twice, has_unknown, has_zero, key_of, keys_of, remove_name,
};
use crate::nodes::{GraphNode, add_key, fresh, keep_marked, take_key};
use flat_base::{CHILDREN_MAX, NAMED_MAX, Reason, TransformId};
use flat_scene::GraphFault;
use slab::Slab;
use std::alloc::Global;
use std::marker::Model;

/// The transforms of a session that have a name or may still be drawn.
///
/// A key is the place of a node. It stays until [`keep`](Graph::keep) or
/// [`clear`](Graph::clear) drops the node, and may then be given again; a serial
/// number is never given again.
///
/// A call that is refused leaves the graph as it was.
#[derive(Drop)]
pub struct Graph {
    pub(crate) nodes: Slab<GraphNode>,
    // By rising id.
    names: Vec<NamedNode>,
    root: Option<usize>,
    made: u32,
}

impl Model for Graph {
    ghost Value = { GraphState };

    ghost view = { λ g. record {
      nodes = g.nodes.slots;
      names = g.names.items;
      root = g.root;
      made = g.made;
    } };

    ghost invariant = { λ g. IsGraph g.nodes.capacity
        (record { nodes = g.nodes.slots; names = g.names.items; root = g.root; made = g.made }) };
}

// Making a graph, and reading it.
impl Graph {
    ghost use Rattle.flat_scene.specs.Misuse.{first_reason};
    ghost use Rattle.flat_graph.specs.Reasons.{name_tests, IsMisuse};
    ghost use Rattle.flat_graph.specs.State.{IsSound, empty_graph};

    /// A graph without transforms. It takes no memory.
    pub fn new(alloc: Global) -> Graph
        ensures { result ≡ empty_graph }
    {
        Graph {
            nodes: Slab::new(alloc),
            names: Vec::new(alloc),
            root: None,
            made: 0,
        }
    }

    /// The key of the root.
    pub fn root(&self) -> Option<usize>
        ensures value { result ≡ self.now.root }
        ensures sound { IsSound self.now }
    {
        self.root
    }

    /// How many nodes there are.
    pub fn len(&self) -> usize
        ensures { result ≡ count_by is_some self.now.nodes }
    {
        self.nodes.len()
    }

    /// A number above each key.
    pub fn places(&self) -> usize
        ensures { (key : ℕ) → IsKept self.now.nodes key → key < result }
    {
        self.nodes.capacity()
    }

    /// The node of a key, or None where no node has that key.
    pub fn node(&self, key: usize) -> Option<&GraphNode>
        ensures { option_copied result ≡ node_at self.now key }
    {
        self.nodes.get(key)
    }

    /// Whether the node of a key has a name.
    pub fn is_named(&self, key: usize) -> bool
        ensures { result ≡ list_any (λ name. name.key == key) self.now.names }
    {
        self.names.iter().any(|name| name.key == key)
    }

    /// All names, by rising id.
    pub fn names(&self) -> &[NamedNode]
        ensures { result.now ≡ self.now.names }
    {
        self.names.as_slice()
    }

    /// The key that an id names, or why it names none.
    ///
    /// `Bad` is ZeroId or UnknownTransform. It takes no memory.
    pub fn key(&self, t: TransformId) -> Result<usize, GraphFault>
        ensures named { IfOk result (λ key. key_named self.now.names t.0 ≡ Some key) }
        ensures kept { IfOk result (λ key. IsKept self.now.nodes key) }
        ensures allowed { OnOk result (first_reason (name_tests self.now t.0) ≡ None) }
        ensures fault { IfErr result (IsMisuse (name_tests self.now t.0)) }
    {
        if t.0 == 0 {
            return Err(GraphFault::Bad(Reason::ZeroId));
        }
        match key_of(&self.names, t.0) {
            Some(key) => Ok(key),
            None => Err(GraphFault::Bad(Reason::UnknownTransform)),
        }
    }
}

// What names and links transforms.
impl Graph {
    ghost use Rattle.flat_scene.specs.Misuse.{first_reason};
    ghost use Rattle.flat_graph.specs.Reasons.{add_tests, create_tests, name_tests, pair_tests};
    ghost use Rattle.flat_graph.specs.Reasons.{remove_tests, replace_tests, root_tests};
    ghost use Rattle.flat_graph.specs.Reasons.{IsFault, IsMisuse};
    ghost use Rattle.flat_graph.specs.State.{Creates, change_named, released, with_child};
    ghost use Rattle.flat_graph.specs.State.{with_children, with_root, without_child};

    /// Makes a transform and names it; answers its serial number.
    ///
    /// `Bad` is ZeroId, IdInUse or TooManyNamed. It answers `Memory` also where
    /// 2^32 - 1 transforms were made.
    pub fn create(&mut self, t: TransformId) -> Result<u32, GraphFault>
        ensures serial { IfOk result (λ serial. serial ≡ self.old.made + 1) }
        ensures created { IfOk result (Creates self.old self.new t.0) }
        ensures allowed { OnOk result (first_reason (create_tests self.old t.0) ≡ None) }
        ensures fault { IfErr result (IsFault (create_tests self.old t.0)) }
        ensures kept { OnErr result (self.new ≡ self.old) }
    {
        if t.0 == 0 {
            return Err(GraphFault::Bad(Reason::ZeroId));
        }
        if key_of(&self.names, t.0).is_some() {
            return Err(GraphFault::Bad(Reason::IdInUse));
        }
        if self.names.len() >= NAMED_MAX as usize {
            return Err(GraphFault::Bad(Reason::TooManyNamed));
        }
        if self.made == u32::MAX || self.nodes.reserve(1).is_err() {
            return Err(GraphFault::Memory);
        }
        let key = self.nodes.vacant_key();
        if add_name(&mut self.names, NamedNode { id: t.0, key }).is_err() {
            return Err(GraphFault::Memory);
        }
        let serial = self.made + 1;
        let node = fresh(*self.names.allocator(), serial);
        self.nodes.insert_reserved(node);
        self.made = serial;
        Ok(serial)
    }

    /// Ends a transform's name. The node stays: what reaches it goes on reaching it.
    ///
    /// `Bad` is ZeroId or UnknownTransform. It takes no memory.
    pub fn release(&mut self, t: TransformId) -> Result<(), GraphFault>
        ensures released { OnOk result (self.new ≡ released self.old t.0) }
        ensures allowed { OnOk result (first_reason (name_tests self.old t.0) ≡ None) }
        ensures fault { IfErr result (IsMisuse (name_tests self.old t.0)) }
        ensures kept { OnErr result (self.new ≡ self.old) }
    {
        self.key(t)?;
        remove_name(&mut self.names, t.0);
        Ok(())
    }

    /// Makes a transform the root; 0 unsets the root.
    ///
    /// `Bad` is UnknownTransform. It takes no memory.
    pub fn set_root(&mut self, t: TransformId) -> Result<(), GraphFault>
        ensures set { OnOk result (self.new ≡ with_root self.old t.0) }
        ensures allowed { OnOk result (first_reason (root_tests self.old t.0) ≡ None) }
        ensures fault { IfErr result (IsMisuse (root_tests self.old t.0)) }
        ensures kept { OnErr result (self.new ≡ self.old) }
    {
        if t.0 == 0 {
            self.root = None;
            return Ok(());
        }
        let Some(key) = key_of(&self.names, t.0) else {
            return Err(GraphFault::Bad(Reason::UnknownTransform));
        };
        self.root = Some(key);
        Ok(())
    }

    /// The keys that two ids name, or why one of them names none.
    fn pair(&self, parent: TransformId, child: TransformId) -> Result<(usize, usize), GraphFault>
        ensures parent { IfOk result (λ keys. key_named self.now.names parent.0 ≡ Some keys.0) }
        ensures child { IfOk result (λ keys. key_named self.now.names child.0 ≡ Some keys.1) }
        ensures parent_kept { IfOk result (λ keys. IsKept self.now.nodes keys.0) }
        ensures child_kept { IfOk result (λ keys. IsKept self.now.nodes keys.1) }
        ensures allowed { OnOk result (first_reason (pair_tests self.now parent.0 child.0) ≡ None) }
        ensures fault { IfErr result (IsMisuse (pair_tests self.now parent.0 child.0)) }
    {
        if parent.0 == 0 || child.0 == 0 {
            return Err(GraphFault::Bad(Reason::ZeroId));
        }
        let Some(over) = key_of(&self.names, parent.0) else {
            return Err(GraphFault::Bad(Reason::UnknownTransform));
        };
        let Some(under) = key_of(&self.names, child.0) else {
            return Err(GraphFault::Bad(Reason::UnknownTransform));
        };
        Ok((over, under))
    }

    /// Appends a transform to the children of another, behind the others.
    ///
    /// `Bad` is ZeroId, UnknownTransform, AlreadyChild or TooManyChildren.
    pub fn add_child(&mut self, parent: TransformId, child: TransformId) -> Result<(), GraphFault>
        ensures added { OnOk result (self.new
            ≡ change_named self.old parent.0 (with_child (key_named self.old.names child.0))) }
        ensures allowed { OnOk result (first_reason (add_tests self.old parent.0 child.0) ≡ None) }
        ensures fault { IfErr result (IsFault (add_tests self.old parent.0 child.0)) }
        ensures kept { OnErr result (self.new ≡ self.old) }
    {
        let (over, under) = self.pair(parent, child)?;
        let Some(node) = self.nodes.get_mut(over) else {
            return Err(GraphFault::Bad(Reason::UnknownTransform));
        };
        add_key(&mut node.children, under)
    }

    /// Takes a transform from the children of another.
    ///
    /// `Bad` is ZeroId, UnknownTransform or NotChild. It takes no memory.
    pub fn remove_child(
        &mut self,
        parent: TransformId,
        child: TransformId,
    ) -> Result<(), GraphFault>
        ensures removed { OnOk result (self.new
            ≡ change_named self.old parent.0 (without_child (key_named self.old.names child.0))) }
        ensures allowed { OnOk result (first_reason (remove_tests self.old parent.0 child.0)
            ≡ None) }
        ensures fault { IfErr result (IsMisuse (remove_tests self.old parent.0 child.0)) }
        ensures kept { OnErr result (self.new ≡ self.old) }
    {
        let (over, under) = self.pair(parent, child)?;
        let alloc = *self.names.allocator();
        let Some(node) = self.nodes.get_mut(over) else {
            return Err(GraphFault::Bad(Reason::UnknownTransform));
        };
        if !take_key(alloc, &mut node.children, under) {
            return Err(GraphFault::Bad(Reason::NotChild));
        }
        Ok(())
    }

    /// The key of a transform that may have these children, or why there is none.
    fn children_key(
        &self,
        parent: TransformId,
        children: &[TransformId],
    ) -> Result<usize, GraphFault>
        ensures named { IfOk result (λ key. key_named self.now.names parent.0 ≡ Some key) }
        ensures kept { IfOk result (λ key. IsKept self.now.nodes key) }
        ensures allowed { OnOk result (first_reason (replace_tests self.now parent.0 children.now)
            ≡ None) }
        ensures fault { IfErr result (IsMisuse (replace_tests self.now parent.0 children.now)) }
    {
        if parent.0 == 0 || has_zero(children) {
            return Err(GraphFault::Bad(Reason::ZeroId));
        }
        let Some(over) = key_of(&self.names, parent.0) else {
            return Err(GraphFault::Bad(Reason::UnknownTransform));
        };
        if has_unknown(&self.names, children) {
            return Err(GraphFault::Bad(Reason::UnknownTransform));
        }
        if has_twice(children) {
            return Err(GraphFault::Bad(Reason::AlreadyChild));
        }
        if children.len() > CHILDREN_MAX as usize {
            return Err(GraphFault::Bad(Reason::TooManyChildren));
        }
        Ok(over)
    }

    /// Gives a transform these children, in this order, in place of those that it has.
    ///
    /// `Bad` is ZeroId, UnknownTransform, AlreadyChild where an id stands twice, or
    /// TooManyChildren.
    pub fn replace_children(
        &mut self,
        parent: TransformId,
        children: &[TransformId],
    ) -> Result<(), GraphFault>
        ensures replaced { OnOk result (self.new
            ≡ change_named self.old parent.0 (with_children (keys_named self.old.names
            children.now))) }
        ensures allowed { OnOk result (first_reason (replace_tests self.old parent.0 children.now)
            ≡ None) }
        ensures fault { IfErr result (IsFault (replace_tests self.old parent.0 children.now)) }
        ensures kept { OnErr result (self.new ≡ self.old) }
    {
        let over = self.children_key(parent, children)?;
        let Ok(keys) = keys_of(*self.names.allocator(), &self.names, children) else {
            return Err(GraphFault::Memory);
        };
        if let Some(node) = self.nodes.get_mut(over) {
            node.children = keys;
        }
        Ok(())
    }
}

// What drops transforms.
impl Graph {
    ghost use Rattle.flat_graph.specs.State.{emptied, only_marked, MayKeep};

    /// Drops each node whose key isn't marked, and answers their number. All else
    /// stays. It takes no memory.
    pub fn keep(&mut self, marks: &[bool]) -> u32
        requires { MayKeep marks.now self.old }
        ensures kept { self.new ≡ only_marked marks.now self.old }
        ensures dropped { result + count_by is_some self.new.nodes
            ≡ count_by is_some self.old.nodes }
    {
        keep_marked(&mut self.nodes, marks)
    }

    /// Drops all nodes and names, and unsets the root. The count of the
    /// transforms made stays. It takes no memory.
    pub fn clear(&mut self)
        ensures { self.new ≡ emptied self.old }
    {
        self.nodes.clear();
        self.names.clear();
        self.root = None;
    }
}
