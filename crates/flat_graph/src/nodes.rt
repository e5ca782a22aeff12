ghost use Rattle.std.specs.Prelude.{ℕ, ◌≡◌, ◌==◌, ◌+◌, ◌<◌, ◌^◌, cond, not, filter, is_some};
ghost use Rattle.std.specs.Prelude.{length, map, slice_set, None, [], ◌∷◌, ◌++◌, OnOk, OnErr, IfErr, IsTrue, IsFalse};
ghost use Rattle.std.specs.List.{list_any};
ghost use Rattle.std.specs.Option.{option_map};
ghost use Rattle.slab.specs.Slab.{get, slab_len, ContainsKey};
ghost use Rattle.flat_scene.specs.Misuse.{first_reason};
ghost use Rattle.flat_graph.specs.Reasons.{child_tests, IsFault};
ghost use Rattle.flat_graph.specs.State.{held_but, marked_nodes, new_node, without_content};

use flat_base::{CHILDREN_MAX, IntRect, Items, ONE, OPACITY_MAX, Orientation, Reason};
use flat_scene::{GraphFault, HeldContent, RegionList};
use slab::Slab;
use std::alloc::Global;
use std::mem;

/// Keys of nodes, in order.
pub type KeyList = Items<usize>;

/// A transform.
#[derive(Drop)]
pub struct GraphNode {
    /// The session's n-th transform has number n.
    pub serial: u32,
    pub scale: (u32, u32),
    pub turn: Orientation,
    /// The translation, in units.
    pub place: (i32, i32),
    pub clip: Option<IntRect>,
    pub opacity: u32,
    /// None where no hit call was ever made on it.
    pub hits: Option<RegionList>,
    pub content: Option<HeldContent>,
    /// In the order in which they are drawn. Each leads to a node.
    pub children: KeyList,
}

/// A transform as it is made.
pub fn fresh(alloc: Global, serial: u32) -> GraphNode
    ensures { result ≡ new_node serial }
{
    GraphNode {
        serial,
        scale: (ONE, ONE),
        turn: Orientation::Ccw0,
        place: (0, 0),
        clip: None,
        opacity: OPACITY_MAX,
        hits: None,
        content: None,
        children: Items::new(alloc),
    }
}

/// Whether a key is one of these.
pub fn has_key(keys: &[usize], key: usize) -> bool
    ensures { result ≡ list_any (λ other. other == key) keys.now }
{
    keys.iter().any(|other| *other == key)
}

/// Appends a key to the children of a node, behind the others, or says why it may not.
///
/// `Bad` is AlreadyChild or TooManyChildren.
pub fn add_key(children: &mut KeyList, key: usize) -> Result<(), GraphFault>
    ensures added { OnOk result (children.new ≡ children.old ++ key ∷ []) }
    ensures allowed { OnOk result (first_reason (child_tests children.old key) ≡ None) }
    ensures fault { IfErr result (IsFault (child_tests children.old key)) }
    ensures kept { OnErr result (children.new ≡ children.old) }
{
    if has_key(children.as_slice(), key) {
        return Err(GraphFault::Bad(Reason::AlreadyChild));
    }
    if children.len() >= CHILDREN_MAX as usize {
        return Err(GraphFault::Bad(Reason::TooManyChildren));
    }
    if children.push(key).is_err() {
        return Err(GraphFault::Memory);
    }
    Ok(())
}

/// Takes a key from a list, and answers whether it stood there. It takes no memory.
pub fn take_key(alloc: Global, keys: &mut KeyList, key: usize) -> bool
    ensures found { result ≡ list_any (λ other. other == key) keys.old }
    ensures taken { IsTrue result → keys.new ≡ filter (λ other. not (other == key)) keys.old }
    ensures kept { IsFalse result → keys.new ≡ keys.old }
{
    if !has_key(keys.as_slice(), key) {
        return false;
    }
    let mut inner = mem::replace(keys, Items::new(alloc)).into_vec();
    inner.retain(|other| *other != key);
    *keys = Items::from_vec(inner);
    true
}

/// What a node holds, but for the content of that number.
fn held_without(serial: u32, held: Option<HeldContent>) -> Option<HeldContent>
    ensures { result ≡ held_but serial held }
{
    match held {
        Some(it) if it.serial == serial => None,
        _ => held,
    }
}

/// Takes the content of that number from each node that holds it.
pub fn drop_held(nodes: &mut Slab<GraphNode>, serial: u32)
    ensures { nodes.new ≡ record nodes.old {
      slots = map (option_map (without_content serial))
          nodes.old.slots;
    } }
{
    for key in 0..nodes.capacity() {
        if let Some(node) = nodes.get_mut(key) {
            node.content = held_without(serial, node.content);
        }
    }
}

/// Drops the node of a key, and answers how many nodes that were.
fn drop_node(nodes: &mut Slab<GraphNode>, key: usize) -> u32
    ensures slots { nodes.new.slots
        ≡ cond (is_some (get nodes.old key)) (slice_set nodes.old.slots key None) nodes.old.slots }
    ensures places { nodes.new.capacity ≡ nodes.old.capacity }
    ensures dropped { result + slab_len nodes.new ≡ slab_len nodes.old }
{
    match nodes.try_remove(key) {
        Some(_) => 1,
        None => 0,
    }
}

/// Drops each node whose key isn't marked, and answers their number.
pub fn keep_marked(nodes: &mut Slab<GraphNode>, marks: &[bool]) -> u32
    requires few { slab_len nodes.old < 2 ^ 32 }
    requires covered { (key : ℕ) → ContainsKey nodes.old key → key < length marks.now }
    ensures kept { nodes.new.slots ≡ marked_nodes marks.now nodes.old.slots }
    ensures places { nodes.new.capacity ≡ nodes.old.capacity }
    ensures dropped { result + slab_len nodes.new ≡ slab_len nodes.old }
{
    let mut dropped = 0;
    for key in 0..marks.len() {
        if !marks[key] {
            dropped += drop_node(nodes, key);
        }
    }
    dropped
}
