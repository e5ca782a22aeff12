ghost use Rattle.std.specs.Prelude.{◌≡◌, length};
ghost use Rattle.flat_snap.specs.Flat.{lent};
ghost use Rattle.flat_snap.specs.Packed.{IsWithin, unfinished, unpacked};

use flat_base::{IntRect, Orientation};
use flat_scene::{Content, HitRegion};

/// A node of a tree that lies in a list, in preorder: its fields, with regions that
/// are lent, and where its subtree ends.
#[derive(Clone, Copy)]
pub struct FlatNode<'a> {
    /// The transform's serial number.
    pub serial: u32,
    pub scale: (u32, u32),
    pub turn: Orientation,
    /// The translation, in units.
    pub place: (i32, i32),
    pub clip: Option<IntRect>,
    pub opacity: u32,
    pub hits: &'a [HitRegion],
    pub content: Option<Content>,
    /// The number of the first node after its subtree, from 0.
    pub end: u32,
}

/// A part of a list, from one place to before another.
#[derive(Clone, Copy)]
pub(crate) struct Part {
    pub(crate) start: usize,
    pub(crate) end: usize,
}

/// A node as it is kept: its regions are a part of a list of the regions of all
/// nodes, so that no node has a list of its own.
#[derive(Clone, Copy)]
pub(crate) struct PackedNode {
    serial: u32,
    scale: (u32, u32),
    turn: Orientation,
    place: (i32, i32),
    clip: Option<IntRect>,
    opacity: u32,
    hits: Part,
    content: Option<Content>,
    pub(crate) end: u32,
}

impl PackedNode {
    /// A node whose end isn't known yet, with its regions on this part.
    pub(crate) fn new(node: &FlatNode<'_>, hits: Part) -> PackedNode
        ensures { result ≡ unfinished (lent node.now) hits }
    {
        PackedNode {
            serial: node.serial,
            scale: node.scale,
            turn: node.turn,
            place: node.place,
            clip: node.clip,
            opacity: node.opacity,
            hits,
            content: node.content,
            end: 0,
        }
    }

    /// The node, with regions from a list of those of all nodes.
    pub(crate) fn unpack<'a>(&self, regions: &'a [HitRegion]) -> FlatNode<'a>
        requires { IsWithin (length regions.now) self.now }
        ensures { lent result ≡ unpacked regions.entry.now self.now }
    {
        FlatNode {
            serial: self.serial,
            scale: self.scale,
            turn: self.turn,
            place: self.place,
            clip: self.clip,
            opacity: self.opacity,
            hits: &regions[self.hits.start..self.hits.end],
            content: self.content,
            end: self.end,
        }
    }
}
