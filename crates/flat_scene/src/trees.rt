use crate::calls::{BlendMode, ImageFlip, RegionList, ViewportProps};
use flat_base::{Boxed, BufferNo, IntRect, Items, Orientation, PairNo, Reason};

/// What a node shows. A serial number counts the contents that a session made,
/// from 1, and is never used again.
#[derive(Clone, Copy, PartialEq, Eq)]
pub enum Content {
    /// A colour (red, green, blue, alpha) and a size in units.
    Fill {
        serial: u32,
        rgba: [u8; 4],
        w: u32,
        h: u32,
    },
    /// A part of a buffer, drawn to a size in units.
    Image {
        serial: u32,
        buffers: BufferNo,
        index: u32,
        sample: IntRect,
        w: u32,
        h: u32,
        blend: BlendMode,
        flip: ImageFlip,
        opacity: u32,
    },
    /// The place of a linked child.
    Viewport {
        serial: u32,
        pair: PairNo,
        props: ViewportProps,
    },
}

/// One occurrence of a transform, on one path from the root.
#[cycle(tree)]
#[derive(Drop)]
pub struct Node {
    /// The transform's serial number.
    pub serial: u32,
    pub scale: (u32, u32),
    pub turn: Orientation,
    /// The translation, in units.
    pub place: (i32, i32),
    pub clip: Option<IntRect>,
    pub opacity: u32,
    /// A root on which no hit call was made has one infinite region.
    pub hits: RegionList,
    /// None also for a filled rectangle that has no colour yet.
    pub content: Option<Content>,
    pub children: Children,
}

/// The nodes of children, in order: drawn one after another, later ones on top.
#[cycle(tree)]
#[derive(Drop)]
pub enum Children {
    Empty,
    More(Boxed<Node>, Boxed<Children>),
}

/// A viewport that was neither released nor cleared.
#[derive(Clone, Copy, PartialEq, Eq)]
pub struct ViewportUse {
    pub serial: u32,
    pub pair: PairNo,
    pub props: ViewportProps,
}

/// Viewports in use, by serial.
pub type UseList = Items<ViewportUse>;

/// The whole state that a session presents: what a frame shows of it.
#[derive(Drop)]
pub struct Tree {
    /// The pair of its view.
    pub view: Option<PairNo>,
    pub root: Option<Boxed<Node>>,
    /// The viewports neither released nor cleared, by serial.
    pub viewports: UseList,
}

/// A content, as a transform holds it: its serial number, and whether it is a
/// viewport.
#[derive(Clone, Copy, Debug, PartialEq, Eq)]
pub struct HeldContent {
    pub serial: u32,
    pub viewport: bool,
}

/// Why a call on a draft's parts is refused.
#[derive(Drop)]
pub enum GraphFault {
    /// The call is a misuse.
    Bad(Reason),
    /// Memory ran out.
    Memory,
}
