ghost use Rattle.std.specs.Prelude.{◌≡◌};
ghost use Rattle.flat_scene.specs.ViewTrees.{is_node};

use crate::calls::{BlendMode, ImageFlip, Interaction};
use flat_base::{BufferNo, FrameNo, IntRect, Items, Rect, SessionList, SessionNo};

/// What fills the rectangle of a draw item.
#[derive(Clone, Copy)]
pub enum Paint {
    /// One colour: red, green, blue, alpha.
    Fill {
        rgba: [u8; 4],
    },
    /// A part of a buffer, in units of that buffer.
    Image {
        buffers: BufferNo,
        index: u32,
        sample: IntRect,
        flip: ImageFlip,
    },
}

/// The matrix of a draw item: (px, py) goes to (a * px + x, b * py + y), or where
/// `swap` is true to (a * py + x, b * px + y), in fixed point.
#[derive(Clone, Copy)]
pub struct SceneMatrix {
    pub swap: bool,
    pub a: i64,
    pub b: i64,
    pub x: i64,
    pub y: i64,
}

/// One rectangle to be drawn. Items are drawn in the order of their list, later
/// ones on top.
#[derive(Clone, Copy)]
pub struct DrawItem {
    pub session: SessionNo,
    /// The serial number of the content.
    pub serial: u32,
    pub paint: Paint,
    /// The width of the rectangle in the item's own space, in units.
    pub w: u32,
    pub h: u32,
    pub matrix: SceneMatrix,
    /// The part of the display that it covers, in places.
    pub visible: Rect,
    /// In fixed point, at most one.
    pub opacity: u32,
    pub blend: BlendMode,
}

/// A session that is shown, in the view tree.
#[derive(Clone, Copy)]
pub struct ViewNode {
    pub session: SessionNo,
    /// The session whose viewport shows it; None for the first.
    pub parent: Option<SessionNo>,
    /// Its viewport's logical rectangle on the display, uncut, in places.
    pub bounds: Rect,
}

/// Nodes of a view tree, in preorder.
pub type NodeList = Items<ViewNode>;

/// Draw items, in the order in which they are drawn.
pub type ItemList = Items<DrawItem>;

/// Rectangles of the display, in places.
pub type RectList = Items<Rect>;

/// The sessions that are connected to the display, and those that are apart:
/// open, with a view whose end isn't lost, but not connected.
#[derive(Drop)]
pub struct ViewTree {
    pub nodes: NodeList,
    /// In order of the sessions.
    pub apart: SessionList,
}

/// Whether a session is one of the nodes.
pub fn is_node(nodes: &[ViewNode], session: SessionNo) -> bool
    ensures { result ≡ is_node nodes.now session }
{
    nodes.iter().any(|node| node.session.0 == session.0)
}

/// A set of sessions: session s is in it where `has[s - 1]` is true.
#[derive(Clone, Copy)]
pub struct SessionSet {
    pub has: [bool; 16],
}

/// A whole frame, as it is shown to displays.
#[derive(Drop)]
pub struct FrameOut {
    pub frame: FrameNo,
    pub items: ItemList,
    pub tree: ViewTree,
}

/// A session that a point hits, and the interaction of the region that was hit.
#[derive(Clone, Copy)]
pub struct Hit {
    pub session: SessionNo,
    pub interaction: Interaction,
}

/// The sessions that a point hits, last drawn first, each once.
pub type HitList = Items<Hit>;

/// A display that failed, and the frame at which it did. It is shown no more.
#[derive(Clone, Copy)]
pub struct LostDisplay {
    /// The display's number, from 1, as handed in.
    pub display: u32,
    pub frame: FrameNo,
}
