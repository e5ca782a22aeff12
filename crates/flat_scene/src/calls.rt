use flat_base::{BufferNo, ContentId, FenceList, IntRect, Items, Orientation, PairNo, TransformId};

/// How a draw item is put over what lies below it.
#[derive(Clone, Copy, PartialEq, Eq)]
pub enum BlendMode {
    /// It replaces what is below. Number 1 in a script, `src` in a report.
    Src,
    /// It is laid over by its alpha. Number 2, `over`.
    SrcOver,
}

/// How an image's content is mirrored within its rectangle.
#[derive(Clone, Copy, Debug, PartialEq, Eq)]
pub enum ImageFlip {
    /// Not at all. Number 1.
    Plain,
    /// Left and right are swapped. Number 2.
    LeftRight,
    /// Up and down are swapped. Number 3.
    UpDown,
}

/// What a hit region tells of itself when it is hit.
#[derive(Clone, Copy)]
pub enum Interaction {
    /// Number 0.
    Default,
    /// Left out by readers of the scene's meaning. Number 1.
    SemanticallyInvisible,
}

/// The width of a border inside a rectangle, in units from each side, each 0 to
/// [`INSET_MAX`](flat_base::INSET_MAX).
#[derive(Clone, Copy, PartialEq, Eq)]
pub struct Inset {
    pub top: u32,
    pub right: u32,
    pub bottom: u32,
    pub left: u32,
}

/// A viewport's logical size, in units, and its inset.
#[derive(Clone, Copy, PartialEq, Eq)]
pub struct ViewportProps {
    pub w: u32,
    pub h: u32,
    pub inset: Inset,
}

/// A part of a transform's own space that can be hit.
#[derive(Clone, Copy)]
pub struct HitRegion {
    /// In units; None is infinite, which means the whole clip of the node.
    pub area: Option<IntRect>,
    pub interaction: Interaction,
}

/// Hit regions of one transform. The first that is hit decides.
pub type RegionList = Items<HitRegion>;

/// Transforms, by their ids.
pub type TransformList = Items<TransformId>;

/// What a present carries beside the session's state.
#[derive(Drop)]
pub struct PresentArgs {
    /// The least time of a frame that may take it, at most
    /// [`TIME_MAX`](flat_base::TIME_MAX).
    pub time: u64,
    /// Fences that must be signalled before the begin that takes it.
    pub acquire: FenceList,
    /// Fences that the end of the frame that took it signals.
    pub release: FenceList,
    /// Whether the frame that takes it has to show it: none takes it together with a
    /// later one. Only scripts of version 2 and above can say so.
    pub unsquashable: bool,
}

/// What a hanging get watches.
#[derive(Clone, Copy, PartialEq, Eq)]
pub enum Watch {
    /// The layout of the session's view.
    Layout,
    /// Whether the session's view is connected to the display.
    Status,
    /// Whether the child behind that viewport has presented.
    Child(ContentId),
}

/// A call on the scene of a session. But for CreateView and CreateViewport, which
/// use the end of a pair, a call edits the session's private draft alone.
///
/// `t`, `p` and `k` name transforms and `c` a content. Rectangles, sizes and
/// translations are in units; scales and opacities in fixed point, where
/// [`ONE`](flat_base::ONE) is one.
#[derive(Drop)]
pub enum Call {
    /// Makes the session's view, at the view end of a pair.
    CreateView {
        pair: PairNo,
    },
    /// Ends the session's view.
    ReleaseView,
    /// Makes a transform.
    CreateTransform {
        t: TransformId,
    },
    /// Ends a transform's name. What the root reaches stays in the scene.
    ReleaseTransform {
        t: TransformId,
    },
    /// Puts a transform at a place of its parent.
    SetTranslation {
        t: TransformId,
        x: i32,
        y: i32,
    },
    /// Turns a transform.
    SetOrientation {
        t: TransformId,
        o: Orientation,
    },
    /// Scales a transform along its own axes, each 1 to
    /// [`SCALE_MAX`](flat_base::SCALE_MAX).
    SetScale {
        t: TransformId,
        sx: u32,
        sy: u32,
    },
    /// Sets a transform's opacity, which its content and its children have too.
    SetOpacity {
        t: TransformId,
        v: u32,
    },
    /// Cuts a transform and all below it to a rectangle of its own space, or takes
    /// that boundary away.
    SetClipBoundary {
        t: TransformId,
        rect: Option<IntRect>,
    },
    /// Appends a transform to the children of another.
    AddChild {
        p: TransformId,
        k: TransformId,
    },
    /// Takes a transform from the children of another.
    RemoveChild {
        p: TransformId,
        k: TransformId,
    },
    /// Gives a transform these children, in this order, in place of those that it has.
    /// Only scripts of version 2 and above can say so.
    ReplaceChildren {
        p: TransformId,
        children: TransformList,
    },
    /// Makes a transform the root of the scene; 0 unsets the root.
    SetRootTransform {
        t: TransformId,
    },
    /// Makes a viewport, at the viewport end of a pair.
    CreateViewport {
        c: ContentId,
        pair: PairNo,
        w: u32,
        h: u32,
        inset: Inset,
    },
    /// Sets a viewport's logical size, and its inset where one is given.
    SetViewportProperties {
        c: ContentId,
        w: u32,
        h: u32,
        inset: Option<Inset>,
    },
    /// Ends a viewport's name and takes it from each transform that holds it.
    ReleaseViewport {
        c: ContentId,
    },
    /// Makes an image of the buffer of index `i` of a collection.
    CreateImage {
        c: ContentId,
        buffers: BufferNo,
        i: u32,
        w: u32,
        h: u32,
    },
    /// Sets the part of an image that is shown.
    SetImageSampleRegion {
        c: ContentId,
        rect: IntRect,
    },
    /// Sets the size to which an image is drawn.
    SetImageDestinationSize {
        c: ContentId,
        w: u32,
        h: u32,
    },
    /// Sets how an image is put over what lies below it.
    SetImageBlendingFunction {
        c: ContentId,
        m: BlendMode,
    },
    /// Mirrors an image.
    SetImageFlip {
        c: ContentId,
        f: ImageFlip,
    },
    /// Sets an image's own opacity.
    SetImageOpacity {
        c: ContentId,
        v: u32,
    },
    /// Ends an image's name. Transforms that hold it keep it.
    ReleaseImage {
        c: ContentId,
    },
    /// Makes a filled rectangle, without colour and size.
    CreateFilledRect {
        c: ContentId,
    },
    /// Gives a filled rectangle its colour (red, green, blue, alpha) and its size.
    SetSolidFill {
        c: ContentId,
        r: u8,
        g: u8,
        b: u8,
        a: u8,
        w: u32,
        h: u32,
    },
    /// Ends a filled rectangle's name. Transforms that hold it keep it.
    ReleaseFilledRect {
        c: ContentId,
    },
    /// Replaces a transform's hit regions, of which there may be none.
    SetHitRegions {
        t: TransformId,
        regions: RegionList,
    },
    /// Replaces a transform's hit regions by one that covers its whole clip.
    SetInfiniteHitRegion {
        t: TransformId,
        i: Interaction,
    },
    /// Gives a transform its content; 0 takes it away.
    SetContent {
        t: TransformId,
        c: ContentId,
    },
    /// Ends the view, all names and the root.
    Clear,
}
