use flat_base::{Actor, ActorList, Items, SessionNo};

/// A pair of ends that link a parent to a child.
#[derive(Clone, Copy)]
pub struct PairDecl {
    /// Who owns the viewport end: a session or the display.
    pub viewport: Actor,
    /// Who owns the view end.
    pub view: SessionNo,
}

/// A buffer collection: so many buffers of one size.
#[derive(Clone, Copy)]
pub struct BufferDecl {
    pub owner: SessionNo,
    pub count: u32,
    /// In units.
    pub w: u32,
    pub h: u32,
}

/// A fence, and who may name it.
#[derive(Drop)]
pub struct FenceDecl {
    pub owners: ActorList,
}

/// Pairs, by their numbers.
pub type PairList = Items<PairDecl>;

/// Buffer collections, by their numbers.
pub type BufferList = Items<BufferDecl>;

/// Fences, by their numbers.
pub type FenceDeclList = Items<FenceDecl>;

/// What the head of a script declares.
#[derive(Drop)]
pub struct Setup {
    /// The display's size, in units.
    pub width: u32,
    pub height: u32,
    /// How many sessions there are, 1 to [`SESSIONS_MAX`](flat_base::SESSIONS_MAX).
    pub sessions: u32,
    /// How many probes there are.
    pub probes: u32,
    pub pairs: PairList,
    pub buffers: BufferList,
    pub fences: FenceDeclList,
    /// The display's pixel ratio at the start, in fixed point, from
    /// [`RATIO_MIN`](flat_base::RATIO_MIN) to [`RATIO_MAX`](flat_base::RATIO_MAX). It is
    /// [`ONE`](flat_base::ONE) where the script gives none, as none below version 3 does.
    pub ratio: u32,
}
