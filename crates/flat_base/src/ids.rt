/// The number of a session: from 1, in the order in which sessions are declared.
#[derive(Clone, Copy, Debug, PartialEq, Eq)]
pub struct SessionNo(pub u32);

/// A session's own name for one of its transforms. 0 names nothing.
#[derive(Clone, Copy, PartialEq, Eq)]
pub struct TransformId(pub u64);

/// A session's own name for one of its contents: an image, a filled rectangle
/// or a viewport. 0 names nothing. Names of transforms and of contents are
/// apart: the same number may be one of each.
#[derive(Clone, Copy, PartialEq, Eq)]
pub struct ContentId(pub u64);

/// The number of a pair of a viewport end and a view end: from 0, in the order
/// of declaration.
#[derive(Clone, Copy, Debug, PartialEq, Eq)]
pub struct PairNo(pub u32);

/// The number of a fence: from 0, in the order of declaration.
#[derive(Clone, Copy, PartialEq, Eq)]
pub struct FenceNo(pub u32);

/// The number of a buffer collection: from 0, in the order of declaration.
#[derive(Clone, Copy, PartialEq, Eq)]
pub struct BufferNo(pub u32);

/// The number of a frame: from 1, in the order in which frames begin. 0 is no
/// frame.
#[derive(Clone, Copy, Debug, PartialEq, Eq)]
pub struct FrameNo(pub u32);

/// Who acts: the compositor, a session, or a probe, which reads what was
/// published. Probes are numbered from 0, in the order of declaration.
#[derive(Clone, Copy, PartialEq, Eq)]
pub enum Actor {
    /// The compositor.
    Display,
    /// The client of that session.
    Session(SessionNo),
    /// The reader of that number.
    Probe(u32),
}
