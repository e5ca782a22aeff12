use flat_base::{ContentId, PairNo};

/// A viewport that a session's calls made, and neither released nor cleared.
#[derive(Clone, Copy, PartialEq, Eq)]
pub struct LiveViewport {
    /// The id that names it.
    pub name: ContentId,
    pub pair: PairNo,
}
