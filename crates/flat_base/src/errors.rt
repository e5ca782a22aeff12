ghost use Rattle.std.specs.Prelude.{◌≡◌};
ghost use Rattle.flat_base.specs.Number.{reason_number};
ghost use Rattle.flat_base.specs.ErrorNumber.{error_number};

use std::alloc::{AllocError, AllocFailed};
use std::error::Error;
use std::fmt;

/// The error with which a session is closed.
#[derive(Clone, Copy, PartialEq, Eq)]
pub enum FlatlandError {
    /// A call was misused. A [`Reason`] says how.
    BadOperation,
    /// A present came where the session had no credit left.
    NoPresentsRemaining,
    /// A second get of a watcher came while one was held.
    BadHangingGet,
}

impl FlatlandError {
    /// The error's number, from 1 to 3.
    pub fn number(self) -> u32
        ensures { result ≡ error_number self }
    {
        match self {
            FlatlandError::BadOperation => 1,
            FlatlandError::NoPresentsRemaining => 2,
            FlatlandError::BadHangingGet => 3,
        }
    }
}

/// Why a call was a misuse. Where several reasons hold, the one with the lowest
/// number decides.
#[derive(Clone, Copy, Debug, PartialEq, Eq)]
pub enum Reason {
    /// An id is 0 where it must name something.
    ZeroId,
    /// The id to be created names something already.
    IdInUse,
    /// No transform has that name.
    UnknownTransform,
    /// No content has that name.
    UnknownContent,
    /// The content of that name is of another sort.
    WrongContent,
    /// The transform is a child of that parent already.
    AlreadyChild,
    /// The transform is no child of that parent.
    NotChild,
    /// A scale is 0 or above [`SCALE_MAX`](crate::SCALE_MAX).
    BadScale,
    /// An opacity is above [`OPACITY_MAX`](crate::OPACITY_MAX).
    BadOpacity,
    /// A rectangle is empty, ends beyond 2^31 - 1, or leaves its image.
    BadRect,
    /// A side is 0 or above its limit.
    BadSize,
    /// The buffer collection has no buffer of that index.
    BadBuffer,
    /// More than [`HIT_REGIONS_MAX`](crate::HIT_REGIONS_MAX) hit regions.
    TooManyRegions,
    /// The session has a view.
    HasView,
    /// The session has no view.
    NoView,
    /// The end of the pair was used before, and its token hasn't come back.
    TokenNotHeld,
    /// A transform that is reached from the root reaches itself.
    Cycle,
    /// The tree has more nodes, or a longer path, than a present may have.
    TreeTooLarge,
    /// One viewport is the content of two nodes of the tree.
    ViewportTwice,
    /// The session has as many named transforms, or contents, as it may have.
    TooManyNamed,
    /// The transform has as many children as it may have.
    TooManyChildren,
    /// A present lists more fences than one list may have.
    TooManyFences,
}

impl Reason {
    /// The reason's number, from 1 to 22: `B7` in a report is number 7.
    pub fn number(self) -> u32
        ensures { result ≡ reason_number self }
    {
        match self {
            Reason::ZeroId => 1,
            Reason::IdInUse => 2,
            Reason::UnknownTransform => 3,
            Reason::UnknownContent => 4,
            Reason::WrongContent => 5,
            Reason::AlreadyChild => 6,
            Reason::NotChild => 7,
            Reason::BadScale => 8,
            Reason::BadOpacity => 9,
            Reason::BadRect => 10,
            Reason::BadSize => 11,
            Reason::BadBuffer => 12,
            Reason::TooManyRegions => 13,
            Reason::HasView => 14,
            Reason::NoView => 15,
            Reason::TokenNotHeld => 16,
            Reason::Cycle => 17,
            Reason::TreeTooLarge => 18,
            Reason::ViewportTwice => 19,
            Reason::TooManyNamed => 20,
            Reason::TooManyChildren => 21,
            Reason::TooManyFences => 22,
        }
    }
}

/// Memory ran out. What was asked for wasn't done, and everything is as before.
#[derive(Clone, Copy, Debug, PartialEq, Eq)]
pub struct NoMemory;

impl fmt::Display for NoMemory {
    fn fmt<W: fmt::Write>(&self, f: &mut fmt::Formatter<W>) -> fmt::Result {
        write!(f, "out of memory")
    }
}

impl Error for NoMemory {}

impl From<AllocError> for NoMemory {
    fn from(_e: AllocError) -> NoMemory {
        NoMemory
    }
}

impl<T: Drop> From<AllocFailed<T>> for NoMemory {
    fn from(_e: AllocFailed<T>) -> NoMemory {
        NoMemory
    }
}
