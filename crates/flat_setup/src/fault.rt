use flat_base::NoMemory;
use thiserror::Error;

/// Entries that the display may owe beyond those that it asks for: the end of an open frame.
pub const DISPLAY_OWES: u32 = 1;

/// Entries that a session may owe beyond those that it asks for: its close and its end.
pub const SESSION_OWES: u32 = 2;

/// Entries that all actors together may make.
pub const ENTRIES_MAX: u64 = 4_294_967_295;

/// What is wrong with a setup. Where a call finds several faults, specs/Faults says which it
/// answers.
#[derive(Clone, Copy, Debug, PartialEq, Eq, Error)]
pub enum SetupFault {
    /// Memory ran out.
    #[error("out of memory")]
    NoMemory,
    /// A side of the display or of a buffer is 0 or above [`SIDE_MAX`](flat_base::SIDE_MAX).
    #[error("a side is 0 or too long")]
    BadSize,
    /// The pixel ratio is below [`RATIO_MIN`](flat_base::RATIO_MIN) or above
    /// [`RATIO_MAX`](flat_base::RATIO_MAX).
    #[error("the pixel ratio is out of range")]
    BadRatio,
    /// A buffer collection has no buffer, or more than
    /// [`BUFFERS_PER_COLLECTION_MAX`](flat_base::BUFFERS_PER_COLLECTION_MAX).
    #[error("a buffer collection has no buffer or too many")]
    BadCount,
    /// There are [`SESSIONS_MAX`](flat_base::SESSIONS_MAX) sessions already.
    #[error("too many sessions")]
    TooManySessions,
    /// There are [`PAIRS_MAX`](flat_base::PAIRS_MAX) pairs already.
    #[error("too many pairs")]
    TooManyPairs,
    /// There are [`BUFFER_COLLECTIONS_MAX`](flat_base::BUFFER_COLLECTIONS_MAX) buffer
    /// collections already.
    #[error("too many buffer collections")]
    TooManyBuffers,
    /// There are [`FENCES_MAX`](flat_base::FENCES_MAX) fences already.
    #[error("too many fences")]
    TooManyFences,
    /// All actors together may make more than [`ENTRIES_MAX`] entries.
    #[error("too many entries")]
    TooManyEntries,
    /// An owner is a probe, or a session that was not declared before.
    #[error("an owner is not declared")]
    UnknownOwner,
    /// A fence has no owner.
    #[error("a fence has no owner")]
    NoOwner,
    /// The display owns the viewport end of another pair already.
    #[error("the display has two pairs")]
    SecondDisplayPair,
    /// There is no session.
    #[error("there is no session")]
    NoSession,
    /// No pair has its viewport end with the display.
    #[error("the display has no pair")]
    NoDisplayPair,
}

impl From<NoMemory> for SetupFault {
    ghost use Rattle.flat_setup.specs.declared.fault.SetupFault.TheVariants as fault;
    ghost use Rattle.std.specs.Prelude.{◌≡◌};

    ghost from_gives = { λ _ e. e ≡ fault.NoMemory };

    fn from(_e: NoMemory) -> SetupFault {
        SetupFault::NoMemory
    }
}
