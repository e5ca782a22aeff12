ghost use Rattle.std.specs.Prelude.{◌≡◌};
ghost use Rattle.flat_places.specs.Kinds.{number, lower_kind};

/// Why a line, or a whole text, isn't of a script. Where a line has several faults,
/// the kind of the lowest number counts.
#[derive(Clone, Copy, Debug, PartialEq, Eq)]
pub enum FaultKind {
    /// The text has too many bytes.
    TooLong,
    /// The line has a byte that isn't printable ASCII.
    NotAscii,
    /// The line has too many bytes.
    LongLine,
    /// The line has no place in the head, or the head isn't complete.
    BadHead,
    /// The line's first word is no actor.
    UnknownActor,
    /// The actor has no such call, or no such condition.
    UnknownCall,
    /// A word is no number of its range.
    BadNumber,
    /// The line has too few words or too many.
    WrongCount,
    /// A word is no declared name of its sort.
    UnknownName,
    /// The actor doesn't own what it names.
    NotOwner,
    /// The script has one declaration, frame or line of an actor too many.
    Limit,
    /// A frame begins or ends where it can't.
    BadOrder,
    /// The version isn't known.
    UnknownVersion,
}

impl FaultKind {
    /// The kind's number, from 1 to 13.
    pub fn number(self) -> u32
        ensures { result ≡ number self }
    {
        match self {
            FaultKind::TooLong => 1,
            FaultKind::NotAscii => 2,
            FaultKind::LongLine => 3,
            FaultKind::BadHead => 4,
            FaultKind::UnknownActor => 5,
            FaultKind::UnknownCall => 6,
            FaultKind::BadNumber => 7,
            FaultKind::WrongCount => 8,
            FaultKind::UnknownName => 9,
            FaultKind::NotOwner => 10,
            FaultKind::Limit => 11,
            FaultKind::BadOrder => 12,
            FaultKind::UnknownVersion => 13,
        }
    }

    /// The one of the two that has the lower number.
    pub fn lower(self, other: FaultKind) -> FaultKind
        ensures { result ≡ lower_kind self other }
    {
        if self.number() <= other.number() {
            self
        } else {
            other
        }
    }
}
