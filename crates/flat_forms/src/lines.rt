ghost use Rattle.std.specs.Prelude.{◌≡◌};
ghost use Rattle.flat_forms.specs.declared.lines.LineError.TheVariants.{Kind, Memory};

use flat_base::NoMemory;
use flat_places::FaultKind;

/// The part of a text that a line is in.
#[derive(Clone, Copy)]
pub enum TextPart {
    /// Before the first line that isn't skipped.
    Start,
    /// What is declared, up to `run`.
    Head,
    /// The lines of actors, behind `run`.
    Body,
}

/// Why a line isn't taken.
#[derive(Clone, Copy)]
pub enum LineError {
    /// It has a fault, whose lowest kind this is.
    Kind(FaultKind),
    /// Memory ran out.
    Memory,
}

impl From<FaultKind> for LineError {
    ghost from_gives = { λ k e. e ≡ Kind k };

    fn from(kind: FaultKind) -> LineError {
        LineError::Kind(kind)
    }
}

impl From<NoMemory> for LineError {
    ghost from_gives = { λ _ e. e ≡ Memory };

    fn from(_e: NoMemory) -> LineError {
        LineError::Memory
    }
}
