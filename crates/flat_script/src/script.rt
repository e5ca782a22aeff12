use flat_places::FaultKind;
use thiserror::Error;

/// Where a text isn't a script.
#[derive(Clone, Copy, Debug, PartialEq, Eq)]
pub struct ScriptFault {
    /// The first line with a fault, from 1; 0 for the text as a whole, and one
    /// more than the text has lines for its end.
    pub line: u32,
    /// The lowest kind of fault of that line.
    pub kind: FaultKind,
}

/// Why a text gives no script.
#[derive(Clone, Copy, Debug, PartialEq, Eq, Error)]
pub enum ScriptError {
    /// It isn't one.
    #[error("line {}: fault of kind {}", .0.line, .0.kind.number())]
    Fault(ScriptFault),
    /// Memory ran out.
    #[error("out of memory")]
    Memory,
}
