use crate::compositor::DisplayCompositor;
use crate::shell::Shell;
use std::fmt;
use thiserror::Error;

/// Why the compositor made no entry.
#[derive(Clone, Copy, Debug, PartialEq, Eq, Error)]
pub enum DisplayFault {
    /// The line names what isn't the display's: a fence of others, a session that isn't
    /// declared, or a pixel ratio beyond its limits.
    #[error("the display may not name that")]
    NotOwned,
    /// The display has made all entries of its share.
    #[error("the display's share of entries is used up")]
    Full,
    /// So many looks found this value, which isn't enough.
    #[error("the value was {0} to the last look")]
    Unmet(u32),
}

/// Why no frame may begin.
#[derive(Clone, Copy, Debug, PartialEq, Eq, Error)]
pub enum BeginFault {
    /// The display's share has no room for a begin and its done.
    #[error("the display's share of entries is used up")]
    Full,
    /// The last frame began at this later time.
    #[error("the last frame began at {0}, which is later")]
    Before(u64),
}

/// Why a shell wasn't closed.
#[derive(Drop, Error)]
pub enum CloseFault {
    /// A client is still out. The shell and the compositor come back as they were; take the
    /// client back, and close again.
    #[error("a client is still out")]
    ClientsOut(Shell, DisplayCompositor),
    /// No client is out, but the stage is held elsewhere, so the journal is lost. Only the shell,
    /// its clients and its compositor hold the stage, so this doesn't come.
    #[error("the stage is still held")]
    StillHeld,
}

impl fmt::Debug for CloseFault {
    fn fmt<W: fmt::Write>(&self, f: &mut fmt::Formatter<W>) -> fmt::Result {
        fmt::Display::fmt(self, f)
    }
}
