use flat_base::{FlatlandError, Reason};
use std::error::Error;
use std::fmt;

/// Why a client's call was not done.
#[derive(Clone, Copy, PartialEq, Eq)]
pub enum CallError {
    /// Memory ran out. No entry was made.
    NoMemory,
    /// The call names something that the session does not own. It was not made.
    NotOwned,
    /// The session has made all the entries that it may, but for its close and its end.
    Full,
    /// A private call was a misuse, this one or one before. The session's next entry or
    /// wait closes it.
    Misused,
    /// The condition was still not met at the last look. Its value was this.
    Unmet(u32),
    /// The session is closed: with an error, which BadOperation says with a reason, or
    /// with neither because the client disconnected.
    Closed(Option<FlatlandError>, Option<Reason>),
}

impl fmt::Display for CallError {
    fn fmt<W: fmt::Write>(&self, f: &mut fmt::Formatter<W>) -> fmt::Result {
        match self {
            CallError::NoMemory => write!(f, "out of memory"),
            CallError::NotOwned => write!(f, "the call names what the session does not own"),
            CallError::Full => write!(f, "the session may make no more entries"),
            CallError::Misused => write!(
                f,
                "a call was misused; the next entry closes the session"
            ),
            CallError::Unmet(value) => write!(f, "the condition is not met: its value is {value}"),
            CallError::Closed(error, reason) => write_closed(f, *error, *reason),
        }
    }
}

/// Writes that a session is closed, and by which error and reason.
fn write_closed<W: fmt::Write>(
    f: &mut fmt::Formatter<W>,
    error: Option<FlatlandError>,
    reason: Option<Reason>,
) -> fmt::Result {
    write!(f, "the session is closed")?;
    if let Some(error) = error {
        let number = error.number();
        write!(f, " by error {number}")?;
    }
    if let Some(reason) = reason {
        let number = reason.number();
        write!(f, " for reason B{number}")?;
    }
    Ok(())
}

impl fmt::Debug for CallError {
    fn fmt<W: fmt::Write>(&self, f: &mut fmt::Formatter<W>) -> fmt::Result {
        fmt::Display::fmt(self, f)
    }
}

impl Error for CallError {}
