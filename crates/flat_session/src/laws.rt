ghost use Rattle.flat_session.specs.Readings.{EndsAreRead, NoneIsRead, OneMoreIsRead};

/// A session's entries are the reading of the lines that it was given so far, whatever
/// lines come later: of none at first, and of one more by each that it reads. With its
/// End they are the reading of all.
///
/// It does nothing: its clauses are laws about the definitions.
pub fn lines_are_read()
    ensures none { NoneIsRead }
    ensures more { OneMoreIsRead }
    ensures ends { EndsAreRead }
{}
