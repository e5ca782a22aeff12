ghost use Rattle.flat_content.specs.Limits.{SidesAreDeclared};
ghost use Rattle.flat_content.specs.Laws.{ContentCallsStand, EmptyStands, OtherCallsStand};

/// What holds of every table that stands for a session's contents: its clauses are
/// laws of the definitions. The call does nothing.
pub fn content_laws()
    ensures empty_stands { EmptyStands }
    ensures content_calls_stand { ContentCallsStand }
    ensures other_calls_stand { OtherCallsStand }
    ensures sides_are_declared { SidesAreDeclared }
{}
