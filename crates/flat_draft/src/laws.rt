ghost use Rattle.flat_draft.specs.Laws.{AnswersFollow, CallsFollow, EmptyStands, ReadyIsDone};

/// What holds of every draft: its clauses are laws of the definitions. The call
/// does nothing.
pub fn draft_laws()
    ensures empty_stands { EmptyStands }
    ensures calls_follow { CallsFollow }
    ensures answers_follow { AnswersFollow }
    ensures ready_is_done { ReadyIsDone }
{}
