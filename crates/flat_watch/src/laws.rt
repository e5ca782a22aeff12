ghost use Rattle.flat_watch.specs.Laws.{SameIsEqual, FirstNewsIsAnswered, AnswersOnce};
ghost use Rattle.flat_watch.specs.Laws.{SilenceChangesNothing, SilentUnasked};

/// What holds of every hanging get, whatever is told: its clauses are laws of the
/// definitions. The call does nothing.
pub fn hanging_get_laws()
    ensures same_is_equal { SameIsEqual }
    ensures first_news_is_answered { FirstNewsIsAnswered }
    ensures answers_once { AnswersOnce }
    ensures silence_changes_nothing { SilenceChangesNothing }
    ensures silent_unasked { SilentUnasked }
{}
