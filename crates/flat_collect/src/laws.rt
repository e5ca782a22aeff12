ghost use Rattle.flat_collect.specs.Laws.{SweptStands, VerdictStands};

/// What holds of every graph that stands for a session's draft: the verdict on the
/// graph is the draft's. The call does nothing.
pub fn verdict_laws()
    ensures { VerdictStands }
{}

/// What holds of every graph that was swept: it goes on standing for the session's
/// draft, and unfolds to the same trees. The call does nothing.
pub fn sweep_laws()
    ensures { SweptStands }
{}
