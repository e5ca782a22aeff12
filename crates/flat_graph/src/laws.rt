ghost use Rattle.flat_graph.specs.Laws.{EmptyStands, GraphCallsStand, OtherCallsStand};

/// What holds of every graph that stands for a session's draft: its clauses are
/// laws of the definitions. The call does nothing.
pub fn graph_laws()
    ensures empty_stands { EmptyStands }
    ensures graph_calls_stand { GraphCallsStand }
    ensures other_calls_stand { OtherCallsStand }
{}
