ghost use Rattle.flat_scene.specs.Laws.{SignalledStays, TakenStays, ReadyPrefixIsLongest};
ghost use Rattle.flat_scene.specs.Laws.{OthersAreSquashed};
ghost use Rattle.flat_scene.specs.Laws.{ClosesItsOwn, CycleIsReached, OneNodeAPath, FamilyIsLeast};

/// What holds of every history: its clauses are laws of the definitions. The call
/// does nothing.
pub fn history_laws()
    ensures signalled_stays { SignalledStays }
    ensures taken_stays { TakenStays }
    ensures ready_prefix_is_longest { ReadyPrefixIsLongest }
    ensures others_are_squashed { OthersAreSquashed }
    ensures closes_its_own { ClosesItsOwn }
    ensures family_is_least { FamilyIsLeast }
{}

/// What holds of every draft: its clauses are laws of the definitions. The call
/// does nothing.
pub fn draft_laws()
    ensures cycle_is_reached { CycleIsReached }
    ensures one_node_a_path { OneNodeAPath }
{}
