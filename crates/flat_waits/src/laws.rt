ghost use Rattle.flat_waits.specs.Stuck.{OverMeansStuck};

/// Waiting is over only where no actor can change anything any more: its clause is a law of
/// the definitions. The call does nothing.
pub fn over_means_stuck()
    ensures { OverMeansStuck }
{}
