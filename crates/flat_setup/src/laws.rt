ghost use Rattle.flat_setup.specs.Laws.{FaultlessIsSetup};

/// What a builder was told has no fault if and only if its setup is one that a script could give,
/// and all actors together make few enough entries.
pub fn faultless_is_setup()
    ensures { FaultlessIsSetup }
{}
