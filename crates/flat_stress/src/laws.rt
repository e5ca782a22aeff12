ghost use Rattle.flat_stress.specs.Laws.{LoadsAreScripts, LoadsHaveTheirFrames};

/// The text of each load is a script, of eight sessions.
///
/// The call does nothing. Its contract is a law about the definitions.
pub fn loads_are_scripts()
    ensures { LoadsAreScripts }
{}

/// The script of a load has as many frames as were asked for.
///
/// The call does nothing. Its contract is a law about the definitions.
pub fn loads_have_their_frames()
    ensures { LoadsHaveTheirFrames }
{}
