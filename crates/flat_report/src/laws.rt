//! What the report says of a run (specs/Laws).
ghost use Rattle.flat_report.specs.Laws.{FramesAreSeen, HandedIsReport, ReportsDetermineHistories};
ghost use Rattle.flat_report.specs.Laws.{WrittenHistoriesAreOne, DuePresentsAreTaken, VersionsHaveOneRun};

/// Of a script that is read from a text, the report says which history it is of,
/// which displays were lost, and which frames the probes saw.
///
/// The call does nothing. Its contract is a law about the definitions.
pub fn reports_determine_histories()
    ensures { ReportsDetermineHistories }
{}

/// What is written of a journal, the texts of its frames and its answers is the report
/// of its history, where they are what the rules say of it, and the probes were answered
/// by its frames.
///
/// The call does nothing. Its contract is a law about the definitions.
pub fn handed_is_report()
    ensures { HandedIsReport }
{}

/// Every probe answer names a frame that the probe could have seen.
///
/// The call does nothing. Its contract is a law about the definitions.
pub fn frames_are_seen()
    ensures { FramesAreSeen }
{}

/// A script has one legal history in written order: who does what, and when, is known of
/// the script alone.
///
/// The call does nothing. Its contract is a law about the definitions.
pub fn written_histories_are_one()
    ensures { WrittenHistoriesAreOne }
{}

/// A script of one version has the same runs as a script of another version that is equal
/// but for that: no rule asks for the version.
///
/// The call does nothing. Its contract is a law about the definitions.
pub fn versions_have_one_run()
    ensures { VersionsHaveOneRun }
{}

/// A frame takes at its begin each present that is due: one of an open session that waits,
/// where it and all that wait before it have come to their times with their acquire fences
/// signalled, and none of these has to be shown by a frame of its own.
///
/// The call does nothing. Its contract is a law about the definitions.
pub fn due_presents_are_taken()
    ensures { DuePresentsAreTaken }
{}
