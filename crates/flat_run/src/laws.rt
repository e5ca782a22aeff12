//! What is written of a script says what was done, and a script that isn't raced is done
//! in one way (specs/Laws).
ghost use Rattle.flat_report.specs.Laws.{ReportsDetermineHistories};
ghost use Rattle.flat_run.specs.Laws.{ReportsHaveOneRun, RunsAreOne, TextsAreOne};

use flat_damage::damage_laws;
use flat_report::{reports_determine_histories, written_histories_are_one};

/// A report tells its history, with all replies, the displays that were lost, and the
/// frames that its probes saw: no other run of the script, played or raced, has it.
///
/// The call does nothing. Its contract is a law about the definitions.
pub fn reports_have_one_run()
    ensures runs { ReportsHaveOneRun }
    ensures reports { ReportsDetermineHistories }
{
    reports_determine_histories();
}

/// A script that isn't raced has one history, and its probes see the same frames in it,
/// whatever the call was that played it. So there is one text of it for each form; a report
/// also tells which displays were lost.
///
/// The call does nothing. Its contract is a law about the definitions.
pub fn runs_are_one()
    ensures runs { RunsAreOne }
    ensures texts { TextsAreOne }
{
    written_histories_are_one();
    damage_laws();
}
