//! Worked examples of the rules, and histories that the rules refuse, computed by proofs;
//! no running code.
//!
//! Begin at specs/Refused: entries that a history refuses, each beside one that it accepts.
//! specs/Misread has histories that are no reading of a script, specs/Reasons a misuse for
//! each reason. The files of proofs/ show turns, insets and pixel ratios, presents and
//! fences, ends of links, families, and which setups there are.
#![tactic(auto)]

ghost use Rattle.flat_examples.specs.Misread.{LinesGoBack, LineIsSkipped, EndIsMissing, OtherCount};
ghost use Rattle.flat_examples.specs.Misread as misread;
ghost use Rattle.flat_examples.specs.Misread.{DisplayStopsEarly, OtherTime, OthersComeFirst};
ghost use Rattle.flat_examples.specs.Misread.{EndsCross};
ghost use Rattle.flat_examples.specs.Reasons.{EachReasonIsGiven};
ghost use Rattle.flat_examples.specs.Refused.{WrongCredits, WrongCount, SecondUse, SameAnswer};
ghost use Rattle.flat_examples.specs.Refused.{SecondGet, UndeclaredSession, EntryAfterClose};
ghost use Rattle.flat_examples.specs.Refused.{NoneIsBroken, BeginInsideFrame, DoneOutsideFrame};
ghost use Rattle.flat_examples.specs.Refused.{TimeGoesBack, MisuseIsCarried};
ghost use Rattle.flat_examples.specs.Refused.{ViewWithoutCall, LinkIsCarried, FenceOfAnother};
ghost use Rattle.flat_examples.specs.Refused.{OtherReason, MisuseIsHidden, CallAfterMisuse};
ghost use Rattle.flat_examples.specs.Refused.{CloseWithoutCycle, CloseDespiteView};
ghost use Rattle.flat_examples.specs.Refused.{CloseWithoutMisuse, LeavesWithView};
ghost use Rattle.flat_examples.specs.Refused.{OpenEndCounts, ClosedEndCarries};
ghost use Rattle.flat_examples.specs.Refused.{UndeclaredFence, FenceOfASession, PresentOfCycle};
ghost use Rattle.flat_examples.specs.Refused.{FencesAreTooMany, GetWithoutView};

/// Each of the 22 reasons refuses a line, and not the line nearest to it.
///
/// The call does nothing. Its contract is a table of examples.
pub fn reasons_are_given()
    ensures { EachReasonIsGiven }
{}

/// Entries that a history refuses: for its reply alone, or because it breaks one rule of
/// `MayEnter` and no other. Beside each stands an entry that the same history accepts.
///
/// The call does nothing. Its contract is a list of examples.
pub fn histories_are_refused()
    ensures rules { NoneIsBroken }
    ensures wrong_credits { WrongCredits }
    ensures wrong_count { WrongCount }
    ensures second_use { SecondUse }
    ensures same_answer { SameAnswer }
    ensures second_get { SecondGet }
    ensures undeclared_session { UndeclaredSession }
    ensures entry_after_close { EntryAfterClose }
    ensures begin_inside_frame { BeginInsideFrame }
    ensures done_outside_frame { DoneOutsideFrame }
    ensures time_goes_back { TimeGoesBack }
    ensures misuse_is_carried { MisuseIsCarried }
    ensures other_reason { OtherReason }
    ensures misuse_is_hidden { MisuseIsHidden }
    ensures call_after_misuse { CallAfterMisuse }
    ensures close_without_cycle { CloseWithoutCycle }
    ensures close_despite_view { CloseDespiteView }
    ensures close_without_misuse { CloseWithoutMisuse }
    ensures leaves_with_view { LeavesWithView }
    ensures open_end_counts { OpenEndCounts }
    ensures closed_end_carries { ClosedEndCarries }
    ensures view_without_call { ViewWithoutCall }
    ensures link_is_carried { LinkIsCarried }
    ensures fence_of_another { FenceOfAnother }
    ensures undeclared_fence { UndeclaredFence }
    ensures fence_of_a_session { FenceOfASession }
    ensures present_of_cycle { PresentOfCycle }
    ensures fences_are_too_many { FencesAreTooMany }
    ensures get_without_view { GetWithoutView }
{}

/// A legal history may still be no reading of a script: the script decides the kind and the
/// order of each actor's entries.
///
/// The call does nothing. Its contract is a list of examples.
pub fn readings_are_refused()
    ensures lines_go_back { LinesGoBack }
    ensures line_is_skipped { LineIsSkipped }
    ensures end_is_missing { EndIsMissing }
    ensures other_count { OtherCount }
    ensures close_without_misuse { misread.CloseWithoutMisuse }
    ensures display_stops_early { DisplayStopsEarly }
    ensures other_time { OtherTime }
{}

/// A reading of a script may be out of written order, as in a race.
///
/// The call does nothing. Its contract is a list of examples.
pub fn orders_are_refused()
    ensures others_come_first { OthersComeFirst }
    ensures ends_cross { EndsCross }
{}
