//! What is over stays over (specs/Ends).
ghost use Rattle.flat_laws.specs.Ends.{LostViewsStayLost, LostViewportsStayLost, GoneStaysGone};
ghost use Rattle.flat_laws.specs.Ends.{GoneIsTheLastAnswer, ClosedStaysClosed};
ghost use Rattle.flat_laws.specs.Ends.{ViewEndsAreUsedOnce, ViewportEndsAreUsedInTurn};
ghost use Rattle.flat_laws.specs.Ends.{ThreeKindsPostEvents, ClosedHearNothing};

/// An end that is lost stays lost, a session that is closed stays closed, and gone is the
/// last answer of a watcher.
///
/// The call does nothing. Its contract is a law about the definitions.
pub fn what_is_over_stays_over()
    ensures views { LostViewsStayLost }
    ensures viewports { LostViewportsStayLost }
    ensures sessions { ClosedStaysClosed }
    ensures gone { GoneStaysGone }
    ensures last { GoneIsTheLastAnswer }
{}

/// Each view end is used at most once, and each viewport end once more each time that its
/// token came back.
///
/// The call does nothing. Its contract is a law about the definitions.
pub fn ends_are_used_in_turn()
    ensures views { ViewEndsAreUsedOnce }
    ensures viewports { ViewportEndsAreUsedInTurn }
{}

/// Events are posted by the begins and ends of frames and by each CreateViewport that was
/// done, and never to a session that closed.
///
/// The call does nothing. Its contract is a law about the definitions.
pub fn events_have_three_sources()
    ensures three { ThreeKindsPostEvents }
    ensures closed { ClosedHearNothing }
{}
