//! What frames do with presents (specs/Presents).
ghost use Rattle.flat_laws.specs.Presents.{TakenPresentsWereDue, TakenOnce, UnsquashableAreShown};
ghost use Rattle.flat_laws.specs.Presents.{SquashedAreNeverShown, PresentedOnce, PresentedAddUp};
ghost use Rattle.flat_laws.specs.Presents.{CreditsAreTold, TakenPresentsRelease};
ghost use Rattle.flat_laws.specs.Presents.{ClosedPresentsRelease, OnlyFramesRelease};

use flat_rules::credits_add_up;

/// A frame takes a present only at or after the present's time, with all its acquire
/// fences signalled, and no present is taken twice.
///
/// The call does nothing. Its contract is a law about the definitions.
pub fn frames_take_what_is_due()
    ensures due { TakenPresentsWereDue }
    ensures once { TakenOnce }
{}

/// Of the presents that it takes of a session, a frame shows the last one. An unsquashable
/// present is that one; those taken before it are shown by no frame.
///
/// The call does nothing. Its contract is a law about the definitions.
pub fn frames_show_the_last()
    ensures unsquashable { UnsquashableAreShown }
    ensures squashed { SquashedAreNeverShown }
{}

/// Each frame tells a session once how many of its presents it took, and these numbers add
/// up to all that finished frames took. Its Credits events tell it how many presents it may
/// still make.
///
/// The call does nothing. Its contract is a law about the definitions.
pub fn events_add_up()
    ensures once { PresentedOnce }
    ensures presented { PresentedAddUp }
    ensures credited { CreditsAreTold }
{
    // proof: credits and waiting presents add up
    credits_add_up();
}

/// The end of a frame signals the release fences of the presents that the frame took, and
/// of all presents of a session that was closed before its begin. Nothing else signals a
/// fence but a Signal.
///
/// The call does nothing. Its contract is a law about the definitions.
pub fn frames_release_fences()
    ensures released { TakenPresentsRelease }
    ensures closed { ClosedPresentsRelease }
    ensures only { OnlyFramesRelease }
{}
