ghost use Rattle.flat_why.specs.Laws.{HiddenHaveCauses, OwnItemsAreSaid, StandingsDecide};
ghost use Rattle.flat_why.specs.Laws.{UntakenPresentsWait};

use flat_core::shown_states_fit;
use flat_topology::{links_make_a_tree, views_follow_links};

/// A session is in the view tree of a frame if and only if it hangs on the display, or below
/// a session that is in it.
///
/// The call does nothing. Its contract is a law about the definitions.
pub fn standings_decide()
    ensures { StandingsDecide }
{
    links_make_a_tree();
}

/// A session has a cause for being hidden if and only if it is no node of the frame's view
/// tree.
///
/// The call does nothing. Its contract is a law about the definitions.
pub fn hidden_have_causes()
    ensures { HiddenHaveCauses }
{
    standings_decide();
    shown_states_fit();
    views_follow_links();
}

/// A session is said to draw so many items if and only if so many of the frame's items are
/// its own.
///
/// The call does nothing. Its contract is a law about the definitions.
pub fn own_items_are_said()
    ensures { OwnItemsAreSaid }
{}

/// A present is said to wait if and only if its session is open and no frame took it.
///
/// The call does nothing. Its contract is a law about the definitions.
pub fn untaken_presents_wait()
    ensures { UntakenPresentsWait }
{}
