//! What frames show (specs/Shows).
ghost use Rattle.flat_laws.specs.Shows.{TakenStaysShown, ClosedAreAbsent};
ghost use Rattle.flat_laws.specs.Shows.{IdleFramesShowTheSame, FramesHaveViewTrees};
ghost use Rattle.flat_laws.specs.Shows.{SeenHaveViews, ConnectedHaveViews, LayoutsAreOfFrames};

use flat_facts::shown_states_fit;
use flat_topology::views_follow_links;
use flat_tree::views_are_a_tree;

/// The last present taken of a session is shown until a frame takes another one or the
/// session closes.
///
/// The call does nothing. Its contract is a law about the definitions.
pub fn presents_stay_shown()
    ensures { TakenStaysShown }
{}

/// A session that closed before a frame's begin has no view, no draw item and no hit in
/// that frame, nor in any later one.
///
/// The call does nothing. Its contract is a law about the definitions.
pub fn closed_sessions_are_absent()
    ensures { ClosedAreAbsent }
{}

/// A frame shows the same as an earlier one, if since then no present was taken, no session
/// closed, and the pixel ratio is the same.
///
/// The call does nothing. Its contract is a law about the definitions.
pub fn idle_frames_are_alike()
    ensures { IdleFramesShowTheSame }
{}

/// The views of each frame of a legal history are a tree.
///
/// The call does nothing. Its contract is a law about the definitions.
pub fn frames_have_view_trees()
    ensures { FramesHaveViewTrees }
{
    // proof: what is shown fits the setup, and the views of such states are a tree
    shown_states_fit();
    views_are_a_tree();
    views_follow_links();
}

/// Each draw item and each hit is of a session that has a view in the frame. So has a
/// session that was told it is connected, in the last finished frame.
///
/// The call does nothing. Its contract is a law about the definitions.
pub fn seen_sessions_have_views()
    ensures seen { SeenHaveViews }
    ensures connected { ConnectedHaveViews }
{
    // proof: the views are the sessions of the joined tree
    views_follow_links();
}

/// A layout that was told has the pixel ratio of the last finished frame, and the size and
/// insets that the viewport has in it.
///
/// The call does nothing. Its contract is a law about the definitions.
pub fn layouts_are_of_frames()
    ensures { LayoutsAreOfFrames }
{}
