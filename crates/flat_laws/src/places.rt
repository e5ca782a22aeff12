//! Nothing is drawn or hit outside of the viewports that show it (specs/Places).
ghost use Rattle.flat_laws.specs.Places.{NodesInViewportsArePlaced, ItemsStayInViewports, HitsStayInViewports};
ghost use Rattle.flat_laws.specs.Places.{SessionsStayInBounds};

use flat_topology::links_make_a_tree;

/// Each draw item, and each point that hits a node, lies inside the node's clip, inside
/// every viewport above it, and on the display.
///
/// The call does nothing. Its contract is a law about the definitions.
pub fn nothing_leaves_its_viewports()
    ensures placed { NodesInViewportsArePlaced }
    ensures items { ItemsStayInViewports }
    ensures hits { HitsStayInViewports }
{}

/// Where shown states fit the setup, as those of a legal history do, whatever is drawn and
/// hit of a session lies inside the bounds of its view.
///
/// The call does nothing. Its contract is a law about the definitions.
pub fn sessions_stay_in_bounds()
    ensures { SessionsStayInBounds }
{
    // proof: no session stands twice in the joined tree
    links_make_a_tree();
}
