ghost use Rattle.flat_rules.specs.Determined.{RepliesAreDetermined, NeighboursChangeNothing};

// The calls here do nothing. Their contracts are laws about the definitions: what
// decides the replies and the events of a legal history.

/// Who did what, in which order, decides all else: two legal histories that are
/// equal but for their replies and lines have the same replies and post the same
/// events.
///
/// The call does nothing. Its contract is a law about the definitions.
pub fn replies_are_determined()
    ensures { RepliesAreDetermined }
{}

/// What a session is answered and told hangs on its family and the frames alone:
/// where these did the same in two legal histories, it is answered the same and
/// told the same, also where a neighbour misused a call in one of them.
///
/// The call does nothing. Its contract is a law about the definitions.
pub fn neighbours_change_nothing()
    ensures { NeighboursChangeNothing }
{}
