ghost use Rattle.flat_client.specs.Laws.{MisusesAreRefused, MisusesHaveTheirReason};

/// A misuse is never done. The client's next entry or wait closes the session, for the first
/// reason that the rules have against the call.
///
/// It does nothing: its clauses are laws about the definitions.
pub fn misuses_have_their_reason()
    ensures refused { MisusesAreRefused }
    ensures reason { MisusesHaveTheirReason }
{}
