ghost use Rattle.flat_rules.specs.Closing.{RefusalCloses, CloseCloses, OtherRepliesCloseNone};
ghost use Rattle.flat_rules.specs.Closing.{RefusalsAreOfLines};
ghost use Rattle.flat_rules.specs.Seats.{SeatsTellActors, SessionsKnowThemselves};
ghost use Rattle.flat_rules.specs.Seats.{DisplayKnowsFrames, BeginStays, JournalsKeepSeats};
ghost use Rattle.flat_rules.specs.Seats.{BeginIsSeen};

// The calls here do nothing. Their contracts are laws about the definitions: how a
// session closes, and what an actor knows that sees its own entries alone.

/// An entry that is refused closes the session that makes it and no other, and so
/// does a Close of a legal history. No other entry closes a session. A reason that a
/// Close may say of a draft is that of a present or a get which the draft refuses.
///
/// The call does nothing. Its contract is a law about the definitions.
pub fn refusals_close()
    ensures refused { RefusalCloses }
    ensures closed { CloseCloses }
    ensures others { OtherRepliesCloseNone }
    ensures lines { RefusalsAreOfLines }
{}

/// In a legal history the entries of the display and of each session are those of
/// their seats' numbers.
///
/// The call does nothing. Its contract is a law about the definitions.
pub fn seats_tell_actors()
    ensures { SeatsTellActors }
{}

/// What the rules ask of a session, by its own entries: whether it is open and had
/// no End, and the draft of its calls, are the same in these entries alone.
///
/// The call does nothing. Its contract is a law about the definitions.
pub fn sessions_know_themselves()
    ensures { SessionsKnowThemselves }
{}

/// Whether a frame is open, and when the last one began, is the same in the
/// display's own entries alone; and while the display makes no entry, the history
/// up to the last begin stays the same.
///
/// The call does nothing. Its contract is a law about the definitions.
pub fn display_knows_frames()
    ensures frames { DisplayKnowsFrames }
    ensures begin { BeginStays }
{}

/// A journal, which has the oldest entry first, has a seat's entries in the order
/// of its history; and who has seen the first entries of a journal, and among them
/// all of the display's, has seen its last begin and all before it.
///
/// The call does nothing. Its contract is a law about the definitions.
pub fn journals_keep_seats()
    ensures seats { JournalsKeepSeats }
    ensures begin { BeginIsSeen }
{}
