ghost use Rattle.flat_rules.specs.Local.{PresentsAreLocal, SignalledIsLocal, TakenIsLocal};
ghost use Rattle.flat_rules.specs.Local.{CreditsAreLocal, GoingIsLocal, ReleasedIsLocal};
ghost use Rattle.flat_rules.specs.Local.{ShownIsLocal, ConnectedIsLocal, RatioIsLocal, ToldIsLocal};
ghost use Rattle.flat_rules.specs.Local.{WatchingIsLocal, AnswersAreLocal, FamiliesAreAlone};
ghost use Rattle.flat_rules.specs.Local.{GlimpsesDecideOutcomes, OthersPostNone};

// The calls here do nothing. Their contracts are laws about the definitions. Those
// on families hold of every legal history, so also at each entry of one, where the
// owners that the setup names are declared.

/// The presents of a session are those in what its family and the compositor did.
///
/// The call does nothing. Its contract is a law about the definitions.
pub fn presents_are_local()
    ensures { PresentsAreLocal }
{}

/// A fence that one of a family owns is signalled exactly where it is in what the
/// family and the compositor did.
///
/// The call does nothing. Its contract is a law about the definitions.
pub fn signalled_is_local()
    ensures { SignalledIsLocal }
{}

/// Frames have taken as many presents of a session as in what its family and the
/// compositor did.
///
/// The call does nothing. Its contract is a law about the definitions.
pub fn taken_is_local()
    ensures { TakenIsLocal }
{}

/// A session may make as many presents as in what its family and the compositor
/// did.
///
/// The call does nothing. Its contract is a law about the definitions.
pub fn credits_are_local()
    ensures { CreditsAreLocal }
{}

/// The end of a frame lets go the same presents of a session as in what its family
/// and the compositor did.
///
/// The call does nothing. Its contract is a law about the definitions.
pub fn going_is_local()
    ensures { GoingIsLocal }
{}

/// The end of a frame signals a fence that one of a family owns exactly where it
/// does in what the family and the compositor did.
///
/// The call does nothing. Its contract is a law about the definitions.
pub fn released_is_local()
    ensures { ReleasedIsLocal }
{}

/// What is shown of a session is what is shown of it in what its family and the
/// compositor did.
///
/// The call does nothing. Its contract is a law about the definitions.
pub fn shown_is_local()
    ensures { ShownIsLocal }
{}

/// A session is connected to the display exactly where it is in what its family
/// and the compositor did.
///
/// The call does nothing. Its contract is a law about the definitions.
pub fn connected_is_local()
    ensures { ConnectedIsLocal }
{}

/// The display's pixel ratio is the one in what the family and the compositor did.
///
/// The call does nothing. Its contract is a law about the definitions.
pub fn ratio_is_local()
    ensures { RatioIsLocal }
{}

/// A watcher of a pair of which one of a family owns an end tells what it tells in
/// what the family and the compositor did.
///
/// The call does nothing. Its contract is a law about the definitions.
pub fn told_is_local()
    ensures { ToldIsLocal }
{}

/// A watcher of a pair of which one of a family owns an end has answered last, and
/// holds, what it has and does in what the family and the compositor did.
///
/// The call does nothing. Its contract is a law about the definitions.
pub fn watching_is_local()
    ensures { WatchingIsLocal }
{}

/// A session has had as many answers from its watchers as in what its family and
/// the compositor did.
///
/// The call does nothing. Its contract is a law about the definitions.
pub fn answers_are_local()
    ensures { AnswersAreLocal }
{}

/// Each family is alone: what its sessions did, with the compositor's frames and
/// signals, is a legal history by itself, with the same replies, which posts the
/// family's sessions the same events at the same entries; and the other entries
/// post them nothing.
///
/// The call does nothing. Its contract is a law about the definitions.
pub fn families_are_alone()
    ensures { FamiliesAreAlone }
{}

/// What neighbours can't change: where two legal histories have the same entries
/// of a session, the same answers to its gets, the same frames, and at their
/// begins the same of its fences signalled, the replies to its views, viewports
/// and presents are the same, and its events but for what watchers tell. No other
/// entry posts it such an event.
///
/// The call does nothing. Its contract is a law about the definitions.
pub fn glimpses_decide_outcomes()
    ensures decided { GlimpsesDecideOutcomes }
    ensures others { OthersPostNone }
{}
