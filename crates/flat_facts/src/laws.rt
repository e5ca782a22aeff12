ghost use Rattle.flat_facts.specs.Laws.{TokensFollowReleases, OneViewportLives};
ghost use Rattle.flat_facts.specs.Laws.{LastViewStands, RatiosAreAllowed};
ghost use Rattle.flat_rules.specs.Laws.{ShownStatesFit, BegunStatesFit, EachSessionHasOneState};
ghost use Rattle.flat_rules.specs.Laws.{NothingIsShownAtFirst, SessionsAreCounted};

/// What the sessions of a legal history show fits the setup, and so does what the
/// last frame that began shows of them: a view or a viewport that is shown is of an
/// end that its session owns, no session shows a pair twice, and no tree is too
/// large. Each session of the setup has one state, and before the first entry none
/// shows anything.
///
/// The call does nothing. Its contract is a law about the definitions.
pub fn shown_states_fit()
    ensures fits { ShownStatesFit }
    ensures begun { BegunStatesFit }
    ensures each { EachSessionHasOneState }
    ensures nothing { NothingIsShownAtFirst }
    ensures sessions { SessionsAreCounted }
{}

/// While the owner of a viewport end is open, the end's token is held exactly where
/// frames that are finished have seen each of its uses released. No two viewports of a
/// pair live at once.
///
/// The call does nothing. Its contract is a law about the definitions.
pub fn tokens_follow_releases()
    ensures tokens { TokensFollowReleases }
    ensures one { OneViewportLives }
{}

/// A session has a view whose end isn't lost exactly where it is open, and the end of the
/// last view that it made isn't lost.
///
/// The call does nothing. Its contract is a law about the definitions.
pub fn last_view_stands()
    ensures { LastViewStands }
{}

/// The display's pixel ratio is always one that a display may have.
///
/// The call does nothing. Its contract is a law about the definitions.
pub fn ratios_are_allowed()
    ensures { RatiosAreAllowed }
{}
