//! The rules of the scene service: which histories are legal, what is told to whom
//! and when, and which events are posted; with the laws about them.
//!
//! Legal histories are `Legal` (specs/Legal), what watchers tell is specs/Watch, what an
//! entry posts specs/Posts, what frames show specs/Shown; src/ has laws alone.
//!
//! Other crates may cite the lemmas of proofs/lemmas/: steps of histories and lists
//! (AllOrSome, FrameKinds, ListLemmas, ShownList, ShownSteps, Watchers), runs of worked cases
//! (EndRuns, LayoutRuns, Runs, TokenRuns),
//! what stays the same (Quiet, SameWatchers, Still), what is local to a family (EventsLocal,
//! Locality, RepliesLocal, WatchLocal), what a session owns (Fences, Owned, OwnedTree,
//! ShownOwned), what a draft refuses (Refusals), and small histories (Samples, ShellRun).
#![tactic(auto)]

mod answers;
mod determined;
mod drawing;
mod laws;
mod seats;

ghost use Rattle.flat_rules.specs.Laws.{CreditsAddUp};

pub use answers::first_news_answers;
pub use determined::{neighbours_change_nothing, replies_are_determined};
pub use drawing::items_are_drawable;
pub use laws::{
    answers_are_local, connected_is_local, credits_are_local, families_are_alone,
    glimpses_decide_outcomes, going_is_local, presents_are_local, ratio_is_local,
    released_is_local, shown_is_local, signalled_is_local, taken_is_local, told_is_local,
    watching_is_local,
};
pub use seats::{
    display_knows_frames, journals_keep_seats, refusals_close, seats_tell_actors,
    sessions_know_themselves,
};

/// In a legal history the credits of a session and its presents that wait add up
/// to one before a frame took one of them, and to five from then on.
///
/// The call does nothing. Its contract is a law about the definitions.
pub fn credits_add_up()
    ensures { CreditsAddUp }
{}
