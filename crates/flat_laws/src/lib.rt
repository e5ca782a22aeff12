//! What follows from the rules for the author of a client or of a shell: laws on histories.
//!
//! Begin with specs/Presents: what frames do with presents. specs/Shows says what frames
//! show, specs/Places what viewports cut, and specs/Ends what stays over once it is over.
//! Each function here does nothing: its contract is a group of these laws, which docs/ cites
//! beside the rules. proofs/Examples computes their definitions on a small run.
#![tactic(auto)]

mod ends;
mod places;
mod presents;
mod shows;

pub use ends::{ends_are_used_in_turn, events_have_three_sources, what_is_over_stays_over};
pub use places::{nothing_leaves_its_viewports, sessions_stay_in_bounds};
pub use presents::{
    events_add_up, frames_release_fences, frames_show_the_last, frames_take_what_is_due,
};
pub use shows::{
    closed_sessions_are_absent, frames_have_view_trees, idle_frames_are_alike,
    layouts_are_of_frames, presents_stay_shown, seen_sessions_have_views,
};
