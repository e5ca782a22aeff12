//! Hanging gets of sessions: what is kept of the watchers of each pair (pair), which
//! pairs of a session have gets that may wait (session), all of them (watching), and
//! what tells the values (watcher_values).
//!
//! A pair has a `HangingGet` of flat_watch for each of its watchers, by specs/Pairs; a session
//! lists the pairs that it has to look at when a frame ends, by specs/Listed; `Watchers` stands for
//! a history by `AreWatched` (specs/Watchers), over whoever tells the values (`WatcherValues`).
//!
//! Other crates may cite the lemmas of proofs/lemmas/: what the board takes of gets and
//! watchers at an entry (GetPosts, GetHistory) and at a done (WatchingSteps).
#![tactic(auto)]

pub mod pair;
pub mod session;
pub mod watcher_values;
pub mod watching;
