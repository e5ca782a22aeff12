//! What a board keeps of its sessions, and its log: the presents that wait and what frames took of
//! them (state), what a reply decides of its session (replies), which view ends were used
//! (used_view_ends), the clock of frames, the display's pixel ratios, and the display as a viewport
//! (frame_clock, ratios, port). Each part stands for a history by a record of its own (specs/).
//!
//! Other crates may cite the lemmas of proofs/lemmas/:
//! - of what is kept of one session: Changes, Counts, Heard, Ones, ViewSteps;
//! - of all that is kept: BeginLoop, Entered, Opened, Steps;
//! - of a begin (Begun, BoardBegins) and of a done (DoneSteps); of lists (Lists).
#![tactic(auto)]

pub mod frame_clock;
pub mod port;
pub mod ratios;
pub mod replies;
pub mod roomy_journal;
pub mod state;
pub mod used_view_ends;
