//! A race: the sessions and probes of a script on threads of their own, beside the compositor. It
//! keeps `HasRun` of flat_play, whatever the threads do.
//!
//! Each actor goes through its own lines on its own seat: session is a session, probe a probe, and
//! director the compositor, which pauses before a line as a Wait does (pausing) and keeps what
//! race_frames says of its frames. gate says when actors may step, and actor_context what they
//! share. race begins and ends it all, and running runs all actors at once: threads has the
//! sessions' threads, which read the lines that own_lines finds, and probe_threads those of the
//! probes, whose answers settling holds against what was published.
//!
//! In proofs/lemmas: what sessions enter changes nothing of what the display's entries tell
//! (Beside) and of what the compositor stands by (StillStands), and frames that a probe saw, with
//! more of them (SeenFrames).
#![tactic(auto)]

mod actor_context;
mod director;
mod gate;
mod own_lines;
mod pausing;
mod probe;
mod probe_threads;
mod race;
mod race_frames;
mod running;
mod session;
mod settling;
mod threads;

pub use gate::{ASKS, Gate, LOOKS, OpenGate};
pub use race::race_script;
