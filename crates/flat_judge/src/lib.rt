//! The judge of reports: whether a text is the report of some run of a script, and else the
//! line in which it parts from the report of one. Begin at `judge_text`; what it says is
//! `IsVerdict` (specs/Verdicts): a legal text has its run, and a wrong one has none.
//!
//! The text decides whose entry is next (reading.rt): following.rt lets that actor make its next
//! entry, holds what the report says of it against the text (telling.rt), and reads on behind it.
//! guided_run.rt is the run, with each session (session_cursor.rt) and the display
//! (replay_screen.rt) at a place of its own; a probe's line waits there for the frame that the end
//! of the text names for it (probe_guide.rt, specs/Hints). Where the text parts from the run's
//! report or says of nobody that it is next, what is left of the script is run, and judging.rt
//! compares the text with the report of the whole (parting.rt).
#![tactic(auto)]

mod cutting;
mod entry_texts;
mod following;
mod guided_run;
mod judging;
mod losses;
mod opening;
mod parting;
mod passing;
mod probe_guide;
mod reading;
mod replay_screen;
mod session_cursor;
mod telling;

pub use cutting::{JudgedText, judge_text, scripts_have_no_title};
pub use judging::{ReportVerdict, judge};
