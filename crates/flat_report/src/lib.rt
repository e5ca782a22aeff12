//! The report: what a run answers and shows, as text.
//!
//! `print_report` (report) writes what it is handed (`handed_report`, specs/Handed), and the law
//! `HandedIsReport` says when that is the report (`report`, specs/Report). sections and report_position go
//! through the journal; apart does so on several threads. frame_texts keeps the texts of finished
//! frames, whose item lines frames share (item_lines); probes and probe_lines have the answers to
//! probes. Other crates may cite proofs/lemmas/.
#![tactic(auto)]

mod apart;
mod frame_texts;
mod item_lines;
mod laws;
mod paged_text;
mod probe_lines;
mod probes;
mod report;
mod report_position;
mod sections;
mod text_pieces;
mod unchanged_frame;

pub use frame_texts::FrameTexts;
pub use laws::{
    due_presents_are_taken, frames_are_seen, handed_is_report, reports_determine_histories,
    versions_have_one_run, written_histories_are_one,
};
pub use probes::{ProbeAnswer, ProbeAnswers};
pub use report::{HitAnswer, HitAnswers, RunRecord, print_report, print_report_on};
pub use text_pieces::{Run, TextPieces};
pub use unchanged_frame::unchanged;
