//! A text is compared with the report of the run that follows its guide.
ghost use Rattle.std.specs.Prelude.{◌≡◌, true, IfOk};
ghost use Rattle.flat_playable.specs.Playable.{is_playable};
ghost use Rattle.flat_judge.specs.GuidedRuns.{IsWhole};
ghost use Rattle.flat_judge.specs.Following.{StoppedBefore};
ghost use Rattle.flat_judge.specs.Heeding.{SeesAsTold};
ghost use Rattle.flat_judge.specs.Verdicts.{IsVerdict};
ghost use Rattle.flat_judge.specs.Reported.{IsReported};

use crate::following::FollowedRun;
use crate::guided_run::GuidedRun;
use crate::parting::{line_of, parts_at};
use crate::probe_guide::ProbeGuide;
use crate::replay_screen::ReplayScreen;
use flat_base::{Items, NoMemory};
use flat_places::Script;
use flat_play::{FrameStore, let_go};
use flat_report::{RunRecord, TextPieces, frames_are_seen, handed_is_report, print_report};
use std::alloc::Global;

/// What is said of a text.
#[derive(Drop)]
pub enum ReportVerdict {
    /// It is the report of a run with so many entries and finished frames.
    Legal(usize, u32),
    /// It is wrong in this line, counted from 1, where the report of a run has this one; none,
    /// where that report ends before.
    Wrong(u64, Option<Items<u8>>),
}

/// A report, and how many entries and frames its run has.
#[derive(Drop)]
struct Written {
    report: TextPieces,
    entries: usize,
    frames: u32,
}

/// The report of a run that followed a text to its end.
fn report_of(
    alloc: Global,
    script: &Script,
    text: &[u8],
    followed: FollowedRun,
) -> Result<Written, NoMemory>
    requires playable { is_playable script.now ≡ true }
    requires whole { IsWhole script.now followed.run }
    requires stopped { StoppedBefore script.now text.now followed.run.screen.board.history
        followed.along }
    requires sees { SeesAsTold script.now text.now followed.run }
    ensures { IfOk result (λ written. IsReported script.now text.now written.report
        written.entries written.frames) }
{
    handed_is_report();
    frames_are_seen();
    let FollowedRun { run, along } = followed;
    let GuidedRun {
        screen,
        seats: _,
        place: _,
        places: _,
        answers: probes,
    } = run;
    let ReplayScreen {
        board,
        start: _,
        store,
    } = screen;
    let FrameStore {
        kept,
        last,
        answers,
    } = store;
    let frames = last.frame.0;
    let entries = board.journal().entries.len();
    let texts = kept.into_texts();
    let run = RunRecord {
        journal: board.journal(),
        frames: &texts,
        lost: along.lost.as_slice(),
        answers: &answers,
        probes: probes.as_slice(),
    };
    let report = print_report(alloc, script, &run);
    drop(texts);
    let_go(board);
    Ok(Written {
        report: report?,
        entries,
        frames,
    })
}

/// The run that follows a text, to its end.
fn run_followed(alloc: Global, script: &Script, text: &[u8]) -> Result<FollowedRun, NoMemory>
    requires { is_playable script.now ≡ true }
    ensures whole { IfOk result (λ followed. IsWhole script.now followed.run) }
    ensures stopped { IfOk result (λ followed. StoppedBefore script.now text.now
        followed.run.screen.board.history followed.along) }
    ensures sees { IfOk result (λ followed. SeesAsTold script.now text.now followed.run) }
{
    let guide = ProbeGuide::read(alloc, script, text)?;
    let mut followed = FollowedRun::new(alloc, script)?;
    let Ok(()) = followed.run_all(alloc, script, text, &guide) else {
        drop(followed);
        return Err(NoMemory);
    };
    Ok(followed)
}

/// Judges a text: whether it is the report of a run of the script, and else in which line
/// it parts from the report of a run, and what that report has there.
pub fn judge(alloc: Global, script: &Script, text: &[u8]) -> Result<ReportVerdict, NoMemory>
    requires { is_playable script.now ≡ true }
    ensures { IfOk result (IsVerdict script.now text.now) }
{
    let followed = run_followed(alloc, script, text)?;
    let written = report_of(alloc, script, text, followed)?;
    match parts_at(text, &written.report) {
        None => Ok(ReportVerdict::Legal(written.entries, written.frames)),
        Some(line) => {
            let want = line_of(alloc, &written.report, line)?;
            Ok(ReportVerdict::Wrong(line, want))
        }
    }
}
