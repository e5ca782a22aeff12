//! The parts of the report of a run's last entry, each held against a text that the run
//! follows.
ghost use Rattle.std.specs.Prelude.{◌≡◌, ◌≤◌, ◌++◌, ℕ, ℤ, suc, List, length, true, IfOk, IfSome, ◌<◌, ◌^◌};
ghost use Rattle.flat_scene.specs.declared.frames.Hit.{Hit};
ghost use Rattle.flat_scene.specs.declared.journal.Entry.{Entry};
ghost use Rattle.flat_scene.specs.declared.journal.EntryKind.TheVariants as kind;
ghost use Rattle.flat_scene.specs.History.{◌▹◌, is_finish};
ghost use Rattle.flat_rules.specs.Ends.{to_begin};
ghost use Rattle.flat_rules.specs.Legal.{frames};
ghost use Rattle.flat_rules.specs.AllPosts.{posts};
ghost use Rattle.flat_report.specs.declared.report.HitAnswer.{HitAnswer};
ghost use Rattle.flat_places.specs.declared.script.Script.{Script};
ghost use Rattle.flat_report.specs.FrameTexts.{frame_text};
ghost use Rattle.flat_report.specs.Handed.{answer_to};
ghost use Rattle.flat_report.specs.Report.{frame_at};
ghost use Rattle.flat_judge.specs.Following.{Passes, events_text, own_text};
ghost use Rattle.flat_judge.specs.GuidedRuns.{ScreenStands};

use crate::entry_texts::{line_text, posts_text};
use crate::passing::{pass, pass_pieces};
use crate::replay_screen::ReplayScreen;
use flat_base::NoMemory;
use flat_places::Script;
use flat_scene::{Entry, EntryKind, Hit};
use std::alloc::Global;

/// How many frames were finished before the last entry.
fn finished_before(screen: &ReplayScreen, entry: &Entry) -> u64
    requires { screen.now.store.last.frame.0 ≡ frames screen.now.board.history }
    ensures is { (before : List Entry) → screen.now.board.history ≡ (before ▹ entry.now) → result
        ≡ frames before }
    ensures few { result < 2 ^ 32 }
{
    let finished = u64::from(screen.store.last.frame.0);
    match entry.kind {
        EntryKind::Finish => finished.saturating_sub(1),
        _ => finished,
    }
}

/// Who is hit at the point for which the last entry asked; nobody, where it asked for none.
fn hits_asked<'a>(screen: &'a ReplayScreen, entry: &Entry) -> &'a [Hit]
    ensures { (earlier : List HitAnswer) (n : ℕ) (hits : ℤ → ℤ → List Hit)
        → screen.now.store.answers
        ≡ earlier ++ answer_to entry.now n hits entry.now.kind → (x y : ℤ) → entry.now.kind
        ≡ kind.Hit x y → result.now ≡ hits x y }
{
    match (&entry.kind, screen.store.answers.as_slice().last()) {
        (EntryKind::Hit(_, _), Some(answer)) => answer.hits.as_slice(),
        _ => &[],
    }
}

/// The place behind the last entry's own line, if the text has it.
pub(crate) fn pass_line(
    alloc: Global,
    script: &Script,
    text: &[u8],
    at: usize,
    screen: &ReplayScreen,
    entry: &Entry,
) -> Result<Option<usize>, NoMemory>
    requires within { at ≤ length text.now }
    requires shows { ScreenStands script.now screen.now }
    ensures within { IfOk result (λ found. IfSome found (λ next. next ≤ length text.now)) }
    ensures passes { (before : List Entry) → screen.now.board.history ≡ (before ▹ entry.now) →
        IfOk result (Passes text.now at (own_text script.now before entry.now)) }
{
    let finished = finished_before(screen, entry);
    let line = line_text(alloc, script, finished, hits_asked(screen, entry), entry)?;
    Ok(pass(text, at, line.as_slice()))
}

/// The place behind the lines of the frame that the last entry finished, if the text has them.
pub(crate) fn pass_frame(text: &[u8], at: usize, screen: &ReplayScreen) -> Option<usize>
    requires within { at ≤ length text.now }
    ensures within { IfSome result (λ next. next ≤ length text.now) }
    ensures passes { (script : Script) (before : List Entry) (entry : Entry) →
        ScreenStands script screen.now → screen.now.board.history ≡ (before ▹ entry) →
        is_finish entry.kind ≡ true → Passes text.now at (frame_text script
        (frame_at script.setup (suc (frames before)) (to_begin before))) result }
{
    match screen.store.kept.last_text() {
        Some(lines) => pass_pieces(text, at, lines),
        None => Some(at),
    }
}

/// The place behind the lines of the last entry's events, if the text has them. Before it so
/// many events were posted.
pub(crate) fn pass_events(
    alloc: Global,
    script: &Script,
    text: &[u8],
    at: usize,
    screen: &ReplayScreen,
    before: usize,
) -> Result<Option<usize>, NoMemory>
    requires within { at ≤ length text.now }
    requires shows { ScreenStands script.now screen.now }
    ensures within { IfOk result (λ found. IfSome found (λ next. next ≤ length text.now)) }
    ensures passes { (earlier : List Entry) (entry : Entry) → screen.now.board.history
        ≡ (earlier ▹ entry) → before ≡ length (posts script.now.setup earlier) →
        IfOk result (Passes text.now at (events_text script.now earlier entry)) }
{
    let posts = screen.board.journal().posts.as_slice();
    if posts.len() < before {
        return Ok(Some(at));
    }
    let lines = posts_text(alloc, script, &posts[before..])?;
    Ok(pass(text, at, lines.as_slice()))
}
