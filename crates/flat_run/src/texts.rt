//! What each form writes of a run: a function by the rows of `IsTextOf` (specs/Forms), of
//! what `keeping_for` keeps of its frames. No draw item of a frame before the last is kept,
//! since all texts but a picture hang on lines, rectangles or view trees alone.
ghost use Rattle.std.specs.Prelude.{◌≡◌, ◌≢◌, true, map, reverse, IfOk};
ghost use Rattle.flat_play.specs.Playing.{HasPlayed};
ghost use Rattle.flat_play.specs.Touches.{touch_of};
ghost use Rattle.flat_page.specs.Steps.{without_items};
ghost use Rattle.flat_playable.specs.Playable.{is_playable};
ghost use Rattle.flat_pointer.specs.Text.{pointer_text};
ghost use Rattle.flat_focus.specs.Text.{focus_text};
ghost use Rattle.flat_report.specs.Probes.{ProbesAnswered, frames_seen};
ghost use Rattle.flat_report.specs.Report.{finished, report};
ghost use Rattle.flat_rules.specs.Legal.{Legal};
ghost use Rattle.flat_play.specs.declared.kept_frames.FramesToKeep.TheVariants as keeping;
ghost use Rattle.flat_play.specs.Keeping.{keeping_of};
ghost use Rattle.flat_words.specs.declared.service_word.ServiceWord.TheVariants.{Film, Judge, Pointer, Render, Why};
ghost use Rattle.flat_texts.specs.Damages.{IsDamageText};
ghost use Rattle.flat_texts.specs.Lines.{finish_lines};
ghost use Rattle.flat_texts.specs.Pictures.{picture_text};
ghost use Rattle.flat_run.specs.Answering.{IsRunnable, ran_of};
ghost use Rattle.flat_run.specs.Forms.{is_read, Fits, IsTextOf};
ghost use Rattle.flat_run.specs.Kept.{keeping_for};

use crate::reading::ParsedText;
use flat_base::{Items, NoMemory};
use flat_core::shown_states_fit;
use flat_focus::{focus_laws, print_focus};
use flat_places::Script;
use flat_play::{FinishedPlay, FramesToKeep, let_go};
use flat_pointer::{PointerTouch, pointer_laws, print_pointers};
use flat_report::{RunRecord, TextPieces, handed_is_report, print_report_on};
use flat_rules::items_are_drawable;
use flat_scene::FrameOut;
use flat_texts::{finish_lines, picture_of};
use flat_tree::views_are_a_tree;
use flat_words::ServiceWord;
use std::alloc::Global;
use std::thread::Threads;

/// What a run keeps of its frames for what a form writes.
pub(crate) fn keeping_for(form: ServiceWord) -> FramesToKeep
    ensures { result ≡ keeping_for form }
{
    match form {
        ServiceWord::Play | ServiceWord::Race => FramesToKeep::Texts,
        ServiceWord::Damage => FramesToKeep::Damages,
        ServiceWord::Focus | ServiceWord::Pointer => FramesToKeep::Trees,
        ServiceWord::Render
        | ServiceWord::Stress(_)
        | ServiceWord::Judge
        | ServiceWord::Why
        | ServiceWord::Film => FramesToKeep::Last,
    }
}

/// The report of a script that was run to its end.
fn report_of<T: Threads + Sync>(
    rt: &T,
    alloc: Global,
    script: &Script,
    played: FinishedPlay,
) -> Result<TextPieces, NoMemory>
    requires playable { is_playable script.now ≡ true }
    requires played { HasPlayed script.now played.board played.kept played.answers }
    requires probes { ProbesAnswered script.now played.board.history played.probes.items }
    requires keeping { keeping_of played.kept ≡ keeping.Texts }
    ensures { IfOk result (λ text. text ≡
        report script.now played.board.history played.set.lost (frames_seen played.probes.items)) }
{
    handed_is_report();
    let FinishedPlay {
        board,
        kept,
        answers,
        probes,
        set,
    } = played;
    let frames = kept.into_texts();
    let lost = set.lost();
    let answered = probes.as_slice();
    let run = RunRecord {
        journal: board.journal(),
        frames: &frames,
        lost,
        answers: &answers,
        probes: answered,
    };
    let text = print_report_on(rt, alloc, script, &run);
    drop(frames);
    let_go(board);
    text
}

/// The picture of the last frame of a run.
fn last_picture<T: Threads + Sync>(
    rt: &T,
    alloc: Global,
    script: &Script,
    played: &FinishedPlay,
) -> Result<TextPieces, NoMemory>
    requires playable { is_playable script.now ≡ true }
    requires played { HasPlayed script.now played.now.board played.now.kept played.now.answers }
    requires fits { Fits Render script.now }
    ensures { IfOk result (λ text. text ≡
        picture_text script.now.setup (finished script.now.setup played.now.board.history)) }
{
    items_are_drawable();
    picture_of(rt, alloc, &script.setup, played.kept.last())
}

/// The numbers of the lines that finished a run's frames, and the frames without their
/// items.
fn finished_of(
    alloc: Global,
    script: &Script,
    played: FinishedPlay,
) -> Result<(Vec<u32>, Items<FrameOut>), NoMemory>
    requires played { HasPlayed script.now played.board played.kept played.answers }
    requires keeping { keeping_of played.kept ≡ keeping.Trees }
    ensures lines { IfOk result (λ r. r.0.items ≡ finish_lines (reverse played.board.history)) }
    ensures frames { IfOk result
        (λ r. r.1 ≡ map without_items (finished script.now.setup played.board.history)) }
    ensures legal { Legal played.board.setup played.board.history }
{
    let Ok(dones) = finish_lines(alloc, played.board.journal().entries.as_slice()) else {
        played.let_go();
        return Err(NoMemory);
    };
    let frames = played.into_kept().into_trees().into_frames()?;
    Ok((dones, frames))
}

/// Who had the focus in a run.
fn focus_of(alloc: Global, reading: &ParsedText, played: FinishedPlay) -> Result<Vec<u8>, NoMemory>
    requires played { HasPlayed reading.now.script played.board played.kept played.answers }
    requires keeping { keeping_of played.kept ≡ keeping.Trees }
    ensures { IfOk result (λ text. text.items ≡
        focus_text reading.now.script.sessions (finish_lines (reverse played.board.history))
        (finished reading.now.script.setup played.board.history) reading.now.focus) }
{
    views_are_a_tree();
    shown_states_fit();
    focus_laws();
    let script = &reading.script;
    let (dones, frames) = finished_of(alloc, script, played)?;
    print_focus(
        alloc,
        script.setup.sessions,
        &script.sessions,
        dones.as_slice(),
        frames.as_slice(),
        reading.focus.as_slice(),
    )
}

/// To which sessions the pointers' lines went in a run.
fn pointers_of(
    alloc: Global,
    reading: &ParsedText,
    played: FinishedPlay,
    touches: &[PointerTouch],
) -> Result<Vec<u8>, NoMemory>
    requires runnable { IsRunnable reading.now }
    requires played { HasPlayed reading.now.script played.board played.kept played.answers }
    requires keeping { keeping_of played.kept ≡ keeping.Trees }
    requires touches { touches.now ≡
        map (touch_of reading.now.script.setup played.board.history) reading.now.pointers }
    ensures { IfOk result (λ text. text.items ≡ pointer_text reading.now.script.sessions
        (finish_lines (reverse played.board.history))
        (finished reading.now.script.setup played.board.history) touches.now) }
{
    pointer_laws();
    let script = &reading.script;
    let (dones, frames) = finished_of(alloc, script, played)?;
    print_pointers(
        alloc,
        &script.sessions,
        dones.as_slice(),
        frames.as_slice(),
        touches,
    )
}

/// What changed from frame to frame in a run.
fn damages_of(script: &Script, played: FinishedPlay) -> Result<Vec<u8>, NoMemory>
    requires played { HasPlayed script.now played.board played.kept played.answers }
    requires keeping { keeping_of played.kept ≡ keeping.Damages }
    ensures { IfOk result
        (λ text. IsDamageText (finished script.now.setup played.board.history) text.items) }
{
    played.into_kept().into_damages().text()
}

/// The lines that a form writes of a run in place of its report.
fn lines_of(
    alloc: Global,
    form: ServiceWord,
    reading: &ParsedText,
    played: FinishedPlay,
    touches: &[PointerTouch],
) -> Result<Vec<u8>, NoMemory>
    requires read { is_read form ≡ true }
    requires other { form ≢ Why }
    requires no_judge { form ≢ Judge }
    requires unfilmed { form ≢ Film }
    requires no_picture { form ≢ Render }
    requires keeping { keeping_of played.kept ≡ keeping_for form }
    requires lines { keeping_for form ≢ keeping.Texts }
    requires runnable { IsRunnable reading.now }
    requires fits { Fits form reading.now.script }
    requires played { HasPlayed reading.now.script played.board played.kept played.answers }
    requires touches { form ≡ Pointer → touches.now ≡
        map (touch_of reading.now.script.setup played.board.history) reading.now.pointers }
    ensures { IfOk result (λ text. IsTextOf form (ran_of reading.now played.board.history
        played.set.lost (frames_seen played.probes.items)) text.items) }
{
    match form {
        ServiceWord::Play
        | ServiceWord::Race
        | ServiceWord::Render
        | ServiceWord::Stress(_)
        | ServiceWord::Judge
        | ServiceWord::Why
        | ServiceWord::Film => unreachable!(),
        ServiceWord::Damage => damages_of(&reading.script, played),
        ServiceWord::Focus => focus_of(alloc, reading, played),
        ServiceWord::Pointer => pointers_of(alloc, reading, played, touches),
    }
}

/// What a form writes of a run.
pub(crate) fn text_of<T: Threads + Sync>(
    rt: &T,
    alloc: Global,
    form: ServiceWord,
    reading: &ParsedText,
    played: FinishedPlay,
    touches: &[PointerTouch],
) -> Result<TextPieces, NoMemory>
    requires read { is_read form ≡ true }
    requires other { form ≢ Why }
    requires no_judge { form ≢ Judge }
    requires unfilmed { form ≢ Film }
    requires keeping { keeping_of played.kept ≡ keeping_for form }
    requires runnable { IsRunnable reading.now }
    requires fits { Fits form reading.now.script }
    requires played { HasPlayed reading.now.script played.board played.kept played.answers }
    requires probes { ProbesAnswered reading.now.script played.board.history played.probes.items }
    requires touches { form ≡ Pointer → touches.now ≡
        map (touch_of reading.now.script.setup played.board.history) reading.now.pointers }
    ensures { IfOk result (λ text. IsTextOf form (ran_of reading.now played.board.history
        played.set.lost (frames_seen played.probes.items)) text) }
{
    match form {
        ServiceWord::Play | ServiceWord::Race => report_of(rt, alloc, &reading.script, played),
        ServiceWord::Render => {
            let text = last_picture(rt, alloc, &reading.script, &played);
            played.let_go();
            text
        }
        _ => {
            let text = lines_of(alloc, form, reading, played, touches)?;
            let pieces = TextPieces::one(alloc, text)?;
            Ok(pieces)
        }
    }
}
