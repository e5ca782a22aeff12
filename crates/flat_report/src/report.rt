//! The report, which composes nothing: it writes what it is handed, without a condition
//! (specs/Handed), and a law says when that is the report of a history.
ghost use Rattle.std.specs.Prelude.{◌≡◌, ◌++◌, ◌∷◌, [], List, OnOk, IfOk, map};
ghost use Rattle.flat_page.specs.Words.{text_of};
ghost use Rattle.flat_lines.specs.Ends.{end_line};
ghost use Rattle.flat_places.specs.declared.script.Script.{Script};
ghost use Rattle.flat_report.specs.declared.probes.ProbeAnswer.{ProbeAnswer};
ghost use Rattle.flat_report.specs.Handed.{answer_line, answers_text, handed_report};
ghost use Rattle.flat_report.specs.Sections.{Fits, whole_text};

use crate::apart::print_apart;
use crate::frame_texts::FrameTexts;
use crate::paged_text::PagedText;
use crate::probes::{ProbeAnswer, ProbeAnswers};
use crate::report_position::ReportPosition;
use crate::sections::{Section, push_section};
use crate::text_pieces::TextPieces;
use flat_base::{Actor, FrameNo, Items, NoMemory};
use flat_places::Script;
use flat_scene::{HitList, Journal, LostDisplay};
use std::alloc::Global;
use std::thread::Threads;

/// A journal with fewer entries is written by one thread, since threads cost more there than
/// they save.
const SHORT_JOURNAL: usize = 524_288;

/// The answer to a line that asks for a point of the display.
#[derive(Drop)]
pub struct HitAnswer {
    pub actor: Actor,
    /// The number of the line.
    pub line: u32,
    /// The frame in which it was asked; 0 where there was none.
    pub frame: FrameNo,
    pub hits: HitList,
}

/// Answers, in the order of the lines.
pub type HitAnswers = Items<HitAnswer>;

/// The line of an answer of a probe, on a page that isn't full yet.
fn push_answer(paged: &mut PagedText, script: &Script, answer: &ProbeAnswer) -> Result<(), NoMemory>
    ensures { OnOk result
        (paged.new ≡ paged.old ++ text_of (answer_line script.now answer.now ∷ [])) }
{
    paged.answer(script, answer)?;
    paged.turn_full()?;
    Ok(())
}

/// The lines of the answers of one probe.
fn push_answers(
    paged: &mut PagedText,
    script: &Script,
    answers: &[ProbeAnswer],
) -> Result<(), NoMemory>
    ensures { OnOk result
        (paged.new ≡ paged.old ++ text_of (map (answer_line script.now) answers.now)) }
{
    for answer in answers {
        push_answer(paged, script, answer)?;
    }
    Ok(())
}

/// The lines of all probes' answers.
fn push_probes(
    paged: &mut PagedText,
    script: &Script,
    probes: &[ProbeAnswers],
) -> Result<(), NoMemory>
    ensures { OnOk result (paged.new ≡ paged.old ++ answers_text script.now probes.now) }
{
    for answers in probes {
        push_answers(paged, script, answers.as_slice())?;
    }
    Ok(())
}

/// What stands behind the text of the entries, of which there are so many, and so many
/// finished frames: the probes' lines and the last line.
pub(crate) fn push_rest(
    paged: &mut PagedText,
    script: &Script,
    probes: &[ProbeAnswers],
    entries: usize,
    finished: u64,
) -> Result<(), NoMemory>
    ensures { OnOk result (paged.new ≡ paged.old
        ++ (answers_text script.now probes.now ++ text_of (end_line entries finished ∷ []))) }
{
    push_probes(paged, script, probes)?;
    paged.end(entries, finished)?;
    Ok(())
}

/// What a run leaves for its report.
#[derive(Clone, Copy)]
pub struct RunRecord<'a> {
    /// All entries and all events posted.
    pub journal: &'a Journal,
    /// The texts of the finished frames, one for each `done`.
    pub frames: &'a FrameTexts,
    /// The displays that were lost.
    pub lost: &'a [LostDisplay],
    /// The answers to the compositor's points, in order.
    pub answers: &'a HitAnswers,
    /// The answers of the probes, those of one probe behind those of another.
    pub probes: &'a [ProbeAnswers],
}

impl RunRecord<'_> {
    /// All entries, as one section.
    fn whole(&self) -> Section<'_>
        ensures text { (script : Script) (probes : List (List ProbeAnswer)) →
            whole_text script probes result ≡ handed_report script
            self.now.journal.now.entries.items
            self.now.journal.now.posts.items self.now.frames.now.texts.items self.now.lost.now
            self.now.answers.now probes }
        ensures fits { Fits result.start result.entries.now }
    {
        Section {
            start: ReportPosition::first(
                self.frames.as_slice(),
                self.answers.as_slice(),
                self.journal.posts.as_slice(),
            ),
            entries: self.journal.entries.as_slice(),
            lost: self.lost,
        }
    }
}

/// The first line, the text of all entries, and what stands behind it.
fn push_whole(
    paged: &mut PagedText,
    script: &Script,
    whole: &Section<'_>,
    probes: &[ProbeAnswers],
) -> Result<(), NoMemory>
    requires { Fits whole.now.start whole.now.entries.now }
    ensures { OnOk result (paged.new ≡ paged.old ++ whole_text script.now probes.now whole.now) }
{
    paged.title(script.version)?;
    let end = push_section(paged, script, whole)?;
    push_rest(paged, script, probes, end.place, end.finished)?;
    Ok(())
}

/// The report whose entries are these.
fn print_whole(
    alloc: Global,
    script: &Script,
    whole: &Section<'_>,
    probes: &[ProbeAnswers],
) -> Result<TextPieces, NoMemory>
    requires { Fits whole.now.start whole.now.entries.now }
    ensures { IfOk result (λ text. text ≡ whole_text script.now probes.now whole.now) }
{
    let mut paged = PagedText::new(alloc);
    let Ok(()) = push_whole(&mut paged, script, whole, probes) else {
        drop(paged);
        return Err(NoMemory);
    };
    paged.into_pieces()
}

/// The report of a run.
///
/// What is handed in is written as it is: with each entry of the journal its own
/// posts, with each `done` the text of the next frame and the displays in `lost` that
/// were lost at it, with each point the next answer; and behind the last entry the
/// answers of `probes`, which has those of one probe after those of another. Where all
/// that is what the rules say of the journal's history, the text is its report
/// (`handed_is_report`).
///
/// Long runs of frames are shared by the report, so that what it takes beside
/// them is the room of the other lines.
pub fn print_report(
    alloc: Global,
    script: &Script,
    run: &RunRecord<'_>,
) -> Result<TextPieces, NoMemory>
    ensures { IfOk result (λ text. text ≡ handed_report script.now
        run.now.journal.now.entries.items run.now.journal.now.posts.items
        run.now.frames.now.texts.items run.now.lost.now run.now.answers.now run.now.probes.now) }
{
    print_whole(alloc, script, &run.whole(), run.probes)
}

/// The same report, written by several threads where the journal is long: each writes a
/// section of the entries.
pub fn print_report_on<T: Threads + Sync>(
    rt: &T,
    alloc: Global,
    script: &Script,
    run: &RunRecord<'_>,
) -> Result<TextPieces, NoMemory>
    ensures { IfOk result (λ text. text ≡ handed_report script.now
        run.now.journal.now.entries.items run.now.journal.now.posts.items
        run.now.frames.now.texts.items run.now.lost.now run.now.answers.now run.now.probes.now) }
{
    if run.journal.entries.len() < SHORT_JOURNAL {
        return print_report(alloc, script, run);
    }
    print_apart(rt, alloc, script, &run.whole(), run.probes)
}
