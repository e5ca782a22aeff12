//! The text of entries one behind another: a section of a report. Sections are written apart
//! from one another, since each knows what is left before its first entry.
ghost use Rattle.std.specs.Prelude.{◌≡◌, ◌++◌, ◌-◌, ◌<◌, ◌^◌, [], OnOk, IfOk, cond, map};
ghost use Rattle.std.specs.Arc.{arc_value};
ghost use Rattle.std.specs.List.{concat};
ghost use Rattle.flat_scene.specs.History.{is_finish};
ghost use Rattle.flat_report.specs.Handed.{after_entry, entry_text};
ghost use Rattle.flat_report.specs.Handed.{first_hits, handed_text, shown_text};
ghost use Rattle.flat_report.specs.Sections.{Fits, end_of, rest_of, section_text};

use crate::paged_text::PagedText;
use crate::report::HitAnswer;
use crate::report_position::ReportPosition;
use crate::text_pieces::{Run, TextPieces};
use flat_base::NoMemory;
use flat_places::Script;
use flat_scene::{Entry, EntryKind, Hit, LostDisplay, PostedEvent};
use std::alloc::Global;

/// Entries one behind another.
#[derive(Clone, Copy)]
pub(crate) struct Section<'a> {
    /// Where the report stands before the first of them.
    pub(crate) start: ReportPosition<'a>,
    pub(crate) entries: &'a [Entry],
    /// All displays that were lost in the run.
    pub(crate) lost: &'a [LostDisplay],
}

/// The hits of the first answer.
fn first_hits(answers: &[HitAnswer]) -> &[Hit]
    ensures { result.now ≡ first_hits answers.now }
{
    match answers {
        [first, ..] => first.hits.as_slice(),
        [] => &[],
    }
}

/// Puts runs of a text.
pub(crate) fn push_runs(paged: &mut PagedText, runs: &[Run]) -> Result<(), NoMemory>
    ensures { OnOk result (paged.new ≡ paged.old ++ concat (map arc_value runs.now)) }
{
    for run in runs {
        paged.add(run)?;
    }
    Ok(())
}

/// What stands between a done line and its events: the text of the frame, which is
/// the first of those left, and the lines of the displays that were lost at it.
fn push_shown(
    paged: &mut PagedText,
    lost: &[LostDisplay],
    number: u64,
    texts: &[TextPieces],
) -> Result<(), NoMemory>
    ensures { OnOk result (paged.new ≡ paged.old ++ shown_text lost.now number texts.now) }
{
    if let [text, ..] = texts {
        push_runs(paged, text.as_slice())?;
    }
    paged.losses(number, lost)?;
    Ok(())
}

/// The same, where an entry of this kind finishes a frame.
fn push_finished(
    paged: &mut PagedText,
    lost: &[LostDisplay],
    number: u64,
    texts: &[TextPieces],
    kind: &EntryKind,
) -> Result<(), NoMemory>
    ensures { OnOk result (paged.new ≡ paged.old
        ++ cond (is_finish kind.now) (shown_text lost.now number texts.now) []) }
{
    match kind {
        EntryKind::Finish => push_shown(paged, lost, number, texts),
        _ => Ok(()),
    }
}

/// The text of the entry before which a report stands, and which posts these events.
fn push_handed(
    paged: &mut PagedText,
    script: &Script,
    lost: &[LostDisplay],
    cursor: &ReportPosition<'_>,
    posts: &[PostedEvent],
    entry: &Entry,
) -> Result<(), NoMemory>
    requires { cursor.now.finished < 2 ^ 64 - 1 }
    ensures { OnOk result (paged.new ≡ paged.old ++ handed_text script.now lost.now
        cursor.now.finished
        cursor.now.texts.now cursor.now.answers.now posts.now entry.now) }
{
    paged.entry(script, cursor.finished, first_hits(cursor.answers), entry)?;
    push_finished(paged, lost, cursor.finished + 1, cursor.texts, &entry.kind)?;
    paged.posts(script, posts)?;
    paged.turn_full()?;
    Ok(())
}

/// The same by what is left there. It answers where the report stands after the entry.
fn push_next<'a>(
    paged: &mut PagedText,
    script: &Script,
    lost: &[LostDisplay],
    cursor: &ReportPosition<'a>,
    entry: &Entry,
) -> Result<ReportPosition<'a>, NoMemory>
    requires place { cursor.now.place < 2 ^ 63 }
    requires few { cursor.now.finished < 2 ^ 63 }
    ensures text { OnOk result
        (paged.new ≡ paged.old ++ entry_text script.now lost.now (rest_of cursor.now) entry.now) }
    ensures rest { IfOk result (λ next. rest_of next ≡ after_entry (rest_of cursor.now) entry.now) }
{
    let (own, later) = cursor.split_posts();
    push_handed(paged, script, lost, cursor, own, entry)?;
    Ok(cursor.after(entry, later))
}

/// Puts the text of a section. It answers where the report stands after it.
pub(crate) fn push_section<'a>(
    paged: &mut PagedText,
    script: &Script,
    section: &Section<'a>,
) -> Result<ReportPosition<'a>, NoMemory>
    requires { Fits section.now.start section.now.entries.now }
    ensures text { OnOk result (paged.new ≡ paged.old ++ section_text script.now section.now) }
    ensures rest { IfOk result (λ end. rest_of end ≡ end_of section.now) }
{
    let mut cursor = section.start;
    for entry in section.entries {
        cursor = push_next(paged, script, section.lost, &cursor, entry)?;
    }
    Ok(cursor)
}

/// The text of a section.
pub(crate) fn print_section(
    alloc: Global,
    script: &Script,
    section: &Section<'_>,
) -> Result<TextPieces, NoMemory>
    requires { Fits section.now.start section.now.entries.now }
    ensures { IfOk result (λ text. text ≡ section_text script.now section.now) }
{
    let mut paged = PagedText::new(alloc);
    let Ok(_) = push_section(&mut paged, script, section) else {
        drop(paged);
        return Err(NoMemory);
    };
    paged.into_pieces()
}
