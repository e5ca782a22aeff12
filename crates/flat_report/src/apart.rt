//! A long report is written in sections, each by a thread of its own where one can be made.
//! Before that one pass over the entries finds what is left before each section; it writes
//! nothing, so it is short.
ghost use Rattle.std.specs.Prelude.{◌≡◌, ◌++◌, ◌<◌, OnOk, IfOk, length, map, slice_index_or, true};
ghost use Rattle.std.specs.List.{concat, list_all};
ghost use Rattle.flat_places.specs.declared.script.Script.{Script};
ghost use Rattle.flat_report.specs.Sections.{AllFit, Fits, end_of, is_written, joined_text};
ghost use Rattle.flat_report.specs.Sections.{rest_of, section_text, sections_text, whole_text};
ghost use Rattle.flat_report.specs.Sections.{written_text};

use crate::paged_text::PagedText;
use crate::probes::ProbeAnswers;
use crate::report::push_rest;
use crate::report_position::ReportPosition;
use crate::sections::{Section, print_section, push_runs};
use crate::text_pieces::TextPieces;
use flat_base::NoMemory;
use flat_places::Script;
use std::alloc::Global;
use std::thread;
use std::thread::Threads;

/// As many sections as a report has at most, and so as many threads as write it.
const SECTIONS: usize = 8;

/// What was written of a section.
type Written = Result<TextPieces, NoMemory>;

/// Sections one behind another, and where the report stands after them.
#[derive(Drop)]
struct Cut<'a> {
    sections: Vec<Section<'a>>,
    end: ReportPosition<'a>,
}

/// Cuts a section into some of about the same number of entries.
fn sections_of<'a>(alloc: Global, whole: &Section<'a>) -> Result<Cut<'a>, NoMemory>
    requires { Fits whole.now.start whole.now.entries.now }
    ensures text { IfOk result (λ cut. (script : Script) →
        sections_text script cut.sections.items ≡ section_text script whole.now) }
    ensures fit { IfOk result (λ cut. AllFit cut.sections.items) }
    ensures end { IfOk result (λ cut. rest_of cut.end ≡ end_of whole.now) }
{
    let size = whole.entries.len() / SECTIONS + 1;
    let mut sections = Vec::new(alloc);
    let mut cursor = whole.start;
    let mut rest = whole.entries;
    while !rest.is_empty() {
        let (entries, later) = rest.split_at(rest.len().min(size));
        sections.push(Section {
            start: cursor,
            entries,
            lost: whole.lost,
        })?;
        cursor = cursor.skip(entries);
        rest = later;
    }
    Ok(Cut {
        sections,
        end: cursor,
    })
}

/// The texts of sections, each written by a thread of its own where one can be made.
fn print_sections<T: Threads + Sync>(
    rt: &T,
    alloc: Global,
    script: &Script,
    sections: &[Section<'_>],
) -> Result<Vec<Written>, NoMemory>
    requires { AllFit sections.now }
    ensures { IfOk result (λ texts. list_all is_written texts.items ≡ true →
        concat (map written_text texts.items) ≡ sections_text script.now sections.now) }
{
    let print = |i: usize| -> Written
        requires { AllFit sections.now × (i < length sections.now) }
        ensures { (d : _) → IfOk result (λ text. text ≡
            section_text script.entry.now (slice_index_or sections.entry.now i d)) }
    { print_section(alloc, script, &sections[i]) };
    Ok(thread::map_indices(rt, alloc, sections.len(), &print)?)
}

/// Puts the texts of sections.
fn push_written(paged: &mut PagedText, texts: &[Written]) -> Result<(), NoMemory>
    ensures text { OnOk result (paged.new ≡ paged.old ++ concat (map written_text texts.now)) }
    ensures all { OnOk result (list_all is_written texts.now ≡ true) }
{
    for text in texts {
        let Ok(pieces) = text else {
            return Err(NoMemory);
        };
        push_runs(paged, pieces.as_slice())?;
    }
    Ok(())
}

/// The first line, the texts of all sections, which end here, and what stands behind them.
fn push_joined(
    paged: &mut PagedText,
    script: &Script,
    texts: &[Written],
    end: &ReportPosition<'_>,
    probes: &[ProbeAnswers],
) -> Result<(), NoMemory>
    ensures text { OnOk result
        (paged.new ≡ paged.old ++ joined_text script.now probes.now texts.now end.now) }
    ensures all { OnOk result (list_all is_written texts.now ≡ true) }
{
    paged.title(script.version)?;
    push_written(paged, texts)?;
    push_rest(paged, script, probes, end.place, end.finished)?;
    Ok(())
}

/// The report whose entries have these texts.
fn print_joined(
    alloc: Global,
    script: &Script,
    texts: &[Written],
    end: &ReportPosition<'_>,
    probes: &[ProbeAnswers],
) -> Result<TextPieces, NoMemory>
    ensures text { IfOk result
        (λ text. text ≡ joined_text script.now probes.now texts.now end.now) }
    ensures all { IfOk result (λ text. list_all is_written texts.now ≡ true) }
{
    let mut paged = PagedText::new(alloc);
    let Ok(()) = push_joined(&mut paged, script, texts, end, probes) else {
        drop(paged);
        return Err(NoMemory);
    };
    paged.into_pieces()
}

/// The report whose entries are these, written by several threads.
pub(crate) fn print_apart<T: Threads + Sync>(
    rt: &T,
    alloc: Global,
    script: &Script,
    whole: &Section<'_>,
    probes: &[ProbeAnswers],
) -> Result<TextPieces, NoMemory>
    requires { Fits whole.now.start whole.now.entries.now }
    ensures { IfOk result (λ text. text ≡ whole_text script.now probes.now whole.now) }
{
    let cut = sections_of(alloc, whole)?;
    let texts = print_sections(rt, alloc, script, cut.sections.as_slice())?;
    let text = print_joined(alloc, script, texts.as_slice(), &cut.end, probes);
    drop(texts);
    text
}
