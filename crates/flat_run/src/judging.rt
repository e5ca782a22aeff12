//! The word `judge`: whether a report is that of a run of the script before it. Nothing is
//! run for displays, and they are shown nothing.
ghost use Rattle.std.specs.Prelude.{◌≡◌, ◌≢◌, ◌≤◌, ℕ, List, IfOk, OnOk, IsTrue, Err};
ghost use Rattle.flat_io.specs.Counts.{has_risen};
ghost use Rattle.flat_judge.specs.declared.cutting.JudgedText.TheVariants.{Said};
ghost use Rattle.flat_page.specs.Pages.{Puts};
ghost use Rattle.flat_run.specs.Judging.{IsJudged, judged_status, judged_text, legal_line};
ghost use Rattle.flat_run.specs.Judging.{want_line, wrong_lines};
ghost use Rattle.flat_run.specs.Promise.{AreAll, AreGiven};

use crate::answers::{DONE, NoAnswer, ServiceAnswer, WRONG, refusal};
use flat_base::{Items, NoMemory};
use flat_io::{ReadAll, Source, read_all};
use flat_judge::{JudgedText, ReportVerdict, judge_text};
use flat_page::Page;
use flat_report::TextPieces;
use std::alloc::Global;

/// The most bytes that are judged: for a script with more of them behind it, memory would run
/// out.
const JUDGED_BYTES_MAX: usize = 1_099_511_627_776;

/// The line of a legal report.
fn legal_text(alloc: Global, entries: usize, frames: u32) -> Result<Vec<u8>, NoMemory>
    ensures { IfOk result (λ text. text.items ≡ legal_line entries frames) }
{
    let mut page = Page::new(alloc);
    page.numbered(b"legal entries ", entries as u64)?;
    page.numbered(b" frames ", frames as u64)?;
    page.put(b"\n")?;
    Ok(page.into_text())
}

/// Puts the line that the report of the run has there, if it has one.
fn push_want(page: &mut Page, want: &Option<Items<u8>>) -> Result<(), NoMemory>
    ensures { OnOk result (Puts (want_line want.now) page.old page.new) }
{
    if let Some(line) = want {
        page.put(b"want ")?;
        page.put(line.as_slice())?;
        page.put(b"\n")?;
    }
    Ok(())
}

/// The lines of a wrong report.
fn wrong_text(alloc: Global, number: u64, want: &Option<Items<u8>>) -> Result<Vec<u8>, NoMemory>
    ensures { IfOk result (λ text. text.items ≡ wrong_lines number want.now) }
{
    let mut page = Page::new(alloc);
    page.numbered(b"wrong line ", number)?;
    page.put(b"\n")?;
    push_want(&mut page, want)?;
    Ok(page.into_text())
}

/// What is written of a verdict.
fn verdict_answer(alloc: Global, verdict: &ReportVerdict) -> Result<ServiceAnswer, NoMemory>
    ensures status { IfOk result (λ answer. answer.status ≡ judged_status (Said verdict.now)) }
    ensures text { IfOk result (λ answer. answer.text ≡ judged_text (Said verdict.now)) }
{
    let (status, text) = match verdict {
        ReportVerdict::Legal(entries, frames) => (DONE, legal_text(alloc, *entries, *frames)?),
        ReportVerdict::Wrong(line, want) => (WRONG, wrong_text(alloc, *line, want)?),
    };
    Ok(ServiceAnswer {
        status,
        text: TextPieces::one(alloc, text)?,
    })
}

/// What is written of a text.
fn judged_answer(alloc: Global, bytes: &[u8]) -> Result<ServiceAnswer, NoMemory>
    ensures { IfOk result (λ answer. IsJudged bytes.now answer.status answer.text) }
{
    match judge_text(alloc, bytes)? {
        JudgedText::Said(verdict) => verdict_answer(alloc, &verdict),
        JudgedText::Refused(fault) => refusal(alloc, fault),
    }
}

/// Reads a source to its end, and judges it.
pub(crate) fn answer_judged<R: Source>(
    alloc: Global,
    source: &mut R,
) -> Result<ServiceAnswer, NoAnswer>
    ensures judged { IfOk result (λ answer. (bytes : List ℕ)
        × AreAll bytes (R.left source.old) (R.left source.new)
        × IsJudged bytes answer.status answer.text) }
    ensures fault { result ≡ Err NoAnswer.Fault →
        IsTrue (has_risen (R.faults source.old) (R.faults source.new)) }
    ensures given { (given : List ℕ) × AreGiven given (R.left source.old) (R.left source.new) }
    ensures counts { R.faults source.old ≤ R.faults source.new }
    ensures steady { result ≢ Err NoAnswer.Fault → R.faults source.new ≡ R.faults source.old }
{
    match read_all(alloc, source, JUDGED_BYTES_MAX) {
        Ok(bytes) => Ok(judged_answer(alloc, bytes.as_slice())?),
        Err(ReadAll::Fault) => Err(NoAnswer::Fault),
        Err(ReadAll::TooLong | ReadAll::Memory) => Err(NoAnswer::Memory),
    }
}
