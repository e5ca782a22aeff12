//! A script with a report behind it, in one text.
ghost use Rattle.std.specs.Prelude.{◌≡◌, ◌≤◌, length, take, drop, IfOk};
ghost use Rattle.flat_judge.specs.Cuts.{IsCut, IsSaid, is_title};
ghost use Rattle.flat_judge.specs.Titles.{ScriptsHaveNoTitle};

use crate::judging::{ReportVerdict, judge};
use flat_base::NoMemory;
use flat_places::is_word;
use flat_playable::scripts_are_playable;
use flat_script::{ScriptError, ScriptFault, parse};
use flat_text::line;
use std::alloc::Global;

/// What is said of a text.
#[derive(Drop)]
pub enum JudgedText {
    /// It is a script, and this is said of the report behind it.
    Said(ReportVerdict),
    /// What stands before the report is no script.
    Refused(ScriptFault),
}

/// Whether a line begins a report.
fn is_title(line: &[u8]) -> bool
    ensures { result ≡ is_title line.now }
{
    is_word(line, "report flatland 1")
        || is_word(line, "report flatland 2")
        || is_word(line, "report flatland 3")
}

/// The place of the first line that begins a report, or the end of the text.
fn report_place(text: &[u8]) -> usize
    ensures within { result ≤ length text.now }
    ensures cut { IsCut text.now (take result text.now) (drop result text.now) }
{
    let mut rest = text;
    for _ in 0..text.len() {
        let Some((first, later)) = line(rest) else {
            return text.len();
        };
        if is_title(first) {
            return text.len() - rest.len();
        }
        rest = later;
    }
    text.len()
}

/// Judges a text that is a script with a report behind it. Where no line begins a report,
/// the report has no bytes.
pub fn judge_text(alloc: Global, text: &[u8]) -> Result<JudgedText, NoMemory>
    ensures { IfOk result (IsSaid text.now) }
{
    scripts_are_playable();
    let at = report_place(text);
    match parse(alloc, &text[..at]) {
        Ok(script) => {
            let verdict = judge(alloc, &script, &text[at..]);
            drop(script);
            Ok(JudgedText::Said(verdict?))
        }
        Err(ScriptError::Fault(fault)) => Ok(JudgedText::Refused(fault)),
        Err(ScriptError::Memory) => Err(NoMemory),
    }
}

/// No line of a script begins a report.
///
/// The call does nothing. Its contract is a law about the definitions.
pub fn scripts_have_no_title()
    ensures { ScriptsHaveNoTitle }
{}
