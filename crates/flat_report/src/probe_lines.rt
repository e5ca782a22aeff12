//! The lines of probes.
ghost use Rattle.std.specs.Prelude.{◌∷◌, [], OnOk, codes};
ghost use Rattle.flat_page.specs.Pages.{Writes, WritesLines};
ghost use Rattle.flat_page.specs.Words.{number};
ghost use Rattle.flat_report.specs.Handed.{answer_line, probe_words};
ghost use Rattle.flat_report.specs.Probes.{frame_seen};

use crate::probes::ProbeAnswer;
use flat_base::NoMemory;
use flat_lines::{push_long, push_point};
use flat_page::{Page, actor_name};
use flat_places::Script;
use flat_scene::ProbeLine;

fn push_await(page: &mut Page, frame: u64) -> Result<(), NoMemory>
    ensures { OnOk result
        (Writes (codes "await" ∷ codes "frame" ∷ number frame ∷ []) page.old page.new) }
{
    page.word(b"await")?;
    push_long(page, b"frame", frame)
}

/// What is said of an answer behind the number of its line, by what the line asks.
fn push_probe_words(page: &mut Page, script: &Script, answer: &ProbeAnswer) -> Result<(), NoMemory>
    ensures { OnOk result (Writes (probe_words script.now answer.now.asked
        (frame_seen answer.now) answer.now.hits) page.old page.new) }
{
    let frame = answer.frame.0 as u64;
    match answer.asked {
        ProbeLine::Hit(x, y) => push_point(page, script, x, y, frame, answer.hits.as_slice()),
        ProbeLine::Await(_) => push_await(page, frame),
    }
}

fn push_probe_said(page: &mut Page, script: &Script, answer: &ProbeAnswer) -> Result<(), NoMemory>
    ensures { OnOk result (Writes (number answer.now.line ∷ probe_words script.now answer.now.asked
        (frame_seen answer.now) answer.now.hits) page.old page.new) }
{
    page.count(answer.line as u64)?;
    push_probe_words(page, script, answer)?;
    Ok(())
}

/// The line of an answer.
pub(crate) fn push_probe_line(
    page: &mut Page,
    script: &Script,
    answer: &ProbeAnswer,
) -> Result<(), NoMemory>
    ensures { OnOk result (WritesLines (answer_line script.now answer.now ∷ []) page.old page.new) }
{
    page.put(actor_name(script, answer.actor))?;
    push_probe_said(page, script, answer)?;
    page.put(b"\n")?;
    Ok(())
}
