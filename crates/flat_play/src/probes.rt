//! Probes that are asked while a script is played. Nobody reads beside the compositor
//! then, so that a probe is answered by the frame that was finished last, as it is kept.
ghost use Rattle.std.specs.Prelude.{◌≡◌, ◌<◌, ℕ, [], true, length, replicate, Some, IfOk, OnOk};
ghost use Rattle.flat_scene.specs.declared.script.ProbeLine.{ProbeLine};
ghost use Rattle.flat_scene.specs.Setups.{at_ratio};
ghost use Rattle.flat_scene.specs.Heads.{is_setup};
ghost use Rattle.flat_play.specs.Last.{IsLast, StaysLast};
ghost use Rattle.flat_play.specs.Probing.{asked_of, answers_after};

use crate::frame::LastFrame;
use flat_base::{Actor, NoMemory};
use flat_report::ProbeAnswers;
use flat_scene::{LineBody, ProbeLine, ScriptLine, Setup};
use std::alloc::Global;

/// So many probes, none of which was asked anything.
pub fn no_answers(alloc: Global, probes: u32) -> Result<Vec<ProbeAnswers>, NoMemory>
    ensures { IfOk result (λ answers. answers.items ≡ replicate probes []) }
{
    let mut answers = Vec::new(alloc);
    for _ in 0..probes {
        answers.push(ProbeAnswers::new(alloc))?;
    }
    Ok(answers)
}

/// Which probe a line asks, and what.
fn asked_of(line: &ScriptLine) -> Option<(u32, ProbeLine)>
    ensures { result ≡ asked_of line.now.actor line.now.body }
{
    match (line.actor, &line.body) {
        (Actor::Probe(p), LineBody::Probe(asked)) => Some((p, *asked)),
        _ => None,
    }
}

/// Answers a line where it asks a probe.
pub(crate) fn answer_line(
    alloc: Global,
    setup: &Setup,
    last: &mut LastFrame,
    line: &ScriptLine,
    answers: &mut Vec<ProbeAnswers>,
) -> Result<(), NoMemory>
    requires setup { is_setup setup.now ≡ true }
    requires is { IsLast setup.now last.old }
    requires known { (p : ℕ) (asked : ProbeLine) → asked_of line.now.actor line.now.body
        ≡ Some (p, asked) → p < length answers.old.items }
    ensures answers { OnOk result (answers.new.items
        ≡ answers_after (at_ratio last.old.ratio setup.now) last.old.reuse last.old.frame.0
        line.now.number (asked_of line.now.actor line.now.body) answers.old.items) }
    ensures stays { OnOk result (StaysLast setup.now last.old last.new) }
{
    let Some((p, asked)) = asked_of(line) else {
        return Ok(());
    };
    let answer = last.answer(alloc, setup, Actor::Probe(p), line.number, asked)?;
    answers[p as usize].push(answer)
}
