//! Answers of a probe that has come back, held against what was published.
ghost use Rattle.std.specs.Prelude.{◌≡◌, ◌<◌, true, length, map, OnOk, slice_get, slice_set, Some};
ghost use Rattle.flat_scene.specs.Setups.{at_ratio};
ghost use Rattle.flat_scene.specs.Heads.{is_setup};
ghost use Rattle.flat_topology.specs.Hits.{hit_list};
ghost use Rattle.flat_play.specs.Last.{IsLast, StaysLast};
ghost use Rattle.flat_report.specs.declared.probes.ProbeAnswer.{ProbeAnswer};
ghost use Rattle.flat_race.specs.Settling.{settled};

use flat_base::NoMemory;
use flat_play::LastFrame;
use flat_report::ProbeAnswers;
use flat_scene::Setup;
use std::alloc::Global;

/// Settles the answer at a place.
fn settle_at(
    alloc: Global,
    setup: &Setup,
    last: &mut LastFrame,
    answers: &mut ProbeAnswers,
    place: usize,
) -> Result<(), NoMemory>
    requires setup { is_setup setup.now ≡ true }
    requires is { IsLast setup.now last.old }
    requires place { place < length answers.old }
    ensures answers { (answer : ProbeAnswer) → slice_get answers.old place ≡ Some answer →
        OnOk result (answers.new ≡ slice_set answers.old place
        (settled last.old.frame.0 (hit_list (at_ratio last.old.ratio setup.now) last.old.reuse)
        answer)) }
    ensures stays { OnOk result (StaysLast setup.now last.old last.new) }
{
    let answer = answers.at(place);
    if answer.frame.0 <= last.frame.0 {
        return Ok(());
    }
    let answer = last.answer(alloc, setup, answer.actor, answer.line, answer.asked)?;
    answers.set(place, answer);
    Ok(())
}

/// Settles a probe's answers. Where the frame of one is above the last finished one, it
/// becomes the answer of that. No run meets this case: a probe sees finished frames alone.
/// But its thread can't say so when it comes back.
pub(crate) fn settle(
    alloc: Global,
    setup: &Setup,
    last: &mut LastFrame,
    answers: &mut ProbeAnswers,
) -> Result<(), NoMemory>
    requires setup { is_setup setup.now ≡ true }
    requires is { IsLast setup.now last.old }
    ensures answers { OnOk result (answers.new
        ≡ map (settled last.old.frame.0
        (hit_list (at_ratio last.old.ratio setup.now) last.old.reuse)) answers.old) }
    ensures stays { OnOk result (StaysLast setup.now last.old last.new) }
{
    for place in 0..answers.len() {
        settle_at(alloc, setup, last, answers, place)?;
    }
    Ok(())
}
