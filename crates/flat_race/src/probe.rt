//! A probe. It is lent memory, the script and the gate, and neither the stage nor leave to
//! wait: it can't hold an entry up. All that it knows of frames is a list that grows.
ghost use Rattle.std.specs.Prelude.{◌≡◌, ◌+◌, ◌<◌, [], ◌∷◌, ◌++◌, true, length, Some, slice_get};
ghost use Rattle.std.specs.Prelude.{IfOk, OnOk};
ghost use mathlib.Core.List.{IsPrefix};
ghost use Rattle.flat_base.specs.declared.ids.Actor.TheVariants.{Probe};
ghost use Rattle.flat_playable.specs.Playable.{is_playable};
ghost use Rattle.flat_report.specs.Report.{is_probe, probe_lines_of};
ghost use Rattle.flat_publish.specs.Frames.{last_number, IsRising};
ghost use Rattle.flat_report.specs.Probes.{answer_by, asked_hits, AreAnsweredBy};
ghost use Rattle.flat_race.specs.Probing.{HasAsked, ProbeStands, asked_line};
ghost use Rattle.flat_race.specs.Publishing.{hits_of};

use crate::gate::{ASKS, Gate, LOOKS, ask};
use flat_base::{Actor, FrameNo, NoMemory};
use flat_places::Script;
use flat_publish::Probe;
use flat_report::{ProbeAnswer, ProbeAnswers};
use flat_scene::{HitList, LineBody, ProbeLine, Reply};
use flat_waits::SharedWaits;
use std::alloc::Global;
use std::thread;

/// A probe that comes back, what it was answered, and whether it came to its end. Where it
/// didn't, it found no memory, and nothing is said of its answers.
#[derive(Drop)]
pub struct ProbeBack {
    pub probe: Probe,
    pub answers: ProbeAnswers,
    pub is_whole: bool,
}

/// What a probe's thread is lent: memory, the script that is run, the gate, and what says
/// that no frame comes any more; with the number of the probe.
#[derive(Drop)]
pub struct ProbeContext<'a, G> {
    pub alloc: Global,
    pub script: &'a Script,
    pub gate: &'a G,
    pub waits: &'a SharedWaits,
    pub probe: u32,
}

/// The number of a probe among the actors: they come after the sessions.
fn actor_of<G>(asking: &ProbeContext<G>) -> u32 {
    asking
        .script
        .setup
        .sessions
        .saturating_add(asking.probe)
        .saturating_add(1)
}

/// Looks until a frame of that number was published, or none comes any more, at most so
/// often as a Wait may look, and answers the number of the frame that it saw last. The gate
/// is asked before each look, with one budget of the line.
fn look_again<G: Gate>(
    asking: &ProbeContext<G>,
    probe: &mut Probe,
    number: u32,
    wanted: u32,
) -> Result<FrameNo, NoMemory>
    ensures home { probe.new.home ≡ probe.old.home }
    ensures grows { IsPrefix probe.old.frames probe.new.frames }
    ensures rising { OnOk result (IsRising probe.new.frames) }
    ensures frame { IfOk result (λ n. n.0 ≡ last_number probe.new.frames) }
{
    let actor = actor_of(asking);
    let mut left = ASKS;
    for _ in 1..LOOKS {
        left = ask(asking.gate, actor, number, left);
        let have_ended = asking.waits.have_frames_ended();
        let frame = probe.frame()?;
        if wanted <= frame.0 || have_ended {
            return Ok(frame);
        }
        thread::yield_now();
    }
    ask(asking.gate, actor, number, left);
    probe.frame()
}

/// What a line asks is answered by the frame that the probe saw last: its number, and
/// who is hit.
fn look<G: Gate>(
    asking: &ProbeContext<G>,
    probe: &mut Probe,
    number: u32,
    asked: ProbeLine,
) -> Result<(FrameNo, HitList), NoMemory>
    ensures home { probe.new.home ≡ probe.old.home }
    ensures grows { IsPrefix probe.old.frames probe.new.frames }
    ensures rising { OnOk result (IsRising probe.new.frames) }
    ensures frame { IfOk result (λ r. r.0.0 ≡ last_number probe.new.frames) }
    ensures hits { IfOk result (λ r. r.1
        ≡ asked_hits (hits_of probe.new.frames (last_number probe.new.frames)) asked) }
{
    match asked {
        ProbeLine::Hit(x, y) => {
            ask(asking.gate, actor_of(asking), number, ASKS);
            let (frame, hits) = probe.hit(asking.alloc, x, y)?;
            Ok((frame, hits))
        }
        ProbeLine::Await(n) => {
            let frame = look_again(asking, probe, number, n)?;
            Ok((frame, HitList::new(asking.alloc)))
        }
    }
}

/// Answers one line of the probe. The gate hears of it.
fn answer_line<G: Gate>(
    asking: &ProbeContext<G>,
    probe: &mut Probe,
    answers: &mut ProbeAnswers,
    number: u32,
    actor: Actor,
    asked: ProbeLine,
) -> Result<(), NoMemory>
    ensures home { probe.new.home ≡ probe.old.home }
    ensures grows { IsPrefix probe.old.frames probe.new.frames }
    ensures rising { OnOk result (IsRising probe.new.frames) }
    ensures more { OnOk result (answers.new ≡ answers.old ++ answer_by (hits_of probe.new.frames)
        (asked_line number actor asked, last_number probe.new.frames) ∷ []) }
{
    let (frame, hits) = look(asking, probe, number, asked)?;
    answers.push(ProbeAnswer {
        actor,
        line: number,
        asked,
        frame,
        hits,
    })?;
    asking.gate.passed(actor_of(asking), number, &Reply::Done);
    Ok(())
}

/// Whether the actor is the probe of that number.
fn is_probe(probe: u32, actor: Actor) -> bool
    ensures { result ≡ is_probe probe actor }
{
    match actor {
        Actor::Probe(p) => p == probe,
        _ => false,
    }
}

/// Answers the line at a place of the script, where it is the probe's.
fn answer_next<G: Gate>(
    asking: &ProbeContext<G>,
    probe: &mut Probe,
    answers: &mut ProbeAnswers,
    place: usize,
) -> Result<(), NoMemory>
    requires place { place < length asking.now.script.now.lines }
    requires playable { is_playable asking.now.script.now ≡ true }
    requires stands { ProbeStands asking.now.script.now asking.now.probe place probe.old
        answers.old }
    ensures home { probe.new.home ≡ probe.old.home }
    ensures stands { OnOk result (ProbeStands asking.now.script.now asking.now.probe
        (place + 1) probe.new answers.new) }
{
    let line = asking.script.lines.at(place);
    if !is_probe(asking.probe, line.actor) {
        return Ok(());
    }
    match line.body {
        LineBody::Probe(asked) => {
            answer_line(asking, probe, answers, line.number, line.actor, asked)?;
            Ok(())
        }
        _ => unreachable!(),
    }
}

/// Answers all lines of the probe.
fn answer_all<G: Gate>(
    asking: &ProbeContext<G>,
    probe: &mut Probe,
    answers: &mut ProbeAnswers,
) -> Result<(), NoMemory>
    requires playable { is_playable asking.now.script.now ≡ true }
    requires none { answers.old ≡ [] }
    ensures home { probe.new.home ≡ probe.old.home }
    ensures answered { OnOk result (AreAnsweredBy (hits_of probe.new.frames)
        (last_number probe.new.frames) (probe_lines_of asking.now.probe asking.now.script.now.lines)
        answers.new) }
{
    for place in 0..asking.script.lines.len() {
        answer_next(asking, probe, answers, place)?;
    }
    Ok(())
}

/// Runs a probe: each of its lines is answered by the frame that it saw last. It waits for
/// the gate alone. Where it finds no memory, it answers no further line, and says so by
/// `is_whole`; the probe comes back in any case.
pub fn run_probe<G: Gate>(asking: &ProbeContext<G>, mut probe: Probe) -> ProbeBack
    requires playable { is_playable asking.now.script.now ≡ true }
    ensures { HasAsked asking.now.script.now probe.home asking.now.probe result }
{
    let mut answers = ProbeAnswers::new(asking.alloc);
    let is_whole = answer_all(asking, &mut probe, &mut answers).is_ok();
    ProbeBack {
        probe,
        answers,
        is_whole,
    }
}
