//! The probes' threads. A thread can't hand back that the frames which it saw are those of
//! the history: so its promise, which is plain data, has the mark of the book in which they
//! stand, and the probe is met once all have ended.
ghost use Rattle.std.specs.Prelude.{◌≡◌, ◌<◌, true, [], length, replicate, Some, List, IfOk, OnOk};
ghost use Rattle.flat_playable.specs.Playable.{is_playable};
ghost use Rattle.flat_scene.specs.declared.script.ScriptLine.{ScriptLine};
ghost use Rattle.flat_scene.specs.Heads.{is_setup};
ghost use Rattle.flat_play.specs.Last.{IsLast, StaysLast};
ghost use Rattle.flat_publish.specs.Frames.{last_number};
ghost use Rattle.flat_publish.specs.State.{newcomer};
ghost use Rattle.flat_report.specs.Probes.{AreAnsweredBy};
ghost use Rattle.flat_race.specs.Probing.{HasAsked};
ghost use Rattle.flat_race.specs.Publishing.{hits_of};
ghost use Rattle.flat_race.specs.ProbeThreads.{AreAnswered, AreProbesOut, IsProbeOut};
ghost use Rattle.flat_race.specs.Settling.{LastIsPublished};

use crate::actor_context::ActorContext;
use crate::gate::Gate;
use crate::probe::{ProbeBack, ProbeContext, run_probe};
use crate::settling::settle;
use flat_base::NoMemory;
use flat_places::Script;
use flat_play::LastFrame;
use flat_publish::{BookMark, Probe, ProbeSeats, Published};
use flat_report::ProbeAnswers;
use flat_scene::Setup;
use std::alloc::Global;
use std::collections::VecDeque;
use std::thread::{Promise, PromisedHandle, Scope, Threads};

/// What a probe's thread promises of what it hands back.
#[derive(Drop)]
pub(crate) struct ProbePromise<'a> {
    script: &'a Script,
    home: BookMark,
    probe: u32,
}

impl<'a> Promise<ProbeBack> for ProbePromise<'a> {
    ghost use Rattle.flat_race.specs.Probing.{HasAsked};

    ghost kept_by = { λ p r. HasAsked p.script.now p.home p.probe r };
}

/// A probe that is out: a thread has it, or it was run here.
#[derive(Drop)]
pub(crate) enum LentProbe<'a> {
    Thread(PromisedHandle<ProbeBack, ProbePromise<'a>>),
    Here(ProbeBack),
}

impl<'a> LentProbe<'a> {
    /// Waits until the probe's run is over.
    fn wait<R: Threads>(
        self,
        rt: &R,
        script: &Script,
        published: &Published,
        probe: u32,
    ) -> ProbeBack
        requires { IsProbeOut script.now published.now.home probe self }
        ensures { HasAsked script.now published.now.home probe result }
    {
        match self {
            LentProbe::Thread(handle) => handle.join(rt),
            LentProbe::Here(back) => back,
        }
    }
}

/// Runs a probe on a thread of its own, or here where none can be started.
fn start<'s, E, R, G: Gate>(
    scope: &Scope<'s, E>,
    context: &ActorContext<'s, R, G>,
    home: BookMark,
    seat: Probe,
    probe: u32,
) -> LentProbe<'s>
    requires playable { is_playable context.now.script.now ≡ true }
    requires home { seat.home ≡ home }
    ensures { IsProbeOut context.now.script.now home probe result }
{
    let (alloc, script, gate, waits) = (context.alloc, context.script, context.gate, context.waits);
    match scope.spawn_with(
        ProbePromise {
            script,
            home,
            probe,
        },
        move || -> ProbeBack
            requires { is_playable script.now ≡ true }
            ensures { HasAsked script.entry.now seat.home probe result }
        {
            let asking = ProbeContext {
                alloc,
                script,
                gate,
                waits,
                probe,
            };
            run_probe(&asking, seat)
        },
    ) {
        Ok(handle) => LentProbe::Thread(handle),
        Err(refused) => LentProbe::Here((refused.value)()),
    }
}

/// Starts each probe, the first one first.
pub(crate) fn start_probes<'s, E, R: Threads, G: Gate>(
    scope: &Scope<'s, E>,
    context: &ActorContext<'s, R, G>,
    published: &Published,
    probes: &mut ProbeSeats,
) -> Result<VecDeque<LentProbe<'s>>, NoMemory>
    requires playable { is_playable context.now.script.now ≡ true }
    requires fresh { probes.old ≡ replicate context.now.script.now.setup.probes
        (Some (newcomer published.now.home)) }
    ensures out { IfOk result (λ out. AreProbesOut context.now.script.now published.now.home 0
        out.items) }
    ensures many { IfOk result (λ out. length out.items ≡ context.now.script.now.setup.probes) }
{
    let count = context.script.setup.probes;
    let mut out = VecDeque::with_capacity(context.alloc, count as usize)?;
    for probe in 0..count {
        let Some(seat) = probes.take(probe) else {
            unreachable!()
        };
        let started = start(scope, context, published.home(), seat, probe);
        out.push_back_reserved(started);
    }
    Ok(out)
}

/// A probe that came to its end meets what was published, whose last frame is the last
/// finished one, and its answers are held against that.
fn hold(
    alloc: Global,
    setup: &Setup,
    published: &mut Published,
    last: &mut LastFrame,
    back: &mut ProbeBack,
) -> Result<(), NoMemory>
    requires setup { is_setup setup.now ≡ true }
    requires is { IsLast setup.now last.old }
    requires home { back.old.probe.home ≡ published.old.home }
    requires last { LastIsPublished setup.now last.old published.old }
    ensures same { published.new ≡ published.old }
    ensures stays { OnOk result (StaysLast setup.now last.old last.new) }
    ensures answered { (lines : List ScriptLine) →
        (back.old.is_whole ≡ true → AreAnsweredBy (hits_of back.old.probe.frames)
        (last_number back.old.probe.frames) lines back.old.answers) →
        OnOk result (AreAnsweredBy (hits_of published.old.frames)
        (last_number published.old.frames) lines back.new.answers) }
{
    if !back.is_whole {
        return Err(NoMemory);
    }
    published.meet(&mut back.probe)?;
    back.probe.frame()?;
    settle(alloc, setup, last, &mut back.answers)?;
    Ok(())
}

/// The same of a probe that is let go.
fn meet(
    alloc: Global,
    setup: &Setup,
    published: &mut Published,
    last: &mut LastFrame,
    mut back: ProbeBack,
) -> Result<ProbeAnswers, NoMemory>
    requires setup { is_setup setup.now ≡ true }
    requires is { IsLast setup.now last.old }
    requires home { back.probe.home ≡ published.old.home }
    requires last { LastIsPublished setup.now last.old published.old }
    ensures same { published.new ≡ published.old }
    ensures stays { OnOk result (StaysLast setup.now last.old last.new) }
    ensures answered { (lines : List ScriptLine) →
        (back.is_whole ≡ true → AreAnsweredBy (hits_of back.probe.frames)
        (last_number back.probe.frames) lines back.answers) →
        IfOk result (λ answers. AreAnsweredBy (hits_of published.old.frames)
        (last_number published.old.frames) lines answers) }
{
    let held = hold(alloc, setup, published, last, &mut back);
    let ProbeBack { probe, answers, .. } = back;
    drop(probe);
    match held {
        Ok(()) => Ok(answers),
        Err(NoMemory) => Err(NoMemory),
    }
}

/// Waits for each probe, the first one first, and answers what each was answered.
pub(crate) fn meet_each<'s, R: Threads>(
    rt: &R,
    alloc: Global,
    script: &Script,
    published: &mut Published,
    last: &mut LastFrame,
    mut out: VecDeque<LentProbe<'s>>,
) -> Result<Vec<ProbeAnswers>, NoMemory>
    requires playable { is_playable script.now ≡ true }
    requires is { IsLast script.now.setup last.old }
    requires last { 0 < script.now.setup.probes → LastIsPublished script.now.setup last.old
        published.old }
    requires out { AreProbesOut script.now published.old.home 0 out.items }
    requires many { length out.items ≡ script.now.setup.probes }
    ensures answered { IfOk result (λ answers. AreAnswered script.now
        (record { home = published.old.home; frames = published.old.frames })
        script.now.setup.probes answers.items) }
    ensures stays { OnOk result (StaysLast script.now.setup last.old last.new) }
    ensures same { published.new ≡ published.old }
{
    let mut answers = Vec::new(alloc);
    let mut probe = 0;
    while let Some(next) = out.pop_front() {
        let back = next.wait(rt, script, published, probe);
        let Ok(met) = meet(alloc, &script.setup, published, last, back) else {
            drop(out);
            drop(answers);
            return Err(NoMemory);
        };
        let Ok(()) = answers.push(met) else {
            drop(out);
            drop(answers);
            return Err(NoMemory);
        };
        probe += 1;
    }
    Ok(answers)
}
