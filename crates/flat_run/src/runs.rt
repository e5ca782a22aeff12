//! Runs a script in written order or in a race, and makes the whole text of its form before
//! the first byte is written. So the program never runs out of memory halfway through a
//! report.
ghost use Rattle.std.specs.Prelude.{◌≡◌, ◌≢◌, ◌<◌, ◌^◌, [], ℕ, List, true, false, map, length, IfOk, Ok, Err};
ghost use Rattle.flat_words.specs.declared.service_word.ServiceWord.TheVariants.{Film, Judge, Pointer, Race, Why};
ghost use Rattle.flat_words.specs.Forms.{IsAllowed};
ghost use Rattle.flat_display.specs.Had.{AreKept};
ghost use Rattle.flat_play.specs.Beginning.{AreBegun};
ghost use Rattle.flat_play.specs.Runs.{HasRunInOrder};
ghost use Rattle.flat_play.specs.Touches.{touch_of};
ghost use Rattle.flat_run.specs.Answering.{Answers, IsRunnable};
ghost use Rattle.flat_run.specs.Forms.{Fits, form_read, is_read};
ghost use Rattle.flat_run.specs.Kept.{keeping_for};
ghost use Rattle.flat_run.specs.Promise.{IsTold};

use crate::answers::{DONE, NoAnswer, ServiceAnswer};
use crate::film::film_told;
use crate::given::{Given, read_source};
use crate::judging::answer_judged;
use crate::load::stress;
use crate::reading::ParsedText;
use crate::texts::{keeping_for, text_of};
use crate::why::why_told;
use flat_base::NoMemory;
use flat_display::Display;
use flat_io::Source;
use flat_play::{FinishedPlay, FramesToKeep, play_script, play_touched};
use flat_pointer::PointerTouch;
use flat_race::{Gate, race_script};
use flat_report::{TextPieces, due_presents_are_taken, frames_are_seen};
use flat_rules::families_are_alone;
use flat_words::ServiceWord;
use std::alloc::Global;
use std::sync::Wait;
use std::thread::Threads;

/// Plays what was read, in written order. Pointers' lines are answered on the way.
fn play_reading(
    alloc: Global,
    form: ServiceWord,
    reading: &ParsedText,
    displays: &mut Vec<Box<dyn Display>>,
) -> Result<(FinishedPlay, Vec<PointerTouch>), NoMemory>
    requires runnable { IsRunnable reading.now }
    requires few { length displays.old.items < 2 ^ 32 }
    ensures run { IfOk result (λ ran. HasRunInOrder (λ d. shown d) (λ d. faults d)
        reading.now.script displays.old.items displays.new.items (keeping_for form) ran.0) }
    ensures touches { form ≡ Pointer → IfOk result (λ ran. ran.1.items ≡
        map (touch_of reading.now.script.setup ran.0.board.history) reading.now.pointers) }
    ensures kept { AreKept (λ d. shown d) (λ d. faults d) (AreBegun reading.now.script)
        displays.old.items displays.new.items (λ d. d.vtable) }
{
    let keeping = keeping_for(form);
    match form {
        ServiceWord::Pointer => {
            let lines = reading.pointers.as_slice();
            play_touched(alloc, &reading.script, keeping, lines, displays)
        }
        _ => {
            let played = play_script(alloc, &reading.script, keeping, displays)?;
            Ok((played, Vec::new(alloc)))
        }
    }
}

/// Plays what was read, and makes what its form writes of the run.
fn told<T: Threads + Sync>(
    rt: &T,
    alloc: Global,
    form: ServiceWord,
    reading: &ParsedText,
    displays: &mut Vec<Box<dyn Display>>,
) -> Result<TextPieces, NoMemory>
    requires read { is_read form ≡ true }
    requires of_run { form ≢ Why }
    requires no_judge { form ≢ Judge }
    requires unfilmed { form ≢ Film }
    requires runnable { IsRunnable reading.now }
    requires fits { Fits form reading.now.script }
    requires few { length displays.old.items < 2 ^ 32 }
    ensures told { (bytes : List ℕ) → form_read form bytes ≡ Ok reading.now →
        IfOk result (λ text. IsTold (λ d. shown d) (λ d. faults d)
        displays.old.items displays.new.items form bytes text) }
    ensures kept { AreKept (λ d. shown d) (λ d. faults d) (AreBegun reading.now.script)
        displays.old.items displays.new.items (λ d. d.vtable) }
{
    families_are_alone();
    due_presents_are_taken();
    frames_are_seen();
    let (played, touches) = play_reading(alloc, form, reading, displays)?;
    // proof: the entries so far are legal.
    let _journal = played.board.journal();
    text_of(rt, alloc, form, reading, played, touches.as_slice())
}

/// Plays what was read, and makes what its form writes.
fn told_for<T: Threads + Sync>(
    rt: &T,
    alloc: Global,
    form: ServiceWord,
    reading: &ParsedText,
    displays: &mut Vec<Box<dyn Display>>,
) -> Result<TextPieces, NoMemory>
    requires read { is_read form ≡ true }
    requires no_judge { form ≢ Judge }
    requires runnable { IsRunnable reading.now }
    requires fits { Fits form reading.now.script }
    requires few { length displays.old.items < 2 ^ 32 }
    ensures told { (bytes : List ℕ) → form_read form bytes ≡ Ok reading.now →
        IfOk result (λ text. IsTold (λ d. shown d) (λ d. faults d)
        displays.old.items displays.new.items form bytes text) }
    ensures kept { AreKept (λ d. shown d) (λ d. faults d) (AreBegun reading.now.script)
        displays.old.items displays.new.items (λ d. d.vtable) }
{
    match form {
        ServiceWord::Why => why_told(alloc, reading, displays),
        ServiceWord::Film => film_told(rt, alloc, reading, displays),
        _ => told(rt, alloc, form, reading, displays),
    }
}

/// Races what was read, and makes its report.
fn raced<T: Threads + Wait + Sync, G: Gate>(
    rt: &T,
    alloc: Global,
    reading: &ParsedText,
    displays: &mut Vec<Box<dyn Display>>,
    gate: &G,
) -> Result<TextPieces, NoMemory>
    requires runnable { IsRunnable reading.now }
    requires few { length displays.old.items < 2 ^ 32 }
    ensures told { (bytes : List ℕ) → form_read Race bytes ≡ Ok reading.now →
        IfOk result (λ text. IsTold (λ d. shown d) (λ d. faults d)
        displays.old.items displays.new.items Race bytes text) }
    ensures kept { AreKept (λ d. shown d) (λ d. faults d) (AreBegun reading.now.script)
        displays.old.items displays.new.items (λ d. d.vtable) }
{
    families_are_alone();
    due_presents_are_taken();
    frames_are_seen();
    let played = race_script(
        rt,
        alloc,
        &reading.script,
        FramesToKeep::Texts,
        displays,
        gate,
    )?;
    // proof: the entries so far are legal.
    let _journal = played.board.journal();
    text_of(rt, alloc, ServiceWord::Race, reading, played, &[])
}

/// Reads a source, and plays what it gives.
fn answer_read<T: Threads + Sync, R: Source>(
    rt: &T,
    alloc: Global,
    form: ServiceWord,
    source: &mut R,
    displays: &mut Vec<Box<dyn Display>>,
) -> Result<ServiceAnswer, NoAnswer>
    requires read { is_read form ≡ true }
    requires in_order { form ≢ Race }
    requires no_judge { form ≢ Judge }
    requires few { length displays.old.items < 2 ^ 32 }
    ensures answers { Answers (λ d. shown d) (λ d. (Display-box d).faults d.value)
        (λ d. d.vtable) form
        (record { left = R.left source.old; faults = R.faults source.old })
        (record { left = R.left source.new; faults = R.faults source.new })
        displays.old.items displays.new.items result }
    ensures untouched { IfOk result
        (λ answer. answer.status ≢ DONE → displays.new ≡ displays.old) }
    ensures failed { result ≡ Err NoAnswer.Fault → displays.new ≡ displays.old }
{
    let reading = match read_source(rt, alloc, form, source) {
        Ok(Given::Script(reading)) => reading,
        Ok(Given::Refused(answer)) => return Ok(answer),
        Err(why) => return Err(why),
    };
    let text = told_for(rt, alloc, form, &reading, displays);
    drop(reading);
    match text {
        Ok(text) => Ok(ServiceAnswer { status: DONE, text }),
        Err(NoMemory) => Err(NoAnswer::Memory),
    }
}

/// Answers a form in written order: reads its script, or makes that of a load, and plays it.
pub(crate) fn answer_in_order<T: Threads + Sync, R: Source>(
    rt: &T,
    alloc: Global,
    form: ServiceWord,
    source: &mut R,
    displays: &mut Vec<Box<dyn Display>>,
) -> Result<ServiceAnswer, NoAnswer>
    requires allowed { IsAllowed form }
    requires in_order { form ≢ Race }
    requires few { length displays.old.items < 2 ^ 32 }
    ensures answers { Answers (λ d. shown d) (λ d. (Display-box d).faults d.value)
        (λ d. d.vtable) form
        (record { left = R.left source.old; faults = R.faults source.old })
        (record { left = R.left source.new; faults = R.faults source.new })
        displays.old.items displays.new.items result }
    ensures untouched { IfOk result
        (λ answer. answer.status ≢ DONE → displays.new ≡ displays.old) }
    ensures failed { result ≡ Err NoAnswer.Fault → displays.new ≡ displays.old }
    ensures unread { is_read form ≡ false → source.new ≡ source.old }
{
    match form {
        ServiceWord::Stress(frames) => match stress(alloc, frames, displays) {
            Ok(answer) => Ok(answer),
            Err(NoMemory) => Err(NoAnswer::Memory),
        },
        ServiceWord::Judge => answer_judged(alloc, source),
        _ => answer_read(rt, alloc, form, source, displays),
    }
}

/// Reads a source, and races what it gives.
pub(crate) fn answer_race<T: Threads + Wait + Sync, R: Source, G: Gate>(
    rt: &T,
    alloc: Global,
    source: &mut R,
    displays: &mut Vec<Box<dyn Display>>,
    gate: &G,
) -> Result<ServiceAnswer, NoAnswer>
    requires few { length displays.old.items < 2 ^ 32 }
    ensures answers { Answers (λ d. shown d) (λ d. (Display-box d).faults d.value)
        (λ d. d.vtable) Race
        (record { left = R.left source.old; faults = R.faults source.old })
        (record { left = R.left source.new; faults = R.faults source.new })
        displays.old.items displays.new.items result }
    ensures untouched { IfOk result
        (λ answer. answer.status ≢ DONE → displays.new ≡ displays.old) }
    ensures failed { result ≡ Err NoAnswer.Fault → displays.new ≡ displays.old }
{
    let reading = match read_source(rt, alloc, ServiceWord::Race, source) {
        Ok(Given::Script(reading)) => reading,
        Ok(Given::Refused(answer)) => return Ok(answer),
        Err(why) => return Err(why),
    };
    let text = raced(rt, alloc, &reading, displays, gate);
    drop(reading);
    match text {
        Ok(text) => Ok(ServiceAnswer { status: DONE, text }),
        Err(NoMemory) => Err(NoAnswer::Memory),
    }
}
