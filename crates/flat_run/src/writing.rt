//! Writing an answer. No status hangs on memory here: what is gathered is written as it comes
//! if there is none.
ghost use Rattle.std.specs.Prelude.{◌≡◌, ◌≢◌, ◌≤◌, ◌||◌, ◌==◌, ◌++◌, ℕ, List, IsTrue, Err, Ok, false};
ghost use Rattle.flat_io.specs.Told.{Appends};
ghost use Rattle.flat_io.specs.Whole.{AppendsPrefix};
ghost use Rattle.flat_run.specs.declared.answers.ServiceAnswer.{ServiceAnswer};
ghost use Rattle.flat_run.specs.declared.answers.NoAnswer.TheVariants.{Fault, Memory};
ghost use Rattle.flat_run.specs.Promise.{either_rose};
ghost use Rattle.flat_run.specs.Writing.{Writes};

use crate::answers::{NO_MEMORY, NoAnswer, READ_FAULT, ServiceAnswer, WRITE_FAULT};
use flat_io::{Sink, write_all};
use flat_report::TextPieces;
use std::alloc::Global;

/// Writes a text that stands whole, and answers its status.
pub(crate) fn write_text<W: Sink>(sink: &mut W, text: &[u8], status: u8) -> u8
    requires { status ≢ WRITE_FAULT }
    ensures whole { result ≡ status → Appends text.now (W.held sink.old) (W.held sink.new) }
    ensures part { result ≡ WRITE_FAULT →
        AppendsPrefix text.now (W.held sink.old) (W.held sink.new) }
    ensures fault { result ≡ WRITE_FAULT →
        IsTrue (either_rose (W.faults sink.old) (W.faults sink.new)
        (W.stalls sink.old) (W.stalls sink.new)) }
    ensures either { IsTrue (result == status || result == WRITE_FAULT) }
    ensures gains { (more : List ℕ) × Appends more (W.held sink.old) (W.held sink.new) }
    ensures faults { W.faults sink.old ≤ W.faults sink.new }
    ensures stalls { W.stalls sink.old ≤ W.stalls sink.new }
    ensures steady { result ≢ WRITE_FAULT → W.faults sink.new ≡ W.faults sink.old }
    ensures flows { result ≢ WRITE_FAULT → W.stalls sink.new ≡ W.stalls sink.old }
{
    match write_all(sink, text) {
        Ok(()) => status,
        Err(_) => WRITE_FAULT,
    }
}

/// Short runs of a text that follow one another are written at once, up to so many bytes.
const TOGETHER_BYTES: usize = 65_536;

/// A run that long is written by itself: another write costs less than a copy of it.
const LONG_BYTES: usize = 16_384;

/// Lets a run of a text wait behind what waits, if it is short and there is memory for it.
fn gather(waiting: &mut Vec<u8>, run: &[u8]) -> bool
    ensures waits { IsTrue result → waiting.new.items ≡ waiting.old.items ++ run.now }
    ensures stays { result ≡ false → waiting.new.items ≡ waiting.old.items }
{
    if run.len() >= LONG_BYTES {
        return false;
    }
    if run.len() > TOGETHER_BYTES.saturating_sub(waiting.len()) {
        return false;
    }
    waiting.extend_from_slice(run).is_ok()
}

/// Writes what waits and a run behind it, or lets the run wait too. It answers the status.
fn write_run<W: Sink>(sink: &mut W, waiting: &mut Vec<u8>, run: &[u8], status: u8) -> u8
    requires { status ≢ WRITE_FAULT }
    ensures whole { result ≡ status → (written : List ℕ)
        × Appends written (W.held sink.old) (W.held sink.new)
        × (waiting.old.items ++ run.now ≡ written ++ waiting.new.items) }
    ensures part { result ≡ WRITE_FAULT →
        AppendsPrefix (waiting.old.items ++ run.now) (W.held sink.old) (W.held sink.new) }
    ensures fault { result ≡ WRITE_FAULT →
        IsTrue (either_rose (W.faults sink.old) (W.faults sink.new)
        (W.stalls sink.old) (W.stalls sink.new)) }
    ensures either { IsTrue (result == status || result == WRITE_FAULT) }
    ensures gains { (more : List ℕ) × Appends more (W.held sink.old) (W.held sink.new) }
    ensures faults { W.faults sink.old ≤ W.faults sink.new }
    ensures stalls { W.stalls sink.old ≤ W.stalls sink.new }
    ensures steady { result ≢ WRITE_FAULT → W.faults sink.new ≡ W.faults sink.old }
    ensures flows { result ≢ WRITE_FAULT → W.stalls sink.new ≡ W.stalls sink.old }
{
    if gather(waiting, run) {
        return status;
    }
    if write_text(sink, waiting.as_slice(), status) == WRITE_FAULT {
        return WRITE_FAULT;
    }
    waiting.clear();
    write_text(sink, run, status)
}

/// Writes a text in pieces, short runs together, and answers its status. If memory is refused
/// for these, each is written by itself.
fn write_pieces<W: Sink>(sink: &mut W, alloc: Global, text: &TextPieces, status: u8) -> u8
    requires { status ≢ WRITE_FAULT }
    ensures whole { result ≡ status → Appends text.now (W.held sink.old) (W.held sink.new) }
    ensures part { result ≡ WRITE_FAULT →
        AppendsPrefix text.now (W.held sink.old) (W.held sink.new) }
    ensures fault { result ≡ WRITE_FAULT →
        IsTrue (either_rose (W.faults sink.old) (W.faults sink.new)
        (W.stalls sink.old) (W.stalls sink.new)) }
    ensures either { IsTrue (result == status || result == WRITE_FAULT) }
    ensures gains { (more : List ℕ) × Appends more (W.held sink.old) (W.held sink.new) }
    ensures faults { W.faults sink.old ≤ W.faults sink.new }
    ensures stalls { W.stalls sink.old ≤ W.stalls sink.new }
    ensures steady { result ≢ WRITE_FAULT → W.faults sink.new ≡ W.faults sink.old }
    ensures flows { result ≢ WRITE_FAULT → W.stalls sink.new ≡ W.stalls sink.old }
{
    let runs = text.as_slice();
    let mut waiting = Vec::new(alloc);
    for run in runs {
        if write_run(sink, &mut waiting, run.as_slice(), status) == WRITE_FAULT {
            return WRITE_FAULT;
        }
    }
    write_text(sink, waiting.as_slice(), status)
}

/// Writes an answer, and answers the status of its call. Where there is nothing to write,
/// the status says why.
pub(crate) fn write_answer<W: Sink>(
    sink: &mut W,
    alloc: Global,
    answer: Result<ServiceAnswer, NoAnswer>,
) -> u8
    requires { (one : ServiceAnswer) → answer ≡ Ok one → one.status ≢ WRITE_FAULT }
    ensures writes { (one : ServiceAnswer) → answer ≡ Ok one → Writes one.text one.status
        (record { held = W.held sink.old; faults = W.faults sink.old; stalls = W.stalls sink.old })
        (record { held = W.held sink.new; faults = W.faults sink.new; stalls = W.stalls sink.new })
        result }
    ensures fault { answer ≡ Err Fault → (result ≡ READ_FAULT) × (sink.new ≡ sink.old) }
    ensures memory { answer ≡ Err Memory → (result ≡ NO_MEMORY) × (sink.new ≡ sink.old) }
{
    match answer {
        Ok(answer) => write_pieces(sink, alloc, &answer.text, answer.status),
        Err(NoAnswer::Fault) => READ_FAULT,
        Err(NoAnswer::Memory) => NO_MEMORY,
    }
}
