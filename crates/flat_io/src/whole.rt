ghost use Rattle.std.specs.Prelude.{◌≡◌, ◌≢◌, ◌+◌, ◌≤◌, [], length, IfOk, IfErr, OnOk, OnErr, IsTrue, MatchResult};
ghost use Rattle.std.specs.Prelude.{◌||◌};
ghost use Rattle.flat_io.specs.Counts.{has_risen};
ghost use Rattle.flat_io.specs.Told.{Appends};
ghost use Rattle.flat_io.specs.Whole.{AppendsPrefix};
ghost use Rattle.flat_io.specs.Reads.{Given, IsTooLong};

use crate::sink::Sink;
use crate::source::Source;
use flat_base::NoMemory;
use std::alloc::Global;
use thiserror::Error;

/// Why a text was not read whole.
#[derive(Debug, Drop, Error)]
pub enum ReadAll {
    /// A read failed: the count of faults of the source rose.
    #[error("a read failed")]
    Fault,
    /// The source gave more bytes than were wanted.
    #[error("the text is too long")]
    TooLong,
    /// Memory ran out.
    #[error("out of memory")]
    Memory,
}

/// Why a text was not written whole.
#[derive(Debug, Drop, Error)]
pub enum WriteAll {
    /// A write failed, or took nothing of a piece that isn't empty: the count of
    /// faults of the sink rose, or its count of stalls.
    #[error("a write failed")]
    Fault,
}

/// Bytes that one read asks for.
const CHUNK: usize = 65_536;

/// Reads all that a source has left, up to a limit in bytes, by at most
/// `limit + 1` reads.
///
/// `TooLong` comes exactly where more than `limit` bytes were given in this call,
/// and `Fault` only where the count of faults rose; after any other answer that count
/// is as it was. Whatever the answer, a prefix of what was left was taken: all of it
/// and no more after an Ok.
pub fn read_all<R: Source>(alloc: Global, source: &mut R, limit: usize) -> Result<Vec<u8>, ReadAll>
    ensures within { IfOk result (λ text. length text.items ≤ limit) }
    ensures whole { IfOk result (λ text. Given (R.left source.old) (R.left source.new)
        (λ given after. (given ≡ text.items) × (after ≡ []))) }
    ensures refused { IfErr result (λ why. Given (R.left source.old) (R.left source.new)
        (λ given _. IsTooLong limit (length given) why)) }
    ensures fault { result ≡ Err ReadAll.Fault →
        IsTrue (has_risen (R.faults source.old) (R.faults source.new)) }
    ensures faults { R.faults source.old ≤ R.faults source.new }
    ensures steady { result ≢ Err ReadAll.Fault → R.faults source.new ≡ R.faults source.old }
    ensures reads { R.reads source.new ≤ R.reads source.old + (limit + 1) }
{
    let mut chunk = match zeros(alloc, CHUNK) {
        Ok(chunk) => chunk,
        Err(_) => return Err(ReadAll::Memory),
    };
    let mut text = Vec::new(alloc);
    loop {
        let count = match source.read(&mut chunk) {
            Ok(count) => count,
            Err(_) => return Err(ReadAll::Fault),
        };
        if count == 0 {
            return Ok(text);
        }
        if count > limit - text.len() {
            return Err(ReadAll::TooLong);
        }
        match text.extend_from_slice(&chunk[..count]) {
            Ok(()) => {}
            Err(_) => return Err(ReadAll::Memory),
        }
    }
}

/// So many zero bytes.
fn zeros(alloc: Global, count: usize) -> Result<Vec<u8>, NoMemory>
    ensures { IfOk result (λ bytes. length bytes.items ≡ count) }
{
    Ok(vec![in alloc; 0u8; count]?)
}

/// Writes a text to a sink, by at most as many writes as the text has bytes. It
/// takes no memory.
///
/// After an Ok the sink holds the text behind what it held. `Fault` comes only
/// where the count of faults or the count of stalls of the sink rose in this
/// call, and then the sink holds a prefix of the text behind what it held. After an Ok
/// both counts are as they were.
pub fn write_all<W: Sink>(sink: &mut W, text: &[u8]) -> Result<(), WriteAll>
    ensures whole { OnOk result (Appends text.now (W.held sink.old) (W.held sink.new)) }
    ensures part { OnErr result (AppendsPrefix text.now (W.held sink.old) (W.held sink.new)) }
    ensures fault { OnErr result (IsTrue (has_risen (W.faults sink.old) (W.faults sink.new) ||
        has_risen (W.stalls sink.old) (W.stalls sink.new))) }
    ensures faults { W.faults sink.old ≤ W.faults sink.new }
    ensures stalls { W.stalls sink.old ≤ W.stalls sink.new }
    ensures steady { OnOk result (W.faults sink.new ≡ W.faults sink.old) }
    ensures flows { OnOk result (W.stalls sink.new ≡ W.stalls sink.old) }
    ensures writes { W.writes sink.new ≤ W.writes sink.old + length text.now }
{
    let mut written = 0;
    while written < text.len() {
        let count = match sink.write(&text[written..]) {
            Ok(count) => count,
            Err(_) => return Err(WriteAll::Fault),
        };
        if count == 0 {
            return Err(WriteAll::Fault);
        }
        written += count;
    }
    Ok(())
}
