ghost use Rattle.std.specs.Prelude.{◌≡◌, ◌+◌, ◌<◌, ◌≤◌, ◌++◌, ◌==◌, ◌||◌, [], length, take, drop, min, cond, true};
ghost use Rattle.std.specs.Prelude.{nat_lt, Some, Ok, Err, IfOk, IfErr, IsTrue, is_err};
ghost use Rattle.flat_io.specs.Kept.{counted, FailingSource, FailingSink, told_bytes, is_next_among, stalls_after};
ghost use Rattle.flat_io.specs.Kept.{after_write};

use crate::counts::{counted, is_next_among};
use crate::sink::Sink;
use crate::source::{Source, StreamFailed};
use crate::steady::{SteadySink, SteadySource};
use flat_base::NoMemory;
use std::alloc::Global;
use std::marker::Model;

/// A source over bytes in memory that fails at chosen calls. Contracts see the
/// bytes that it has left, the calls at which it fails, and its counts.
#[derive(Drop)]
pub struct MemSource {
    inner: SteadySource,
    fail: Vec<u32>,
    calls: u64,
    faults: u64,
}

impl Model for MemSource {
    ghost use Rattle.flat_io.specs.Kept.{FailingSource, FailingSink};

    ghost Value = { FailingSource };

    ghost view = { λ s. record {
      left = s.inner;
      fail = s.fail.items;
      calls = s.calls;
      faults = s.faults;
    } };
}

impl MemSource {
    /// A source that has these bytes left, and fails exactly at the calls of
    /// `read` whose numbers, from 1, are in `fail`. It takes no memory.
    pub fn new(bytes: Vec<u8>, fail: Vec<u32>) -> MemSource
        ensures { result ≡ record { left = bytes.items; fail = fail.items; calls = 0; faults = 0 } }
    {
        MemSource {
            inner: SteadySource::new(bytes),
            fail,
            calls: 0,
            faults: 0,
        }
    }
}

impl Source for MemSource {
    ghost left = { λ s. Some s.left };

    ghost faults = { λ s. s.faults };

    ghost reads = { λ s. s.calls };

    /// Fills the buffer as far as the bytes last, or fails and leaves the buffer.
    fn read(&mut self, into: &mut [u8]) -> Result<usize, StreamFailed>
        ensures fails { is_err result ≡ is_next_among self.old.fail self.old.calls }
        ensures ok { IfOk result (λ count. (count ≡ min (length into.old) (length self.old.left))
            × (into.new ≡ take (length into.old) self.old.left ++ drop (length self.old.left)
            into.old) × (self.new ≡ record self.old {
              left = drop (length into.old) self.old.left;
              calls = counted self.old.calls;
            })) }
        ensures err { IfErr result (λ _. (into.new ≡ into.old)
            × (self.new ≡ record self.old {
              calls = counted self.old.calls;
              faults = counted self.old.faults;
            })) }
    {
        let fails = is_next_among(&self.fail, self.calls);
        self.calls = counted(self.calls);
        if fails {
            self.faults = counted(self.faults);
            return Err(StreamFailed);
        }
        self.inner.read(into)
    }
}

/// A sink over memory that fails, or takes nothing, at chosen calls. Contracts
/// see what it keeps, those calls, and its counts.
#[derive(Drop)]
pub struct MemSink {
    inner: SteadySink,
    fail: Vec<u32>,
    zero: Vec<u32>,
    calls: u64,
    faults: u64,
    stalls: u64,
}

impl Model for MemSink {
    ghost Value = { FailingSink };

    ghost view = { λ s. record {
      kept = s.inner;
      fail = s.fail.items;
      zero = s.zero.items;
      calls = s.calls;
      faults = s.faults;
      stalls = s.stalls;
    } };
}

impl MemSink {
    /// An empty sink with room for that many bytes, taken at once. It fails exactly
    /// at the calls of `write` whose numbers, from 1, are in `fail`. At each other
    /// call in `zero` it takes nothing.
    pub fn new(
        alloc: Global,
        room: usize,
        fail: Vec<u32>,
        zero: Vec<u32>,
    ) -> Result<MemSink, NoMemory>
        ensures { IfOk result (λ sink. sink
            ≡ record {
              kept = record { bytes = []; room = room; is_told = true };
              fail = fail.items;
              zero = zero.items;
              calls = 0;
              faults = 0;
              stalls = 0;
            }) }
    {
        let inner = SteadySink::new(alloc, room)?;
        Ok(MemSink {
            inner,
            fail,
            zero,
            calls: 0,
            faults: 0,
            stalls: 0,
        })
    }

    /// The bytes that it took: all of them while it tells them, and those before
    /// the first piece that didn't fit from then on.
    pub fn bytes(&self) -> &[u8]
        ensures { result.now ≡ self.now.kept.bytes }
    {
        self.inner.bytes()
    }
}

impl Sink for MemSink {
    ghost held = { λ s. told_bytes s.kept };

    ghost faults = { λ s. s.faults };

    ghost stalls = { λ s. s.stalls };

    ghost writes = { λ s. s.calls };

    /// Takes the piece whole, or nothing of it, or fails.
    fn write(&mut self, piece: &[u8]) -> Result<usize, StreamFailed>
        ensures fails { is_err result ≡ is_next_among self.old.fail self.old.calls }
        ensures err { IfErr result (λ _. self.new
            ≡ record self.old {
              calls = counted self.old.calls;
              faults = counted self.old.faults;
            }) }
        ensures ok { IfOk result (λ count. (count
            ≡ cond (is_next_among self.old.zero self.old.calls) 0 (length piece.now))
            × (self.new ≡ after_write self.old piece.now)) }
    {
        let fails = is_next_among(&self.fail, self.calls);
        let stalls = is_next_among(&self.zero, self.calls);
        self.calls = counted(self.calls);
        if fails {
            self.faults = counted(self.faults);
            return Err(StreamFailed);
        }
        if stalls {
            self.stalls = stalls_after(self.stalls, piece);
            return Ok(0);
        }
        self.inner.write(piece)
    }
}

/// The count of stalls after a write that took nothing of this piece.
fn stalls_after(stalls: u64, piece: &[u8]) -> u64
    ensures { result ≡ stalls_after stalls piece.now }
{
    if piece.is_empty() {
        stalls
    } else {
        counted(stalls)
    }
}
