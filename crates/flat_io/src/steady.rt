ghost use Rattle.std.specs.Prelude.{◌≡◌, ◌+◌, ◌<◌, ◌≤◌, ◌++◌, [], length, take, drop, min, true};
ghost use Rattle.std.specs.Prelude.{Some, Ok, IfOk, vec_capacity};
ghost use Rattle.flat_io.specs.Kept.{with_piece, told_bytes};

use crate::sink::Sink;
use crate::source::{Source, StreamFailed};
use flat_base::NoMemory;
use std::alloc::Global;
use std::marker::Model;

/// A source over bytes in memory, which never fails. Contracts see it as the
/// bytes that it has left.
#[derive(Drop)]
pub struct SteadySource {
    bytes: Vec<u8>,
    taken: usize,
}

impl Model for SteadySource {
    ghost use Rattle.std.specs.Prelude.{List, ℕ, ◌≤◌, drop, length};

    ghost Value = { List ℕ };

    ghost view = { λ s. drop s.taken s.bytes.items };

    ghost invariant = { λ s. s.taken ≤ length s.bytes.items };
}

impl SteadySource {
    /// A source that has these bytes left. It takes no memory.
    pub fn new(bytes: Vec<u8>) -> SteadySource
        ensures { result ≡ bytes.items }
    {
        SteadySource { bytes, taken: 0 }
    }
}

impl Source for SteadySource {
    ghost left = { λ s. Some s };

    ghost faults = { λ _. 0 };

    /// Fills the buffer as far as the bytes last.
    fn read(&mut self, into: &mut [u8]) -> Result<usize, StreamFailed>
        ensures { (result ≡ Ok (min (length into.old) (length self.old)))
            × (into.new ≡ take (length into.old) self.old ++ drop (length self.old) into.old)
            × (self.new ≡ drop (length into.old) self.old) }
    {
        let left = &self.bytes[self.taken..];
        let count = left.len().min(into.len());
        into[..count].copy_from_slice(&left[..count]);
        self.taken += count;
        Ok(count)
    }
}

/// A sink over memory, which never fails and never stalls. Contracts see the
/// bytes that it took, the room that is left, and whether it tells them.
#[derive(Drop)]
pub struct SteadySink {
    bytes: Vec<u8>,
    is_told: bool,
}

impl Model for SteadySink {
    ghost use Rattle.std.specs.Prelude.{◌-◌, length, vec_capacity};
    ghost use Rattle.flat_io.specs.Kept.{KeptBytes};

    ghost Value = { KeptBytes };

    ghost view = { λ s. record {
      bytes = s.bytes.items;
      room = vec_capacity s.bytes
          - length s.bytes.items;
      is_told = s.is_told;
    } };
}

impl SteadySink {
    /// An empty sink with room for that many bytes, taken at once.
    pub fn new(alloc: Global, room: usize) -> Result<SteadySink, NoMemory>
        ensures { IfOk result (λ sink. sink ≡ record { bytes = []; room = room; is_told = true }) }
    {
        let bytes = Vec::with_capacity(alloc, room)?;
        Ok(SteadySink {
            bytes,
            is_told: true,
        })
    }

    /// The bytes that it took: all of them while it tells them, and those before
    /// the first piece that didn't fit from then on.
    pub fn bytes(&self) -> &[u8]
        ensures { result.now ≡ self.now.bytes }
    {
        self.bytes.as_slice()
    }
}

impl Sink for SteadySink {
    ghost held = { told_bytes };

    ghost faults = { λ _. 0 };

    ghost stalls = { λ _. 0 };

    /// Takes the piece whole. One that doesn't fit in the room is dropped, as is
    /// all that comes after it, and from then on the sink tells nothing.
    fn write(&mut self, piece: &[u8]) -> Result<usize, StreamFailed>
        ensures { (result ≡ Ok (length piece.now)) × (self.new ≡ with_piece self.old piece.now) }
    {
        self.is_told = self.is_told && piece.len() <= self.bytes.capacity() - self.bytes.len();
        if self.is_told {
            append_within(&mut self.bytes, piece);
        }
        Ok(piece.len())
    }
}

/// Appends a piece that fits into the room that was taken.
fn append_within(bytes: &mut Vec<u8>, piece: &[u8])
    requires { length bytes.old.items + length piece.now ≤ vec_capacity bytes.old }
    ensures items { bytes.new.items ≡ bytes.old.items ++ piece.now }
    ensures capacity { vec_capacity bytes.new ≡ vec_capacity bytes.old }
{
    for byte in piece {
        bytes.push_reserved(*byte);
    }
}
