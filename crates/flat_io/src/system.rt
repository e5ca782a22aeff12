ghost use Rattle.std.specs.Prelude.{◌≡◌, Bool, true, false, is_some, refl};

use crate::counts::counted;
use crate::sink::Sink;
use crate::source::{Source, StreamFailed};
use std::alloc::Allocator;
use std::io::{Cursor, Print, Printer, Read, StdinLock, Write};

/// A reader of std that tells the bytes that it has left at any time, or never: its type
/// says which.
pub trait TellingRead: Read {
    // Whether it tells them.
    ghost tells: { Bool };

    ghost always: { (reader : Self) → is_some (Self.remaining reader) ≡ tells };
}

impl TellingRead for &[u8] {
    ghost tells = { true };

    ghost always = { λ _. refl };
}

impl TellingRead for Cursor<&[u8]> {
    ghost tells = { true };

    ghost always = { λ _. refl };
}

impl<R: TellingRead> TellingRead for &mut R {
    ghost tells = { R.tells };

    ghost always = { λ reader. R.always reader.now };
}

/// Of standard input std tells nothing.
impl TellingRead for StdinLock<'static> {
    ghost tells = { false };

    ghost always = { λ _. refl };
}

/// A writer of std that tells the bytes that it holds at any time, or never: its type says
/// which.
pub trait TellingWrite: Write {
    // Whether it tells them.
    ghost tells: { Bool };

    ghost always: { (writer : Self) → is_some (Self.contents writer) ≡ tells };
}

impl<A: Allocator> TellingWrite for Vec<u8, A> {
    ghost tells = { true };

    ghost always = { λ _. refl };
}

impl<W: TellingWrite> TellingWrite for &mut W {
    ghost tells = { W.tells };

    ghost always = { λ writer. W.always writer.now };
}

/// Of standard output std tells nothing.
impl<P: Print> TellingWrite for Printer<'_, P> {
    ghost tells = { false };

    ghost always = { λ _. refl };
}

/// A reader of std, as a source that tells the bytes that the reader tells, and counts its
/// failures.
#[derive(Drop)]
pub struct StdSource<R: TellingRead> {
    inner: R,
    failures: u64,
}

impl<R: TellingRead> StdSource<R> {
    /// A source over a reader. Nothing has failed yet.
    pub fn new(inner: R) -> StdSource<R>
        ensures { result ≡ record { inner = inner; failures = 0 } }
    {
        StdSource { inner, failures: 0 }
    }

    /// The reader.
    pub fn into_inner(self) -> R
        ensures { result ≡ self.inner }
    {
        self.inner
    }
}

impl<R: TellingRead> Source for StdSource<R> {
    ghost left = { λ s. R.remaining s.inner };

    ghost faults = { λ s. s.failures };

    /// Whatever error the reader answers is a failure.
    fn read(&mut self, into: &mut [u8]) -> Result<usize, StreamFailed> {
        match self.inner.read(into) {
            Ok(count) => Ok(count),
            Err(_) => {
                self.failures = counted(self.failures);
                Err(StreamFailed)
            }
        }
    }
}

/// A writer of std, as a sink that tells the bytes that the writer tells, and counts its
/// failures and its stalls.
#[derive(Drop)]
pub struct StdSink<W: TellingWrite> {
    inner: W,
    failures: u64,
    stalls: u64,
}

impl<W: TellingWrite> StdSink<W> {
    /// A sink over a writer. Nothing has failed yet.
    pub fn new(inner: W) -> StdSink<W>
        ensures { result ≡ record { inner = inner; failures = 0; stalls = 0 } }
    {
        StdSink {
            inner,
            failures: 0,
            stalls: 0,
        }
    }

    /// The writer.
    pub fn into_inner(self) -> W
        ensures { result ≡ self.inner }
    {
        self.inner
    }
}

impl<W: TellingWrite> Sink for StdSink<W> {
    ghost held = { λ s. W.contents s.inner };

    ghost faults = { λ s. s.failures };

    ghost stalls = { λ s. s.stalls };

    /// Whatever error the writer answers is a failure.
    fn write(&mut self, piece: &[u8]) -> Result<usize, StreamFailed> {
        match self.inner.write(piece) {
            Ok(count) => {
                if count == 0 && !piece.is_empty() {
                    self.stalls = counted(self.stalls);
                }
                Ok(count)
            }
            Err(_) => {
                self.failures = counted(self.failures);
                Err(StreamFailed)
            }
        }
    }
}
