//! What the program answers to the words that it is given, over any source and sink.
ghost use Rattle.std.specs.Prelude.{◌≡◌, drop, map, IfOk, OnErr};
ghost use Rattle.std.specs.String.{string_bytes};
ghost use Rattle.std.specs.Vec.Iter.{into_iter_items};
ghost use Rattle.flat_prog.specs.Status.{Says, words_given};

use flat_display::{CountingDisplay, Display};
use flat_io::{Sink, Source};
use flat_race::OpenGate;
use flat_run::{RaceHost, flatland};
use std::alloc::{AllocError, Global};
use std::env::Args;
use std::io;
use std::sync::Wait;
use std::thread::Threads;

/// The status where memory ran out.
const NO_MEMORY: u8 = 6;

/// The words behind the first one.
fn words_behind(alloc: Global, mut given: Args) -> Result<Vec<String>, AllocError>
    ensures { IfOk result (λ words. words.items ≡ drop 1 (into_iter_items given)) }
{
    let mut words = Vec::new(alloc);
    if given.next().is_none() {
        return Ok(words);
    }
    while let Some(word) = given.next() {
        words.push(word)?;
    }
    Ok(words)
}

/// The words after the program's name. Words that are no text are no command form.
fn words_of(alloc: Global, given: io::Result<Args>) -> Result<Vec<String>, AllocError>
    ensures { IfOk result (λ words. words.items ≡ words_given into_iter_items given) }
{
    match given {
        Ok(given) => words_behind(alloc, given),
        Err(error) if error.kind() == io::ErrorKind::OutOfMemory => Err(AllocError),
        Err(_) => Ok(Vec::new(alloc)),
    }
}

/// The answer to the words, with one display, which counts its frames.
fn answer<T: Threads + Wait + Sync, R: Source, W: Sink>(
    threads: &T,
    alloc: Global,
    words: &[String],
    source: &mut R,
    sink: &mut W,
) -> Result<u8, AllocError>
    ensures says { IfOk result (Says (map string_bytes words.now)
        (record { left = R.left source.old; faults = R.faults source.old })
        (record { left = R.left source.new; faults = R.faults source.new })
        (record { held = W.held sink.old; faults = W.faults sink.old; stalls = W.stalls sink.old })
        (record { held = W.held sink.new; faults = W.faults sink.new; stalls = W.stalls sink.new })) }
    ensures source { OnErr result (source.new ≡ source.old) }
    ensures sink { OnErr result (sink.new ≡ sink.old) }
{
    let mut displays: Vec<Box<dyn Display>> = Vec::new(alloc);
    displays.push(Box::new(alloc, CountingDisplay::new())?)?;
    let host = RaceHost {
        rt: threads,
        gate: &OpenGate,
    };
    Ok(flatland(&host, alloc, words, source, sink, &mut displays))
}

/// The status of a call with the words that are given, of which the first is the
/// program's name: what is to be read is read from the source, and what is answered is
/// written to the sink. The threads of a race are started by `threads`.
pub fn status<T: Threads + Wait + Sync, R: Source, W: Sink>(
    threads: &T,
    alloc: Global,
    given: io::Result<Args>,
    source: &mut R,
    sink: &mut W,
) -> u8
    ensures says { Says (map string_bytes (words_given into_iter_items given))
        (record { left = R.left source.old; faults = R.faults source.old })
        (record { left = R.left source.new; faults = R.faults source.new })
        (record { held = W.held sink.old; faults = W.faults sink.old; stalls = W.stalls sink.old })
        (record { held = W.held sink.new; faults = W.faults sink.new; stalls = W.stalls sink.new })
        result }
{
    let Ok(words) = words_of(alloc, given) else {
        return NO_MEMORY;
    };
    let Ok(status) = answer(threads, alloc, words.as_slice(), source, sink) else {
        return NO_MEMORY;
    };
    status
}
