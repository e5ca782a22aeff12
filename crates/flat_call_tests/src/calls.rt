ghost use Rattle.std.specs.Prelude.{◌≡◌, ◌<◌, ◌^◌, length};

use crate::faults::{Faults, NONE};
use flat_base::NoMemory;
use flat_display::Display;
use flat_io::{MemSink, MemSource};
use flat_race::{Gate, OpenGate};
use flat_run::{RaceHost, flatland};
use std::alloc::Global;
use std::slice;
use std::sync::Wait;
use std::thread::Threads;

/// Room for the longest report.
const ROOM: usize = 8192;

/// A call that has ended.
#[derive(Drop)]
pub struct FinishedCall {
    status: u8,
    sink: MemSink,
}

impl FinishedCall {
    /// Its status.
    pub fn status(&self) -> u8
        ensures { result ≡ self.now.status }
    {
        self.status
    }

    /// What it wrote.
    pub fn report(&self) -> &[u8]
        ensures { result.now ≡ self.now.sink.kept.bytes }
    {
        self.sink.bytes()
    }

    /// Its status, and what it wrote.
    pub fn answer(&self) -> (u8, &[u8])
        ensures status { result.0 ≡ self.now.status }
        ensures report { result.1.now ≡ self.now.sink.kept.bytes }
    {
        (self.status, self.sink.bytes())
    }
}

/// A source of a text, which fails as it is said.
fn source_of(alloc: Global, text: &[u8], faults: Faults) -> Result<MemSource, NoMemory> {
    let text = text.to_vec(alloc)?;
    Ok(MemSource::new(text, vec![in alloc; faults.read]?))
}

/// A sink with room for a report, which fails as it is said.
fn sink_of(alloc: Global, faults: Faults) -> Result<MemSink, NoMemory> {
    let write = vec![in alloc; faults.write]?;
    let stall = vec![in alloc; faults.stall]?;
    Ok(MemSink::new(alloc, ROOM, write, stall)?)
}

/// What the service is called with.
#[derive(Clone, Copy)]
pub struct ServiceRequest<'a> {
    /// Its one command word.
    pub word: &'a str,
    pub text: &'a [u8],
    /// What fails of its source and sink.
    pub faults: Faults,
}

impl<'a> ServiceRequest<'a> {
    /// A word on a text, where nothing fails.
    pub fn of(word: &'a str, text: &'a [u8]) -> ServiceRequest<'a> {
        ServiceRequest {
            word,
            text,
            faults: NONE,
        }
    }
}

/// Calls the service, and hands out what it wrote.
pub fn call<T: Threads + Wait + Sync, G: Gate>(
    rt: &T,
    alloc: Global,
    asked: ServiceRequest<'_>,
    displays: &mut Vec<Box<dyn Display>>,
    gate: &G,
) -> Result<FinishedCall, NoMemory>
    requires { length displays.old.items < 2 ^ 32 }
{
    let word = String::from_str(alloc, asked.word)?;
    let words = slice::from_ref(&word);
    let mut source = source_of(alloc, asked.text, asked.faults)?;
    let Ok(mut sink) = sink_of(alloc, asked.faults) else {
        drop(source);
        return Err(NoMemory);
    };
    let host = RaceHost { rt, gate };
    let status = flatland(&host, alloc, words, &mut source, &mut sink, displays);
    drop(source);
    Ok(FinishedCall { status, sink })
}

/// Plays a script, in written order, on no display.
pub fn play<T: Threads + Wait + Sync>(
    rt: &T,
    alloc: Global,
    text: &[u8],
) -> Result<FinishedCall, NoMemory> {
    let displays = &mut Vec::new(alloc);
    call(
        rt,
        alloc,
        ServiceRequest::of("play", text),
        displays,
        &OpenGate,
    )
}

/// Races a script under a gate, on no display.
pub fn race<T: Threads + Wait + Sync, G: Gate>(
    rt: &T,
    alloc: Global,
    text: &[u8],
    gate: &G,
) -> Result<FinishedCall, NoMemory> {
    let displays = &mut Vec::new(alloc);
    call(rt, alloc, ServiceRequest::of("race", text), displays, gate)
}
