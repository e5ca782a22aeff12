ghost use Rattle.std.specs.Prelude.{◌≡◌, IfOk};
ghost use Rattle.flat_words.specs.declared.service_word.ServiceWord.TheVariants.{Play};
ghost use Rattle.flat_run.specs.Promise.{Tells};

use flat_base::NoMemory;
use flat_io::{StdSink, StdSource};
use flat_race::OpenGate;
use flat_run::{RaceHost, flatland};
use std::alloc::Global;
use std::slice;
use std::sync::Wait;
use std::thread::Threads;

/// Plays a script that is a slice into a vector, by the same source and sink as the program
/// has over its streams. With status 0 the vector has the report of the script.
pub fn play_slice<T: Threads + Wait + Sync>(
    rt: &T,
    alloc: Global,
    script: &[u8],
) -> Result<(u8, Vec<u8>), NoMemory>
    ensures { IfOk result (λ r. r.0 ≡ 0 → Tells Play script.now r.1.items) }
{
    let word = String::from_str(alloc, "play")?;
    let mut source = StdSource::new(script);
    let mut sink = StdSink::new(Vec::new(alloc));
    let mut displays = Vec::new(alloc);
    let host = RaceHost {
        rt,
        gate: &OpenGate,
    };
    let words = slice::from_ref(&word);
    let status = flatland(&host, alloc, words, &mut source, &mut sink, &mut displays);
    Ok((status, sink.into_inner()))
}
