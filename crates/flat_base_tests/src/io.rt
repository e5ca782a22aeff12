ghost use Rattle.std.specs.Prelude.{◌≡◌, ◌<◌};

use flat_base::NoMemory;
use flat_io::{
    MemSink, MemSource, ReadAll, Sink, Source, StdSink, StdSource, SteadySink, SteadySource,
    StreamFailed, WriteAll, read_all, write_all,
};
use std::alloc::Global;
use std::io::Cursor;

/// A source that gives one byte a read.
#[derive(Drop)]
struct ByteSource(MemSource);

impl Source for ByteSource {
    ghost faults = { λ s. s.0.faults };

    fn read(&mut self, into: &mut [u8]) -> Result<usize, StreamFailed> {
        if into.is_empty() {
            return Ok(0);
        }
        self.0.read(&mut into[..1])
    }
}

/// A sink that takes one byte a write.
#[derive(Drop)]
struct ByteSink(MemSink);

impl Sink for ByteSink {
    ghost faults = { λ s. s.0.faults };

    ghost stalls = { λ s. s.0.stalls };

    fn write(&mut self, piece: &[u8]) -> Result<usize, StreamFailed> {
        if piece.is_empty() {
            return Ok(0);
        }
        self.0.write(&piece[..1])
    }
}

fn mem_source(alloc: Global, bytes: &[u8], fail: &[u32]) -> Result<MemSource, NoMemory> {
    Ok(MemSource::new(bytes.to_vec(alloc)?, fail.to_vec(alloc)?))
}

fn mem_sink(alloc: Global, room: usize, fail: &[u32], zero: &[u32]) -> Result<MemSink, NoMemory> {
    MemSink::new(alloc, room, fail.to_vec(alloc)?, zero.to_vec(alloc)?)
}

/// What writes to a sink with room for four bytes answer, and whether the first is what it
/// has kept.
fn write_three(alloc: Global) -> Result<([Result<usize, StreamFailed>; 3], bool), NoMemory> {
    let mut sink = SteadySink::new(alloc, 4)?;
    let writes = [sink.write(b"ab"), sink.write(b"cde"), sink.write(b"f")];
    Ok((writes, sink.bytes() == b"ab".as_slice()))
}

#[test]
fn a_steady_sink_drops_all_from_the_first_piece_that_does_not_fit(rt: HostRuntime) {
    let writes = [Ok(2), Ok(3), Ok(1)];
    assert_eq!(rt; write_three(rt.alloc()), Ok((writes, true)));
}

/// What three reads of a byte each answer, of which the second has to fail, and the bytes
/// after the second and the third.
fn read_three(alloc: Global) -> Result<([Result<usize, StreamFailed>; 3], [[u8; 1]; 2]), NoMemory> {
    let mut source = mem_source(alloc, b"ab", &[2])?;
    let mut into = [0u8; 1];
    let first = source.read(&mut into);
    let second = source.read(&mut into);
    let before = into;
    let third = source.read(&mut into);
    Ok(([first, second, third], [before, into]))
}

#[test]
fn a_source_fails_at_the_chosen_calls(rt: HostRuntime) {
    let expected = ([Ok(1), Err(StreamFailed), Ok(1)], [*b"a", *b"b"]);
    assert_eq!(rt; read_three(rt.alloc()), Ok(expected));
}

/// What writes answer of which some have to fail or to stall, and whether the sink keeps
/// what the others wrote.
fn write_five(alloc: Global) -> Result<([Result<usize, StreamFailed>; 5], bool), NoMemory> {
    let mut sink = mem_sink(alloc, 8, &[1, 4], &[2, 4])?;
    let writes = [
        sink.write(b"ab"),
        sink.write(b"ab"),
        sink.write(b"ab"),
        sink.write(b"cd"),
        sink.write(b"ef"),
    ];
    Ok((writes, sink.bytes() == b"abef".as_slice()))
}

#[test]
fn a_sink_fails_at_the_chosen_calls(rt: HostRuntime) {
    let writes = [Err(StreamFailed), Ok(0), Ok(2), Err(StreamFailed), Ok(2)];
    assert_eq!(rt; write_five(rt.alloc()), Ok((writes, true)));
}

const TEXT: &[u8] = b"scene";

/// Whether TEXT is read where it is within the limit, and else too long.
fn is_limited(read: &Result<Vec<u8>, ReadAll>, limit: usize) -> bool {
    match read {
        Ok(text) => limit >= 5 && text.as_slice() == TEXT,
        Err(ReadAll::TooLong) => limit < 5,
        Err(_) => false,
    }
}

fn read_up_to(alloc: Global, limit: usize) -> Result<bool, NoMemory> {
    let mut source = SteadySource::new(TEXT.to_vec(alloc)?);
    let read = read_all(alloc, &mut source, limit);
    Ok(is_limited(&read, limit))
}

fn first_wrong_limit(alloc: Global) -> Result<Option<usize>, NoMemory> {
    for limit in 0..8 {
        if !read_up_to(alloc, limit)? {
            return Ok(Some(limit));
        }
    }
    Ok(None)
}

#[test]
fn a_text_is_read_whole_up_to_the_limit(rt: HostRuntime) {
    assert_eq!(rt; first_wrong_limit(rt.alloc()), Ok(None));
}

/// Whether TEXT is read where the read at a place fails that is behind its end, and else is
/// a fault, and then the rest is read.
fn is_read_on(
    read: &Result<Vec<u8>, ReadAll>,
    rest: &Result<Vec<u8>, ReadAll>,
    place: u32,
) -> bool {
    match (read, rest) {
        (Ok(text), _) => place == 7 && text.as_slice() == TEXT,
        (Err(ReadAll::Fault), Ok(rest)) => place <= 6 && rest.len() == 6 - place as usize,
        _ => false,
    }
}

fn read_through(alloc: Global, place: u32) -> Result<bool, NoMemory> {
    let mut source = ByteSource(mem_source(alloc, TEXT, &[place])?);
    let read = read_all(alloc, &mut source, 100);
    let rest = read_all(alloc, &mut source, 100);
    Ok(is_read_on(&read, &rest, place))
}

fn first_wrong_read(alloc: Global) -> Result<Option<u32>, NoMemory> {
    for place in 1..8 {
        if !read_through(alloc, place)? {
            return Ok(Some(place));
        }
    }
    Ok(None)
}

#[test]
fn a_read_that_fails_at_any_place_is_a_fault(rt: HostRuntime) {
    assert_eq!(rt; first_wrong_read(rt.alloc()), Ok(None));
}

/// A sink whose write at a place stalls or fails.
fn bad_sink(alloc: Global, place: u32, stalls: bool) -> Result<MemSink, NoMemory> {
    if stalls {
        mem_sink(alloc, 9, &[], &[place])
    } else {
        mem_sink(alloc, 9, &[place], &[])
    }
}

/// Whether TEXT is written where that place is behind its end, and else what is in front of
/// the place.
fn is_written(written: &Result<(), WriteAll>, bytes: &[u8], place: u32) -> bool
    requires { 0 < place }
{
    match written {
        Ok(()) => place == 6 && bytes == TEXT,
        Err(WriteAll::Fault) => place <= 5 && bytes.len() == place as usize - 1,
    }
}

fn write_through(alloc: Global, place: u32, stalls: bool) -> Result<bool, NoMemory>
    requires { 0 < place }
{
    let mut sink = ByteSink(bad_sink(alloc, place, stalls)?);
    let written = write_all(&mut sink, TEXT);
    Ok(is_written(&written, sink.0.bytes(), place))
}

fn first_wrong_write(alloc: Global) -> Result<Option<(u32, bool)>, NoMemory> {
    for place in 1..7 {
        for stalls in [false, true] {
            if !write_through(alloc, place, stalls)? {
                return Ok(Some((place, stalls)));
            }
        }
    }
    Ok(None)
}

#[test]
fn a_write_that_fails_or_stalls_at_any_place_is_a_fault(rt: HostRuntime) {
    assert_eq!(rt; first_wrong_write(rt.alloc()), Ok(None));
}

fn read_system(alloc: Global) -> Result<Vec<u8>, ReadAll> {
    let mut source = StdSource::new(Cursor::new(TEXT));
    read_all(alloc, &mut source, 5)
}

fn write_system(held: &mut Vec<u8>, text: &[u8]) -> Result<(), WriteAll> {
    let mut sink = StdSink::new(held);
    write_all(&mut sink, text)
}

/// Whether TEXT is read, and written as it was read.
fn goes_through(alloc: Global) -> bool {
    let Ok(text) = read_system(alloc) else {
        return false;
    };
    let mut held = Vec::new(alloc);
    let written = write_system(&mut held, text.as_slice());
    written.is_ok() && text.as_slice() == TEXT && held.as_slice() == TEXT
}

#[test]
fn the_system_is_read_and_written_through(rt: HostRuntime) {
    assert!(rt; goes_through(rt.alloc()));
}
