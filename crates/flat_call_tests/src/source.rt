use crate::slices::play_slice;
use flat_display::{CountingDisplay, Display};
use flat_io::{StdSource, SteadySink};
use flat_race::OpenGate;
use flat_run::{RaceHost, flatland};
use std::io::Cursor;
use std::test::Fail;

/// Three frames of one session, which shows nothing in them.
const THREE_FRAMES: &[u8] = b"flatland 1
display 10 10
session A
pair p display A
run
display begin 1
display done
display begin 2
display done
display begin 3
display done
";

/// What a report of three frames of nothing is.
const THREE_REPORTED: &[u8] = b"report flatland 1
display 6 begin 1 frame 1
display 7 done frame 1
display 8 begin 2 frame 2
display 9 done frame 2
display 10 begin 3 frame 3
display 11 done frame 3
A end 0
report ends entries 7 frames 3
";

#[test]
fn a_source_that_tells_nothing_is_played(rt: HostRuntime) -> Result<(), Fail> {
    let alloc = rt.alloc();
    let words = [String::from_str(alloc, "play")?];
    let mut source = StdSource::new(Cursor::new(THREE_FRAMES));
    let mut sink = SteadySink::new(alloc, 512)?;
    let mut displays: Vec<Box<dyn Display>> = Vec::new(alloc);
    displays.push(Box::new(alloc, CountingDisplay::new())?)?;
    let host = RaceHost {
        rt: &rt,
        gate: &OpenGate,
    };
    let status = flatland(&host, alloc, &words, &mut source, &mut sink, &mut displays);
    assert_eq!(rt; status, 0);
    assert_eq!(rt; sink.bytes(), THREE_REPORTED);
    Ok(())
}

#[test]
fn a_slice_is_played_into_a_vector(rt: HostRuntime) -> Result<(), Fail> {
    let (status, held) = play_slice(&rt, rt.alloc(), THREE_FRAMES)?;
    assert_eq!(rt; (status, held.as_slice()), (0, THREE_REPORTED));
    Ok(())
}
