ghost use Rattle.std.specs.Prelude.{◌≡◌, ◌≢◌, ◌-◌};
ghost use Rattle.flat_io.specs.Counts.{count_end};

use crate::calls::{FinishedCall, ServiceRequest, call};
use crate::six::{SIX_FRAMES, SIX_REPORTED};
use flat_base::NoMemory;
use flat_display::{Display, MemDisplay};
use flat_io::StreamFailed;
use flat_race::OpenGate;
use flat_scene::FrameOut;
use std::alloc::Global;
use std::cell::RefCell;
use std::rc::Rc;
use std::sync::Wait;
use std::thread::Threads;

/// How many frames the script of six shows.
pub const FRAMES: u32 = 6;

/// A display whose frames can be looked at while it stands in a vector. It tells nothing,
/// and its count of faults stands at its end.
#[derive(Drop)]
struct Shared(Rc<RefCell<MemDisplay>>);

impl Display for Shared {
    ghost faults = { λ _. count_end };

    fn show(&mut self, frame: &FrameOut) -> Result<(), StreamFailed> {
        match self.0.try_borrow_mut() {
            Ok(mut display) => display.show(frame),
            Err(_) => Err(StreamFailed),
        }
    }
}

/// A display that fails at one of its shows (0: at none).
fn failing(alloc: Global, show: u32) -> Result<Rc<RefCell<MemDisplay>>, NoMemory> {
    let display = MemDisplay::new(alloc, vec![in alloc; show]?);
    Ok(Rc::new(alloc, RefCell::new(display))?)
}

/// How many frames a display has had, where nobody is at work on it.
fn frames_had(display: &Rc<RefCell<MemDisplay>>) -> Option<u32> {
    let display = display.try_borrow().ok()?;
    u32::try_from(display.frames().len()).ok()
}

/// Plays the six frames on two displays, each of which fails at one of its shows (0: at
/// none), and answers how many frames each has had.
pub fn play_six<T: Threads + Wait + Sync>(
    rt: &T,
    alloc: Global,
    first: u32,
    second: u32,
) -> Result<(FinishedCall, [Option<u32>; 2]), NoMemory> {
    let (one, other) = (failing(alloc, first)?, failing(alloc, second)?);
    let mut displays: Vec<Box<dyn Display>> = Vec::new(alloc);
    displays.push(Box::new(alloc, Shared(one.clone()?))?)?;
    displays.push(Box::new(alloc, Shared(other.clone()?))?)?;
    let asked = ServiceRequest::of("play", SIX_FRAMES);
    let called = call(rt, alloc, asked, &mut displays, &OpenGate)?;
    Ok((called, [frames_had(&one), frames_had(&other)]))
}

/// How many of the six frames a display has that fails at one of its shows (0: at none).
pub fn frames_before(fault: u32) -> u32
    ensures all { fault ≡ 0 → result ≡ FRAMES }
    ensures some { fault ≢ 0 → result ≡ fault - 1 }
{
    match fault {
        0 => FRAMES,
        _ => fault - 1,
    }
}

/// The lines of the displays that are lost at a frame, the first display's first. Each
/// display fails at one of its shows (0: at none).
fn push_lost(report: &mut Vec<u8>, first: u32, second: u32, frame: u32) -> Result<(), NoMemory> {
    let digit = b'0' + (frame % 10) as u8;
    for (fails, name) in [(first, b'1'), (second, b'2')] {
        if fails == frame {
            report.extend_from_slice(b"display ")?;
            report.extend_from_slice(&[name])?;
            report.extend_from_slice(b" lost at frame ")?;
            report.extend_from_slice(&[digit, b'\n'])?;
        }
    }
    Ok(())
}

/// The report of the six frames where two displays fail at these shows (0: at none): after
/// each frame's view come those lost at it.
pub fn report_with(alloc: Global, first: u32, second: u32) -> Result<Vec<u8>, NoMemory> {
    let mut report = Vec::new(alloc);
    let mut frame = 0;
    for line in SIX_REPORTED.split_inclusive(|b| *b == b'\n') {
        report.extend_from_slice(line)?;
        if line.starts_with(b"view ") && frame < FRAMES {
            frame += 1;
            push_lost(&mut report, first, second, frame)?;
        }
    }
    Ok(report)
}
