use crate::calls::{ServiceRequest, call};
use flat_base::NoMemory;
use flat_call_checks::{SharedCount, SharedFlag};
use flat_display::Display;
use flat_io::StreamFailed;
use flat_race::Gate;
use flat_scene::{FrameOut, Reply};
use std::alloc::Global;
use std::sync::{Arc, Wait};
use std::thread::Threads;

/// How many nodes the large session has, and how many a node has below it at most.
const NODES: u32 = 1_000;

const CHILDREN: u32 = 32;

/// How many frames it is shown in, moved before each.
const FRAMES: u32 = 16;

/// How many races are tried: on a busy machine the small session may not run while a frame
/// is composed.
const TRIES: u32 = 40;

/// The lines before the first frame's: the head, the view, and three for each node.
const LINES_BEFORE: u32 = 6 + 4 + 3 * NODES - 1;

/// The lines of a frame, and which of them are its done and the small session's present.
const LINES_OF_FRAME: u32 = 6;

const DONE: u32 = 5;

const PRESENT: u32 = 6;

/// A session of many nodes that moves before each frame, and a small one that presents
/// beside it.
fn script(alloc: Global) -> Result<Vec<u8>, NoMemory> {
    let mut text = b"flatland 1\ndisplay 100 100\nsession A\nsession B\npair t display A\nrun\n"
        .as_slice()
        .to_vec(alloc)?;
    text.extend_from_slice(b"A CreateView t\nA CreateFilledRect 1\n")?;
    text.extend_from_slice(b"A SetSolidFill 1 255 0 0 255 10 10\n")?;
    for node in 1..NODES + 1 {
        let made = format!(in alloc; "A CreateTransform {node}\nA SetContent {node} 1\n")?;
        text.extend_from_slice(made.as_bytes())?;
        if node > 1 {
            let parent = (node - 2) / CHILDREN + 1;
            let placed = format!(in alloc; "A AddChild {parent} {node}\n")?;
            text.extend_from_slice(placed.as_bytes())?;
        }
    }
    text.extend_from_slice(b"A SetRootTransform 1\n")?;
    for frame in 1..FRAMES + 1 {
        let moved = format!(in alloc; "A SetTranslation 1 {frame} 0\nA Present 0\n")?;
        text.extend_from_slice(moved.as_bytes())?;
        let shown = format!(in alloc; "display Wait presents A {frame}\ndisplay begin {frame}\n")?;
        text.extend_from_slice(shown.as_bytes())?;
        text.extend_from_slice(b"display done\nB Present 0\n")?;
    }
    Ok(text)
}

/// The frame of which a line is this one, counted from 0, if it is of one.
fn frame_of(line: u32, which: u32) -> Option<u32> {
    let behind = line.checked_sub(LINES_BEFORE)?.checked_sub(which)?;
    if behind % LINES_OF_FRAME == 0 {
        return Some(behind / LINES_OF_FRAME);
    }
    None
}

/// Holds each present of the small session until the done of its frame asks, and notes
/// whether one was made before the frame was shown.
#[derive(Drop)]
struct ComposeGate {
    asked: SharedCount,
    shown: SharedCount,
    presented: SharedFlag,
}

impl Gate for ComposeGate {
    fn open(&self, actor: u32, line: u32) -> bool {
        match actor {
            0 => {
                if frame_of(line, DONE).is_some() {
                    self.asked.add();
                }
                true
            }
            2 => match frame_of(line, PRESENT) {
                Some(frame) => self.asked.number() > frame,
                None => true,
            },
            _ => true,
        }
    }

    fn passed(&self, actor: u32, line: u32, _reply: &Reply) {
        if actor != 2 {
            return;
        }
        if let Some(frame) = frame_of(line, PRESENT) {
            if self.shown.number() <= frame {
                self.presented.set();
            }
        }
    }
}

/// A display that counts what it was shown.
#[derive(Drop)]
struct Counting {
    gate: Arc<ComposeGate>,
}

impl Display for Counting {
    ghost faults = { λ _. 0 };

    fn show(&mut self, _frame: &FrameOut) -> Result<(), StreamFailed> {
        self.gate.shown.add();
        Ok(())
    }
}

/// Whether in one of some races a session presented between the done of a frame and its
/// show, while the frame was composed.
pub fn presents_while_composed<T: Threads + Wait + Sync>(
    rt: &T,
    alloc: Global,
) -> Result<bool, NoMemory> {
    for _ in 0..TRIES {
        if presents_in_race(rt, alloc)? {
            return Ok(true);
        }
    }
    Ok(false)
}

/// The same of one race.
fn presents_in_race<T: Threads + Wait + Sync>(rt: &T, alloc: Global) -> Result<bool, NoMemory> {
    let composing = ComposeGate {
        asked: SharedCount::new(),
        shown: SharedCount::new(),
        presented: SharedFlag::new(),
    };
    let gate = Arc::new(alloc, composing)?;
    let mut displays: Vec<Box<dyn Display>> = Vec::new(alloc);
    let counting = Counting {
        gate: gate.clone()?,
    };
    displays.push(Box::new(alloc, counting)?)?;
    let text = script(alloc)?;
    let asked = ServiceRequest::of("race", text.as_slice());
    let called = call(rt, alloc, asked, &mut displays, &*gate)?;
    drop(called);
    Ok(gate.presented.is_set())
}
