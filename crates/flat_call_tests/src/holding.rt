use crate::calls::{FinishedCall, ServiceRequest, call};
use flat_base::NoMemory;
use flat_call_checks::{FILL, SharedFlag, answered};
use flat_display::Display;
use flat_io::StreamFailed;
use flat_race::Gate;
use flat_scene::{FrameOut, Reply};
use std::alloc::Global;
use std::sync::{Arc, Wait};
use std::thread::Threads;

/// What the second present of `FILL` is to be answered while its frame is shown.
const SECOND: Reply = Reply::Presented {
    number: 2,
    credits: 4,
};

/// Holds the second present of `FILL` until the display shows, and the session's End until
/// the frame is done.
#[derive(Drop)]
pub struct HoldGate {
    shows: SharedFlag,
    presented: SharedFlag,
    presented_while_it_showed: SharedFlag,
    first_presented: SharedFlag,
    done: SharedFlag,
    is_asked_late: SharedFlag,
}

impl HoldGate {
    /// Nothing was presented yet.
    fn new() -> HoldGate {
        HoldGate {
            shows: SharedFlag::new(),
            presented: SharedFlag::new(),
            presented_while_it_showed: SharedFlag::new(),
            first_presented: SharedFlag::new(),
            done: SharedFlag::new(),
            is_asked_late: SharedFlag::new(),
        }
    }

    /// Whether the second present was made, with the reply that it is to have, before the
    /// display had shown its frame.
    pub fn presented_while_it_showed(&self) -> bool {
        self.presented_while_it_showed.is_set()
    }

    /// Whether the gate was asked for the done once its frame was shown.
    pub fn was_asked_late(&self) -> bool {
        self.is_asked_late.is_set()
    }
}

impl Gate for HoldGate {
    fn open(&self, _actor: u32, line: u32) -> bool {
        answered(match line {
            13 => self.first_presented.is_set(),
            // A done asks before its frame is shown.
            14 => {
                if self.shows.is_set() {
                    self.is_asked_late.set();
                }
                true
            }
            15 => self.shows.is_set(),
            16 => self.done.is_set(),
            _ => true,
        })
    }

    fn passed(&self, _actor: u32, line: u32, reply: &Reply) {
        match line {
            12 => self.first_presented.set(),
            14 => self.done.set(),
            15 if *reply == SECOND => self.presented.set(),
            _ => {}
        }
    }
}

/// A display that shows until the gate hears of the second present.
#[derive(Drop)]
struct Slow {
    gate: Arc<HoldGate>,
}

impl Display for Slow {
    ghost faults = { λ _. 0 };

    fn show(&mut self, _frame: &FrameOut) -> Result<(), StreamFailed> {
        self.gate.shows.set();
        if self.gate.presented.is_set_in_time() {
            self.gate.presented_while_it_showed.set();
        }
        Ok(())
    }
}

/// Races `FILL` on a display that shows until the second present was made, and answers
/// with the gate that held this until then.
pub fn race_held<T: Threads + Wait + Sync>(
    rt: &T,
    alloc: Global,
) -> Result<(FinishedCall, Arc<HoldGate>), NoMemory> {
    let gate = Arc::new(alloc, HoldGate::new())?;
    let mut displays: Vec<Box<dyn Display>> = Vec::new(alloc);
    let slow = Slow {
        gate: gate.clone()?,
    };
    displays.push(Box::new(alloc, slow)?)?;
    let called = call(
        rt,
        alloc,
        ServiceRequest::of("race", FILL),
        &mut displays,
        &*gate,
    )?;
    Ok((called, gate))
}
