use crate::calls::{FinishedCall, ServiceRequest, call};
use flat_base::NoMemory;
use flat_call_checks::{PROBED, SharedCount, SharedFlag, answered, is_at};
use flat_display::Display;
use flat_io::StreamFailed;
use flat_race::Gate;
use flat_scene::{FrameOut, Reply};
use std::alloc::Global;
use std::sync::{Arc, Wait};
use std::thread::Threads;

/// The number of the probe of `PROBED` as an actor.
const PROBE: u32 = 2;

/// The order of all other entries.
const ORDER: [(u32, u32); 7] = [(1, 7), (1, 13), (0, 14), (0, 15), (0, 17), (0, 18), (1, 19)];

/// Opens the entries of `PROBED` in order, and the probe's line once a display shows the
/// first frame.
#[derive(Drop)]
struct ProbeGate {
    next: SharedCount,
    shows: SharedFlag,
    answered: SharedFlag,
}

impl Gate for ProbeGate {
    fn open(&self, actor: u32, line: u32) -> bool {
        if actor == PROBE {
            return answered(self.shows.is_set());
        }
        answered(is_at(&ORDER, self.next.number(), actor, line))
    }

    fn passed(&self, actor: u32, _line: u32, _reply: &Reply) {
        if actor == PROBE {
            self.answered.set();
        } else {
            self.next.add();
        }
    }
}

/// A display that shows until the probe's line was answered.
#[derive(Drop)]
struct Slow {
    gate: Arc<ProbeGate>,
}

impl Display for Slow {
    ghost faults = { λ _. 0 };

    fn show(&mut self, _frame: &FrameOut) -> Result<(), StreamFailed> {
        self.gate.shows.set();
        self.gate.answered.is_set_in_time();
        Ok(())
    }
}

/// Races `PROBED` on a display that shows its first frame until the probe was answered:
/// nothing is published by then.
pub fn race_asked<T: Threads + Wait + Sync>(
    rt: &T,
    alloc: Global,
) -> Result<FinishedCall, NoMemory> {
    let asking = ProbeGate {
        next: SharedCount::new(),
        shows: SharedFlag::new(),
        answered: SharedFlag::new(),
    };
    let gate = Arc::new(alloc, asking)?;
    let mut displays: Vec<Box<dyn Display>> = Vec::new(alloc);
    let slow = Slow {
        gate: gate.clone()?,
    };
    displays.push(Box::new(alloc, slow)?)?;
    call(
        rt,
        alloc,
        ServiceRequest::of("race", PROBED),
        &mut displays,
        &*gate,
    )
}
