use crate::calls::race;
use flat_base::NoMemory;
use flat_call_checks::SharedCount;
use flat_race::Gate;
use flat_scene::Reply;
use std::alloc::Global;
use std::sync::Wait;
use std::thread::Threads;

/// Is shut for one line until it was asked so often, and counts its asks for the line.
#[derive(Drop)]
struct Counting {
    line: u32,
    shut: u32,
    asked: SharedCount,
}

impl Gate for Counting {
    fn open(&self, _actor: u32, line: u32) -> bool {
        line != self.line || self.asked.add() >= self.shut
    }

    fn passed(&self, _actor: u32, _line: u32, _reply: &Reply) {}
}

/// How often a gate is asked for a line of a script that is raced, for which it is shut
/// for so many asks.
pub fn asked_for<T: Threads + Wait + Sync>(
    rt: &T,
    alloc: Global,
    text: &[u8],
    line: u32,
    shut: u32,
) -> Result<u32, NoMemory> {
    let gate = Counting {
        line,
        shut,
        asked: SharedCount::new(),
    };
    let _ = race(rt, alloc, text, &gate)?;
    Ok(gate.asked.number())
}
