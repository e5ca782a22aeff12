ghost use Rattle.std.specs.Prelude.{◌<◌, ◌≤◌, IfOk};

use crate::calls::{FinishedCall, ServiceRequest, call};
use flat_base::NoMemory;
use flat_call_checks::SHELL;
use flat_race::OpenGate;
use std::alloc::Global;
use std::sync::Wait;
use std::thread::Threads;

/// More than the reads and writes of a play of the shell.
const CALLS: u32 = 1000;

/// What fails in a play.
#[derive(Clone, Copy)]
pub enum Fault {
    /// A read fails.
    Read,
    /// A write fails.
    Write,
    /// A write takes nothing.
    Stall,
}

/// At which calls, from 1, a source fails, and a sink fails or takes nothing (0: at
/// none).
#[derive(Clone, Copy)]
pub struct Faults {
    pub read: u32,
    pub write: u32,
    pub stall: u32,
}

/// Nothing fails.
pub(crate) const NONE: Faults = Faults {
    read: 0,
    write: 0,
    stall: 0,
};

impl Faults {
    /// One call fails.
    fn at(fault: Fault, number: u32) -> Faults {
        match fault {
            Fault::Read => Faults {
                read: number,
                ..NONE
            },
            Fault::Write => Faults {
                write: number,
                ..NONE
            },
            Fault::Stall => Faults {
                stall: number,
                ..NONE
            },
        }
    }
}

/// Plays the shell's script while one call fails.
fn play_failing<T: Threads + Wait + Sync>(
    rt: &T,
    alloc: Global,
    fault: Fault,
    number: u32,
) -> Result<FinishedCall, NoMemory> {
    let faults = Faults::at(fault, number);
    let asked = ServiceRequest {
        word: "play",
        text: SHELL,
        faults,
    };
    call(rt, alloc, asked, &mut Vec::new(alloc), &OpenGate)
}

/// Plays the shell's script again and again, and at each play the next call fails, from
/// the first on. It answers the first play that isn't answered with this status and a
/// beginning of this text, or the 999th, and before it which of its calls was to fail.
pub fn first_spared<T: Threads + Wait + Sync>(
    rt: &T,
    alloc: Global,
    fault: Fault,
    status: u8,
    text: &[u8],
) -> Result<(u32, FinishedCall), NoMemory>
    ensures { IfOk result (λ spared. (1 ≤ spared.0) × (spared.0 < CALLS)) }
{
    let mut number = 1;
    let mut called = play_failing(rt, alloc, fault, number)?;
    for next in 2..CALLS {
        if called.status() != status || !text.starts_with(called.report()) {
            break;
        }
        number = next;
        called = play_failing(rt, alloc, fault, number)?;
    }
    Ok((number, called))
}
