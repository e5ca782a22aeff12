//! What the actors of a race share, as one argument. A thread is handed the parts and
//! makes its own, since the struct would be moved into it whole.
use flat_places::Script;
use flat_stage::Stage;
use flat_waits::SharedWaits;
use std::alloc::Global;

/// What each session of a race and its compositor borrow: leave to wait, memory, the
/// stage, the script that is run, the gate, and what they tell each other of their Waits.
#[derive(Drop)]
pub struct ActorContext<'a, R, G> {
    pub rt: &'a R,
    pub alloc: Global,
    pub stage: &'a Stage,
    pub script: &'a Script,
    pub gate: &'a G,
    pub waits: &'a SharedWaits,
}
