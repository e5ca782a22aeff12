//! A hanging get: it is answered once there is a value that differs from the one
//! answered last.
//!
//! A `HangingGet` is what is kept of one watcher, `Watching` (specs/Told); its calls do what
//! specs/HangingGets says, by `news`. When a get is answered is specs/Laws.
#![tactic(auto)]

mod hanging_get;
mod laws;

pub use hanging_get::{GetAnswer, HangingGet, HeldAnswer, news};
pub use laws::hanging_get_laws;
