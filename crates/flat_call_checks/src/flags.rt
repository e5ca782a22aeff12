use std::sync::atomic::{AtomicBool, AtomicU32, Ordering};
use std::thread;

/// How often a thread turns while it waits for another one.
const TURNS: u32 = 100_000_000;

/// How often a thread turns before a gate that is shut answers it.
const TURNS_OF_AN_ASK: u32 = 100;

/// What a gate answers that is open or shut, which takes a while if it is shut. A race asks a
/// gate a million times for a line and then goes on. If each answer came at once, a thread that
/// stands still for a fraction of a second would find others let in out of their turn.
pub fn answered(is_open: bool) -> bool {
    if is_open {
        return true;
    }
    for _ in 0..TURNS_OF_AN_ASK {
        thread::yield_now();
    }
    false
}

/// A flag that threads share, not set at first.
#[derive(Drop)]
pub struct SharedFlag(AtomicBool);

impl SharedFlag {
    /// One that isn't set.
    pub fn new() -> SharedFlag {
        SharedFlag(AtomicBool::new(false))
    }

    /// Sets it.
    pub fn set(&self) {
        self.0.store(true, Ordering::SeqCst);
    }

    /// Whether it is set.
    pub fn is_set(&self) -> bool {
        self.0.load(Ordering::SeqCst)
    }

    /// Waits until it is set, for so many turns at most. Whether it is.
    pub fn is_set_in_time(&self) -> bool {
        for _ in 0..TURNS {
            if self.is_set() {
                return true;
            }
            thread::yield_now();
        }
        false
    }
}

/// A count that threads share, from 0 on.
#[derive(Drop)]
pub struct SharedCount(AtomicU32);

impl SharedCount {
    /// Nothing was counted.
    pub fn new() -> SharedCount {
        SharedCount(AtomicU32::new(0))
    }

    /// Counts once more, and answers what was counted before.
    pub fn add(&self) -> u32 {
        self.0.fetch_add(1, Ordering::SeqCst)
    }

    /// What was counted.
    pub fn number(&self) -> u32 {
        self.0.load(Ordering::SeqCst)
    }
}
