ghost use Rattle.std.specs.Prelude.{◌≡◌, ◌↔◌, IsTrue, is_some, true};
ghost use Rattle.flat_watch.specs.Told.{answer, news, settled};
ghost use Rattle.flat_watch.specs.HangingGets.{after_get, answered_get, got, new_hanging_get};

use flat_scene::{Watch, WatcherValue};
use std::marker::Model;

/// What a get is answered.
#[derive(Clone, Copy, PartialEq, Eq)]
pub enum GetAnswer {
    /// The value, at once.
    Now(WatcherValue),
    /// The get waits for a value.
    Held,
    /// Another get is held already.
    BadHangingGet,
}

/// The answer to a get that was held.
#[derive(Clone, Copy, PartialEq, Eq)]
pub struct HeldAnswer {
    pub get: Watch,
    pub value: WatcherValue,
}

/// What is kept of a watcher: the value that it answered last, and the get that it
/// holds. Contracts see just these.
///
/// No call takes memory.
#[derive(Clone, Copy)]
pub struct HangingGet {
    last: Option<WatcherValue>,
    waits: Option<Watch>,
}

impl Model for HangingGet {
    ghost use Rattle.flat_watch.specs.Told.{Watching};

    ghost Value = { Watching };

    ghost view = { λ hanging_get. record { last = hanging_get.last; waits = hanging_get.waits } };

    ghost inverse = { λ w. record { last = w.last; waits = w.waits } };
}

/// The value to answer where another was answered last.
pub fn news(now: Option<WatcherValue>, last: Option<WatcherValue>) -> Option<WatcherValue>
    ensures { result ≡ news now last }
{
    let value = now?;
    match last {
        Some(last) if last == value => None,
        _ => Some(value),
    }
}

impl HangingGet {
    /// A hanging get that nobody asked for yet.
    pub fn new() -> HangingGet
        ensures { result ≡ new_hanging_get }
    {
        HangingGet {
            last: None,
            waits: None,
        }
    }

    /// Asks for the value, where this is told now. It is answered at once where that
    /// is there and differs from the value answered last, and else held until `tell`
    /// answers it. While a get is held, another is refused and changes nothing.
    pub fn get(&mut self, get: Watch, now: Option<WatcherValue>) -> GetAnswer
        ensures refused { (result ≡ GetAnswer.BadHangingGet) ↔ IsTrue (is_some self.old.waits) }
        ensures answer { result ≡ got (is_some self.old.waits) (news now self.old.last) }
        ensures after { self.new ≡ after_get get now self.old }
    {
        if self.waits.is_some() {
            return GetAnswer::BadHangingGet;
        }
        match news(now, self.last) {
            Some(value) => {
                self.last = Some(value);
                GetAnswer::Now(value)
            }
            None => {
                self.waits = Some(get);
                GetAnswer::Held
            }
        }
    }

    /// This is told now. It answers the get that is held, where it is there and differs
    /// from the value answered last; that get is held no more.
    pub fn tell(&mut self, now: Option<WatcherValue>) -> Option<HeldAnswer>
        ensures answer { result ≡ answered_get self.old.waits (answer now self.old) }
        ensures after { self.new ≡ settled true now self.old }
    {
        let get = self.waits?;
        let value = news(now, self.last)?;
        self.last = Some(value);
        self.waits = None;
        Some(HeldAnswer { get, value })
    }

    /// The get that is held.
    pub fn waits(&self) -> Option<Watch>
        ensures { result ≡ self.now.waits }
    {
        self.waits
    }

    /// The value answered last.
    pub fn last(&self) -> Option<WatcherValue>
        ensures { result ≡ self.now.last }
    {
        self.last
    }
}
