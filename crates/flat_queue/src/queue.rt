ghost use Rattle.std.specs.Prelude.{◌≡◌, ◌↔◌, ◌+◌, ◌-◌, ◌^◌, ◌<◌, [], ◌∷◌, length, IfOk, IfErr};
ghost use Rattle.std.specs.Prelude.{IfSome, IfNone, IsTrue, is_ok};
ghost use Rattle.std.specs.List.{list_all};
ghost use Rattle.flat_scene.specs.Frames.{is_ready};
ghost use Rattle.flat_fence.specs.Fences.{has};
ghost use Rattle.flat_queue.specs.Line.{most_of, credits_of, ready_of, pushed, TakesFirst};

use flat_base::{FIRST_CREDITS, FULL_CREDITS, FenceNo, NoMemory, Roomy};
use flat_fence::FenceSet;
use flat_scene::PresentArgs;
use std::alloc::Global;
use std::marker::Model;

/// There is no credit for a present.
#[derive(Clone, Copy, Debug, PartialEq, Eq)]
pub struct NoCredit;

/// A present that waits, or that was taken.
#[derive(Drop)]
pub struct WaitingPresent<T> {
    pub item: T,
    pub args: PresentArgs,
}

/// The presents of a session that no frame has taken, the oldest first, with what
/// they carry: one at most before a frame has taken one, and five from then on.
/// Contracts see how many were taken, and those that wait.
///
/// Nothing but `new` takes memory.
#[derive(Drop)]
pub struct Queue<T> {
    waiting: Roomy<WaitingPresent<T>>,
    taken: u32,
}

impl<T> Model for Queue<T> {
    ghost use Rattle.std.specs.Prelude.{◌≤◌, ◌+◌, ◌<◌, ◌^◌, length};
    ghost use Rattle.flat_queue.specs.Line.{Line, most_of};

    ghost Value = { Line T };

    ghost view = { λ q. record { taken = q.taken; waiting = q.waiting.items } };

    ghost invariant = { λ q. (5 ≤ q.waiting.room + length q.waiting.items)
        × (length q.waiting.items ≤ most_of q.taken)
        × (q.taken + length q.waiting.items < 2 ^ 32) };
}

impl<T> Queue<T> {
    /// A queue in which nothing waits, and nothing was taken from.
    pub fn new(alloc: Global) -> Result<Queue<T>, NoMemory>
        ensures { IfOk result (λ queue. queue ≡ record { taken = 0; waiting = [] }) }
    {
        let waiting = Roomy::with_capacity(alloc, FULL_CREDITS as usize)?;
        Ok(Queue { waiting, taken: 0 })
    }

    /// How many presents were taken.
    pub fn taken(&self) -> u32
        ensures { result ≡ self.now.taken }
    {
        self.taken
    }

    /// How many presents more may wait.
    pub fn credits(&self) -> u32
        ensures credits { result ≡ credits_of self.now }
        ensures all { result + length self.now.waiting ≡ most_of self.now.taken }
    {
        let most = if self.taken == 0 {
            FIRST_CREDITS
        } else {
            FULL_CREDITS
        };
        most - self.waiting.len() as u32
    }

    /// Makes a present, and answers its number, from 1. It is refused, and dropped, if and only
    /// if there is no credit.
    pub fn push(&mut self, item: T, args: PresentArgs) -> Result<u32, NoCredit>
    where
        T: Drop,
        requires { self.old.taken + length self.old.waiting < 2 ^ 32 - 1 }
        ensures ok { IsTrue (is_ok result) ↔ (0 < credits_of self.old) }
        ensures number { IfOk result (λ number. number ≡ self.old.taken + length self.old.waiting
            + 1) }
        ensures after { IfOk result (λ _. self.new ≡ pushed self.old item args) }
        ensures same { IfErr result (λ _. self.new ≡ self.old) }
    {
        if self.credits() == 0 {
            return Err(NoCredit);
        }
        let number = self.taken + self.waiting.len() as u32 + 1;
        self.waiting.push(WaitingPresent { item, args });
        Ok(number)
    }

    /// Takes the first present, whatever its time and its fences; None if and only if
    /// nothing waits.
    pub fn take_any(&mut self) -> Option<WaitingPresent<T>>
        ensures none { IfNone result ((self.new ≡ self.old) × (self.old.waiting ≡ [])) }
        ensures first { IfSome result (λ present. TakesFirst present self.old self.new) }
    {
        if self.waiting.len() == 0 {
            return None;
        }
        self.taken += 1;
        Some(self.waiting.remove(0))
    }

    /// Takes the first present, if it is due and its acquire fences are
    /// signalled; None if and only if nothing waits or the first isn't ready. So
    /// taking until None takes all before the first that isn't ready.
    pub fn take(&mut self, now: u64, fences: &FenceSet) -> Option<WaitingPresent<T>>
        ensures none { IfNone result ((self.new ≡ self.old)
            × (ready_of now (has fences.now) self.old.waiting ≡ [])) }
        ensures first { IfSome result (λ present. TakesFirst present self.old self.new) }
        ensures ready { IfSome result (λ present. ready_of now (has fences.now) self.old.waiting
            ≡ present ∷ ready_of now (has fences.now) self.new.waiting) }
    {
        let first = self.waiting.as_slice().first()?;
        if is_ready(&first.args, now, fences) {
            self.take_any()
        } else {
            None
        }
    }
}

/// Whether a present is due, and its acquire fences are signalled.
fn is_ready(args: &PresentArgs, now: u64, fences: &FenceSet) -> bool
    ensures { result ≡ is_ready now (has fences.now) args.now }
{
    args.time <= now && are_signalled(args.acquire.as_slice(), fences)
}

fn are_signalled(acquire: &[FenceNo], fences: &FenceSet) -> bool
    ensures { result ≡ list_all (has fences.now) acquire.now }
{
    acquire.iter().all(|f| fences.is_signalled(*f))
}
