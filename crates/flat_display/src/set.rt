ghost use Rattle.std.specs.Prelude.{◌≡◌, ℕ, suc, ◌+◌, ◌^◌, ◌<◌, ◌≤◌, ◌++◌, ◌∷◌, [], List, IfOk, OnOk, OnErr, IsTrue};
ghost use Rattle.std.specs.Prelude.{Some, false, length, map, slice_get, slice_set};
ghost use Rattle.flat_scene.specs.declared.frames.LostDisplay.{LostDisplay};
ghost use Rattle.flat_io.specs.Counts.{has_risen};
ghost use Rattle.flat_io.specs.Told.{Appends};
ghost use Rattle.flat_display.specs.Lost.{Driven, is_lost};
ghost use Rattle.flat_display.specs.Shows.{IsShown, Shows};

use crate::display::Display;
use flat_base::{FrameNo, NoMemory, Roomy};
use flat_io::StreamFailed;
use flat_scene::{FrameOut, LostDisplay};
use std::alloc::Global;
use std::marker::Model;

/// Which of a vector of displays are lost. Contracts see how many displays there
/// are, and the losses.
#[derive(Drop)]
pub struct DisplaySet {
    displays: u32,
    lost: Roomy<LostDisplay>,
}

impl Model for DisplaySet {
    ghost use Rattle.std.specs.Prelude.{◌+◌, ◌≤◌, length};
    ghost use Rattle.flat_display.specs.Lost.{Driven, AreWithin};
    ghost use Rattle.flat_display.specs.Shows.{IsOnce};

    ghost Value = { Driven };

    ghost view = { λ s. record { displays = s.displays; lost = s.lost.items } };

    ghost invariant = { λ s. (s.displays ≤ s.lost.room + length s.lost.items) × IsOnce s.lost.items
        × AreWithin s.displays s.lost.items };
}

impl DisplaySet {
    /// A set of so many displays, none of which is lost. The room for all losses
    /// is taken here.
    pub fn new(alloc: Global, displays: u32) -> Result<DisplaySet, NoMemory>
        ensures { IfOk result (λ set. set ≡ record { displays = displays; lost = [] }) }
    {
        let lost = Roomy::with_capacity(alloc, displays as usize)?;
        Ok(DisplaySet { displays, lost })
    }

    /// The displays that failed, each with the frame at which it did, the first
    /// loss first. Displays are numbered from 1.
    pub fn lost(&self) -> &[LostDisplay]
        ensures { result.now ≡ self.now.lost }
    {
        self.lost.as_slice()
    }

    /// Shows the frame to each display that isn't lost, in order. One that fails
    /// stays in the vector, and is lost. It takes no memory.
    pub fn show(&mut self, displays: &mut Vec<Box<dyn Display>>, frame: &FrameOut)
        requires { length displays.old.items ≡ self.old.displays }
        ensures shows { (more : List LostDisplay)
            × (self.new ≡ record self.old { lost = self.old.lost ++ more })
            × Shows (λ d. shown d) (λ d. faults d) frame.now self.old.lost 1 displays.old.items
            displays.new.items more }
        // So the vector still has as many displays as the set.
        ensures same { self.new.displays ≡ self.old.displays }
        ensures length { length displays.new.items ≡ length displays.old.items }
        // Each display stays at its place: its methods are those that it had.
        ensures kinds { map (λ d. d.vtable) displays.new.items
            ≡ map (λ d. d.vtable) displays.old.items }
    {
        for place in 0..self.displays {
            self.show_to(displays, place, frame);
        }
    }

    // Shows the frame to the display at a place, where it isn't lost.
    fn show_to(&mut self, displays: &mut Vec<Box<dyn Display>>, place: u32, frame: &FrameOut)
        requires within { place < length displays.old.items }
        requires number { place < self.old.displays }
        requires fits { place + 1 < 2 ^ 32 }
        ensures shows { (old : _) × (new : _) × (more : List LostDisplay)
            × (slice_get displays.old.items place ≡ Some old)
            × (displays.new.items ≡ slice_set displays.old.items place new)
            × (self.new ≡ record self.old { lost = self.old.lost ++ more })
            × Shows (λ d. shown d) (λ d. faults d) frame.now self.old.lost
            (place + 1) (old ∷ []) (new ∷ []) more }
        ensures kinds { map (λ d. d.vtable) displays.new.items
            ≡ map (λ d. d.vtable) displays.old.items }
    {
        let number = place + 1;
        if self.is_lost(number) {
            return;
        }
        if !show_at(displays, place as usize, frame) {
            self.lose(number, frame.frame);
        }
    }

    fn is_lost(&self, number: u32) -> bool
        ensures { result ≡ is_lost self.now.lost number }
    {
        self.lost.as_slice().iter().any(|l| l.display == number)
    }

    fn lose(&mut self, number: u32, frame: FrameNo)
        requires first { 1 ≤ number }
        requires last { number ≤ self.old.displays }
        requires new { is_lost self.old.lost number ≡ false }
        ensures { self.new ≡ record self.old {
          lost = self.old.lost
              ++ record { display = number; frame = frame } ∷ [];
        } }
    {
        self.lost.push(LostDisplay {
            display: number,
            frame,
        });
    }
}

/// Shows the frame to the display at a place, and answers whether it took it.
fn show_at(displays: &mut Vec<Box<dyn Display>>, place: usize, frame: &FrameOut) -> bool
    requires { place < length displays.old.items }
    ensures shows { (old : _) × (new : _) × (slice_get displays.old.items place ≡ Some old)
        × (displays.new.items ≡ slice_set displays.old.items place new)
        × IsShown (λ d. shown d) (λ d. faults d) frame.now result old new }
    ensures kinds { map (λ d. d.vtable) displays.new.items
        ≡ map (λ d. d.vtable) displays.old.items }
{
    show_one(&mut displays[place], frame).is_ok()
}

fn show_one(display: &mut Box<dyn Display>, frame: &FrameOut) -> Result<(), StreamFailed>
    ensures shown { OnOk result (Appends (frame.now ∷ []) (shown display.old) (shown display.new)) }
    ensures failed { OnErr result (IsTrue (has_risen (faults display.old) (faults display.new))) }
    ensures same { OnErr result (shown display.new ≡ shown display.old) }
    ensures faults { faults display.old ≤ faults display.new }
    ensures steady { OnOk result (faults display.new ≡ faults display.old) }
    ensures kind { display.new.vtable ≡ display.old.vtable }
{
    display.show(frame)
}
