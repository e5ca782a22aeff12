//! The frame published last, as each of the two copies and each probe keeps it. A probe has
//! one of its own and compares numbers, so that it never goes back, whatever the copies hand
//! out.
ghost use Rattle.std.specs.Prelude.{◌≡◌, ◌⊎◌, [], ◌∷◌, ◌++◌, IfOk, OnOk};
ghost use mathlib.Core.List.{IsPrefix};
ghost use Rattle.flat_publish.specs.State.{newcomer};
ghost use Rattle.flat_publish.specs.Frames.{last_of, last_number, IsRising, frame_hits};
ghost use Rattle.flat_publish.specs.Kept.{frame_of};

use crate::frame::{FramesSeen, Numbered};
use flat_base::{FrameNo, Items, NoMemory};
use flat_scene::HitList;
use left_right::Absorb;
use std::alloc::{AllocError, Global};
use std::marker::Model;
use std::sync::Arc;

/// Contracts see it as the list of all frames up to it, with the book that they stand
/// in.
#[derive(Drop)]
pub struct LatestFrame {
    last: Option<Numbered>,
    seen: FramesSeen,
}

impl Model for LatestFrame {
    ghost use Rattle.std.specs.Prelude.{◌≡◌};
    ghost use Rattle.flat_publish.specs.State.{Seen};
    ghost use Rattle.flat_publish.specs.Frames.{last_of, IsRising};
    ghost use Rattle.flat_publish.specs.Kept.{frame_in};

    ghost Value = { Seen };

    ghost view = { λ l. record { home = l.seen.book; frames = l.seen.log } };

    ghost invariant = { λ l. (frame_in l.last ≡ last_of l.seen.log) × IsRising l.seen.log };
}

impl LatestFrame {
    /// Before any frame.
    pub fn none(seen: FramesSeen) -> LatestFrame
        requires { seen.log ≡ [] }
        ensures { result ≡ newcomer seen.book }
    {
        LatestFrame { last: None, seen }
    }

    /// The last of the frames that were seen.
    pub fn of(numbered: Numbered, seen: FramesSeen) -> LatestFrame
        requires { (last_of seen.log ≡ Some (frame_of numbered)) × IsRising seen.log }
        ensures { result ≡ record { home = seen.book; frames = seen.log } }
    {
        LatestFrame {
            last: Some(numbered),
            seen,
        }
    }

    /// Its number, 0 where there is none.
    pub fn frame(&self) -> FrameNo
        ensures number { result.0 ≡ last_number self.now.frames }
        ensures rising { IsRising self.now.frames }
    {
        match &self.last {
            Some(numbered) => numbered.number,
            None => FrameNo(0),
        }
    }

    /// What a point hits in it: nothing where there is none.
    pub fn hits(&self, alloc: Global, x: i32, y: i32) -> Result<HitList, NoMemory>
        ensures { IfOk result (λ h. h ≡ frame_hits (last_of self.now.frames) x y) }
    {
        match &self.last {
            Some(numbered) => numbered.joined.hits(alloc, x, y),
            None => Ok(Items::new(alloc)),
        }
    }

    /// One more handle of it.
    pub fn copy(&self) -> Result<LatestFrame, NoMemory>
        ensures { IfOk result (λ l. l ≡ self.now) }
    {
        let last = match &self.last {
            Some(numbered) => match Arc::try_clone(&numbered.joined) {
                Ok(joined) => Some(Numbered {
                    number: numbered.number,
                    joined,
                }),
                Err(_) => return Err(NoMemory),
            },
            None => None,
        };
        Ok(LatestFrame {
            last,
            seen: self.seen.again(),
        })
    }

    /// Becomes the later of the two. One list begins the other, since both stand in
    /// one book.
    pub fn follow(&mut self, other: &LatestFrame) -> Result<(), NoMemory>
        requires { other.now.home ≡ self.old.home }
        ensures home { self.new.home ≡ self.old.home }
        ensures grows { IsPrefix self.old.frames self.new.frames }
        ensures follows { OnOk result (IsPrefix other.now.frames self.new.frames) }
    {
        let mut both = self.seen.again();
        both.learn(&other.seen);
        if other.frame().0 <= self.frame().0 {
            return Ok(());
        }
        *self = other.copy()?;
        Ok(())
    }
}

impl Absorb<LatestFrame> for LatestFrame {
    type State = LatestFrame;

    ghost state = { λ l. l };

    ghost applied = { λ _ l. l };

    fn absorb_first(
        &mut self,
        operation: &LatestFrame,
        _other: &LatestFrame,
    ) -> Result<(), AllocError> {
        match operation.copy() {
            Ok(latest) => {
                *self = latest;
                Ok(())
            }
            Err(_) => Err(AllocError),
        }
    }

    fn absorb_second(
        &mut self,
        operation: LatestFrame,
        _other: &LatestFrame,
    ) -> Result<(), LatestFrame> {
        *self = operation;
        Ok(())
    }
}
