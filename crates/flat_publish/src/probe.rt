//! A probe: the frames that it saw, and what it answers by the last one. It keeps that one
//! beside its reader, so that it answers also where no copy can be read.
ghost use Rattle.std.specs.Prelude.{◌≡◌, IfOk, OnOk, Some};
ghost use mathlib.Core.List.{IsPrefix};
ghost use Rattle.left_right.specs.Sides.{view};
ghost use Rattle.flat_publish.specs.State.{newcomer};
ghost use Rattle.flat_publish.specs.Frames.{last_of, last_number, IsRising, frame_hits};

use crate::latest_frame::LatestFrame;
use crate::rule::{LatestReader, Looked};
use flat_base::{FrameNo, NoMemory};
use flat_scene::HitList;
use std::alloc::Global;
use std::marker::Model;

/// A reader of what is published, which may go to a thread of its own. Contracts see
/// the list of all frames up to the last one that it saw, with the book that they stand
/// in: that of its [`Published`](crate::Published).
#[derive(Drop)]
pub struct Probe {
    reader: Option<LatestReader>,
    kept: LatestFrame,
}

impl Model for Probe {
    ghost use Rattle.flat_publish.specs.State.{Seen};

    ghost Value = { Seen };

    ghost use Rattle.flat_publish.specs.Whole.{IsProbe};

    ghost view = { λ p. p.kept };

    ghost invariant = { IsProbe };
}

impl Probe {
    pub(crate) fn new(reader: LatestReader, kept: LatestFrame) -> Probe
        requires { view reader.place ≡ Some kept.home }
        ensures { result ≡ kept }
    {
        Probe {
            reader: Some(reader),
            kept,
        }
    }

    // Sees what is published now, where the reader gives a guard.
    fn look(&mut self) -> Result<(), NoMemory>
        ensures home { self.new.home ≡ self.old.home }
        ensures grows { IsPrefix self.old.frames self.new.frames }
    {
        let Some(reader) = self.reader.take() else {
            return Ok(());
        };
        match reader.enter_as::<Looked>() {
            Ok(reading) => {
                let followed = self.kept.follow(reading.get());
                self.reader = Some(reading.leave());
                followed
            }
            Err(reader) => {
                self.reader = Some(reader);
                Ok(())
            }
        }
    }

    pub(crate) fn follow(&mut self, latest: &LatestFrame) -> Result<(), NoMemory>
        requires { latest.now.home ≡ self.old.home }
        ensures home { self.new.home ≡ self.old.home }
        ensures grows { IsPrefix self.old.frames self.new.frames }
        ensures follows { OnOk result (IsPrefix latest.now.frames self.new.frames) }
    {
        self.kept.follow(latest)
    }

    /// Looks, and answers the number of the last frame seen, 0 where there was none. It
    /// waits for nobody and takes no lock. If memory runs out, it may have seen more.
    pub fn frame(&mut self) -> Result<FrameNo, NoMemory>
        ensures home { self.new.home ≡ self.old.home }
        ensures grows { IsPrefix self.old.frames self.new.frames }
        ensures rising { IsRising self.new.frames }
        ensures frame { IfOk result (λ n. n.0 ≡ last_number self.new.frames) }
    {
        let looked = self.look();
        let frame = self.kept.frame();
        looked?;
        Ok(frame)
    }

    /// Looks, and answers what a point of the display hits in the last frame seen, in
    /// units, with the number of that frame. It waits for nobody and takes no lock. If
    /// memory runs out, it may have seen more.
    pub fn hit(&mut self, alloc: Global, x: i32, y: i32) -> Result<(FrameNo, HitList), NoMemory>
        ensures home { self.new.home ≡ self.old.home }
        ensures grows { IsPrefix self.old.frames self.new.frames }
        ensures rising { IsRising self.new.frames }
        ensures frame { IfOk result (λ r. r.0.0 ≡ last_number self.new.frames) }
        ensures hits { IfOk result (λ r. r.1 ≡ frame_hits (last_of self.new.frames) x y) }
    {
        let frame = self.frame()?;
        let hits = self.kept.hits(alloc, x, y)?;
        Ok((frame, hits))
    }
}
