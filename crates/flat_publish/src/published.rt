//! Who publishes. A frame may be refused after its step in the book was made: so the frames
//! that are published and those that stand in the book are told apart.
ghost use Rattle.std.specs.Prelude.{◌≡◌, ◌<◌, [], ◌∷◌, ◌++◌, IfOk, OnOk, OnErr, Some, drop};
ghost use Rattle.std.specs.Prelude.{replicate};
ghost use mathlib.Core.List.{IsPrefix};
ghost use Rattle.left_right.specs.Sides.{view};
ghost use Rattle.flat_publish.specs.Frames.{last_number, IsRising, frame};
ghost use Rattle.flat_publish.specs.Book.{head_of};
ghost use Rattle.flat_publish.specs.Kept.{frame_of};
ghost use Rattle.flat_publish.specs.State.{newcomer, upcoming, Publishes, Refuses};
ghost use Rattle.std.specs.Arc.{arc_value};

use crate::frame::{
    Frame, FrameAdded, FramesRise, FramesSeen, LastNumber, NothingGained, Numbered,
};
use crate::latest_frame::LatestFrame;
use crate::probe::Probe;
use crate::rule::{BookIdentityTold, LatestWriter, NextShown};
use crate::seats::ProbeSeats;
use core::mem::replace_with;
use flat_base::{FrameNo, NoMemory};
use flat_hit::HitIndex;
use left_right::writer::Writer;
use logbook::{Offer, Seen, Start, Word};
use std::alloc::Global;
use std::marker::Model;
use std::sync::{Arc, Wait};

// Adds a frame to the book. At `Err` the book would have frames that nobody here added.
fn add_frame(
    head: &LastNumber,
    newest: &mut FramesSeen,
    old: u32,
    numbered: Numbered,
) -> Result<LatestFrame, NoMemory>
    requires head { head.now ≡ head_of newest.old.book }
    requires old { old ≡ last_number newest.old.log }
    requires above { old < numbered.number.0 }
    ensures book { newest.new.book ≡ newest.old.book }
    ensures ok { IfOk result (λ l. l ≡ record { home = newest.new.book; frames = newest.new.log }) }
    ensures added { OnOk result (newest.new.log ≡ newest.old.log ++ frame_of numbered ∷ []) }
    ensures rising { OnOk result (IsRising newest.new.log) }
    ensures err { OnErr result (newest.new ≡ newest.old) }
{
    let mut seen = newest.again();
    let mut offer: Offer<Frame, u64, FramesRise, NothingGained> = seen.plain::<
        NothingGained,
        Numbered,
        FrameAdded,
    >(&numbered);
    let mut pen = seen.no_pen();
    let (from, to) = (old as u64, numbered.number.0 as u64);
    let found = head.compare_exchange::<FrameAdded, NothingGained>(
        from, to, &mut seen, &mut offer, &mut pen,
    );
    if found != from {
        return Err(NoMemory);
    }
    *newest = seen.again();
    Ok(LatestFrame::of(numbered, seen))
}

// Shows what is pending. It waits for probes that still read the copy from before the
// last call.
fn show<R: Wait>(writer: LatestWriter, rt: &R) -> (LatestWriter, Result<(), NoMemory>)
    requires { (upcoming writer.desk.shown.value (drop writer.behind writer.log.items)).home
        ≡ writer.desk.shown.value.home }
    ensures shown { OnOk result.1 (result.0.desk.shown.value
        ≡ upcoming writer.desk.shown.value (drop writer.behind writer.log.items)) }
    ensures known { OnOk result.1 (view result.0.desk.place ≡ Some result.0.desk.shown.value.home) }
    ensures kept { OnErr result.1 ((result.0.desk.shown.value ≡ writer.desk.shown.value)
        × (view result.0.desk.place ≡ view writer.desk.place)) }
{
    let (writer, shown) = writer.publish_as::<NextShown, R>(rt);
    match shown {
        Ok(()) => (writer, Ok(())),
        Err(_) => (writer, Err(NoMemory)),
    }
}

// Shows this one. One that was refused stays pending, and is skipped.
fn send<R: Wait>(
    mut writer: LatestWriter,
    rt: &R,
    latest: LatestFrame,
) -> (LatestWriter, Result<(), NoMemory>)
    requires { latest.home ≡ writer.desk.shown.value.home }
    ensures shown { OnOk result.1 (result.0.desk.shown.value ≡ latest) }
    ensures known { OnOk result.1 (view result.0.desk.place ≡ Some latest.home) }
    ensures kept { OnErr result.1 ((result.0.desk.shown.value ≡ writer.desk.shown.value)
        × (view result.0.desk.place ≡ view writer.desk.place)) }
{
    match writer.append(latest) {
        Ok(()) => show(writer, rt),
        Err(_) => (writer, Err(NoMemory)),
    }
}

// A probe that has seen nothing.
fn seat(writer: &mut LatestWriter, seen: &FramesSeen) -> Result<Probe, NoMemory>
    requires home { view writer.old.desk.place ≡ Some seen.now.book }
    requires none { seen.now.log ≡ [] }
    ensures kept { (writer.new.desk.shown ≡ writer.old.desk.shown)
        × (view writer.new.desk.place ≡ view writer.old.desk.place) }
    ensures probe { IfOk result (λ p. p ≡ newcomer seen.now.book) }
{
    let Ok(mut reader) = writer.factory().reader() else {
        return Err(NoMemory);
    };
    reader.learn::<BookIdentityTold>(writer.tell::<BookIdentityTold>());
    Ok(Probe::new(reader, LatestFrame::none(seen.again())))
}

// So many of them.
fn seat_all(
    writer: &mut LatestWriter,
    seen: &FramesSeen,
    alloc: Global,
    probes: u32,
) -> Result<Vec<Option<Probe>>, NoMemory>
    requires home { view writer.old.desk.place ≡ Some seen.now.book }
    requires none { seen.now.log ≡ [] }
    ensures kept { (writer.new.desk.shown ≡ writer.old.desk.shown)
        × (view writer.new.desk.place ≡ view writer.old.desk.place) }
    ensures probes { IfOk result (λ v. v.items ≡ replicate probes (Some (newcomer seen.now.book))) }
{
    let mut all = Vec::new(alloc);
    for _ in 0..probes {
        let probe = seat(writer, seen)?;
        all.push(Some(probe))?;
    }
    Ok(all)
}

/// Which book of frames it is: that in which a [`Published`] and its probes stand. It is
/// for whoever has to say of a probe whose it is.
#[derive(Drop)]
pub struct BookMark {
    seen: FramesSeen,
}

impl Model for BookMark {
    ghost use Rattle.logbook.specs.Pages.{Book};

    ghost Value = { Book };

    ghost view = { λ m. m.seen.book };
}

/// Who publishes frames. Contracts see the book of all frames, which of them are
/// published, those that were refused since then and that the next publish may add
/// before its own, and the greatest number given.
///
/// It can't be dropped: it ends by [`close`](Published::close).
pub struct Published {
    writer: LatestWriter,
    head: LastNumber,
    newest: FramesSeen,
    added_last: u32,
    given: u32,
}

impl Model for Published {
    ghost use Rattle.flat_publish.specs.State.{Publishing};

    ghost Value = { Publishing };

    ghost use Rattle.flat_publish.specs.Whole.{IsPublishing, publishing};

    ghost view = { publishing };

    ghost invariant = { IsPublishing };
}

impl Published {
    /// Nothing is published yet, and so many probes are home. It takes `rt` since a writer
    /// ends by a call that may wait; here nobody is waited for.
    pub fn new<R: Wait>(
        rt: &R,
        alloc: Global,
        probes: u32,
    ) -> Result<(Published, ProbeSeats), NoMemory>
        ensures published { IfOk result (λ t. t.0
            ≡ record { home = t.0.home; frames = []; refused = []; given = 0 }) }
        ensures probes { IfOk result (λ t. t.1 ≡ replicate probes (Some (newcomer t.0.home))) }
    {
        let (newest, mut first, _second) = Seen::open(Start::alone(), 0, 0);
        let head = Word::tracked(0, &mut first);
        let (one, other) = (
            LatestFrame::none(newest.again()),
            LatestFrame::none(newest.again()),
        );
        // There is room for one reader at least.
        let Ok(writer) = Writer::new(alloc, one, other, (probes as usize).max(1)) else {
            return Err(NoMemory);
        };
        let (mut writer, shown) = show(writer, rt);
        let seats = match shown {
            Ok(()) => seat_all(&mut writer, &newest, alloc, probes),
            Err(e) => Err(e),
        };
        match seats {
            Ok(probes) => {
                let published = Published {
                    writer,
                    head,
                    newest,
                    added_last: 0,
                    given: 0,
                };
                Ok((published, ProbeSeats { probes }))
            }
            Err(e) => {
                writer.take(rt);
                Err(e)
            }
        }
    }

    /// The book in which it stands.
    pub fn home(&self) -> BookMark
        ensures { result ≡ self.now.home }
    {
        BookMark {
            seen: self.newest.again(),
        }
    }

    /// Publishes a frame, whose number is above those given before: probes that look from
    /// now on answer by it. It waits for those that still read the frame before the last
    /// one, and costs the same however large frames are. If memory runs out, probes go on
    /// answering by the frame before.
    pub fn publish<R: Wait>(
        &mut self,
        rt: &R,
        number: FrameNo,
        joined: Arc<HitIndex>,
    ) -> Result<(), NoMemory>
        requires above { self.old.given < number.0 }
        ensures home { (self.new.home ≡ self.old.home) × (self.new.given ≡ number.0) }
        ensures ok { OnOk result (Publishes self.old (frame number.0 (arc_value joined)) self.new) }
        ensures err { OnErr result (Refuses self.old (frame number.0 (arc_value joined)) self.new) }
    {
        let numbered = Numbered { number, joined };
        self.given = number.0;
        let latest = add_frame(&self.head, &mut self.newest, self.added_last, numbered)?;
        self.added_last = number.0;
        replace_with(
            &mut self.writer,
            rt,
            |writer: LatestWriter, rt: &R| -> (LatestWriter, Result<(), NoMemory>)
                requires { latest.home ≡ writer.desk.shown.value.home }
                ensures shown { OnOk result.1 (result.0.desk.shown.value ≡ latest) }
                ensures known { OnOk result.1 (view result.0.desk.place ≡ Some latest.home) }
                ensures kept { OnErr result.1 ((result.0.desk.shown.value ≡ writer.desk.shown.value)
                    × (view result.0.desk.place ≡ view writer.desk.place)) }
            { send(writer, rt, latest) },
        )
    }

    /// A probe sees all that was published. It waits for nobody.
    pub fn meet(&mut self, probe: &mut Probe) -> Result<(), NoMemory>
        requires home { probe.old.home ≡ self.old.home }
        ensures published { self.new ≡ self.old }
        ensures home { probe.new.home ≡ probe.old.home }
        ensures grows { IsPrefix probe.old.frames probe.new.frames }
        ensures meets { OnOk result (IsPrefix self.old.frames probe.new.frames) }
    {
        probe.follow(self.writer.published())
    }

    /// Ends it. Probes keep the last frame that they saw. It waits for those that read.
    pub fn close<R: Wait>(self, rt: &R) {
        let Self {
            writer,
            head: _,
            newest: _,
            added_last: _,
            given: _,
        } = self;
        writer.take(rt);
    }
}
