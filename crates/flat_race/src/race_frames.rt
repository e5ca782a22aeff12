//! What is kept of a race's frames, and what of them is published: a frame is published
//! behind its entry, so that probes see finished frames alone.
ghost use Rattle.std.specs.Prelude.{◌≡◌, ◌≤◌, ◌<◌, true, length, OnOk};
ghost use Rattle.flat_scene.specs.Heads.{is_setup};
ghost use Rattle.flat_play.specs.Last.{IsLast, StaysLast};
ghost use Rattle.flat_race.specs.Publishing.{PublishesLast};

use crate::actor_context::ActorContext;
use crate::gate::Gate;
use flat_base::{FrameNo, NoMemory};
use flat_display::DisplaySet;
use flat_play::FrameStore;
use flat_publish::Published;
use flat_report::ProbeAnswers;
use flat_scene::Reply;
use std::sync::Wait;

/// The number of the display among the actors.
pub(crate) const DISPLAY: u32 = 0;

/// What is kept of a race's frames.
#[derive(Drop)]
pub struct RaceFrames {
    /// The finished frames, and the points that were asked for.
    pub store: FrameStore,
    /// Which displays were lost.
    pub set: DisplaySet,
    /// What each probe was answered, once all of them have come back.
    pub probes: Vec<ProbeAnswers>,
}

/// Publishes the last finished frame to the probes, where there are any and it is a later
/// one than that of this number.
fn publish_last<R: Wait, G: Gate>(
    context: &ActorContext<R, G>,
    film: &mut RaceFrames,
    before: FrameNo,
    published: &mut Published,
) -> Result<(), NoMemory>
    requires setup { is_setup context.now.script.now.setup ≡ true }
    requires last { IsLast context.now.script.now.setup film.old.store.last }
    requires given { published.old.given ≤ before.0 }
    ensures stays { OnOk result (StaysLast context.now.script.now.setup film.old.store.last
        film.new.store.last) }
    ensures others { film.new ≡ record film.old {
      store = record film.old.store
          { last = film.new.store.last };
    } }
    ensures home { published.new.home ≡ published.old.home }
    ensures publishes { OnOk result (PublishesLast context.now.script.now.setup before.0
        film.old.store.last
        published.old published.new) }
{
    if context.script.setup.probes == 0 {
        return Ok(());
    }
    if film.store.last.frame.0 <= before.0 {
        return Ok(());
    }
    let joined = film
        .store
        .last
        .share_joined(context.alloc, &context.script.setup)?;
    published.publish(context.rt, film.store.last.frame, joined)?;
    Ok(())
}

/// Ends a line: a frame that it finished is published, and then the gate hears of it, so
/// that who is let in behind it sees the frame.
pub(crate) fn end_line<R: Wait, G: Gate>(
    context: &ActorContext<R, G>,
    film: &mut RaceFrames,
    before: FrameNo,
    place: usize,
    published: &mut Published,
) -> Result<(), NoMemory>
    requires place { place < length context.now.script.now.lines }
    requires setup { is_setup context.now.script.now.setup ≡ true }
    requires last { IsLast context.now.script.now.setup film.old.store.last }
    requires given { published.old.given ≤ before.0 }
    ensures stays { OnOk result (StaysLast context.now.script.now.setup film.old.store.last
        film.new.store.last) }
    ensures others { film.new ≡ record film.old {
      store = record film.old.store
          { last = film.new.store.last };
    } }
    ensures home { published.new.home ≡ published.old.home }
    ensures publishes { OnOk result (PublishesLast context.now.script.now.setup before.0
        film.old.store.last
        published.old published.new) }
{
    let is_later = before.0 < film.store.last.frame.0;
    let sent = publish_last(context, film, before, published);
    if is_later {
        context.gate.passed(DISPLAY, context.script.lines.at(place).number, &Reply::Done);
    }
    sent
}
