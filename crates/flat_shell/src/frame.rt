ghost use Rattle.std.specs.Prelude.{◌≡◌, ◌+◌, true, length, All, IfOk, IfErr};
ghost use Rattle.flat_base.specs.Last.{last_item};
ghost use Rattle.flat_damage.specs.Damage.{IsDamage};
ghost use Rattle.flat_drawable.specs.Drawable.{IsDrawable};
ghost use Rattle.flat_scene.specs.declared.journal.EntryKind.TheVariants.{Finish};
ghost use Rattle.flat_scene.specs.declared.journal.Reply.TheVariants.{Done};
ghost use Rattle.flat_scene.specs.Journals.{history_of};
ghost use Rattle.flat_report.specs.Report.{finished};
ghost use Rattle.flat_stage.specs.Displays.{DisplayEnters};
ghost use Rattle.flat_stage.specs.Seats.{setup_of};
ghost use Rattle.flat_shell.specs.Live.{next_frame, GoesBefore, IsComposed, IsKept, MayGoBefore};
ghost use Rattle.flat_texts.specs.Pictures.{list_of};

use crate::compositor::DisplayCompositor;
use crate::compositor_parts::CompositorParts;
use flat_base::NoMemory;
use flat_core::shown_states_fit;
use flat_damage::damage;
use flat_play::LastFrame;
use flat_rules::{items_are_drawable, journals_keep_seats};
use flat_scene::{FrameOut, ItemList, RectList, SessionSet};
use flat_stage::Compositor;
use std::marker::Model;
use std::sync::Wait;

/// A frame that began. What it shows is that of its begin, whatever the clients present
/// meanwhile. Contracts see it as the compositor's seat.
#[derive(Drop)]
pub struct BegunFrame {
    pub(crate) keeper: CompositorParts,
    pub(crate) compositor: Compositor,
    /// What the last frame was composed of; None after memory ran out.
    pub(crate) last: Option<LastFrame>,
}

impl Model for BegunFrame {
    ghost use Rattle.std.specs.Prelude.{◌≡◌, true};
    ghost use Rattle.flat_stage.specs.Displays.{DisplayView};
    ghost use Rattle.flat_stage.specs.Seats.{setup_of};
    ghost use Rattle.flat_shell.specs.Live.{IsKept, MayGoBefore};

    ghost Value = { DisplayView };

    ghost view = { λ b. b.compositor.display };

    ghost invariant = { λ b. IsKept true b.keeper b.compositor.display
        × MayGoBefore (setup_of b.compositor.display.stage) b.compositor b.last
        × (b.compositor.is_open ≡ true) };
}

/// A frame that is composed, to be shown and then done. Contracts see it as the compositor's
/// seat.
#[derive(Drop)]
pub struct ComposedFrame {
    keeper: CompositorParts,
    compositor: Compositor,
    last: LastFrame,
    out: FrameOut,
}

impl Model for ComposedFrame {
    ghost use Rattle.std.specs.Prelude.{◌≡◌, true};
    ghost use Rattle.flat_stage.specs.Displays.{DisplayView};
    ghost use Rattle.flat_stage.specs.Seats.{setup_of};
    ghost use Rattle.flat_scene.specs.Journals.{history_of};
    ghost use Rattle.flat_shell.specs.Live.{IsComposed, IsKept, next_frame};

    ghost Value = { DisplayView };

    ghost view = { λ b. b.compositor.display };

    ghost invariant = { λ b. IsKept true b.keeper b.compositor.display
        × IsComposed (setup_of b.compositor.display.stage)
        (history_of b.compositor.display.seen) b.last
        × (b.out ≡ next_frame b.compositor.display) × (b.compositor.is_open ≡ true) };
}

/// Each session: none is known to show what it showed.
const EVERYBODY: SessionSet = SessionSet { has: [true; 16] };

/// What the next frame is composed from, and the sessions that may show something else in it.
fn start_of(
    keeper: &CompositorParts,
    compositor: &Compositor,
    last: Option<LastFrame>,
) -> Result<(LastFrame, SessionSet), NoMemory>
    requires kept { IsKept true keeper.now compositor.now.display }
    requires begun { MayGoBefore (setup_of compositor.now.display.stage) compositor.now last }
    ensures { IfOk result (λ r. GoesBefore (setup_of compositor.now.display.stage)
        compositor.now.display r.1 compositor.now.start.shown r.0) }
{
    let start = compositor.start();
    match last {
        Some(last) => Ok((last, start.changed)),
        None => {
            let mut last = LastFrame::none(keeper.alloc, &keeper.setup)?;
            last.frame = keeper.frames;
            Ok((last, EVERYBODY))
        }
    }
}

/// The next frame, composed of what an open one shows, and what is kept of it.
fn compose_from(
    keeper: &CompositorParts,
    compositor: &Compositor,
    last: Option<LastFrame>,
) -> Result<(LastFrame, FrameOut), NoMemory>
    requires kept { IsKept true keeper.now compositor.now.display }
    requires begun { MayGoBefore (setup_of compositor.now.display.stage) compositor.now last }
    ensures last { IfOk result (λ r. IsComposed (setup_of compositor.now.display.stage)
        (history_of compositor.now.display.seen) r.0) }
    ensures out { IfOk result (λ r. r.1 ≡ next_frame compositor.now.display) }
{
    shown_states_fit();
    journals_keep_seats();
    let start = compositor.start();
    let (mut last, changed) = start_of(keeper, compositor, last)?;
    let out = last.compose_next(
        keeper.alloc,
        &keeper.setup,
        start.ratio,
        &start.shown,
        changed,
        start.with_view,
    )?;
    Ok((last, out))
}

impl BegunFrame {
    /// Composes the frame. It costs what changed since the last one, and lets the clients go on
    /// meanwhile. If memory runs out, the frame comes back as it was, to be composed again.
    pub fn compose(self) -> Result<ComposedFrame, BegunFrame>
        ensures composed { IfOk result (λ frame. frame ≡ self) }
        ensures back { IfErr result (λ back. back ≡ self) }
    {
        let BegunFrame {
            keeper,
            compositor,
            last,
        } = self;
        match compose_from(&keeper, &compositor, last) {
            Ok((last, out)) => Ok(ComposedFrame {
                keeper,
                compositor,
                last,
                out,
            }),
            Err(NoMemory) => Err(BegunFrame {
                keeper,
                compositor,
                last: None,
            }),
        }
    }
}

impl ComposedFrame {
    /// The frame: its number, draw list and view tree.
    pub fn out(&self) -> &FrameOut
        ensures frame { result.now ≡ next_frame self.now }
        ensures drawable { All IsDrawable result.now.items }
    {
        items_are_drawable();
        &self.out
    }

    /// The rectangles outside of which the display shows what the last finished frame showed.
    pub fn damage(&self) -> Result<RectList, NoMemory>
        ensures { IfOk result (IsDamage (list_of (last_item (finished (setup_of self.now.stage)
            (history_of self.now.seen)))) (next_frame self.now).items) }
    {
        match &self.keeper.shown {
            Some(before) => damage(self.keeper.alloc, &before.items, &self.out.items),
            None => {
                let nothing = ItemList::new(self.keeper.alloc);
                damage(self.keeper.alloc, &nothing, &self.out.items)
            }
        }
    }

    /// Ends the frame: its presents' release fences are signalled, and its clients hear of it.
    /// It may wait, and takes no memory.
    pub fn done<R: Wait>(self, rt: &R) -> DisplayCompositor
        ensures enters { DisplayEnters (length self.mine + 1) Finish Done self result }
        ensures stays { result.stage ≡ self.stage }
    {
        let ComposedFrame {
            mut keeper,
            mut compositor,
            mut last,
            out,
        } = self;
        let number = keeper.made + 1;
        let finished = compositor.done(rt, &keeper.stage, number);
        keeper.made = number;
        keeper.frames = finished;
        keeper.shown = Some(out);
        last.frame = finished;
        DisplayCompositor {
            keeper,
            compositor,
            last,
        }
    }
}
