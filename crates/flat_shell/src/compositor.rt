ghost use Rattle.std.specs.Prelude.{◌≡◌, ◌≢◌, ◌+◌, ◌<◌, ◌↔◌, ℕ, false, true, length, Err, IfOk, IsOk};
ghost use Rattle.std.specs.Option.{option_copied};
ghost use Rattle.flat_base.specs.Last.{last_item};
ghost use Rattle.flat_scene.specs.declared.journal.EntryKind.TheVariants.{Begin, Dpr, Signal};
ghost use Rattle.flat_scene.specs.declared.journal.Reply.TheVariants.{Done};
ghost use Rattle.flat_scene.specs.declared.script.DisplayLine.TheVariants as display;
ghost use Rattle.flat_scene.specs.Journals.{history_of};
ghost use Rattle.flat_rules.specs.Ends.{to_finished};
ghost use Rattle.flat_rules.specs.Legal.{begin_time, display_may};
ghost use Rattle.flat_core.specs.Starts.{is_beside};
ghost use Rattle.flat_scene.specs.Interleave.{entry_of_display};
ghost use Rattle.flat_rules.specs.Owned.{is_played_display};
ghost use Rattle.flat_report.specs.Report.{finished, hits_at};
ghost use Rattle.flat_stage.specs.Displays.{DisplayEnters};
ghost use Rattle.flat_stage.specs.Seats.{setup_of};
ghost use Rattle.flat_shell.specs.Live.{Enters, MayBegin, left};
ghost use Rattle.flat_shell.specs.declared.fault.BeginFault.TheVariants.{Before};
ghost use Rattle.flat_shell.specs.declared.fault.BeginFault.TheVariants as begins;
ghost use Rattle.flat_shell.specs.declared.fault.DisplayFault.TheVariants.{Full, NotOwned, Unmet};

use crate::compositor_parts::CompositorParts;
use crate::fault::{BeginFault, DisplayFault};
use crate::frame::BegunFrame;
use flat_base::{FenceNo, NoMemory};
use flat_play::LastFrame;
use flat_scene::{DisplayLine, FrameOut, HitList};
use flat_setup::may_direct;
use flat_stage::Compositor;
use std::marker::Model;
use std::sync::Wait;

/// The display's compositor while no frame is open. Contracts see it as its seat's view: the
/// stage, the history that it has seen, and its own entries in it.
#[derive(Drop)]
pub struct DisplayCompositor {
    pub(crate) keeper: CompositorParts,
    pub(crate) compositor: Compositor,
    pub(crate) last: LastFrame,
}

impl Model for DisplayCompositor {
    ghost use Rattle.std.specs.Prelude.{◌≡◌, false};
    ghost use Rattle.flat_stage.specs.Displays.{DisplayView};
    ghost use Rattle.flat_stage.specs.Seats.{setup_of};
    ghost use Rattle.flat_scene.specs.Journals.{history_of};
    ghost use Rattle.flat_shell.specs.Live.{HasLast, IsKept};

    ghost Value = { DisplayView };

    ghost view = { λ c. c.compositor.display };

    ghost invariant = { λ c. IsKept false c.keeper c.compositor.display
        × HasLast (setup_of c.compositor.display.stage) (history_of c.compositor.display.seen) c.last
        × (c.compositor.is_open ≡ false) };
}

impl DisplayCompositor {
    /// How many entries it may still make. A frame takes two: its begin and its done.
    pub fn room(&self) -> u32
        ensures { result ≡ left self.now }
    {
        self.keeper.share - self.keeper.made
    }

    /// When the last frame began, 0 before the first.
    pub fn last_begin(&self) -> u64
        ensures { result ≡ begin_time (history_of self.now.mine) }
    {
        self.keeper.time
    }

    /// The last finished frame, if there is one.
    pub fn frame(&self) -> Option<&FrameOut>
        ensures { option_copied result
            ≡ last_item (finished (setup_of self.now.stage) (history_of self.now.seen)) }
    {
        self.keeper.shown.as_ref()
    }

    /// Whether a frame may begin at a time: if the share has room for its begin and its done,
    /// and the last frame didn't begin later.
    pub fn may_begin(&self, time: u64) -> Result<(), BeginFault>
        ensures may { IsOk result ↔ MayBegin time self.now }
        ensures full { result ≡ Err begins.Full ↔ left self.now < 2 }
        ensures before { (last : ℕ) → result ≡ Err (Before last) →
            (last ≡ begin_time (history_of self.now.mine)) × (time < last) }
    {
        if self.room() < 2 {
            return Err(BeginFault::Full);
        }
        if time < self.keeper.time {
            return Err(BeginFault::Before(self.keeper.time));
        }
        Ok(())
    }

    /// Begins a frame, which shows what the sessions have presented until now, if it is due.
    /// It may wait, and takes no memory.
    ///
    /// [`may_begin`](DisplayCompositor::may_begin) says whether a frame may begin.
    pub fn begin<R: Wait>(self, rt: &R, time: u64) -> BegunFrame
        requires may { MayBegin time self }
        ensures enters { DisplayEnters (length self.mine + 1) (Begin time) Done self result }
        ensures stays { result.stage ≡ self.stage }
    {
        let DisplayCompositor {
            mut keeper,
            mut compositor,
            last,
        } = self;
        let number = keeper.made + 1;
        // proof: the last frame shows what the compositor's last begin decided
        let _ = compositor.start();
        compositor.begin(rt, &keeper.stage, number, time);
        keeper.made = number;
        keeper.time = time;
        BegunFrame {
            keeper,
            compositor,
            last: Some(last),
        }
    }

    /// Signals a fence of the display. It may wait, and takes no memory.
    pub fn signal<R: Wait>(&mut self, rt: &R, f: FenceNo) -> Result<(), DisplayFault>
        ensures enters { Enters (display.Signal f) (Signal f) self.old self.new result }
        ensures stays { self.new.stage ≡ self.old.stage }
    {
        self.enter(rt, DisplayLine::Signal(f))
    }

    /// Sets the display's pixel ratio, in fixed point, for the frames that begin from now on.
    /// It may wait, and takes no memory.
    pub fn set_ratio<R: Wait>(&mut self, rt: &R, ratio: u32) -> Result<(), DisplayFault>
        ensures enters { Enters (display.Dpr ratio) (Dpr ratio) self.old self.new result }
        ensures stays { self.new.stage ≡ self.old.stage }
    {
        self.enter(rt, DisplayLine::Dpr(ratio))
    }

    /// Makes the entry of a line that begins no frame and ends none, if it may be made.
    fn enter<R: Wait>(&mut self, rt: &R, text: DisplayLine) -> Result<(), DisplayFault>
        requires beside { is_beside text ≡ true }
        requires acts { display_may (entry_of_display text) ≡ true }
        ensures enters { Enters text (entry_of_display text) self.old self.new result }
        ensures stays { self.new.stage ≡ self.old.stage }
    {
        let number = self.entry_number(text)?;
        self.compositor.enter(rt, &self.keeper.stage, number, text);
        self.keeper.made = number;
        Ok(())
    }

    /// The number of the entry of this line, if it may be made.
    fn entry_number(&self, text: DisplayLine) -> Result<u32, DisplayFault>
        ensures number { IfOk result (λ number. number ≡ length self.now.mine + 1) }
        ensures may { IfOk result (λ _. (is_played_display (setup_of self.now.stage) text ≡ true)
            × (0 < left self.now)) }
        ensures owned { result ≡ Err NotOwned → is_played_display (setup_of self.now.stage) text
            ≡ false }
        ensures full { result ≡ Err Full → left self.now ≡ 0 }
        ensures looked { (value : ℕ) → result ≢ Err (Unmet value) }
    {
        if !may_direct(&self.keeper.setup, text) {
            return Err(DisplayFault::NotOwned);
        }
        let made = self.keeper.made;
        if made >= self.keeper.share {
            return Err(DisplayFault::Full);
        }
        Ok(made + 1)
    }

    /// Who is hit at a point of the last finished frame, in units. It makes no entry. The first
    /// point that is asked of a frame joins its tree.
    pub fn hits(&mut self, x: i32, y: i32) -> Result<HitList, NoMemory>
        ensures hits { IfOk result (λ hits. hits ≡ hits_at (setup_of self.old.stage)
            (to_finished (history_of self.old.seen)) x y) }
        ensures same { self.new ≡ self.old }
    {
        self.last.hits(self.keeper.alloc, &self.keeper.setup, x, y)
    }
}
