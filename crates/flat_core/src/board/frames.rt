//! The entries of the display: its pixel ratio is set, a frame begins, ends, or a point is
//! asked of it.
ghost use Rattle.std.specs.Prelude.{◌≡◌, ◌+◌, true, []};
ghost use Rattle.flat_base.specs.declared.ids.Actor.TheVariants.{Display};
ghost use Rattle.flat_scene.specs.declared.journal.Reply.TheVariants.{Done};
ghost use Rattle.flat_scene.specs.Frames.{ratio};
ghost use Rattle.flat_scene.specs.Interleave.{entry_of_display};
ghost use Rattle.flat_facts.specs.Begins.{entry_of};
ghost use Rattle.flat_states.specs.Machines.{MayCall, entered};
ghost use Rattle.flat_rules.specs.Ends.{to_begin};
ghost use Rattle.flat_rules.specs.Legal.{frames, reply_to};
ghost use Rattle.flat_rules.specs.Shown.{shown_states};
ghost use Rattle.flat_core.specs.Changes.{NotesChanges};
ghost use Rattle.flat_core.specs.Starts.{is_beside, IsStart, StartsFrame, TakesReady};

use crate::begins::{FrameBegin, begin_all};
use crate::board::Board;
use crate::dones::{FrameEnd, done_all};
use crate::entries::enter;
use crate::pair_values::PairValues;
use crate::start::FrameStart;
use flat_base::{Actor, FrameNo};
use flat_join::ShownStates;
use flat_scene::{CallList, DisplayLine, Entry, EntryKind, Reply, SessionSet};
use flat_states::frame_clock::FrameClock;
use flat_states::port::port_of;
use std::alloc::Global;

/// An entry of the display that is done and carries no calls.
fn display_entry(alloc: Global, line: u32, kind: EntryKind) -> Entry
    ensures { result ≡ entry_of Display line [] kind Done }
{
    Entry {
        actor: Actor::Display,
        line,
        calls: CallList::new(alloc),
        kind,
        reply: Reply::Done,
    }
}

impl Board {
    ghost use Rattle.flat_scene.specs.declared.journal.EntryKind.TheVariants.{Begin, Dpr, Finish, Hit};

    /// Begins a frame, of which `start` then says what it shows. Each open session shows what
    /// was taken last of it, a closed one nothing. Answers the frame's number. It takes no memory.
    pub fn begin(&mut self, line: u32, time: u64, start: &mut FrameStart) -> FrameNo
        requires may { MayCall self.old Display [] (Begin time) }
        requires start { IsStart self.old.setup self.old.history start.old }
        ensures entry { self.new ≡ entered self.old Display line [] (Begin time) Done }
        ensures frame { result.0 ≡ frames self.new.history + 1 }
        ensures starts { StartsFrame self.new.setup self.new.history start.old start.new }
        ensures takes { TakesReady self.old self.new.history time }
    {
        let mut changed = SessionSet { has: [false; 16] };
        let frame = self.enter_begin(line, time, &mut start.shown, &mut changed);
        start.changed = changed;
        start.with_view = self.with_view();
        start.ratio = self.begun_ratio();
        frame
    }

    /// Makes the entry of a begin, and shows the states of its frame.
    fn enter_begin(
        &mut self,
        line: u32,
        time: u64,
        into: &mut ShownStates,
        changed: &mut SessionSet,
    ) -> FrameNo
        requires may { MayCall self.old Display [] (Begin time) }
        requires shown { into.old ≡ shown_states self.old.setup (to_begin self.old.history) }
        ensures entry { self.new ≡ entered self.old Display line [] (Begin time) Done }
        ensures frame { result.0 ≡ frames self.new.history + 1 }
        ensures shown { into.new ≡ shown_states self.new.setup self.new.history }
        ensures changed { NotesChanges changed.old changed.new into.old into.new }
        ensures takes { TakesReady self.old self.new.history time }
    {
        let begin = FrameBegin {
            setup: &self.setup,
            line,
            time,
            fences: &self.fences,
        };
        let count = begin_all(begin, &mut self.sessions, &mut self.log, into, changed);
        self.links
            .begin(&self.setup, self.sessions.as_slice(), into);
        self.owed -= count;
        let frames = self.clock.frames;
        let ratios = self.clock.ratios.begin();
        self.clock = FrameClock {
            frames,
            is_open: true,
            time,
            ratios,
        };
        enter(
            &mut self.sessions,
            &mut self.viewports,
            &mut self.links,
            &mut self.log,
            display_entry(self.alloc, line, EntryKind::Begin(time)),
        );
        FrameNo(frames + 1)
    }

    /// The pixel ratio at the last begin.
    fn begun_ratio(&self) -> u32
        ensures { result ≡ ratio self.now.setup (to_begin self.now.history) }
    {
        self.clock.ratios.begun
    }

    /// Ends the open frame, and answers its number. The release fences of what it
    /// lets go are signalled. It takes no memory.
    pub fn done(&mut self, line: u32) -> FrameNo
        requires { MayCall self.old Display [] Finish }
        ensures entry { self.new ≡ entered self.old Display line [] Finish Done }
        ensures frame { result.0 ≡ frames self.new.history }
    {
        let before = self.clock.ratios.finished;
        let ratios = self.clock.ratios.finish();
        let heard = self.links.finish(&self.setup, ratios.finished != before);
        let telling = PairValues {
            setup: &self.setup,
            port: port_of(ratios.finished, &self.setup),
            links: &self.links,
            views: &self.view_ends,
        };
        let end = FrameEnd {
            setup: &self.setup,
            line,
            heard,
            tells: &telling,
        };
        let count = done_all(
            &end,
            &mut self.fences,
            &mut self.sessions,
            &mut self.viewports,
            &mut self.watchers,
            &mut self.log,
        );
        self.owed -= count;
        let frames = self.clock.frames + 1;
        let time = self.clock.time;
        self.clock = FrameClock {
            frames,
            is_open: false,
            time,
            ratios,
        };
        enter(
            &mut self.sessions,
            &mut self.viewports,
            &mut self.links,
            &mut self.log,
            display_entry(self.alloc, line, EntryKind::Finish),
        );
        FrameNo(frames)
    }

    /// Makes the entry of a line that begins no frame and ends none. A frame that is open stays
    /// as it began. It takes no memory.
    pub fn enter_display(&mut self, line: u32, text: DisplayLine) -> Reply
        requires beside { is_beside text ≡ true }
        requires may { MayCall self.old Display [] (entry_of_display text) }
        ensures reply { result ≡ reply_to self.old.setup self.old.history Display []
            (entry_of_display text) }
        ensures entry { self.new ≡ entered self.old Display line [] (entry_of_display text) result }
    {
        let calls = CallList::new(self.alloc);
        match text {
            DisplayLine::Signal(f) => self.signal(Actor::Display, line, calls, f),
            DisplayLine::Wait(c) => self.wait(Actor::Display, line, calls, c),
            DisplayLine::Dpr(ratio) => self.dpr(line, ratio),
            DisplayLine::Hit(x, y) => self.hit(line, x, y),
            DisplayLine::Begin(_) | DisplayLine::Done => unreachable!(),
        }
    }

    /// Sets the display's pixel ratio, for the frames that begin from now on. It takes
    /// no memory.
    pub fn dpr(&mut self, line: u32, ratio: u32) -> Reply
        requires { MayCall self.old Display [] (Dpr ratio) }
        ensures reply { result ≡ Done }
        ensures entry { self.new ≡ entered self.old Display line [] (Dpr ratio) result }
    {
        self.clock.ratios = self.clock.ratios.set(ratio);
        enter(
            &mut self.sessions,
            &mut self.viewports,
            &mut self.links,
            &mut self.log,
            display_entry(self.alloc, line, EntryKind::Dpr(ratio)),
        );
        Reply::Done
    }

    /// Asks what a point of the last finished frame hits. Who composes the frames
    /// answers that; here it is an entry. It takes no memory.
    pub fn hit(&mut self, line: u32, x: i32, y: i32) -> Reply
        requires { MayCall self.old Display [] (Hit x y) }
        ensures reply { result ≡ Done }
        ensures entry { self.new ≡ entered self.old Display line [] (Hit x y) result }
    {
        enter(
            &mut self.sessions,
            &mut self.viewports,
            &mut self.links,
            &mut self.log,
            display_entry(self.alloc, line, EntryKind::Hit(x, y)),
        );
        Reply::Done
    }
}
