//! The compositor. It composes, keeps and shows a frame outside the lock, while the sessions
//! go on: nothing that they enter changes what an open frame shows.
ghost use Rattle.std.specs.Prelude.{◌≡◌, ◌≤◌, ◌<◌, ◌+◌, [], true, false, length, map, slice_get, Some, List};
ghost use Rattle.std.specs.Prelude.{OnErr, OnOk};
ghost use Rattle.flat_base.specs.declared.ids.Actor.TheVariants.{Display};
ghost use Rattle.flat_scene.specs.declared.journal.Entry.{Entry};
ghost use Rattle.flat_scene.specs.declared.journal.EntryKind.TheVariants.{Begin};
ghost use Rattle.flat_scene.specs.declared.journal.Reply.TheVariants.{Done};
ghost use Rattle.flat_scene.specs.declared.script.LineBody.TheVariants as body;
ghost use Rattle.flat_scene.specs.Journals.{history_of};
ghost use Rattle.flat_scene.specs.Interleave.{entry_of_display};
ghost use Rattle.flat_scene.specs.Heads.{is_setup};
ghost use Rattle.flat_core.specs.Starts.{is_beside, IsStart, StartsFrame};
ghost use Rattle.flat_rules.specs.Legal.{begin_time, Legal, display_may, names_declared};
ghost use Rattle.flat_playable.specs.Playable.{is_playable};
ghost use Rattle.flat_stage.specs.Displays.{DisplayEnters, EndsFrame, HasDisplayRoom, IsNewCompositor};
ghost use Rattle.flat_stage.specs.Seats.{entries_of_seat, setup_of};
ghost use Rattle.flat_play.specs.Last.{IsLast, MayFollow};
ghost use Rattle.flat_play.specs.Storing.{AnswersLine, StoreStands};
ghost use Rattle.flat_race.specs.Directing.{CompositorStands, Directs, EntersBeside, EntersNothing};
ghost use Rattle.flat_race.specs.Directing.{FinishesFrame, HasDirected, HasStopped, IsNewFilm};
ghost use Rattle.flat_play.specs.Showing.{KeepsDisplays};
ghost use Rattle.flat_race.specs.Sessions.{IsStageOf};

use crate::actor_context::ActorContext;
use crate::gate::{ASKS, Gate, ask};
use crate::pausing::pause;
use crate::race_frames::{DISPLAY, RaceFrames, end_line};
use flat_base::NoMemory;
use flat_core::shown_states_fit;
use flat_display::Display;
use flat_publish::Published;
use flat_rules::{display_knows_frames, journals_keep_seats, seats_tell_actors};
use flat_scene::{DisplayLine, LineBody, Reply};
use flat_stage::Compositor;
use std::sync::Wait;

/// A line of the display, with its number in the script.
#[derive(Clone, Copy)]
struct NumberedLine {
    number: u32,
    text: DisplayLine,
}

/// Makes the entry of a line that begins no frame and ends none, once the gate lets it in. A
/// point that it asks for is answered by the last finished frame. The gate hears of it.
fn enter_beside<R: Wait, G: Gate>(
    context: &ActorContext<R, G>,
    compositor: &mut Compositor,
    film: &mut RaceFrames,
    number: u32,
    text: DisplayLine,
) -> Result<(), NoMemory>
    requires own { compositor.old.display.stage ≡ context.now.stage.now }
    requires room { HasDisplayRoom compositor.old.display }
    requires beside { is_beside text ≡ true }
    requires acts { display_may (entry_of_display text) ≡ true }
    requires named { names_declared (setup_of context.now.stage.now) (entry_of_display text)
        ≡ true }
    requires legal { Legal (setup_of context.now.stage.now) (history_of compositor.old.display.seen) }
    requires whole { compositor.old.display.mine ≡ entries_of_seat 0 compositor.old.display.seen }
    requires setup { is_setup context.now.script.now.setup ≡ true }
    requires last { IsLast context.now.script.now.setup film.old.store.last }
    ensures enters { OnOk result (EntersBeside (setup_of context.now.stage.now) number text
        compositor.old compositor.new) }
    ensures answers { OnOk result (AnswersLine context.now.script.now.setup number text
        film.old.store film.new.store) }
    ensures unmoved { OnErr result (compositor.new ≡ compositor.old) }
    ensures others { film.new ≡ record film.old { store = film.new.store } }
{
    film.store
        .answer_line(context.alloc, &context.script.setup, number, text)?;
    pause(context, compositor, number, text);
    let reply = compositor.enter(context.rt, context.stage, number, text);
    context.waits.enter();
    context.gate.passed(DISPLAY, number, &reply);
    Ok(())
}

/// Begins a frame, once the gate lets it in. The gate hears of it.
fn begin<R: Wait, G: Gate>(
    context: &ActorContext<R, G>,
    compositor: &mut Compositor,
    number: u32,
    time: u64,
)
    requires own { compositor.old.display.stage ≡ context.now.stage.now }
    requires closed { compositor.old.is_open ≡ false }
    requires room { HasDisplayRoom compositor.old.display }
    requires time { begin_time (history_of compositor.old.display.mine) ≤ time }
    ensures enters { DisplayEnters number (Begin time) Done compositor.old.display
        compositor.new.display }
    ensures starts { StartsFrame (setup_of compositor.old.display.stage)
        (history_of compositor.new.display.seen) compositor.old.start compositor.new.start }
    ensures open { compositor.new.is_open ≡ true }
{
    ask(context.gate, DISPLAY, number, ASKS);
    compositor.begin(context.rt, context.stage, number, time);
    context.waits.enter();
    context.gate.passed(DISPLAY, number, &Reply::Done);
}

/// Ends the open frame: it is composed of what it shows, kept, and shown to the displays that
/// aren't lost, all while the sessions go on; then it is entered. The gate hears of it from
/// [`end_line`]. Out of memory, nothing was shown, and the frame stays open.
fn finish<R: Wait, G: Gate>(
    context: &ActorContext<R, G>,
    compositor: &mut Compositor,
    film: &mut RaceFrames,
    displays: &mut Vec<Box<dyn Display>>,
    number: u32,
) -> Result<(), NoMemory>
    requires own { compositor.old.display.stage ≡ context.now.stage.now }
    requires open { compositor.old.is_open ≡ true }
    requires room { HasDisplayRoom compositor.old.display }
    requires setup { is_setup context.now.script.now.setup ≡ true }
    requires follows { MayFollow context.now.script.now.setup compositor.old.start
        film.old.store.last }
    requires number { length displays.old.items ≡ film.old.set.displays }
    ensures enters { OnOk result (EndsFrame number compositor.old compositor.new) }
    ensures finishes { (history : List Entry) → StoreStands context.now.script.now history
        film.old.store → IsStart context.now.script.now.setup history compositor.old.start →
        OnOk result (FinishesFrame (λ d. shown d) (λ d. faults d) context.now.script.now history
        compositor.old.start film.old film.new displays.old.items displays.new.items) }
    ensures stays { OnErr result (EntersNothing compositor.old compositor.new film.old film.new
        displays.old.items displays.new.items) }
    ensures displays { KeepsDisplays (λ d. d.vtable) film.old.set film.new.set displays.old.items
        displays.new.items }
{
    ask(context.gate, DISPLAY, number, ASKS);
    film.store
        .finish(context.alloc, context.script, compositor.start())?;
    film.store.show(&mut film.set, displays);
    compositor.done(context.rt, context.stage, number);
    context.waits.enter();
    Ok(())
}

/// Goes through one line of the display. Out of memory, it makes no entry.
fn direct_line<R: Wait, G: Gate>(
    context: &ActorContext<R, G>,
    compositor: &mut Compositor,
    film: &mut RaceFrames,
    displays: &mut Vec<Box<dyn Display>>,
    place: usize,
    line: NumberedLine,
) -> Result<(), NoMemory>
    requires line { slice_get context.now.script.now.lines place
        ≡ Some (record { number = line.number; actor = Display; body = body.Display line.text }) }
    requires playable { is_playable context.now.script.now ≡ true }
    requires of { IsStageOf context.now.stage.now context.now.script.now }
    requires stands { CompositorStands context.now.script.now context.now.stage.now place
        compositor.old
        film.old }
    requires number { length displays.old.items ≡ film.old.set.displays }
    ensures stands { OnOk result (CompositorStands context.now.script.now context.now.stage.now
        (place + 1) compositor.new film.new) }
    ensures directs { OnOk result (Directs (λ d. shown d) (λ d. faults d)
        context.now.script.now.setup compositor.old compositor.new film.old film.new
        displays.old.items displays.new.items) }
    ensures stays { OnErr result (EntersNothing compositor.old compositor.new film.old film.new
        displays.old.items displays.new.items) }
    ensures displays { KeepsDisplays (λ d. d.vtable) film.old.set film.new.set displays.old.items
        displays.new.items }
{
    display_knows_frames();
    seats_tell_actors();
    journals_keep_seats();
    shown_states_fit();
    match line.text {
        DisplayLine::Begin(time) => {
            begin(context, compositor, line.number, time);
            Ok(())
        }
        DisplayLine::Done => {
            finish(context, compositor, film, displays, line.number)?;
            Ok(())
        }
        _ => {
            enter_beside(context, compositor, film, line.number, line.text)?;
            Ok(())
        }
    }
}

/// Goes through the line at a place of the script, where it is the display's, as
/// [`direct_line`] does.
fn direct_next<R: Wait, G: Gate>(
    context: &ActorContext<R, G>,
    compositor: &mut Compositor,
    film: &mut RaceFrames,
    displays: &mut Vec<Box<dyn Display>>,
    place: usize,
) -> Result<(), NoMemory>
    requires place { place < length context.now.script.now.lines }
    requires playable { is_playable context.now.script.now ≡ true }
    requires of { IsStageOf context.now.stage.now context.now.script.now }
    requires stands { CompositorStands context.now.script.now context.now.stage.now place
        compositor.old
        film.old }
    requires number { length displays.old.items ≡ film.old.set.displays }
    ensures stands { OnOk result (CompositorStands context.now.script.now context.now.stage.now
        (place + 1) compositor.new film.new) }
    ensures directs { OnOk result (Directs (λ d. shown d) (λ d. faults d)
        context.now.script.now.setup compositor.old compositor.new film.old film.new
        displays.old.items displays.new.items) }
    ensures stays { OnErr result (EntersNothing compositor.old compositor.new film.old film.new
        displays.old.items displays.new.items) }
    ensures displays { KeepsDisplays (λ d. d.vtable) film.old.set film.new.set displays.old.items
        displays.new.items }
{
    let line = context.script.lines.at(place);
    match line.body {
        LineBody::Display(text) => {
            let line = NumberedLine {
                number: line.number,
                text,
            };
            direct_line(context, compositor, film, displays, place, line)
        }
        _ => Ok(()),
    }
}

/// Goes through all lines of the display, beside the sessions. Each frame is shown to the
/// displays that aren't lost, entered, and then published where the script has probes.
/// Out of memory, it makes no further entry. Which displays there are stays as it is.
pub fn direct<R: Wait, G: Gate>(
    context: &ActorContext<R, G>,
    compositor: &mut Compositor,
    film: &mut RaceFrames,
    displays: &mut Vec<Box<dyn Display>>,
    published: &mut Published,
) -> Result<(), NoMemory>
    requires playable { is_playable context.now.script.now ≡ true }
    requires of { IsStageOf context.now.stage.now context.now.script.now }
    requires fresh { IsNewCompositor context.now.stage.now compositor.old }
    requires film { IsNewFilm context.now.script.now (length displays.old.items) film.old }
    requires unpublished { published.old
        ≡ record { home = published.old.home; frames = []; refused = []; given = 0 } }
    ensures directs { OnOk result (HasDirected (λ d. shown d) (λ d. faults d) context.now.script.now
        context.now.stage.now compositor.new.display film.old film.new published.new
        displays.old.items displays.new.items) }
    ensures home { published.new.home ≡ published.old.home }
    ensures stopped { OnErr result (HasStopped (λ d. shown d) (λ d. faults d)
        context.now.script.now context.now.stage.now compositor.new.display displays.old.items
        displays.new.items) }
    ensures kinds { map (λ d. d.vtable) displays.new.items
        ≡ map (λ d. d.vtable) displays.old.items }
{
    for place in 0..context.script.lines.len() {
        let before = film.store.last.frame;
        direct_next(context, compositor, film, displays, place)?;
        end_line(context, film, before, place, published)?;
    }
    Ok(())
}
