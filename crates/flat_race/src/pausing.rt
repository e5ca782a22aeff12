//! What the compositor does before a line that makes an entry: it looks as a Wait does, or
//! asks the gate.
ghost use Rattle.std.specs.Prelude.{◌≡◌, ◌≤◌, IsTrue};
ghost use Rattle.flat_base.specs.declared.ids.Actor.TheVariants.{Display};
ghost use Rattle.flat_scene.specs.declared.script.WaitCondition.{WaitCondition};
ghost use Rattle.flat_scene.specs.declared.script.DisplayLine.TheVariants as display;
ghost use Rattle.flat_scene.specs.Journals.{history_of};
ghost use Rattle.flat_core.specs.Machines.{MayLook};
ghost use Rattle.flat_rules.specs.Legal.{asked_of, value_of, Legal};
ghost use Rattle.flat_stage.specs.Seats.{entries_of_seat, setup_of};
ghost use Rattle.flat_race.specs.Directing.{HasLooked};

use crate::actor_context::ActorContext;
use crate::gate::{ASKS, Gate, LOOKS, ask};
use crate::race_frames::DISPLAY;
use flat_core::asked_of;
use flat_scene::{DisplayLine, WaitCondition};
use flat_stage::Compositor;
use flat_waits::Waiter;
use std::sync::Wait;
use std::thread;

/// Looks at a condition if there is news, and answers whether its value was enough.
fn look_once<R: Wait, G: Gate>(
    context: &ActorContext<R, G>,
    compositor: &mut Compositor,
    waiter: &mut Waiter<'_>,
    c: WaitCondition,
) -> bool
    requires own { compositor.old.display.stage ≡ context.now.stage.now }
    requires may { MayLook (setup_of context.now.stage.now) Display c }
    requires legal { Legal (setup_of context.now.stage.now) (history_of compositor.old.display.seen) }
    requires whole { compositor.old.display.mine ≡ entries_of_seat 0 compositor.old.display.seen }
    ensures looked { HasLooked (setup_of context.now.stage.now) compositor.old compositor.new }
    ensures met { IsTrue result → asked_of c ≤ value_of (setup_of context.now.stage.now)
        (history_of compositor.new.display.seen) Display c }
{
    if !waiter.has_news() {
        return false;
    }
    if asked_of(c) <= compositor.look(context.rt, context.stage, c) {
        return true;
    }
    waiter.found_too_little();
    false
}

/// Looks until the value of a condition is enough, or no actor can change it any more, and
/// answers whether it was enough. It looks again once something was entered, at most so
/// often as a Wait may look. The gate is asked each time, with one budget of the line.
fn look_again<R: Wait, G: Gate>(
    context: &ActorContext<R, G>,
    compositor: &mut Compositor,
    number: u32,
    c: WaitCondition,
) -> bool
    requires own { compositor.old.display.stage ≡ context.now.stage.now }
    requires may { MayLook (setup_of context.now.stage.now) Display c }
    requires legal { Legal (setup_of context.now.stage.now) (history_of compositor.old.display.seen) }
    requires whole { compositor.old.display.mine ≡ entries_of_seat 0 compositor.old.display.seen }
    ensures looked { HasLooked (setup_of context.now.stage.now) compositor.old compositor.new }
    ensures met { IsTrue result → asked_of c ≤ value_of (setup_of context.now.stage.now)
        (history_of compositor.new.display.seen) Display c }
{
    let mut left = ASKS;
    let mut waiter = Waiter::new(context.waits);
    for _ in 0..LOOKS {
        left = ask(context.gate, DISPLAY, number, left);
        if look_once(context, compositor, &mut waiter, c) {
            return true;
        }
        if waiter.is_over() {
            waiter.stop();
            return false;
        }
        thread::yield_now();
    }
    waiter.stop();
    false
}

/// Looks as a wait does, or asks the gate once as is due before another line.
pub(crate) fn pause<R: Wait, G: Gate>(
    context: &ActorContext<R, G>,
    compositor: &mut Compositor,
    number: u32,
    text: DisplayLine,
)
    requires own { compositor.old.display.stage ≡ context.now.stage.now }
    requires may { (c : WaitCondition) → text ≡ display.Wait c
        → MayLook (setup_of context.now.stage.now)
        Display c }
    requires legal { Legal (setup_of context.now.stage.now) (history_of compositor.old.display.seen) }
    requires whole { compositor.old.display.mine ≡ entries_of_seat 0 compositor.old.display.seen }
    ensures { HasLooked (setup_of context.now.stage.now) compositor.old compositor.new }
{
    match text {
        DisplayLine::Wait(c) => {
            look_again(context, compositor, number, c);
        }
        _ => {
            ask(context.gate, DISPLAY, number, ASKS);
        }
    }
}
