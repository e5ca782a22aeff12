//! The compositor: it shows each frame on a display that keeps its picture, and sends a click.
ghost use Rattle.std.specs.Prelude.{◌≡◌, IfOk, OnOk};
ghost use Rattle.flat_shell.specs.Live.{MayBegin};

use crate::cast::{Cast, HEIGHT, WIDTH};
use crate::clients::{FRAMES, LOOKS};
use anyhow::bail;
use flat_display::Display;
use flat_focus::Focus;
use flat_pointer::{PointerAnswer, Pointers};
use flat_scene::WaitCondition;
use flat_screen::PictureDisplay;
use flat_shell::{ComposedFrame, DisplayCompositor};
use std::alloc::Global;
use std::fmt::Write;
use std::string::String;
use std::sync::Wait;
use std::thread::Threads;
use std::time::Clock;

/// How many sessions there are.
const SESSIONS: u32 = 2;

/// The time between two frames.
const FRAME_TIME: u64 = 16;

/// The frame after which the pointer goes down, and where.
const CLICK_AFTER: u32 = 5;

const CLICK: (i32, i32) = (100, 100);

const POINTER: u8 = 0;

/// The pixel whose colour is printed.
const LOOK_AT: (u32, u32) = (9, 50);

/// What hears of each frame: a display, the focus chain and the pointers.
#[derive(Drop)]
pub(crate) struct Output {
    display: PictureDisplay,
    focus: Focus,
    pointers: Pointers,
    text: String,
}

impl Output {
    /// Before the first frame: the display is black, and nobody has the focus.
    pub(crate) fn new<R: Threads + Sync>(rt: &R, alloc: Global) -> Result<Output, anyhow::Error> {
        Ok(Output {
            display: PictureDisplay::new(rt, alloc, WIDTH, HEIGHT)?,
            focus: Focus::new(alloc, SESSIONS)?,
            pointers: Pointers::new(),
            text: String::new(alloc),
        })
    }
}

/// Shows a frame, tells the focus and the pointer of it, and writes a line.
fn show(out: &mut Output, frame: &ComposedFrame, number: u32) -> Result<(), anyhow::Error> {
    let shown = frame.out();
    if out.display.show(shown).is_err() {
        bail!("the display failed");
    }
    if out.focus.has_room(&shown.tree) {
        out.focus.frame(&shown.tree);
    }
    let _ended = out.pointers.cancel(POINTER, &shown.tree);
    let (items, damage) = (shown.items.len(), frame.damage()?.len());
    let colour = out.display.pixel(LOOK_AT.0, LOOK_AT.1);
    writeln!(
        out.text,
        "frame {number}: {items} items, {damage} damaged, {colour:?}"
    )?;
    Ok(())
}

/// The pointer goes down and up; the focus goes to whom it hits.
fn click(
    out: &mut Output,
    compositor: &mut DisplayCompositor,
    cast: Cast,
) -> Result<(), anyhow::Error>
    ensures { compositor.new.stage ≡ compositor.old.stage }
{
    let hits = compositor.hits(CLICK.0, CLICK.1)?;
    if let PointerAnswer::Down(session) = out.pointers.down(POINTER, &hits) {
        out.focus.request(cast.home, session);
        let (session, chain) = (session.0, out.focus.chain().len());
        writeln!(out.text, "click: session {session}, chain of {chain}")?;
    }
    out.pointers.up(POINTER);
    Ok(())
}

/// Waits until both clients have presented for the frame of a number, and asks whether it may
/// begin at a time.
fn await_presents<R: Wait + Clock>(
    rt: &R,
    compositor: &mut DisplayCompositor,
    cast: Cast,
    number: u32,
    time: u64,
) -> Result<(), anyhow::Error>
    ensures may { OnOk result (MayBegin time compositor.new) }
    ensures stays { compositor.new.stage ≡ compositor.old.stage }
{
    compositor.wait(rt, WaitCondition::Presents(cast.home, number), LOOKS)?;
    compositor.wait(rt, WaitCondition::Presents(cast.app, number), LOOKS)?;
    compositor.may_begin(time)?;
    Ok(())
}

/// Begins, composes, shows and ends the frame of a number.
fn direct_one<R: Wait + Clock>(
    rt: &R,
    mut compositor: DisplayCompositor,
    out: &mut Output,
    cast: Cast,
    number: u32,
) -> Result<DisplayCompositor, anyhow::Error>
    ensures { IfOk result (λ c. c.stage ≡ compositor.stage) }
{
    let time = number as u64 * FRAME_TIME;
    await_presents(rt, &mut compositor, cast, number, time)?;
    let Ok(frame) = compositor.begin(rt, time).compose() else {
        bail!("out of memory");
    };
    show(out, &frame, number)?;
    Ok(frame.done(rt))
}

/// Shows ten frames, and clicks once. Answers the compositor, and what was written.
pub(crate) fn direct<R: Wait + Clock>(
    rt: &R,
    mut compositor: DisplayCompositor,
    mut out: Output,
    cast: Cast,
) -> Result<(DisplayCompositor, String), anyhow::Error>
    ensures { IfOk result (λ r. r.0.stage ≡ compositor.stage) }
{
    for number in 1..FRAMES + 1 {
        compositor = direct_one(rt, compositor, &mut out, cast, number)?;
        if number == CLICK_AFTER {
            click(&mut out, &mut compositor, cast)?;
        }
    }
    Ok((compositor, out.text))
}
