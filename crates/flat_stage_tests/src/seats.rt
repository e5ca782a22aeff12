ghost use Rattle.std.specs.Prelude.{◌≡◌, ◌+◌, ◌<◌, true, false, [], IfOk, OnOk, Some};
ghost use Rattle.std.specs.List.{list_all};
ghost use Rattle.std.specs.Option.{is_some};
ghost use Rattle.flat_base.specs.declared.ids.Actor.TheVariants.{Display, Session};
ghost use Rattle.flat_stage_tests.specs.Room.{MayRead, MayBegin};

use crate::cast::{Cast, new_cast};
use flat_base::{Actor, Items, NoMemory, SessionNo};
use flat_core::Board;
use flat_scene::{Entry, EntryKind, PresentArgs, Reply, SessionLine};
use flat_stage::{Compositor, SessionSeat, SessionSeats, Stage};
use std::alloc::Global;
use std::sync::Wait;
use std::test::Fail;
use std::thread;
use std::thread::Threads;

const POLLS: u32 = 100;

const FRAMES: u32 = 10;

pub(crate) fn no_fences(alloc: Global) -> PresentArgs
    ensures { result ≡ record { time = 0; acquire = []; release = []; unsquashable = false } }
{
    PresentArgs {
        time: 0,
        acquire: Items::new(alloc),
        release: Items::new(alloc),
        unsquashable: false,
    }
}

/// One present, after which so many lines more may be read.
fn present<R: Wait>(
    rt: &R,
    alloc: Global,
    stage: &Stage,
    seat: &mut SessionSeat,
    left: u32,
) -> Result<Reply, NoMemory>
    requires own { seat.old.stage ≡ stage.now }
    requires may { MayRead (left + 1) seat.old }
    ensures own { seat.new.stage ≡ seat.old.stage }
    ensures may { MayRead left seat.new }
{
    seat.call(rt, stage, 1, SessionLine::Present(no_fences(alloc)))
}

/// One poll, after which so many lines more may be read.
fn poll<R: Wait>(
    rt: &R,
    stage: &Stage,
    seat: &mut SessionSeat,
    number: u32,
    left: u32,
) -> Result<Reply, NoMemory>
    requires own { seat.old.stage ≡ stage.now }
    requires may { MayRead (left + 1) seat.old }
    ensures own { seat.new.stage ≡ seat.old.stage }
    ensures may { MayRead left seat.new }
{
    seat.call(rt, stage, number, SessionLine::Poll)
}

/// One present, and then the polls.
fn read_each<R: Wait>(
    rt: &R,
    alloc: Global,
    stage: &Stage,
    seat: &mut SessionSeat,
) -> Result<(), NoMemory>
    requires own { seat.old.stage ≡ stage.now }
    requires may { MayRead 101 seat.old }
    ensures { seat.new.stage ≡ stage.now }
{
    present(rt, alloc, stage, seat, POLLS)?;
    for k in 0..POLLS {
        poll(rt, stage, seat, k + 2, POLLS - 1 - k)?;
    }
    Ok(())
}

/// The same of a seat that is let go where memory is wanted.
fn read_all<R: Wait>(
    rt: &R,
    alloc: Global,
    stage: &Stage,
    mut seat: SessionSeat,
) -> Result<SessionSeat, NoMemory>
    requires own { seat.stage ≡ stage.now }
    requires may { MayRead 101 seat }
    ensures { IfOk result (λ seat. seat.stage ≡ stage.now) }
{
    match read_each(rt, alloc, stage, &mut seat) {
        Ok(()) => Ok(seat),
        Err(NoMemory) => {
            drop(seat);
            Err(NoMemory)
        }
    }
}

/// One frame, after which so many more may be made.
fn make_frame<R: Wait>(rt: &R, stage: &Stage, compositor: &mut Compositor, k: u32, left: u32)
    requires own { compositor.old.display.stage ≡ stage.now }
    requires closed { compositor.old.is_open ≡ false }
    requires may { MayBegin (left + 1) k compositor.old.display }
    requires fits { k < 100 }
    ensures own { compositor.new.display.stage ≡ stage.now }
    ensures closed { compositor.new.is_open ≡ false }
    ensures may { MayBegin left (k + 1) compositor.new.display }
{
    compositor.begin(rt, stage, 2 * k + 1, k as u64);
    compositor.done(rt, stage, 2 * k + 2);
}

/// Ten frames.
fn make_frames<R: Wait>(rt: &R, stage: &Stage, mut compositor: Compositor) -> Compositor
    requires own { compositor.display.stage ≡ stage.now }
    requires closed { compositor.is_open ≡ false }
    requires may { MayBegin 10 0 compositor.display }
    ensures { result.display.stage ≡ stage.now }
{
    for k in 0..FRAMES {
        make_frame(rt, stage, &mut compositor, k, FRAMES - 1 - k);
    }
    compositor
}

type Both = (Result<SessionSeat, NoMemory>, Result<SessionSeat, NoMemory>);

/// Two sessions read at once.
fn read_both<R: Threads + Wait + Sync>(
    rt: &R,
    alloc: Global,
    stage: &Stage,
    first: SessionSeat,
    second: SessionSeat,
) -> Both
    requires first { (first.stage ≡ stage.now) × MayRead 101 first }
    requires second { (second.stage ≡ stage.now) × MayRead 101 second }
    ensures first { IfOk result.0 (λ seat. seat.stage ≡ stage.now) }
    ensures second { IfOk result.1 (λ seat. seat.stage ≡ stage.now) }
{
    thread::join(
        rt,
        move || -> Result<SessionSeat, NoMemory>
            requires { (first.stage ≡ stage.now) × MayRead 101 first }
            ensures { IfOk result (λ seat. seat.stage ≡ stage.entry.now) }
        { read_all(rt, alloc, stage, first) },
        move || -> Result<SessionSeat, NoMemory>
            requires { (second.stage ≡ stage.now) × MayRead 101 second }
            ensures { IfOk result (λ seat. seat.stage ≡ stage.entry.now) }
        { read_all(rt, alloc, stage, second) },
    )
}

/// Two sessions read, and frames are made beside them.
fn run_all<R: Threads + Wait + Sync>(
    rt: &R,
    alloc: Global,
    stage: &Stage,
    compositor: Compositor,
    first: SessionSeat,
    second: SessionSeat,
) -> (Compositor, Both)
    requires compositor { (compositor.display.stage ≡ stage.now) × (compositor.is_open ≡ false)
        × MayBegin 10 0 compositor.display }
    requires first { (first.stage ≡ stage.now) × MayRead 101 first }
    requires second { (second.stage ≡ stage.now) × MayRead 101 second }
    ensures compositor { result.0.display.stage ≡ stage.now }
    ensures first { IfOk result.1.0 (λ seat. seat.stage ≡ stage.now) }
    ensures second { IfOk result.1.1 (λ seat. seat.stage ≡ stage.now) }
{
    thread::join(
        rt,
        move || -> Compositor
            requires { (compositor.display.stage ≡ stage.now) × (compositor.is_open ≡ false)
                × MayBegin 10 0 compositor.display }
            ensures { result.display.stage ≡ stage.entry.now }
        { make_frames(rt, stage, compositor) },
        move || -> Both
            requires { (first.stage ≡ stage.now) × MayRead 101 first × (second.stage ≡ stage.now)
                × MayRead 101 second }
            ensures { IfOk result.0 (λ seat. seat.stage ≡ stage.entry.now)
                × IfOk result.1 (λ seat. seat.stage ≡ stage.entry.now) }
        { read_both(rt, alloc, stage, first, second) },
    )
}

/// How many polls a session made, after one present, its first; None where its entries
/// are others.
fn polls_of(entries: &[Entry], who: Actor) -> Option<u32> {
    let mut polls = None;
    for entry in entries {
        if entry.actor == who {
            polls = match (polls, entry.reply) {
                (None, Reply::Presented { number: 1, .. }) => Some(0u32),
                (Some(n), Reply::Polled(_)) => Some(n.checked_add(1)?),
                _ => return None,
            };
        }
    }
    polls
}

/// How many frames the display made, each begun and done in turn; None where its entries
/// are others.
fn frames_of(entries: &[Entry]) -> Option<u32> {
    let mut frames = 0u32;
    let mut is_open = false;
    for entry in entries {
        if entry.actor == Actor::Display {
            match (is_open, &entry.kind) {
                (false, EntryKind::Begin(_)) => is_open = true,
                (true, EntryKind::Finish) => {
                    is_open = false;
                    frames = frames.checked_add(1)?;
                }
                _ => return None,
            }
        }
    }
    if is_open { None } else { Some(frames) }
}

/// Both sessions' seats come home, and so no other is away.
fn put_both(seats: &mut SessionSeats, both: Both) -> Result<(), Fail>
    requires first { IfOk both.0 (λ seat. seat.stage ≡ seats.old.stage) }
    requires second { IfOk both.1 (λ seat. seat.stage ≡ seats.old.stage) }
    ensures own { seats.new.stage ≡ seats.old.stage }
    ensures home { OnOk result (list_all is_some seats.new.seats ≡ true) }
{
    let (first, second) = both;
    match first {
        Ok(seat) => seats.put(seat),
        Err(NoMemory) => {
            drop(second);
            return Err(NoMemory.into());
        }
    }
    match second {
        Ok(seat) => seats.put(seat),
        Err(NoMemory) => return Err(NoMemory.into()),
    }
    if seats.all_home() {
        Ok(())
    } else {
        Err("a seat is away".into())
    }
}

/// The board that a stage leaves, once both sessions and all frames are done.
fn run<R: Threads + Wait + Sync>(rt: &R, alloc: Global, cast: Cast) -> Result<Board, Fail>
    requires seats { cast.seats.stage ≡ cast.stage }
    requires compositor { (cast.compositor.display.stage ≡ cast.stage)
        × (cast.compositor.is_open ≡ false) × MayBegin 10 0 cast.compositor.display }
    requires first { (cast.first.stage ≡ cast.stage) × MayRead 101 cast.first }
    requires second { (cast.second.stage ≡ cast.stage) × MayRead 101 cast.second }
{
    let Cast {
        stage,
        compositor,
        mut seats,
        first,
        second,
    } = cast;
    let (compositor, both) = run_all(rt, alloc, &stage, compositor, first, second);
    match put_both(&mut seats, both) {
        Ok(()) => Ok(stage.close(compositor, seats)),
        Err(error) => {
            drop(stage);
            drop(compositor);
            drop(seats);
            Err(error)
        }
    }
}

/// How many entries a board has, how many frames, and how many polls of each session.
fn counts(board: &Board) -> [Option<u32>; 4] {
    let entries = board.journal().entries.as_slice();
    [
        u32::try_from(entries.len()).ok(),
        frames_of(entries),
        polls_of(entries, Actor::Session(SessionNo(1))),
        polls_of(entries, Actor::Session(SessionNo(2))),
    ]
}

#[test]
fn seats_on_two_threads(rt: HostRuntime) -> Result<(), Fail> {
    let mut cast = new_cast(rt.alloc())?;
    let away = cast.seats.take(SessionNo(2));
    let is_away = away.is_none();
    drop(away);
    let board = run(&rt, rt.alloc(), cast)?;
    let counts = counts(&board);
    drop(board);
    let all = [Some(222), Some(FRAMES), Some(POLLS), Some(POLLS)];
    assert_eq!(rt; (is_away, counts), (true, all));
    Ok(())
}
