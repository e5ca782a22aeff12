ghost use Rattle.std.specs.Prelude.{◌≡◌, Some, true, IsTrue, IsFalse};
ghost use Rattle.flat_lock.specs.History.{StartsWith, GoesOn};
ghost use Rattle.flat_lock.specs.Seats.{AreNew};

use crate::journal::{Journal, Line, changes, new_journal};
use flat_base::NoMemory;
use flat_lock::{LockSeat, LockSeats, TicketLock};
use std::alloc::Global;
use std::sync::Wait;
use std::test::Fail;
use std::thread;
use std::thread::Threads;

const LINES: u32 = 400;

// One turn, in which the seat's actor writes a line.
fn write(
    rt: &impl Wait,
    lock: &TicketLock<Journal>,
    seat: &mut LockSeat<Journal>,
    number: u32,
) -> Result<(), NoMemory>
    requires own { seat.old.lock ≡ lock.now }
    requires resting { IsFalse seat.old.has_turn }
    ensures { (seat.new.lock ≡ seat.old.lock) × (seat.new.actor ≡ seat.old.actor)
        × IsFalse seat.new.has_turn }
{
    let actor = seat.actor();
    let mut journal = lock.turn(rt, seat);
    let added = journal.add(Line { actor, number });
    lock.give(seat, journal);
    added
}

// Some turns, numbered from 0.
fn write_all(
    rt: &impl Wait,
    lock: &TicketLock<Journal>,
    mut seat: LockSeat<Journal>,
    count: u32,
) -> LockSeat<Journal>
    requires { (seat.lock ≡ lock.now) × IsFalse seat.has_turn }
    ensures { (result.lock ≡ lock.now) × IsFalse result.has_turn }
{
    for number in 0..count {
        if write(rt, lock, &mut seat, number).is_err() {
            break;
        }
    }
    seat
}

// Two seats write at once.
fn write_both<R: Threads + Wait + Sync>(
    rt: &R,
    lock: &TicketLock<Journal>,
    first: LockSeat<Journal>,
    second: LockSeat<Journal>,
) -> (LockSeat<Journal>, LockSeat<Journal>)
    requires first { (first.lock ≡ lock.now) × IsFalse first.has_turn }
    requires second { (second.lock ≡ lock.now) × IsFalse second.has_turn }
    ensures first { (result.0.lock ≡ lock.now) × IsFalse result.0.has_turn }
    ensures second { (result.1.lock ≡ lock.now) × IsFalse result.1.has_turn }
{
    thread::join(
        rt,
        move || -> LockSeat<Journal>
            requires { (first.lock ≡ lock.now) × IsFalse first.has_turn }
            ensures { (result.lock ≡ lock.entry.now) × IsFalse result.has_turn }
        { write_all(rt, lock, first, LINES) },
        move || -> LockSeat<Journal>
            requires { (second.lock ≡ lock.now) × IsFalse second.has_turn }
            ensures { (result.lock ≡ lock.entry.now) × IsFalse result.has_turn }
        { write_all(rt, lock, second, LINES) },
    )
}

// Four seats write at once.
fn write_four<R: Threads + Wait + Sync>(
    rt: &R,
    lock: &TicketLock<Journal>,
    front: (LockSeat<Journal>, LockSeat<Journal>),
    back: (LockSeat<Journal>, LockSeat<Journal>),
) -> (
    (LockSeat<Journal>, LockSeat<Journal>),
    (LockSeat<Journal>, LockSeat<Journal>),
)
    requires front { (front.0.lock ≡ lock.now) × IsFalse front.0.has_turn
        × (front.1.lock ≡ lock.now) × IsFalse front.1.has_turn }
    requires back { (back.0.lock ≡ lock.now) × IsFalse back.0.has_turn × (back.1.lock ≡ lock.now)
        × IsFalse back.1.has_turn }
    ensures front { (result.0.0.lock ≡ lock.now) × IsFalse result.0.0.has_turn
        × (result.0.1.lock ≡ lock.now) × IsFalse result.0.1.has_turn }
    ensures back { (result.1.0.lock ≡ lock.now) × IsFalse result.1.0.has_turn
        × (result.1.1.lock ≡ lock.now) × IsFalse result.1.1.has_turn }
{
    thread::join(
        rt,
        move || -> (LockSeat<Journal>, LockSeat<Journal>)
            requires { (front.0.lock ≡ lock.now) × IsFalse front.0.has_turn
                × (front.1.lock ≡ lock.now) × IsFalse front.1.has_turn }
            ensures { (result.0.lock ≡ lock.entry.now) × IsFalse result.0.has_turn
                × (result.1.lock ≡ lock.entry.now) × IsFalse result.1.has_turn }
        { write_both(rt, lock, front.0, front.1) },
        move || -> (LockSeat<Journal>, LockSeat<Journal>)
            requires { (back.0.lock ≡ lock.now) × IsFalse back.0.has_turn × (back.1.lock ≡ lock.now)
                × IsFalse back.1.has_turn }
            ensures { (result.0.lock ≡ lock.entry.now) × IsFalse result.0.has_turn
                × (result.1.lock ≡ lock.entry.now) × IsFalse result.1.has_turn }
        { write_both(rt, lock, back.0, back.1) },
    )
}

// The actor of a seat that is taken and stays away.
fn taken(seats: &mut LockSeats<Journal>, place: u32) -> Option<u32> {
    let seat = seats.take(place)?;
    Some(seat.actor())
}

// Whether all seats are home, the actors of two seats, of one of them again, and of no
// seats, and whether all are home then.
fn take_each(seats: &mut LockSeats<Journal>) -> (bool, [Option<u32>; 5], bool) {
    let before = seats.all_home();
    let actors = [
        taken(seats, 0),
        taken(seats, 2),
        taken(seats, 2),
        taken(seats, 3),
        taken(seats, u32::MAX),
    ];
    (before, actors, seats.all_home())
}

fn take_each_anew(alloc: Global) -> Result<(bool, [Option<u32>; 5], bool), NoMemory> {
    let (_, mut seats) = TicketLock::new(alloc, new_journal(alloc), 3)?;
    Ok(take_each(&mut seats))
}

#[test]
fn a_seat_is_taken_once(rt: HostRuntime) {
    let actors = [Some(0), Some(2), None, None, None];
    assert_eq!(rt; take_each_anew(rt.alloc()), Ok((true, actors, false)));
}

// Whether all seats are home, and the journal has its name and these lines.
fn has_lines(lock: TicketLock<Journal>, seats: LockSeats<Journal>, lines: &[Line]) -> bool
    requires { seats.lock ≡ lock }
{
    if !seats.all_home() {
        return false;
    }
    let journal = lock.close(seats);
    journal.name == 7 && journal.lines.as_slice() == lines
}

// A seat is taken, writes and is put back, and then again. None where it isn't at home.
fn write_twice(
    rt: &impl Wait,
    lock: &TicketLock<Journal>,
    seats: &mut LockSeats<Journal>,
) -> Option<[Result<(), NoMemory>; 2]>
    requires own { seats.old.lock ≡ lock.now }
    requires new { AreNew lock.now seats.old.seats }
    requires three { lock.now.seats ≡ 3 }
    ensures { seats.new.lock ≡ seats.old.lock }
{
    let mut seat = seats.take(2)?;
    let first = write(rt, lock, &mut seat, 40);
    seats.put(seat);
    let mut seat = seats.take(2)?;
    let second = write(rt, lock, &mut seat, 41);
    seats.put(seat);
    Some([first, second])
}

fn write_twice_anew(
    rt: &impl Wait,
    alloc: Global,
) -> Result<(Option<[Result<(), NoMemory>; 2]>, bool), NoMemory> {
    let (lock, mut seats) = TicketLock::new(alloc, new_journal(alloc), 3)?;
    let written = write_twice(rt, &lock, &mut seats);
    let lines = [40, 41].map(|number| Line { actor: 2, number });
    Ok((written, has_lines(lock, seats, &lines)))
}

#[test]
fn a_seat_is_put_back(rt: HostRuntime) {
    let expected = (Some([Ok(()), Ok(())]), true);
    assert_eq!(rt; write_twice_anew(&rt, rt.alloc()), Ok(expected));
}

// A seat gives the journal, and another takes it, which was told: what the other
// takes begins with what the first one gave.
fn after(
    rt: &impl Wait,
    lock: &TicketLock<Journal>,
    giver: &mut LockSeat<Journal>,
    taker: &mut LockSeat<Journal>,
    given: Journal,
) -> Journal
    requires giver { (giver.old.lock ≡ lock.now) × IsTrue giver.old.has_turn }
    requires taker { (taker.old.lock ≡ lock.now) × IsFalse taker.old.has_turn }
    requires longer { GoesOn (λ line. line.actor) giver.old.actor giver.old.seen given.lines.items }
    requires name { Some given.name ≡ lock.now.fixed }
    ensures begins { StartsWith result.lines.items given.lines.items }
    ensures giver { (giver.new.lock ≡ giver.old.lock) × (giver.new.actor ≡ giver.old.actor)
        × IsFalse giver.new.has_turn }
    ensures taker { taker.new ≡ record taker.old { seen = result.lines.items; has_turn = true } }
    ensures name { Some result.name ≡ lock.now.fixed }
{
    lock.give(giver, given);
    lock.tell(giver, taker);
    lock.turn(rt, taker)
}

// A seat writes a line, and another is told and has its turn after it.
fn write_and_tell(
    rt: &impl Wait,
    lock: &TicketLock<Journal>,
    writer: &mut LockSeat<Journal>,
    reader: &mut LockSeat<Journal>,
    number: u32,
) -> Result<(), NoMemory>
    requires writer { (writer.old.lock ≡ lock.now) × IsFalse writer.old.has_turn }
    requires reader { (reader.old.lock ≡ lock.now) × IsFalse reader.old.has_turn }
    ensures writer { (writer.new.lock ≡ writer.old.lock) × (writer.new.actor ≡ writer.old.actor)
        × IsFalse writer.new.has_turn }
    ensures reader { (reader.new.lock ≡ reader.old.lock) × (reader.new.actor ≡ reader.old.actor)
        × IsFalse reader.new.has_turn }
{
    let actor = writer.actor();
    let mut journal = lock.turn(rt, writer);
    let added = journal.add(Line { actor, number });
    let journal = after(rt, lock, writer, reader, journal);
    lock.give(reader, journal);
    added
}

// Two seats write and tell each other in turn.
fn tell_each_other(
    rt: &impl Wait,
    lock: &TicketLock<Journal>,
    first: &mut LockSeat<Journal>,
    second: &mut LockSeat<Journal>,
) -> Result<(), NoMemory>
    requires first { (first.old.lock ≡ lock.now) × IsFalse first.old.has_turn }
    requires second { (second.old.lock ≡ lock.now) × IsFalse second.old.has_turn }
    ensures first { (first.new.lock ≡ first.old.lock) × (first.new.actor ≡ first.old.actor)
        × IsFalse first.new.has_turn }
    ensures second { (second.new.lock ≡ second.old.lock) × (second.new.actor ≡ second.old.actor)
        × IsFalse second.new.has_turn }
{
    write_and_tell(rt, lock, first, second, 60)?;
    write_and_tell(rt, lock, second, first, 70)?;
    lock.tell(first, second);
    lock.tell(first, second);
    write_and_tell(rt, lock, second, first, 71)
}

// The same by two seats that are taken and put back. None where one isn't at home.
fn tell_by_two(
    rt: &impl Wait,
    lock: &TicketLock<Journal>,
    seats: &mut LockSeats<Journal>,
) -> Option<Result<(), NoMemory>>
    requires own { seats.old.lock ≡ lock.now }
    requires new { AreNew lock.now seats.old.seats }
    requires two { lock.now.seats ≡ 2 }
    ensures { seats.new.lock ≡ seats.old.lock }
{
    let mut first = seats.take(0)?;
    let mut second = seats.take(1)?;
    let written = tell_each_other(rt, lock, &mut first, &mut second);
    seats.put(first);
    seats.put(second);
    Some(written)
}

fn tell_anew(
    rt: &impl Wait,
    alloc: Global,
) -> Result<(Option<Result<(), NoMemory>>, bool), NoMemory> {
    let (lock, mut seats) = TicketLock::new(alloc, new_journal(alloc), 2)?;
    let written = tell_by_two(rt, &lock, &mut seats);
    let lines = [(0, 60), (1, 70), (1, 71)].map(|(actor, number)| Line { actor, number });
    Ok((written, has_lines(lock, seats, &lines)))
}

#[test]
fn a_seat_is_told(rt: HostRuntime) {
    let expected = (Some(Ok(())), true);
    assert_eq!(rt; tell_anew(&rt, rt.alloc()), Ok(expected));
}

// Four seats are taken, write at once and are put back. None where one isn't at home.
fn write_by_four<R: Threads + Wait + Sync>(
    rt: &R,
    lock: &TicketLock<Journal>,
    seats: &mut LockSeats<Journal>,
) -> Option<()>
    requires own { seats.old.lock ≡ lock.now }
    requires new { AreNew lock.now seats.old.seats }
    requires four { lock.now.seats ≡ 4 }
    ensures { seats.new.lock ≡ seats.old.lock }
{
    let a = seats.take(0)?;
    let b = seats.take(1)?;
    let c = seats.take(2)?;
    let d = seats.take(3)?;
    let ((a, b), (c, d)) = write_four(rt, lock, (a, b), (c, d));
    seats.put(d);
    seats.put(c);
    seats.put(b);
    seats.put(a);
    Some(())
}

// How often the actor changes in a journal that four seats have written whole.
fn changes_of(lock: TicketLock<Journal>, seats: LockSeats<Journal>) -> Option<u32>
    requires { seats.lock ≡ lock }
{
    if !seats.all_home() {
        return None;
    }
    let journal = lock.close(seats);
    if journal.lines.len() == (4 * LINES) as usize {
        changes(journal.lines.as_slice())
    } else {
        None
    }
}

fn changes_by_four<R: Threads + Wait + Sync>(
    rt: &R,
    alloc: Global,
) -> Result<Option<u32>, NoMemory> {
    let (lock, mut seats) = TicketLock::new(alloc, new_journal(alloc), 4)?;
    let written = write_by_four(rt, &lock, &mut seats);
    Ok(written.and(changes_of(lock, seats)))
}

#[test]
fn threads_write_one_history(rt: HostRuntime) -> Result<(), Fail> {
    let changes = changes_by_four(&rt, rt.alloc())?;
    let changes = changes.ok_or("four seats write all their lines, each in order")?;
    println!(rt; "the actor changed {changes} times")?;
    Ok(())
}
