ghost use Rattle.std.specs.Prelude.{◌≡◌};

use crate::frames::{frame, tree, two_names};
use flat_base::{Items, NoMemory, SessionNo};
use flat_places::NameList;
use flat_pointer::{
    POINTERS, PointerAnswer, PointerCall, PointerLine, PointerTouch, Pointers, print_pointers,
};
use flat_scene::{FrameOut, Hit, HitList, Interaction};
use std::alloc::Global;
use std::test::Fail;

fn hits(alloc: Global, sessions: &[u32]) -> Result<HitList, NoMemory> {
    let mut hits = Items::new(alloc);
    for session in sessions {
        hits.push(Hit {
            session: SessionNo(*session),
            interaction: Interaction::Default,
        })?;
    }
    Ok(hits)
}

/// What is answered to two streams, of which one has no Down. The lists are of hits of two
/// sessions, of one, and of none.
fn stream(both: &HitList, one: &HitList, none: &HitList) -> [PointerAnswer; 9] {
    let mut pointers = Pointers::new();
    [
        pointers.moved(3),
        pointers.down(3, both),
        pointers.down(3, one),
        pointers.moved(3),
        pointers.up(4),
        pointers.moved(4),
        pointers.up(3),
        pointers.up(3),
        pointers.down(15, none),
    ]
}

fn stream_of(alloc: Global) -> Result<[PointerAnswer; 9], NoMemory> {
    let both = hits(alloc, &[2, 1])?;
    let one = hits(alloc, &[1])?;
    Ok(stream(&both, &one, &Items::new(alloc)))
}

#[test]
fn a_stream_goes_on_to_its_end(rt: HostRuntime) {
    let expected = [
        PointerAnswer::Nobody,
        PointerAnswer::Down(SessionNo(2)),
        PointerAnswer::Busy,
        PointerAnswer::Moved(SessionNo(2)),
        PointerAnswer::Nobody,
        PointerAnswer::Nobody,
        PointerAnswer::Up(SessionNo(2)),
        PointerAnswer::Nobody,
        PointerAnswer::Nobody,
    ];
    assert!(rt; stream_of(rt.alloc()) == Ok(expected));
}

/// Each pointer goes down on a session of its own.
fn down_all(alloc: Global, pointers: &mut Pointers) -> Result<(), NoMemory> {
    for p in 0..POINTERS {
        pointers.down(p, &hits(alloc, &[p as u32 + 1])?);
    }
    Ok(())
}

/// The first pointer whose stream doesn't go to the session of its own.
fn first_wrong(pointers: &mut Pointers) -> Option<u8> {
    for p in 0..POINTERS {
        if pointers.moved(p) != PointerAnswer::Moved(SessionNo(p as u32 + 1)) {
            return Some(p);
        }
    }
    None
}

#[test]
fn sixteen_pointers_at_once(rt: HostRuntime) {
    let mut pointers = Pointers::new();
    let downs = down_all(rt.alloc(), &mut pointers);
    assert_eq!(rt; (downs, first_wrong(&mut pointers)), (Ok(()), None));
}

/// Pointers 0 and 15 go down on session 2, and pointer 7 on session 1.
fn down_three(alloc: Global, pointers: &mut Pointers) -> Result<[PointerAnswer; 3], NoMemory> {
    let two = hits(alloc, &[2])?;
    let one = hits(alloc, &[1])?;
    Ok([
        pointers.down(0, &two),
        pointers.down(7, &one),
        pointers.down(15, &two),
    ])
}

/// Whom frames cancel, the first with sessions 1 and 2, and the second with session 1.
fn cancel(alloc: Global, pointers: &mut Pointers) -> Result<[Option<SessionNo>; 6], NoMemory> {
    let first = tree(alloc, &[(1, 0), (2, 1)])?;
    let second = tree(alloc, &[(1, 0)])?;
    Ok([
        pointers.cancel(0, &first),
        pointers.cancel(15, &first),
        pointers.cancel(0, &second),
        pointers.cancel(7, &second),
        pointers.cancel(15, &second),
        pointers.cancel(15, &second),
    ])
}

#[test]
fn a_view_with_two_pointers_goes(rt: HostRuntime) {
    let mut pointers = Pointers::new();
    let downs = down_three(rt.alloc(), &mut pointers);
    let cancels = cancel(rt.alloc(), &mut pointers);
    let [one, two] = [1, 2].map(SessionNo);
    let gone = Some(two);
    assert!(rt;
        downs == Ok([two, one, two].map(PointerAnswer::Down))
            && cancels == Ok([None, None, gone, None, gone, None])
            && pointers.moved(7) == PointerAnswer::Moved(one)
    );
}

fn text_of_frame(alloc: Global) -> Result<Vec<u8>, NoMemory> {
    let frame = frame(alloc, 1, &[(1, 0)])?;
    print_pointers(alloc, &Items::new(alloc), &[9], &[frame], &[])
}

#[test]
fn text_without_lines(rt: HostRuntime) -> Result<(), Fail> {
    let text = text_of_frame(rt.alloc())?;
    let expected = b"frame 1\npointer ends lines 0\n";
    assert_eq!(rt; text.as_slice(), expected.as_slice());
    Ok(())
}

/// A line of pointer 3, and whom its point hits.
fn touch(number: u32, call: PointerCall, hits: HitList) -> PointerTouch
    ensures { result.line.pointer ≡ 3 }
{
    let line = PointerLine {
        number,
        pointer: 3,
        call,
    };
    PointerTouch { line, hits }
}

/// The pointer text of four lines, and of two frames that were finished behind the seventh
/// line and the eleventh.
fn text_of_four(alloc: Global, names: &NameList, frames: &[FrameOut]) -> Result<Vec<u8>, NoMemory> {
    let both = hits(alloc, &[2, 1])?;
    let one = hits(alloc, &[1])?;
    let touches = [
        touch(8, PointerCall::Down { x: 5, y: 5 }, both),
        touch(9, PointerCall::Move { x: 3, y: -4 }, Items::new(alloc)),
        touch(10, PointerCall::Down { x: 1, y: 1 }, one),
        touch(12, PointerCall::Up, Items::new(alloc)),
    ];
    print_pointers(alloc, names, &[7, 11], frames, &touches)
}

fn text_of_two(alloc: Global) -> Result<Vec<u8>, NoMemory> {
    let names = two_names(alloc)?;
    let first = frame(alloc, 1, &[(1, 0), (2, 1)])?;
    let second = frame(alloc, 2, &[(1, 0)])?;
    text_of_four(alloc, &names, &[first, second])
}

#[test]
fn text_of_frames_and_lines(rt: HostRuntime) -> Result<(), Fail> {
    let text = text_of_two(rt.alloc())?;
    let expected = b"frame 1
pointer 8 3 down B
pointer 9 3 move B 3 -4
pointer 10 3 busy
frame 2
cancel 2 3 B
pointer 12 3 nobody
pointer ends lines 4
";
    assert_eq!(rt; text.as_slice(), expected.as_slice());
    Ok(())
}
