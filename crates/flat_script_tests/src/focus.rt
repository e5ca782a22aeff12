ghost use Rattle.std.specs.Prelude.{◌≡◌, ◌≤◌, length, OnOk};

use crate::frames::{frame, tree, two_names};
use flat_base::{Items, NoMemory, SessionNo};
use flat_focus::{Focus, FocusAnswer, FocusLine, print_focus};
use std::alloc::Global;
use std::test::Fail;

/// A frame with these views is finished, and then one session asks for the focus of
/// another. The chain then stands behind those that were told, with 0 at its end.
fn play(
    alloc: Global,
    focus: &mut Focus,
    views: &[(u32, u32)],
    by: u32,
    of: u32,
    told: &mut Vec<u32>,
) -> Result<FocusAnswer, NoMemory>
    requires { length views.now ≤ focus.old.sessions }
    ensures { OnOk result (focus.new.sessions ≡ focus.old.sessions) }
{
    focus.frame(&tree(alloc, views)?);
    let answer = focus.request(SessionNo(by), SessionNo(of));
    for session in focus.chain() {
        told.push(session.0)?;
    }
    told.push(0)?;
    Ok(answer)
}

/// Session 3 has the focus and goes, and then session 2.
fn play_three(
    alloc: Global,
    focus: &mut Focus,
    told: &mut Vec<u32>,
) -> Result<[FocusAnswer; 3], NoMemory>
    requires { focus.old.sessions ≡ 3 }
{
    let handed = play(alloc, focus, &[(1, 0), (2, 1), (3, 2)], 1, 3, told)?;
    let taken = play(alloc, focus, &[(1, 0), (2, 1)], 2, 1, told)?;
    let nobody = play(alloc, focus, &[], 1, 1, told)?;
    Ok([handed, taken, nobody])
}

fn play_anew(alloc: Global, told: &mut Vec<u32>) -> Result<[FocusAnswer; 3], NoMemory> {
    let mut focus = Focus::new(alloc, 3)?;
    play_three(alloc, &mut focus, told)
}

#[test]
fn a_lost_focus_goes_to_the_last_that_is_left(rt: HostRuntime) {
    let mut told = Vec::new(rt.alloc());
    let answers = play_anew(rt.alloc(), &mut told);
    let expected = Ok([
        FocusAnswer::Granted,
        FocusAnswer::Denied,
        FocusAnswer::Denied,
    ]);
    assert!(rt; answers == expected && told.as_slice() == [1, 2, 3, 0, 1, 2, 0, 0].as_slice());
}

fn text_without_frames(alloc: Global) -> Result<Vec<u8>, NoMemory> {
    let line = FocusLine {
        number: 7,
        by: SessionNo(1),
        of: SessionNo(1),
    };
    let names = Items::new(alloc);
    print_focus(alloc, 3, &names, &[], &[], &[line])
}

#[test]
fn a_request_before_any_frame_is_denied(rt: HostRuntime) -> Result<(), Fail> {
    let text = text_without_frames(rt.alloc())?;
    let expected = b"focus 7   denied chain\nfocus ends requests 1\n";
    assert_eq!(rt; text.as_slice(), expected.as_slice());
    Ok(())
}

/// The focus text of two frames and a line between them.
fn text_of_two(alloc: Global) -> Result<Vec<u8>, NoMemory> {
    let names = two_names(alloc)?;
    let frames = [
        frame(alloc, 1, &[(1, 0), (2, 1)])?,
        frame(alloc, 2, &[(1, 0)])?,
    ];
    let line = FocusLine {
        number: 8,
        by: SessionNo(1),
        of: SessionNo(2),
    };
    print_focus(alloc, 2, &names, &[7, 9], &frames, &[line])
}

#[test]
fn text_of_frames_and_lines(rt: HostRuntime) -> Result<(), Fail> {
    let text = text_of_two(rt.alloc())?;
    let expected = b"frame 1 chain A
focus 8 A B granted chain A B
frame 2 chain A
focus ends requests 1
";
    assert_eq!(rt; text.as_slice(), expected.as_slice());
    Ok(())
}
