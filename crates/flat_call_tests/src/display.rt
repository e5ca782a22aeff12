use flat_base::{FrameNo, Items};
use flat_display::{CountingDisplay, Display, MemDisplay};
use flat_scene::{FrameOut, ViewTree};
use std::alloc::Global;
use std::test::Fail;

fn frame_of(alloc: Global, number: u32) -> FrameOut {
    FrameOut {
        frame: FrameNo(number),
        items: Items::new(alloc),
        tree: ViewTree {
            nodes: Items::new(alloc),
            apart: Items::new(alloc),
        },
    }
}

/// Whether a display took each of five frames.
fn show_five(alloc: Global, display: &mut MemDisplay) -> [bool; 5] {
    let mut taken = [false; 5];
    for (place, is_taken) in taken.iter_mut().enumerate() {
        *is_taken = display.show(&frame_of(alloc, place as u32 + 1)).is_ok();
    }
    taken
}

/// Whether these are the frames of these numbers.
fn are_numbered(frames: &[FrameOut], numbers: &[u32]) -> bool {
    frames.len() == numbers.len() && frames.iter().zip(numbers).all(|(one, n)| one.frame.0 == *n)
}

#[test]
fn memory_fails_at_its_calls(rt: HostRuntime) -> Result<(), Fail> {
    let alloc = rt.alloc();
    let mut display = MemDisplay::new(alloc, vec![in alloc; 2, 4]?);
    let taken = show_five(alloc, &mut display);
    let kept = are_numbered(display.frames(), &[1, 3, 5]);
    assert_eq!(rt; (taken, kept), ([true, false, true, false, true], true));
    Ok(())
}

#[test]
fn a_tally_counts(rt: HostRuntime) {
    let mut tally = CountingDisplay::new();
    for number in 1..=3 {
        assert_eq!(rt; tally.show(&frame_of(rt.alloc(), number)), Ok(()));
    }
    assert_eq!(rt; tally.frames(), 3);
}
