use crate::scenes::{Wrong, turned, wrong};
use flat_base::{BufferNo, IntRect, NoMemory, Orientation};
use flat_ink::colour::texel;
use flat_scene::{ImageFlip, Paint};
use std::alloc::Global;
use std::process::Abort;
use std::thread::Threads;

const ALL: IntRect = IntRect {
    x: 0,
    y: 0,
    w: 2,
    h: 2,
};

fn image(flip: ImageFlip) -> Paint {
    Paint::Image {
        buffers: BufferNo(0),
        index: 0,
        sample: ALL,
        flip,
    }
}

/// The colour of a texel at a column and a row.
fn colour(place: (u8, u8)) -> [u8; 3] {
    let [red, green, blue, _] = texel(0, 0, place.0 as u32, place.1 as u32);
    [red, green, blue]
}

/// A turn, a move, a flip, and the texels of a buffer of two by two that are then seen at
/// (0, 0), (1, 0), (0, 1) and (1, 1): column and row.
type Case = (Orientation, i32, i32, ImageFlip, [(u8, u8); 4]);

const CASES: [Case; 12] = [
    (
        Orientation::Ccw0,
        0,
        0,
        ImageFlip::Plain,
        [(0, 0), (1, 0), (0, 1), (1, 1)],
    ),
    (
        Orientation::Ccw0,
        0,
        0,
        ImageFlip::LeftRight,
        [(1, 0), (0, 0), (1, 1), (0, 1)],
    ),
    (
        Orientation::Ccw0,
        0,
        0,
        ImageFlip::UpDown,
        [(0, 1), (1, 1), (0, 0), (1, 0)],
    ),
    (
        Orientation::Ccw90,
        0,
        2,
        ImageFlip::Plain,
        [(1, 0), (1, 1), (0, 0), (0, 1)],
    ),
    (
        Orientation::Ccw90,
        0,
        2,
        ImageFlip::LeftRight,
        [(0, 0), (0, 1), (1, 0), (1, 1)],
    ),
    (
        Orientation::Ccw90,
        0,
        2,
        ImageFlip::UpDown,
        [(1, 1), (1, 0), (0, 1), (0, 0)],
    ),
    (
        Orientation::Ccw180,
        2,
        2,
        ImageFlip::Plain,
        [(1, 1), (0, 1), (1, 0), (0, 0)],
    ),
    (
        Orientation::Ccw180,
        2,
        2,
        ImageFlip::LeftRight,
        [(0, 1), (1, 1), (0, 0), (1, 0)],
    ),
    (
        Orientation::Ccw180,
        2,
        2,
        ImageFlip::UpDown,
        [(1, 0), (0, 0), (1, 1), (0, 1)],
    ),
    (
        Orientation::Ccw270,
        2,
        0,
        ImageFlip::Plain,
        [(0, 1), (0, 0), (1, 1), (1, 0)],
    ),
    (
        Orientation::Ccw270,
        2,
        0,
        ImageFlip::LeftRight,
        [(1, 1), (1, 0), (0, 1), (0, 0)],
    ),
    (
        Orientation::Ccw270,
        2,
        0,
        ImageFlip::UpDown,
        [(0, 0), (0, 1), (1, 0), (1, 1)],
    ),
];

/// Looks at the four pixels of a case.
fn wrong_case(
    rt: &(impl Abort + Threads + Sync),
    alloc: Global,
    case: &Case,
) -> Result<Option<Wrong>, NoMemory> {
    let (turn, x, y, flip, [first, second, third, fourth]) = *case;
    let pixels = [
        (0, 0, colour(first)),
        (1, 0, colour(second)),
        (0, 1, colour(third)),
        (1, 1, colour(fourth)),
    ];
    let item = turned(image(flip), 2, 2, turn, x, y);
    wrong(rt, alloc, &[item], 2, 2, &pixels)
}

/// The turn and the flip of the first case that is seen otherwise, and where.
fn first_wrong(
    rt: &(impl Abort + Threads + Sync),
    alloc: Global,
) -> Result<Option<(Orientation, ImageFlip, Wrong)>, NoMemory> {
    for case in CASES.iter() {
        if let Some(wrong) = wrong_case(rt, alloc, case)? {
            return Ok(Some((case.0, case.3, wrong)));
        }
    }
    Ok(None)
}

#[test]
fn images_turn_and_flip(rt: HostRuntime) {
    assert_eq!(rt; first_wrong(&rt, rt.alloc()), Ok(None));
}
