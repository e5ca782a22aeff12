ghost use Rattle.std.specs.Prelude.{◌<◌};

use crate::scenes::{BLACK, Pixel, WHITE, Wrong, repainted, turned, white, wrong, wrong_in};
use flat_base::{BufferNo, IntRect, NoMemory, ONE, Orientation, Rect};
use flat_ink::colour::texel;
use flat_scene::{ImageFlip, Paint};
use std::alloc::Global;
use std::process::Abort;
use std::thread::Threads;

/// An image of three by three texels.
const IMAGE: Paint = Paint::Image {
    buffers: BufferNo(0),
    index: 0,
    sample: IntRect {
        x: 0,
        y: 0,
        w: 3,
        h: 3,
    },
    flip: ImageFlip::Plain,
};

/// Five pixels on the diagonal of a picture, from the one before a number on.
fn diagonal(from: u32, colours: [[u8; 3]; 5]) -> [Pixel; 5]
    requires some { 0 < from }
    requires few { from < 2000 }
{
    let [before, first, second, third, after] = colours;
    [
        (from - 1, from - 1, before),
        (from, from, first),
        (from + 1, from + 1, second),
        (from + 2, from + 2, third),
        (from + 3, from + 3, after),
    ]
}

/// Texels that lie on the diagonal of an image, with what is beside them.
fn texels() -> [[u8; 3]; 5] {
    let colours = [0, 1, 2].map(|n| {
        let [red, green, blue, _] = texel(0, 0, n, n);
        [red, green, blue]
    });
    [BLACK, colours[0], colours[1], colours[2], BLACK]
}

/// Looks at the diagonal of an image that begins at a number in both directions.
fn wrong_image(
    rt: &(impl Abort + Threads + Sync),
    alloc: Global,
    from: u32,
) -> Result<Option<Wrong>, NoMemory>
    requires some { 0 < from }
    requires few { from < 2000 }
{
    let image = turned(IMAGE, 3, 3, Orientation::Ccw0, from as i32, from as i32);
    let pixels = diagonal(from, texels());
    wrong(rt, alloc, &[image], from + 4, from + 4, &pixels)
}

/// Looks at the diagonal of a white picture, of which three by three pixels are drawn anew
/// with nothing on them, from a number on in both directions.
fn wrong_hole(
    rt: &(impl Abort + Threads + Sync),
    alloc: Global,
    from: u32,
) -> Result<Option<Wrong>, NoMemory>
    requires some { 0 < from }
    requires few { from < 2000 }
{
    let (low, high) = ((from * ONE) as i64, ((from + 3) * ONE) as i64);
    let hole = Rect {
        x0: low,
        y0: low,
        x1: high,
        y1: high,
    };
    let side = from + 4;
    let picture = repainted(rt, alloc, &[white(side, side)], side, side, hole)?;
    let pixels = diagonal(from, [WHITE, BLACK, BLACK, BLACK, WHITE]);
    Ok(wrong_in(&picture, &pixels))
}

/// Looks at an image and at a hole before, at and after the end of a tile.
fn first_wrong(
    rt: &(impl Abort + Threads + Sync),
    alloc: Global,
) -> Result<Option<Wrong>, NoMemory> {
    for from in [61, 62, 63, 64, 65] {
        let wrong = wrong_image(rt, alloc, from)?.or(wrong_hole(rt, alloc, from)?);
        if wrong.is_some() {
            return Ok(wrong);
        }
    }
    Ok(None)
}

/// What begins before, at and after the end of a tile goes on in the next one.
#[test]
fn tiles_meet(rt: HostRuntime) {
    assert_eq!(rt; first_wrong(&rt, rt.alloc()), Ok(None));
}
