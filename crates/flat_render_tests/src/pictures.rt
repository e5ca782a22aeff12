ghost use Rattle.std.specs.Prelude.{◌<◌};

use crate::scenes::{BLACK, WHITE, Wrong, fill, list, repainted, shown_of, white, wrong};
use flat_base::{NoMemory, Rect};
use flat_drawable::are_drawable;
use flat_render::{Strip, is_too_large, ppm_of, ppm_rows, render, render_into, render_strips};
use flat_scene::{BlendMode, ItemList};
use std::alloc::Global;
use std::process::Abort;
use std::test::Fail;
use std::thread::Threads;

/// Blue that covers half of what is there, over white.
#[test]
fn colours_are_laid_in_order(rt: HostRuntime) {
    let mut blue = fill([0, 0, 255, 128], 1, 1, 0, 0);
    blue.blend = BlendMode::SrcOver;
    let pixels = [(0, 0, [127, 127, 255]), (1, 0, WHITE)];
    let wrong = wrong(&rt, rt.alloc(), &[white(2, 1), blue], 2, 1, &pixels);
    assert_eq!(rt; wrong, Ok(None));
}

/// Two white pixels one below another, and a third that is black.
#[test]
fn a_picture_may_be_one_pixel_wide(rt: HostRuntime) {
    let pixels = [(0, 0, WHITE), (0, 1, WHITE), (0, 2, BLACK)];
    let wrong = wrong(&rt, rt.alloc(), &[white(1, 2)], 1, 3, &pixels);
    assert_eq!(rt; wrong, Ok(None));
}

/// Looks at the last pixel of a white square, and at those beside it and below it, on a
/// picture whose sides are longer by one.
fn wrong_square(
    rt: &(impl Abort + Threads + Sync),
    alloc: Global,
    side: u32,
) -> Result<Option<Wrong>, NoMemory>
    requires some { 0 < side }
    requires few { side < 2000 }
{
    let pixels = [
        (side - 1, side - 1, WHITE),
        (side, side - 1, BLACK),
        (side - 1, side, BLACK),
    ];
    wrong(rt, alloc, &[white(side, side)], side + 1, side + 1, &pixels)
}

/// Squares that end before, at and after the end of a tile.
fn first_wrong_square(
    rt: &(impl Abort + Threads + Sync),
    alloc: Global,
) -> Result<Option<Wrong>, NoMemory> {
    for side in [62, 63, 64, 65] {
        let wrong = wrong_square(rt, alloc, side)?;
        if wrong.is_some() {
            return Ok(wrong);
        }
    }
    Ok(None)
}

#[test]
fn squares_end_beside_tiles(rt: HostRuntime) {
    assert_eq!(rt; first_wrong_square(&rt, rt.alloc()), Ok(None));
}

/// The largest picture, and those that are larger by one row or column.
#[test]
fn pictures_have_a_largest_size(rt: HostRuntime) {
    let large = [
        is_too_large(4096, 1024),
        is_too_large(4096, 1025),
        is_too_large(4097, 1024),
        is_too_large(65_536, 65_536),
    ];
    let pixels = [(4094, 1023, BLACK), (4095, 1023, [1, 2, 3])];
    let item = fill([1, 2, 3, 255], 1, 1, 4095, 1023);
    let wrong = wrong(&rt, rt.alloc(), &[item], 4096, 1024, &pixels);
    assert_eq!(rt; (large, wrong), ([false, true, true, true], Ok(None)));
}

/// The text of a picture of which the right half is drawn anew.
fn repainted_text(rt: &(impl Abort + Threads + Sync), alloc: Global) -> Result<Vec<u8>, NoMemory> {
    let right = Rect {
        x0: 65_536,
        y0: 0,
        x1: 131_072,
        y1: 131_072,
    };
    let picture = repainted(rt, alloc, &[white(2, 1)], 2, 2, right)?;
    ppm_of(alloc, &picture)
}

/// The bytes of a picture, and what is left of it where it is drawn anew.
#[test]
fn pictures_are_written_and_repainted(rt: HostRuntime) -> Result<(), Fail> {
    let text = repainted_text(&rt, rt.alloc())?;
    let expected = b"P6\n2 2\n255\n\xff\xff\xff\0\0\0\0\0\0\0\0\0";
    assert_eq!(rt; text.as_slice(), expected.as_slice());
    Ok(())
}

/// The bytes of some strips, one behind the other.
fn text_of(alloc: Global, strips: &[Strip]) -> Result<Vec<u8>, NoMemory> {
    let mut text = Vec::new(alloc);
    for strip in strips {
        text.extend_from_slice(strip.as_slice())?;
    }
    Ok(text)
}

/// The strips of a picture of 2 by 2 pixels of which one is white.
fn drawn_strips(rt: &(impl Abort + Threads + Sync), alloc: Global) -> Result<Vec<Strip>, NoMemory> {
    let items = list(alloc, &[fill([255, 255, 255, 255], 1, 1, 1, 0)])?;
    assert!(rt; are_drawable(items.as_slice()));
    render_strips(rt, alloc, &items, 2, 2)
}

/// The bytes that are made without a picture are the same.
#[test]
fn bytes_are_made_in_strips(rt: HostRuntime) -> Result<(), Fail> {
    let strips = drawn_strips(&rt, rt.alloc())?;
    let text = text_of(rt.alloc(), strips.as_slice())?;
    let expected = b"P6\n2 2\n255\n\0\0\0\xff\xff\xff\0\0\0\0\0\0";
    assert_eq!(rt; text.as_slice(), expected.as_slice());
    Ok(())
}

/// So many fills on a picture of 100 by 100 pixels.
fn many(alloc: Global, count: usize) -> Result<ItemList, NoMemory> {
    let mut items = ItemList::new(alloc);
    for n in 0..count {
        let shade = (n % 256) as u8;
        let (x, y) = ((n % 97) as i32, (n % 89) as i32);
        items.push(fill([shade, 1, 2, 255], 3, 2, x, y))?;
    }
    Ok(items)
}

/// The bytes of such a picture, made in strips.
fn bytes_in_strips(
    rt: &(impl Abort + Threads + Sync),
    alloc: Global,
    items: &ItemList,
) -> Result<Vec<u8>, NoMemory> {
    assert!(rt; are_drawable(items.as_slice()));
    let strips = render_strips(rt, alloc, items, 100, 100)?;
    text_of(alloc, strips.as_slice())
}

/// The bytes of such a picture, drawn whole.
fn bytes_of_whole(
    rt: &(impl Abort + Threads + Sync),
    alloc: Global,
    items: &ItemList,
) -> Result<Vec<u8>, NoMemory> {
    assert!(rt; are_drawable(items.as_slice()));
    let picture = render(rt, alloc, items, 100, 100)?;
    ppm_of(alloc, &picture)
}

/// The bytes of such a picture, drawn in the memory of a white one.
fn bytes_in_place(
    rt: &(impl Abort + Threads + Sync),
    alloc: Global,
    items: &ItemList,
) -> Result<Vec<u8>, NoMemory> {
    assert!(rt; are_drawable(items.as_slice()));
    let mut picture = shown_of(rt, alloc, &[white(100, 100)], 100, 100)?;
    render_into(rt, alloc, items, &mut picture)?;
    ppm_of(alloc, &picture)
}

/// Where there is much to draw, several threads make the same bytes.
#[test]
fn bytes_are_made_in_parts(rt: HostRuntime) -> Result<(), Fail> {
    let items = many(rt.alloc(), 20_000)?;
    let made = bytes_in_strips(&rt, rt.alloc(), &items)?;
    let expected = bytes_of_whole(&rt, rt.alloc(), &items)?;
    assert_eq!(rt; made.as_slice(), expected.as_slice());
    Ok(())
}

/// They draw the same picture in place of another.
#[test]
fn pictures_are_drawn_in_place(rt: HostRuntime) -> Result<(), Fail> {
    let items = many(rt.alloc(), 20_000)?;
    let made = bytes_in_place(&rt, rt.alloc(), &items)?;
    let expected = bytes_of_whole(&rt, rt.alloc(), &items)?;
    assert_eq!(rt; made.as_slice(), expected.as_slice());
    Ok(())
}

/// The second row of a picture of which two pixels have a colour.
fn second_row(rt: &(impl Abort + Threads + Sync), alloc: Global) -> Result<Vec<u8>, NoMemory> {
    let picture = shown_of(rt, alloc, &[fill([1, 2, 3, 255], 1, 2, 0, 0)], 2, 2)?;
    assert!(rt; picture.height() == 2);
    ppm_rows(alloc, &picture, 1, 2)
}

/// Rows are written as they stand in the bytes of the whole.
#[test]
fn rows_are_written_by_themselves(rt: HostRuntime) -> Result<(), Fail> {
    let row = second_row(&rt, rt.alloc())?;
    assert_eq!(rt; row.as_slice(), [1, 2, 3, 0, 0, 0].as_slice());
    Ok(())
}

/// A line of sevens, to which the second row of a picture is written, of which one pixel behind
/// the first tile has a colour.
fn written_row(rt: &(impl Abort + Threads + Sync), alloc: Global) -> Result<[u32; 68], NoMemory> {
    let picture = shown_of(rt, alloc, &[fill([1, 2, 3, 255], 1, 1, 64, 1)], 66, 2)?;
    let mut line = [7; 68];
    if picture.height() > 1 && picture.width() <= 68 {
        picture.write_row(1, &mut line);
    }
    Ok(line)
}

#[test]
fn rows_are_written_as_words(rt: HostRuntime) -> Result<(), Fail> {
    let line = written_row(&rt, rt.alloc())?;
    let words = [line[0], line[63], line[64], line[65], line[66], line[67]];
    assert_eq!(rt; words, [0, 0, 0x01_02_03, 0, 7, 7]);
    Ok(())
}
