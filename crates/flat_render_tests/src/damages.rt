use crate::scenes::{BLACK, Wrong, fill, list, shown, wrong_in};
use flat_base::{Items, NoMemory, Rect};
use flat_damage::{area_of, damage, redraw};
use flat_drawable::are_drawable;
use flat_render::Picture;
use flat_scene::{DrawItem, ItemList, RectList};
use std::alloc::Global;
use std::process::Abort;
use std::thread::Threads;

/// A red square of ten units, which stands as far to the right as its letter comes
/// after `a`, in steps of twenty.
fn square(letter: u8) -> DrawItem {
    let x = 20 * (letter as i32 - b'a' as i32);
    fill([255, 0, 0, 255], 10, 10, x, 0)
}

fn squares(alloc: Global, letters: &str) -> Result<ItemList, NoMemory> {
    let mut items = Items::new(alloc);
    for letter in letters.as_bytes() {
        items.push(square(*letter))?;
    }
    Ok(items)
}

fn rects(alloc: Global, letters: &str) -> Result<RectList, NoMemory> {
    let mut rects = Items::new(alloc);
    for letter in letters.as_bytes() {
        rects.push(square(*letter).visible)?;
    }
    Ok(rects)
}

/// Lists before and after, and what is damaged between them.
const CASES: [(&str, &str, &str); 9] = [
    ("", "", ""),
    ("ab", "ab", ""),
    ("cab", "cdb", "ad"),
    ("", "ab", "ab"),
    ("ab", "", "ab"),
    ("aa", "a", "a"),
    ("a", "aa", "a"),
    ("aba", "aa", "b"),
    ("abcdefgh", "ijklmnop", "abcdefghijklmnop"),
];

fn is_damage(alloc: Global, old: &str, new: &str, rects: &[Rect]) -> Result<bool, NoMemory> {
    let found = damage(alloc, &squares(alloc, old)?, &squares(alloc, new)?)?;
    Ok(found.as_slice() == rects)
}

fn is_damaged(alloc: Global, old: &str, new: &str, different: &str) -> Result<bool, NoMemory> {
    let expected = rects(alloc, different)?;
    is_damage(alloc, old, new, expected.as_slice())
}

/// The first lists between which something else is damaged.
fn first_wrong(alloc: Global) -> Result<Option<(&'static str, &'static str)>, NoMemory> {
    for (old, new, different) in CASES.iter() {
        if !is_damaged(alloc, old, new, different)? {
            return Ok(Some((*old, *new)));
        }
    }
    Ok(None)
}

/// What differs is damaged: not what stays, nor what both ends of the lists have in
/// common.
#[test]
fn what_differs_is_damaged(rt: HostRuntime) {
    assert_eq!(rt; first_wrong(rt.alloc()), Ok(None));
}

/// Seventeen rectangles are one.
#[test]
fn many_rectangles_are_one(rt: HostRuntime) {
    let all = Rect {
        x0: 20 * 65_536,
        y0: 0,
        x1: 350 * 65_536,
        y1: 655_360,
    };
    assert_eq!(rt;
        is_damage(rt.alloc(), "bcdefghi", "jklmnopqr", &[all]),
        Ok(true)
    );
}

/// The picture of a draw list, turned into that of the next.
fn redrawn(
    rt: &(impl Abort + Threads + Sync),
    alloc: Global,
    old: &ItemList,
    new: &ItemList,
    w: u32,
    h: u32,
) -> Result<Picture, NoMemory> {
    assert!(rt; are_drawable(new.as_slice()));
    let mut picture = shown(rt, alloc, old, w, h)?;
    let _damage = redraw(alloc, &mut picture, old, new)?;
    Ok(picture)
}

/// Looks at a grey pixel that has moved from the first of three pixels to the third.
fn wrong_moved(
    rt: &(impl Abort + Threads + Sync),
    alloc: Global,
) -> Result<Option<Wrong>, NoMemory> {
    let old = list(alloc, &[fill([9, 9, 9, 255], 1, 1, 0, 0)])?;
    let new = list(alloc, &[fill([9, 9, 9, 255], 1, 1, 2, 0)])?;
    let picture = redrawn(rt, alloc, &old, &new, 3, 1)?;
    let pixels = [(0, 0, BLACK), (1, 0, BLACK), (2, 0, [9, 9, 9])];
    Ok(wrong_in(&picture, &pixels))
}

/// A picture is turned into that of the next list.
#[test]
fn pictures_are_redrawn(rt: HostRuntime) {
    assert_eq!(rt; wrong_moved(&rt, rt.alloc()), Ok(None));
}

/// A rectangle that goes beyond a display on both sides, and begins just below the centres of
/// its first row.
#[test]
fn areas_end_with_the_display(rt: HostRuntime) {
    let rect = Rect {
        x0: -65_536,
        y0: 32_769,
        x1: 200 * 65_536,
        y1: 65_536 + 32_769,
    };
    let area = area_of(rect, 100, 50);
    assert_eq!(rt; [area.x0, area.y0, area.x1, area.y1], [0, 1, 100, 2]);
}
