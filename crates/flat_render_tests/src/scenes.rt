ghost use Rattle.std.specs.Prelude.{All, IfOk};
ghost use Rattle.flat_drawable.specs.Drawable.{IsDrawable};
ghost use Rattle.flat_render.specs.Pictures.{Shows, width_of, height_of};
ghost use Rattle.flat_ink.specs.Pixels.{pixel};

use flat_base::{Items, NoMemory, Orientation, Rect, SessionNo};
use flat_drawable::{are_drawable, full_rect};
use flat_geom::local;
use flat_render::{Picture, is_too_large, render};
use flat_scene::{BlendMode, DrawItem, ItemList, Paint, SceneMatrix};
use std::alloc::Global;
use std::process::Abort;
use std::thread::Threads;

pub const WHITE: [u8; 3] = [255, 255, 255];

pub const BLACK: [u8; 3] = [0, 0, 0];

/// A pixel's place, and its colour there.
pub type Pixel = (u32, u32, [u8; 3]);

/// The place of a pixel that has another colour, and that colour, or None where the
/// picture has no such pixel.
pub type Wrong = (u32, u32, Option<[u8; 3]>);

const NOWHERE: Rect = Rect {
    x0: 0,
    y0: 0,
    x1: 0,
    y1: 0,
};

/// An item of so many units, turned and then moved by units, wholly seen.
pub fn turned(paint: Paint, w: u32, h: u32, turn: Orientation, x: i32, y: i32) -> DrawItem {
    let matrix = local(65_536, 65_536, turn, x, y);
    let mut item = DrawItem {
        session: SessionNo(1),
        serial: 1,
        paint,
        w,
        h,
        matrix: SceneMatrix {
            swap: matrix.swap,
            a: matrix.a,
            b: matrix.b,
            x: matrix.x,
            y: matrix.y,
        },
        visible: NOWHERE,
        opacity: 65_536,
        blend: BlendMode::Src,
    };
    item.visible = full_rect(&item);
    item
}

/// A fill of so many units, moved by units.
pub fn fill(rgba: [u8; 4], w: u32, h: u32, x: i32, y: i32) -> DrawItem {
    turned(Paint::Fill { rgba }, w, h, Orientation::Ccw0, x, y)
}

/// A white fill of so many units, from the corner on.
pub fn white(w: u32, h: u32) -> DrawItem {
    fill([255, 255, 255, 255], w, h, 0, 0)
}

pub fn list(alloc: Global, drawn: &[DrawItem]) -> Result<ItemList, NoMemory> {
    let mut items = Items::new(alloc);
    items.extend_from_slice(drawn)?;
    Ok(items)
}

/// The picture of a draw list that can be drawn, on a display that can be drawn on.
pub fn shown(
    rt: &(impl Abort + Threads + Sync),
    alloc: Global,
    items: &ItemList,
    w: u32,
    h: u32,
) -> Result<Picture, NoMemory>
    ensures drawable { All IsDrawable items.now }
    ensures shows { IfOk result (λ picture. Shows picture (width_of picture) (height_of picture)
        (pixel items.now)) }
{
    assert!(rt; w > 0 && h > 0 && !is_too_large(w, h) && are_drawable(items.as_slice()));
    render(rt, alloc, items, w, h)
}

/// The picture of some items.
pub fn shown_of(
    rt: &(impl Abort + Threads + Sync),
    alloc: Global,
    items: &[DrawItem],
    w: u32,
    h: u32,
) -> Result<Picture, NoMemory> {
    let items = list(alloc, items)?;
    shown(rt, alloc, &items, w, h)
}

/// The picture of some items, of which a rectangle is drawn anew with nothing on it.
pub fn repainted(
    rt: &(impl Abort + Threads + Sync),
    alloc: Global,
    items: &[DrawItem],
    w: u32,
    h: u32,
    rect: Rect,
) -> Result<Picture, NoMemory> {
    let mut rects = Items::new(alloc);
    rects.push(rect)?;
    let mut picture = shown_of(rt, alloc, items, w, h)?;
    picture.repaint(&Items::new(alloc), &rects);
    Ok(picture)
}

fn colour(picture: &Picture, x: u32, y: u32) -> Option<[u8; 3]> {
    if x < picture.width() && y < picture.height() {
        Some(picture.pixel(x, y))
    } else {
        None
    }
}

/// The first of the pixels that has another colour in a picture.
pub fn wrong_in(picture: &Picture, pixels: &[Pixel]) -> Option<Wrong> {
    for (x, y, expected) in pixels {
        let seen = colour(picture, *x, *y);
        if seen != Some(*expected) {
            return Some((*x, *y, seen));
        }
    }
    None
}

/// The first of the pixels that has another colour in the picture of some items.
pub fn wrong(
    rt: &(impl Abort + Threads + Sync),
    alloc: Global,
    items: &[DrawItem],
    w: u32,
    h: u32,
    pixels: &[Pixel],
) -> Result<Option<Wrong>, NoMemory> {
    let picture = shown_of(rt, alloc, items, w, h)?;
    Ok(wrong_in(&picture, pixels))
}
