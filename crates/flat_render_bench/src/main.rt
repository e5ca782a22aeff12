//! Times the renderer: `flat_render_bench KIND COUNT WIDTH HEIGHT ROUNDS` draws a picture of 1920
//! by 1080 so many times in the same memory, with so many items of those sides: opaque fills (kind
//! 0), fills of alpha 128 (1), opaque images (2) or images at half opacity (3); kinds 4 to 7 are
//! the same, and make the bytes of each picture too; kinds 8 to 11 make the bytes alone. It prints
//! the sum of the reds in the middle, and of those lengths.
#![tactic(auto)]

ghost use Rattle.std.specs.Prelude.{All};
ghost use Rattle.flat_drawable.specs.Drawable.{IsDrawable};

use flat_base::{BufferNo, IntRect, Items, NoMemory, SessionNo};
use flat_drawable::{are_drawable, full_rect};
use flat_render::{Picture, Strip, ppm_of, render, render_into, render_strips};
use flat_scene::{BlendMode, DrawItem, ImageFlip, ItemList, Paint, SceneMatrix};
use std::alloc::Global;
use std::process::ExitCode;
use std::thread::Threads;
use std::{env, io};

const WIDTH: u32 = 1920;

const HEIGHT: u32 = 1080;

/// How many kinds of items there are. From this kind on the bytes of each picture are made too.
const KINDS: u32 = 4;

/// From this kind on they are made without a picture.
const BYTES_ALONE: u32 = 8;

/// What is drawn, and how often.
#[derive(Clone, Copy)]
struct Load {
    kind: u32,
    count: u32,
    w: u32,
    h: u32,
    rounds: u32,
}

fn paint_of(kind: u32, n: u32, w: u32, h: u32) -> Paint {
    let shade = (n % 256) as u8;
    match kind {
        0 => Paint::Fill {
            rgba: [shade, 100, 200, 255],
        },
        1 => Paint::Fill {
            rgba: [shade, 100, 200, 128],
        },
        _ => Paint::Image {
            buffers: BufferNo(n),
            index: 0,
            sample: IntRect {
                x: 0,
                y: 0,
                w: w.min(WIDTH) as i32,
                h: h.min(HEIGHT) as i32,
            },
            flip: ImageFlip::Plain,
        },
    }
}

/// The n-th item: they lie at odd places all over the picture.
fn item(load: &Load, n: u32) -> DrawItem {
    let (w, h) = (load.w.clamp(1, WIDTH), load.h.clamp(1, HEIGHT));
    let x = (n as u64 * 37 % (WIDTH - w + 1) as u64) as i64;
    let y = (n as u64 * 53 % (HEIGHT - h + 1) as u64) as i64;
    let mut item = DrawItem {
        session: SessionNo(1),
        serial: 1,
        paint: paint_of(load.kind % KINDS, n, w, h),
        w,
        h,
        matrix: SceneMatrix {
            swap: false,
            a: 65_536,
            b: 65_536,
            x: x * 65_536,
            y: y * 65_536,
        },
        visible: flat_geom::sized(0, 0),
        opacity: if load.kind % KINDS == 3 {
            32_768
        } else {
            65_536
        },
        blend: if load.kind % 2 == 1 {
            BlendMode::SrcOver
        } else {
            BlendMode::Src
        },
    };
    item.visible = full_rect(&item);
    item
}

fn scene(alloc: Global, load: &Load) -> Result<ItemList, NoMemory> {
    let mut items = Items::new(alloc);
    for n in 0..load.count {
        items.push(item(load, n))?;
    }
    Ok(items)
}

/// How many bytes there are in some strips.
fn bytes_in(strips: &[Strip]) -> u64 {
    let mut sum = 0u64;
    for strip in strips {
        sum = sum.wrapping_add(strip.len() as u64);
    }
    sum
}

/// Makes the bytes of so many pictures, and answers how many there are.
fn draw_bytes(
    rt: &(impl Threads + Sync),
    alloc: Global,
    items: &ItemList,
    rounds: u32,
) -> Result<u64, NoMemory>
    requires { All IsDrawable items.now }
{
    let mut sum = 0u64;
    for _round in 0..rounds {
        let strips = render_strips(rt, alloc, items, WIDTH, HEIGHT)?;
        sum = sum.wrapping_add(bytes_in(strips.as_slice()));
    }
    Ok(sum)
}

/// The red of the pixel in a picture's middle.
fn red_in_middle(picture: &Picture) -> u8 {
    let (x, y) = (picture.width() / 2, picture.height() / 2);
    if x < picture.width() && y < picture.height() {
        picture.pixel(x, y)[0]
    } else {
        0
    }
}

/// Draws the pictures, all of them in the memory of one.
fn draw(rt: &(impl Threads + Sync), alloc: Global, load: &Load) -> Result<u64, NoMemory> {
    let items = scene(alloc, load)?;
    if !are_drawable(items.as_slice()) {
        return Ok(0);
    }
    if load.kind >= BYTES_ALONE {
        return draw_bytes(rt, alloc, &items, load.rounds);
    }
    let mut sum = 0u64;
    let mut picture = render(rt, alloc, &items, WIDTH, HEIGHT)?;
    for _round in 0..load.rounds {
        render_into(rt, alloc, &items, &mut picture)?;
        sum = sum.wrapping_add(red_in_middle(&picture) as u64);
        if load.kind >= KINDS {
            sum = sum.wrapping_add(ppm_of(alloc, &picture)?.len() as u64);
        }
    }
    Ok(sum)
}

fn number(words: &[String], place: usize) -> u32 {
    match words.get(place) {
        Some(word) => word.as_str().parse().unwrap_or(0),
        None => 0,
    }
}

fn words(rt: &HostRuntime) -> io::Result<Vec<String>> {
    let mut words = Vec::new(rt.alloc());
    for word in env::args(rt)?.skip(1) {
        words.push(word)?;
    }
    Ok(words)
}

fn main(rt: HostRuntime) -> io::Result<ExitCode> {
    let words = words(&rt)?;
    let load = Load {
        kind: number(words.as_slice(), 0),
        count: number(words.as_slice(), 1),
        w: number(words.as_slice(), 2),
        h: number(words.as_slice(), 3),
        rounds: number(words.as_slice(), 4),
    };
    match draw(&rt, rt.alloc(), &load) {
        Ok(sum) => {
            println!(rt; "{sum}")?;
            Ok(ExitCode::from(0))
        }
        Err(_) => Ok(ExitCode::from(6)),
    }
}
