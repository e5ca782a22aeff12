ghost use Rattle.std.specs.Prelude.{◌≡◌, ◌<◌, ◌+ℤ◌, ◌^◌, ◌-◌, ◌||◌, pos};
ghost use Rattle.flat_scene.specs.Misuse as misuse;

use flat_base::{IntRect, SIDE_MAX};
use flat_graph::is_bad_rect;
use flat_scene::BufferDecl;

/// A side of nothing, or above the limit.
fn is_bad_side(side: u32) -> bool
    ensures { result ≡ misuse.is_bad_side side }
{
    side == 0 || side > SIDE_MAX
}

/// One of two sides is nothing, or above the limit.
pub fn is_bad_size(w: u32, h: u32) -> bool
    ensures { result ≡ misuse.is_bad_side w || misuse.is_bad_side h }
{
    is_bad_side(w) || is_bad_side(h)
}

/// The end of a side is above a limit.
fn is_beyond(start: i32, side: i32, limit: u32) -> bool
    ensures { result ≡ misuse.is_above (start +ℤ side) limit }
{
    i64::from(start) + i64::from(side) > i64::from(limit)
}

/// The rectangle leaves an image of that size.
fn leaves(rect: IntRect, w: u32, h: u32) -> bool
    ensures { result ≡ misuse.leaves rect (w, h) }
{
    rect.x < 0 || rect.y < 0 || is_beyond(rect.x, rect.w, w) || is_beyond(rect.y, rect.h, h)
}

/// The rectangle is empty, or leaves an image of that size.
pub fn is_bad_sample(rect: IntRect, w: u32, h: u32) -> bool
    ensures { result ≡ misuse.is_bad_rect rect || misuse.leaves rect (w, h) }
{
    is_bad_rect(rect) || leaves(rect, w, h)
}

/// The index is none of the collection's.
pub fn is_bad_index(buffers: Option<BufferDecl>, index: u32) -> bool
    ensures { result ≡ misuse.is_bad_index buffers index }
{
    match buffers {
        Some(decl) => decl.count <= index,
        None => true,
    }
}

/// The image is empty, or larger than the collection's buffers.
pub fn is_bad_image(buffers: Option<BufferDecl>, w: u32, h: u32) -> bool
    ensures { result ≡ misuse.is_bad_image buffers w h }
{
    match buffers {
        Some(decl) => w == 0 || h == 0 || w > decl.w || h > decl.h,
        None => false,
    }
}

/// The rectangle of a whole image.
pub fn whole(w: u32, h: u32) -> IntRect
    requires width { w < 2 ^ 31 }
    requires height { h < 2 ^ 31 }
    ensures { result ≡ record { x = pos 0; y = pos 0; w = pos w; h = pos h } }
{
    IntRect {
        x: 0,
        y: 0,
        w: w as i32,
        h: h as i32,
    }
}
