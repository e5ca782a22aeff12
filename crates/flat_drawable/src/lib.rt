//! Which draw items can be drawn: what a renderer asks of each of them, and the
//! test of it; and whether two are equal.
//!
//! `are_drawable` answers `IsDrawable` of each item (specs/Drawable), `is_same` equality.
#![tactic(auto)]

ghost use Rattle.std.specs.Prelude.{◌≡◌, ◌↔◌, IsTrue, All};
ghost use Rattle.flat_drawable.specs.Drawable.{matrix_of, full_rect as full_rect_of, IsDrawable};
ghost use Rattle.flat_drawable.specs.Drawable.{IsWithin, IsSample, HasSample};

mod equality;

pub use equality::is_same;
use flat_base::{IntRect, OPACITY_MAX, Rect};
use flat_geom::{Matrix, map_rect, sized};
use flat_scene::{DrawItem, Paint, SceneMatrix};

fn matrix(m: SceneMatrix) -> Matrix
    ensures { result ≡ matrix_of m }
{
    Matrix {
        swap: m.swap,
        a: m.a,
        b: m.b,
        x: m.x,
        y: m.y,
    }
}

/// The rectangle of an item's size, on the display, uncut, in places.
pub fn full_rect(item: &DrawItem) -> Rect
    ensures { result ≡ full_rect_of item.now }
{
    map_rect(matrix(item.matrix), sized(item.w, item.h))
}

fn is_within(outer: Rect, inner: Rect) -> bool
    ensures { IsTrue result ↔ IsWithin outer inner }
{
    if inner.x0 < outer.x0 {
        return false;
    }
    if inner.y0 < outer.y0 {
        return false;
    }
    if inner.x1 > outer.x1 {
        return false;
    }
    if inner.y1 > outer.y1 {
        return false;
    }
    true
}

fn is_sample(sample: IntRect) -> bool
    ensures { IsTrue result ↔ IsSample sample }
{
    if sample.x < 0 {
        return false;
    }
    if sample.y < 0 {
        return false;
    }
    if sample.w < 1 {
        return false;
    }
    if sample.h < 1 {
        return false;
    }
    true
}

fn has_sample(paint: Paint) -> bool
    ensures { IsTrue result ↔ HasSample paint }
{
    match paint {
        Paint::Fill { .. } => true,
        Paint::Image { sample, .. } => is_sample(sample),
    }
}

fn is_drawable(item: &DrawItem) -> bool
    ensures { IsTrue result ↔ IsDrawable item.now }
{
    if !is_within(full_rect(item), item.visible) {
        return false;
    }
    if !has_sample(item.paint) {
        return false;
    }
    item.opacity <= OPACITY_MAX
}

/// Whether all items can be drawn: the visible part of each lies in its
/// rectangle, its opacity is at most one, and an image shows a part of its buffer
/// that has no negative corner and sides of at least 1.
///
/// Those of a frame can; this is the test for lists that come from elsewhere.
pub fn are_drawable(items: &[DrawItem]) -> bool
    ensures { IsTrue result ↔ All IsDrawable items.now }
{
    for item in items {
        if !is_drawable(item) {
            return false;
        }
    }
    true
}
