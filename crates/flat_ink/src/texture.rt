ghost use Rattle.std.specs.Prelude.{◌≡◌, ◌+◌, ◌*◌, ◌%◌, ◌-◌, ◌<◌, ◌≤◌, ◌≤ℤ◌, ℕ, pos, true};
ghost use Rattle.std.specs.Prelude.{if◌then◌else◌, length, slice_index, IsTrue};
ghost use Rattle.flat_drawable.specs.Drawable.{full_rect as full_rect_of, IsSample};
ghost use Rattle.flat_geom.specs.Rectangles.{is_between};
ghost use Rattle.flat_ink.specs.Areas.{has_pixel};
ghost use Rattle.flat_scene.specs.declared.frames.Paint.TheVariants.{Image};
ghost use Rattle.flat_ink.specs.Colours.{replaced};
ghost use Rattle.flat_ink.specs.Inks.{shade_at, tone, IsShade};
ghost use Rattle.flat_ink.specs.Pixels.{centre, flipped_column, flipped_row, buffer_column};
ghost use Rattle.flat_ink.specs.Pixels.{buffer_row, along_x, along_y, column_axis, row_axis};
ghost use Rattle.flat_ink.specs.Textures.{texture_red, texture_green, texture_blue};
ghost use Rattle.flat_ink.specs.Textures.{rises_across, rises_down, stride_of, IsBelow, IsTable};
ghost use Rattle.flat_ink.specs.Textures.{IsPlain, IsTextureOf};

use crate::area::Area;
use crate::axis::{Axis, is_by_units, part};
use crate::channel_ink::{ChannelValues, TILE_SIDE, tone_of};
use crate::colour::{blue, green, red, replace};
use flat_base::{BufferNo, IntRect, OPACITY_MAX, Rect};
use flat_drawable::full_rect;
use flat_scene::{BlendMode, DrawItem, ImageFlip};

/// The part of a buffer that an image shows, how it lies on the display, and how
/// it is mixed with what is there.
#[derive(Clone, Copy)]
pub struct Texture {
    pub buffers: u32,
    pub index: u32,
    pub sample: IntRect,
    pub flip: ImageFlip,
    /// Whether its columns lie along the display's y axis.
    pub swap: bool,
    pub columns: Axis,
    pub rows: Axis,
    pub blend: BlendMode,
    pub opacity: u32,
}

/// The texture of an item's image.
pub fn texture_of(
    item: &DrawItem,
    buffers: BufferNo,
    index: u32,
    sample: IntRect,
    flip: ImageFlip,
) -> Texture
    requires { item.now.paint ≡ Image buffers index sample flip }
    ensures { IsTextureOf item.now result }
{
    let rect = full_rect(item);
    Texture {
        buffers: buffers.0,
        index,
        sample,
        flip,
        swap: item.matrix.swap,
        columns: for_columns(item, rect),
        rows: for_rows(item, rect),
        blend: item.blend,
        opacity: item.opacity,
    }
}

fn across(item: &DrawItem, rect: Rect) -> Axis
    requires { rect ≡ full_rect_of item.now }
    ensures { result ≡ along_x item.now }
{
    Axis {
        entry: item.matrix.a,
        low: rect.x0,
        high: rect.x1,
    }
}

fn down(item: &DrawItem, rect: Rect) -> Axis
    requires { rect ≡ full_rect_of item.now }
    ensures { result ≡ along_y item.now }
{
    Axis {
        entry: item.matrix.b,
        low: rect.y0,
        high: rect.y1,
    }
}

/// The axis along which the columns of an image lie.
fn for_columns(item: &DrawItem, rect: Rect) -> Axis
    requires { rect ≡ full_rect_of item.now }
    ensures { result ≡ column_axis item.now }
{
    if item.matrix.swap {
        down(item, rect)
    } else {
        across(item, rect)
    }
}

/// The axis along which the rows of an image lie.
fn for_rows(item: &DrawItem, rect: Rect) -> Axis
    requires { rect ≡ full_rect_of item.now }
    ensures { result ≡ row_axis item.now }
{
    if item.matrix.swap {
        across(item, rect)
    } else {
        down(item, rect)
    }
}

fn flip_column(flip: ImageFlip, count: u32, n: u32) -> u32
    requires { n < count }
    ensures value { result ≡ flipped_column flip count n }
    ensures below { result < count }
{
    match flip {
        ImageFlip::LeftRight => count - 1 - n,
        ImageFlip::Plain | ImageFlip::UpDown => n,
    }
}

fn flip_row(flip: ImageFlip, count: u32, n: u32) -> u32
    requires { n < count }
    ensures value { result ≡ flipped_row flip count n }
    ensures below { result < count }
{
    match flip {
        ImageFlip::UpDown => count - 1 - n,
        ImageFlip::Plain | ImageFlip::LeftRight => n,
    }
}

/// The column of the buffer at a number along the columns' axis.
pub fn column(axis: Axis, sample: IntRect, flip: ImageFlip, p: usize) -> u32
    requires within { is_between axis.low axis.high (centre p) ≡ true }
    requires sample { pos 1 ≤ℤ sample.w }
    ensures { result ≡ buffer_column axis sample flip p }
{
    let count = sample.w.unsigned_abs();
    sample.x.unsigned_abs() + flip_column(flip, count, part(axis, count, p))
}

/// The row of the buffer at a number along the rows' axis.
pub fn row(axis: Axis, sample: IntRect, flip: ImageFlip, p: usize) -> u32
    requires within { is_between axis.low axis.high (centre p) ≡ true }
    requires sample { pos 1 ≤ℤ sample.h }
    ensures { result ≡ buffer_row axis sample flip p }
{
    let count = sample.h.unsigned_abs();
    sample.y.unsigned_abs() + flip_row(flip, count, part(axis, count, p))
}

fn red_of(texture: &Texture, p: usize) -> u8
    requires sample { IsSample texture.now.sample }
    requires opacity { texture.now.opacity ≤ OPACITY_MAX }
    requires within { is_between texture.now.columns.low texture.now.columns.high (centre p)
        ≡ true }
    ensures { result ≡ texture_red texture.now p }
{
    let column = column(texture.columns, texture.sample, texture.flip, p);
    tone_of(texture.blend, texture.opacity, red(texture.index, column))
}

fn green_of(texture: &Texture, p: usize) -> u8
    requires sample { IsSample texture.now.sample }
    requires opacity { texture.now.opacity ≤ OPACITY_MAX }
    requires within { is_between texture.now.rows.low texture.now.rows.high (centre p) ≡ true }
    ensures { result ≡ texture_green texture.now p }
{
    let row = row(texture.rows, texture.sample, texture.flip, p);
    tone_of(texture.blend, texture.opacity, green(row))
}

/// The blue of a texture, as it is mixed.
pub fn blue_of(texture: &Texture) -> u8
    requires { texture.now.opacity ≤ OPACITY_MAX }
    ensures { result ≡ texture_blue texture.now }
{
    tone_of(texture.blend, texture.opacity, blue(texture.buffers))
}

/// Whether pixels side by side have columns of the buffer that rise.
pub fn rises(axis: Axis, flip: ImageFlip) -> bool
    ensures { result ≡ rises_across axis flip }
{
    match flip {
        ImageFlip::LeftRight => axis.entry <= 0,
        ImageFlip::Plain | ImageFlip::UpDown => axis.entry > 0,
    }
}

/// Whether pixels one below another have rows of the buffer that rise.
pub fn sinks(axis: Axis, flip: ImageFlip) -> bool
    ensures { result ≡ rises_down axis flip }
{
    match flip {
        ImageFlip::UpDown => axis.entry <= 0,
        ImageFlip::Plain | ImageFlip::LeftRight => axis.entry > 0,
    }
}

/// Whether values stay as they are, where they are mixed with what is there.
fn is_full(blend: BlendMode, opacity: u32) -> bool
    ensures { IsTrue result → (s : ℕ) → tone blend opacity s ≡ s }
{
    match blend {
        BlendMode::SrcOver => true,
        BlendMode::Src => opacity == OPACITY_MAX,
    }
}

/// Whether a texture is shown in its own size, not turned, and its values stay as they are.
pub fn is_plain(texture: &Texture) -> bool
    ensures { IsTrue result → IsPlain texture.now }
{
    !texture.swap
        && is_full(texture.blend, texture.opacity)
        && is_by_units(texture.columns, texture.sample.w.unsigned_abs())
        && is_by_units(texture.rows, texture.sample.h.unsigned_abs())
}

/// How much a channel that rises, or else falls, grows from a pixel to the next one.
fn stride(rises: bool) -> u32
    ensures value { result ≡ stride_of rises }
    ensures below { result < 256 }
{
    if rises { 64 } else { 192 }
}

/// A channel of pixels side by side, where it grows by one stride from each to the next
/// one. The compiler knows how many they are.
#[inline(always)]
pub fn strides(first: u8, stride: u32) -> [u8; TILE_SIDE]
    requires { stride < 256 }
    ensures size { length result ≡ 64 }
    ensures values { (i : ℕ) → i < 64 → slice_index result i ≡ (first + stride * i) % 256 }
{
    let mut table = [0; TILE_SIDE];
    for i in 0..TILE_SIDE {
        table[i] = ((first as u32 + stride * i as u32) % 256) as u8;
    }
    table
}

/// Channels at an opacity.
fn replace_all(opacity: u32, values: [u8; TILE_SIDE]) -> [u8; TILE_SIDE]
    requires { opacity ≤ OPACITY_MAX }
    ensures size { length result ≡ 64 }
    ensures values { (i : ℕ) → i < 64 → slice_index result i
        ≡ replaced opacity (slice_index values i) }
{
    let mut table = values;
    for i in 0..TILE_SIDE {
        table[i] = replace(opacity, values[i]);
    }
    table
}

/// Channels as they are mixed with what is there.
fn tones_of(blend: BlendMode, opacity: u32, values: [u8; TILE_SIDE]) -> [u8; TILE_SIDE]
    requires { opacity ≤ OPACITY_MAX }
    ensures size { length result ≡ 64 }
    ensures values { (i : ℕ) → i < 64 → slice_index result i
        ≡ tone blend opacity (slice_index values i) }
{
    match blend {
        BlendMode::SrcOver => values,
        BlendMode::Src if opacity == OPACITY_MAX => values,
        BlendMode::Src => replace_all(opacity, values),
    }
}

/// The reds for pixels side by side, each read by itself.
fn each_red(texture: &Texture, from: usize, upto: usize) -> [u8; TILE_SIDE]
    requires sample { IsSample texture.now.sample }
    requires opacity { texture.now.opacity ≤ OPACITY_MAX }
    requires room { upto ≤ from + 64 }
    requires within { (p : ℕ) → from ≤ p → p < upto →
        is_between texture.now.columns.low texture.now.columns.high (centre p) ≡ true }
    ensures { IsTable (texture_red texture.now) from upto result }
{
    let mut table = [0; TILE_SIDE];
    for p in from..upto {
        table[p - from] = red_of(texture, p);
    }
    table
}

/// The greens for pixels side by side, each read by itself.
fn each_green(texture: &Texture, from: usize, upto: usize) -> [u8; TILE_SIDE]
    requires sample { IsSample texture.now.sample }
    requires opacity { texture.now.opacity ≤ OPACITY_MAX }
    requires room { upto ≤ from + 64 }
    requires within { (p : ℕ) → from ≤ p → p < upto →
        is_between texture.now.rows.low texture.now.rows.high (centre p) ≡ true }
    ensures { IsTable (texture_green texture.now) from upto result }
{
    let mut table = [0; TILE_SIDE];
    for p in from..upto {
        table[p - from] = green_of(texture, p);
    }
    table
}

/// The reds for pixels side by side. Where each column is one unit wide, only the first
/// one is read.
fn reds(texture: &Texture, from: usize, upto: usize) -> [u8; TILE_SIDE]
    requires sample { IsSample texture.now.sample }
    requires opacity { texture.now.opacity ≤ OPACITY_MAX }
    requires room { upto ≤ from + 64 }
    requires within { (p : ℕ) → from ≤ p → p < upto →
        is_between texture.now.columns.low texture.now.columns.high (centre p) ≡ true }
    ensures { IsTable (texture_red texture.now) from upto result }
{
    if from >= upto {
        return [0; TILE_SIDE];
    }
    let (axis, sample, flip) = (texture.columns, texture.sample, texture.flip);
    if !is_by_units(axis, sample.w.unsigned_abs()) {
        return each_red(texture, from, upto);
    }
    let first = red(texture.index, column(axis, sample, flip, from));
    let stride = stride(rises(axis, flip));
    tones_of(texture.blend, texture.opacity, strides(first, stride))
}

/// The greens for pixels one below another. Where each row is one unit high, only the
/// first one is read.
fn greens(texture: &Texture, from: usize, upto: usize) -> [u8; TILE_SIDE]
    requires sample { IsSample texture.now.sample }
    requires opacity { texture.now.opacity ≤ OPACITY_MAX }
    requires room { upto ≤ from + 64 }
    requires within { (p : ℕ) → from ≤ p → p < upto →
        is_between texture.now.rows.low texture.now.rows.high (centre p) ≡ true }
    ensures { IsTable (texture_green texture.now) from upto result }
{
    if from >= upto {
        return [0; TILE_SIDE];
    }
    let (axis, sample, flip) = (texture.rows, texture.sample, texture.flip);
    if !is_by_units(axis, sample.h.unsigned_abs()) {
        return each_green(texture, from, upto);
    }
    let first = green(row(axis, sample, flip, from));
    let stride = stride(sinks(axis, flip));
    tones_of(texture.blend, texture.opacity, strides(first, stride))
}

/// The red of a texture in an area.
pub fn red_shade(texture: &Texture, cut: Area) -> ChannelValues
    requires sample { IsSample texture.now.sample }
    requires opacity { texture.now.opacity ≤ OPACITY_MAX }
    requires columns { cut.x1 ≤ cut.x0 + 64 }
    requires rows { cut.y1 ≤ cut.y0 + 64 }
    requires below { IsBelow texture.now cut }
    ensures shade { IsShade result }
    ensures values { (px py : ℕ) → has_pixel cut px py ≡ true →
        shade_at result (px - cut.x0) (py - cut.y0)
        ≡ texture_red texture.now (if texture.now.swap then py else px) }
{
    if texture.swap {
        ChannelValues::Down(reds(texture, cut.y0, cut.y1))
    } else {
        ChannelValues::Across(reds(texture, cut.x0, cut.x1))
    }
}

/// The green of a texture in an area.
pub fn green_shade(texture: &Texture, cut: Area) -> ChannelValues
    requires sample { IsSample texture.now.sample }
    requires opacity { texture.now.opacity ≤ OPACITY_MAX }
    requires columns { cut.x1 ≤ cut.x0 + 64 }
    requires rows { cut.y1 ≤ cut.y0 + 64 }
    requires below { IsBelow texture.now cut }
    ensures shade { IsShade result }
    ensures values { (px py : ℕ) → has_pixel cut px py ≡ true →
        shade_at result (px - cut.x0) (py - cut.y0)
        ≡ texture_green texture.now (if texture.now.swap then px else py) }
{
    if texture.swap {
        ChannelValues::Across(greens(texture, cut.x0, cut.x1))
    } else {
        ChannelValues::Down(greens(texture, cut.y0, cut.y1))
    }
}
