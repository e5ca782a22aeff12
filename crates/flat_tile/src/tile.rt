ghost use Rattle.std.specs.Prelude.{◌≡◌, ◌*◌, ◌<◌, ◌≤◌, ◌-◌, ℕ, length, slice_index, if◌then◌else◌};
ghost use Rattle.std.specs.Prelude.{All, IsTrue, true, false, drop};
ghost use Rattle.flat_drawable.specs.Drawable.{IsDrawable};
ghost use Rattle.flat_ink.specs.Areas.{has_pixel, IsInArea, IsWindow};
ghost use Rattle.flat_ink.specs.Channels.{channel_step, channel_after};
ghost use Rattle.flat_tile.specs.Hiding.{HidesIn};
ghost use Rattle.flat_ink.specs.Inks.{inked, IsShade};
ghost use Rattle.flat_ink.specs.Textures.{IsTextureOf};
ghost use Rattle.flat_ink.specs.Pixels.{covers};
ghost use Rattle.flat_tile.specs.Tiles.{x_of, y_of, x_at, y_at, channel_at, pixels_of, tile_area};
ghost use Rattle.flat_tile.specs.Tiles.{IsTile};

use crate::plane::lay_plane;
use flat_ink::area::{Area, area_of, common, is_covered, is_missed};
use flat_ink::brush::{blue_ink, fill_ink, green_ink, red_ink};
use flat_ink::channel_ink::{BlendRule, ChannelInk, ChannelValues};
use flat_ink::texture::{Texture, texture_of};
use flat_scene::{BlendMode, DrawItem, Paint};

/// How many channels a pixel has: red, green and blue.
pub const CHANNELS: usize = 3;

/// Where a tile lies: it has `height` rows of `width` pixels, from its corner on.
///
/// Its bytes are three planes, one for each channel, in which the pixels stand row
/// by row.
#[derive(Clone, Copy)]
pub struct Tile {
    pub left: usize,
    pub top: usize,
    pub width: usize,
    pub height: usize,
}

/// The pixels of a tile.
pub fn area(tile: Tile) -> Area
    requires { IsTile tile }
    ensures { result ≡ tile_area tile }
{
    Area {
        x0: tile.left,
        y0: tile.top,
        x1: tile.left + tile.width,
        y1: tile.top + tile.height,
    }
}

/// Lays ink on the pixels of an area, in the plane of a channel.
fn ink_channel(c: usize, ink: &ChannelInk, tile: Tile, cut: Area, bytes: &mut [u8])
    requires channel { c < 3 }
    requires ink { IsShade ink.now.shade }
    requires tile { IsTile tile }
    requires size { length bytes.old ≡ 3 * pixels_of tile }
    requires cut { IsInArea (tile_area tile) cut }
    requires some { IsWindow cut }
    ensures there { (m : ℕ) → m < length bytes.old → channel_at tile m ≡ c → slice_index bytes.new m
        ≡ (if has_pixel cut (x_at tile m) (y_at tile m) then inked ink.now
        (x_at tile m - cut.x0) (y_at tile m - cut.y0) (slice_index bytes.old m) else slice_index
        bytes.old m) }
    ensures others { (m : ℕ) → m < length bytes.old → (channel_at tile m ≡ c → ⊥) →
        slice_index bytes.new m ≡ slice_index bytes.old m }
{
    let size = tile.width * tile.height;
    let plane = &mut bytes[c * size..c * size + size];
    lay_plane(ink, tile, cut, plane);
}

/// Draws a fill on the pixels of an area that it covers.
fn paint_fill(item: &DrawItem, rgba: [u8; 4], tile: Tile, cut: Area, bytes: &mut [u8])
    requires item { IsDrawable item.now }
    requires fill { item.now.paint ≡ Paint.Fill rgba }
    requires tile { IsTile tile }
    requires size { length bytes.old ≡ 3 * pixels_of tile }
    requires cut { IsInArea (tile_area tile) cut }
    requires some { IsWindow cut }
    requires covered { (px py : ℕ) → has_pixel cut px py ≡ true → covers item.now px py ≡ true }
    ensures { (m : ℕ) → m < length bytes.old → slice_index bytes.new m
        ≡ (if has_pixel cut (x_at tile m) (y_at tile m) then channel_step (channel_at tile m)
        item.now (x_at tile m) (y_at tile m) (slice_index bytes.old m) else slice_index bytes.old
        m) }
{
    ink_channel(0, &fill_ink(0, item, rgba), tile, cut, bytes);
    ink_channel(1, &fill_ink(1, item, rgba), tile, cut, bytes);
    ink_channel(2, &fill_ink(2, item, rgba), tile, cut, bytes);
}

/// Draws an image on the pixels of an area that it covers.
fn paint_image(item: &DrawItem, texture: &Texture, tile: Tile, cut: Area, bytes: &mut [u8])
    requires item { IsDrawable item.now }
    requires texture { IsTextureOf item.now texture.now }
    requires tile { IsTile tile }
    requires size { length bytes.old ≡ 3 * pixels_of tile }
    requires cut { IsInArea (tile_area tile) cut }
    requires some { IsWindow cut }
    requires covered { (px py : ℕ) → has_pixel cut px py ≡ true → covers item.now px py ≡ true }
    ensures { (m : ℕ) → m < length bytes.old → slice_index bytes.new m
        ≡ (if has_pixel cut (x_at tile m) (y_at tile m) then channel_step (channel_at tile m)
        item.now (x_at tile m) (y_at tile m) (slice_index bytes.old m) else slice_index bytes.old
        m) }
{
    ink_channel(0, &red_ink(item, texture, cut), tile, cut, bytes);
    ink_channel(1, &green_ink(item, texture, cut), tile, cut, bytes);
    ink_channel(2, &blue_ink(item, texture), tile, cut, bytes);
}

/// Draws an item on the pixels of an area that it covers.
fn paint_cut(item: &DrawItem, tile: Tile, cut: Area, bytes: &mut [u8])
    requires item { IsDrawable item.now }
    requires tile { IsTile tile }
    requires size { length bytes.old ≡ 3 * pixels_of tile }
    requires cut { IsInArea (tile_area tile) cut }
    requires some { IsWindow cut }
    requires covered { (px py : ℕ) → has_pixel cut px py ≡ true → covers item.now px py ≡ true }
    ensures { (m : ℕ) → m < length bytes.old → slice_index bytes.new m
        ≡ (if has_pixel cut (x_at tile m) (y_at tile m) then channel_step (channel_at tile m)
        item.now (x_at tile m) (y_at tile m) (slice_index bytes.old m) else slice_index bytes.old
        m) }
{
    match item.paint {
        Paint::Fill { rgba } => paint_fill(item, rgba, tile, cut, bytes),
        Paint::Image {
            buffers,
            index,
            sample,
            flip,
        } => {
            let texture = texture_of(item, buffers, index, sample, flip);
            paint_image(item, &texture, tile, cut, bytes);
        }
    }
}

/// Draws an item on the pixels of a window.
pub fn paint_item(item: &DrawItem, tile: Tile, window: Area, bytes: &mut [u8])
    requires item { IsDrawable item.now }
    requires tile { IsTile tile }
    requires size { length bytes.old ≡ 3 * pixels_of tile }
    requires window { IsInArea (tile_area tile) window }
    requires some { IsWindow window }
    ensures { (m : ℕ) → m < length bytes.old → slice_index bytes.new m
        ≡ (if has_pixel window (x_at tile m) (y_at tile m) then channel_step (channel_at tile m)
        item.now (x_at tile m) (y_at tile m) (slice_index bytes.old m) else slice_index bytes.old
        m) }
{
    if is_missed(window, item.visible) {
        return;
    }
    let cut = common(area_of(item.visible), window);
    if cut.x0 >= cut.x1 {
        return;
    }
    if cut.y0 >= cut.y1 {
        return;
    }
    paint_cut(item, tile, cut, bytes);
}

/// Draws items in order on what is in a window.
pub fn paint_all(items: &[DrawItem], tile: Tile, window: Area, bytes: &mut [u8])
    requires items { All IsDrawable items.now }
    requires tile { IsTile tile }
    requires size { length bytes.old ≡ 3 * pixels_of tile }
    requires window { IsInArea (tile_area tile) window }
    requires some { IsWindow window }
    ensures { (m : ℕ) → m < length bytes.old → slice_index bytes.new m
        ≡ (if has_pixel window (x_at tile m) (y_at tile m) then channel_after (channel_at tile m)
        items.now (x_at tile m) (y_at tile m) (slice_index bytes.old m) else slice_index bytes.old
        m) }
{
    for n in 0..items.len() {
        paint_item(&items[n], tile, window, bytes);
    }
}

/// Makes the pixels of a window black.
fn blacken(tile: Tile, window: Area, bytes: &mut [u8])
    requires tile { IsTile tile }
    requires size { length bytes.old ≡ 3 * pixels_of tile }
    requires window { IsInArea (tile_area tile) window }
    requires some { IsWindow window }
    ensures { (m : ℕ) → m < length bytes.old → slice_index bytes.new m
        ≡ (if has_pixel window (x_at tile m) (y_at tile m) then 0 else slice_index bytes.old m) }
{
    let black = ChannelInk {
        shade: ChannelValues::Even(0),
        mix: BlendRule::Replace,
    };
    ink_channel(0, &black, tile, window, bytes);
    ink_channel(1, &black, tile, window, bytes);
    ink_channel(2, &black, tile, window, bytes);
}

/// Whether an item leaves nothing of what is below it in a window.
pub fn hides(item: &DrawItem, window: Area) -> bool
    requires { IsWindow window }
    ensures { IsTrue result → HidesIn item.now window }
{
    if item.blend != BlendMode::Src {
        return false;
    }
    is_covered(window, item.visible)
}

/// The first item of which something is seen in a window: those before it are
/// hidden.
pub fn first_seen(items: &[DrawItem], window: Area) -> usize
    requires { IsWindow window }
    ensures there { result ≤ length items.now }
    ensures inside { 0 < length items.now → result < length items.now }
    ensures same { (c px py : ℕ) → has_pixel window px py ≡ true → channel_after c items.now px py 0
        ≡ channel_after c (drop result items.now) px py 0 }
{
    for n in 0..items.len() {
        let place = items.len() - 1 - n;
        if hides(&items[place], window) {
            return place;
        }
    }
    0
}

/// Draws what is in a window anew.
pub fn draw_anew(items: &[DrawItem], tile: Tile, window: Area, bytes: &mut [u8])
    requires items { All IsDrawable items.now }
    requires tile { IsTile tile }
    requires size { length bytes.old ≡ 3 * pixels_of tile }
    ensures { (m : ℕ) → m < length bytes.old → slice_index bytes.new m
        ≡ (if has_pixel window (x_at tile m) (y_at tile m) then channel_after (channel_at tile m)
        items.now (x_at tile m) (y_at tile m) 0 else slice_index bytes.old m) }
{
    let cut = common(window, area(tile));
    if cut.x0 >= cut.x1 {
        return;
    }
    if cut.y0 >= cut.y1 {
        return;
    }
    blacken(tile, cut, bytes);
    let first = first_seen(items, cut);
    paint_all(&items[first..], tile, cut, bytes);
}
