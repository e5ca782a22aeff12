ghost use Rattle.std.specs.Prelude.{◌≡◌, ◌+◌, ◌*◌, ◌%◌, ◌<◌, ◌≤◌, ◌-◌, ◌^◌, ℕ, if◌then◌else◌};
ghost use Rattle.std.specs.Prelude.{length, slice_index, true};
ghost use Rattle.flat_ink.specs.Areas.{has_pixel, IsInArea, IsWindow};
ghost use Rattle.flat_ink.specs.Inks.{mixed};
ghost use Rattle.flat_tile.specs.Preparing.{stamped, toned, IsStamp};
ghost use Rattle.flat_ink.specs.Textures.{stride_of};
ghost use Rattle.flat_tile.specs.Tiles.{x_at, y_at, channel_at, pixels_of, tile_area, IsTile};

use crate::image_stamp::{ImageStamp, stamp_tile};
use crate::plane::{mix_across, mix_down, mix_plane};
use crate::prepared_item::{ChannelRamps, ItemChannels, PreparedItem};
use crate::tile::Tile;
use flat_ink::area::Area;
use flat_ink::channel_ink::{BlendRule, TILE_SIDE};
use flat_ink::texture::strides;

/// Mixes one value with the pixels of an area, in the plane of a channel.
fn lay_even(c: usize, mix: BlendRule, s: u8, tile: Tile, cut: Area, bytes: &mut [u8])
    requires channel { c < 3 }
    requires tile { IsTile tile }
    requires size { length bytes.old ≡ 3 * pixels_of tile }
    requires cut { IsInArea (tile_area tile) cut }
    requires some { IsWindow cut }
    ensures there { (m : ℕ) → m < length bytes.old → channel_at tile m ≡ c → slice_index bytes.new m
        ≡ (if has_pixel cut (x_at tile m) (y_at tile m) then mixed mix s (slice_index bytes.old m)
        else slice_index bytes.old m) }
    ensures others { (m : ℕ) → m < length bytes.old → (channel_at tile m ≡ c → ⊥) →
        slice_index bytes.new m ≡ slice_index bytes.old m }
{
    let size = tile.width * tile.height;
    let plane = &mut bytes[c * size..c * size + size];
    mix_plane(mix, s, tile, cut, plane);
}

/// Mixes a value for each column with the pixels of an area, in the plane of a channel.
fn lay_across(c: usize, mix: BlendRule, values: &[u8], tile: Tile, cut: Area, bytes: &mut [u8])
    requires channel { c < 3 }
    requires values { cut.x1 - cut.x0 ≤ length values.now }
    requires tile { IsTile tile }
    requires size { length bytes.old ≡ 3 * pixels_of tile }
    requires cut { IsInArea (tile_area tile) cut }
    requires some { IsWindow cut }
    ensures there { (m : ℕ) → m < length bytes.old → channel_at tile m ≡ c → slice_index bytes.new m
        ≡ (if has_pixel cut (x_at tile m) (y_at tile m) then mixed mix (slice_index values.now
        (x_at tile m - cut.x0)) (slice_index bytes.old m) else slice_index bytes.old m) }
    ensures others { (m : ℕ) → m < length bytes.old → (channel_at tile m ≡ c → ⊥) →
        slice_index bytes.new m ≡ slice_index bytes.old m }
{
    let size = tile.width * tile.height;
    let plane = &mut bytes[c * size..c * size + size];
    mix_across(mix, values, tile, cut, plane);
}

/// Mixes a value for each row with the pixels of an area, in the plane of a channel.
fn lay_down(c: usize, mix: BlendRule, values: &[u8], tile: Tile, cut: Area, bytes: &mut [u8])
    requires channel { c < 3 }
    requires values { cut.y1 - cut.y0 ≤ length values.now }
    requires tile { IsTile tile }
    requires size { length bytes.old ≡ 3 * pixels_of tile }
    requires cut { IsInArea (tile_area tile) cut }
    requires some { IsWindow cut }
    ensures there { (m : ℕ) → m < length bytes.old → channel_at tile m ≡ c → slice_index bytes.new m
        ≡ (if has_pixel cut (x_at tile m) (y_at tile m) then mixed mix (slice_index values.now
        (y_at tile m - cut.y0)) (slice_index bytes.old m) else slice_index bytes.old m) }
    ensures others { (m : ℕ) → m < length bytes.old → (channel_at tile m ≡ c → ⊥) →
        slice_index bytes.new m ≡ slice_index bytes.old m }
{
    let size = tile.width * tile.height;
    let plane = &mut bytes[c * size..c * size + size];
    mix_down(mix, values, tile, cut, plane);
}

/// A channel after so many strides.
fn after(first: u8, stride: u32, count: usize) -> u8
    requires stride { stride < 256 }
    requires near { count < 2 ^ 29 }
    ensures { result ≡ (first + stride * count) % 256 }
{
    ((first as usize + stride as usize * count) % 256) as u8
}

/// The values of a channel from a pixel on, which lies so far from the first one. The compiler
/// knows the strides.
fn steps_from(first: u8, rises: bool, count: usize) -> [u8; TILE_SIDE]
    requires { count < 2 ^ 29 }
    ensures size { length result ≡ 64 }
    ensures values { (i : ℕ) → i < 64 → slice_index result i
        ≡ (first + stride_of rises * (count + i)) % 256 }
{
    if rises {
        strides(after(first, 64, count), 64)
    } else {
        strides(after(first, 192, count), 192)
    }
}

/// What an opaque image in its own size gives the pixels of an area that it covers.
fn stamp_of(steps: ChannelRamps, area: Area, cut: Area) -> ImageStamp
    requires covered { IsInArea area cut }
    requires some { IsWindow cut }
    requires columns { cut.x1 ≤ cut.x0 + 64 }
    requires rows { cut.y1 ≤ cut.y0 + 64 }
    ensures cut { result.cut ≡ cut }
    ensures stamp { IsStamp result }
    ensures values { (c px py : ℕ) → has_pixel cut px py ≡ true → stamped result c px py
        ≡ toned area (ItemChannels.Stepped steps) c px py }
{
    ImageStamp {
        cut,
        reds: steps_from(steps.red, steps.rises, cut.x0 - area.x0),
        greens: steps_from(steps.green, steps.sinks, cut.y0 - area.y0),
        blue: steps.blue,
    }
}

/// Lays an image in its own size on the pixels of an area that it covers, mixed with what is there.
fn mix_steps(it: &PreparedItem, steps: ChannelRamps, tile: Tile, cut: Area, bytes: &mut [u8])
    requires steps { it.now.tones ≡ ItemChannels.Stepped steps }
    requires tile { IsTile tile }
    requires size { length bytes.old ≡ 3 * pixels_of tile }
    requires covered { IsInArea it.now.area cut }
    requires cut { IsInArea (tile_area tile) cut }
    requires some { IsWindow cut }
    ensures { (m : ℕ) → m < length bytes.old → slice_index bytes.new m
        ≡ (if has_pixel cut (x_at tile m) (y_at tile m) then mixed it.now.mix (toned it.now.area
        it.now.tones (channel_at tile m) (x_at tile m) (y_at tile m)) (slice_index bytes.old m) else
        slice_index bytes.old m) }
{
    let reds = steps_from(steps.red, steps.rises, cut.x0 - it.area.x0);
    lay_across(0, it.mix, reds.as_slice(), tile, cut, bytes);
    let greens = steps_from(steps.green, steps.sinks, cut.y0 - it.area.y0);
    lay_down(1, it.mix, greens.as_slice(), tile, cut, bytes);
    lay_even(2, it.mix, steps.blue, tile, cut, bytes);
}

/// Lays an image in its own size on the pixels of an area that it covers.
pub fn lay_steps(it: &PreparedItem, steps: ChannelRamps, tile: Tile, cut: Area, bytes: &mut [u8])
    requires steps { it.now.tones ≡ ItemChannels.Stepped steps }
    requires tile { IsTile tile }
    requires size { length bytes.old ≡ 3 * pixels_of tile }
    requires covered { IsInArea it.now.area cut }
    requires cut { IsInArea (tile_area tile) cut }
    requires some { IsWindow cut }
    ensures { (m : ℕ) → m < length bytes.old → slice_index bytes.new m
        ≡ (if has_pixel cut (x_at tile m) (y_at tile m) then mixed it.now.mix (toned it.now.area
        it.now.tones (channel_at tile m) (x_at tile m) (y_at tile m)) (slice_index bytes.old m) else
        slice_index bytes.old m) }
{
    match it.mix {
        BlendRule::Replace => stamp_tile(&stamp_of(steps, it.area, cut), tile, bytes),
        BlendRule::Cover(_) => mix_steps(it, steps, tile, cut, bytes),
    }
}

/// Lays a fill on the pixels of an area that it covers.
pub fn lay_fill(mix: BlendRule, tones: [u8; 3], tile: Tile, cut: Area, bytes: &mut [u8])
    requires tile { IsTile tile }
    requires size { length bytes.old ≡ 3 * pixels_of tile }
    requires cut { IsInArea (tile_area tile) cut }
    requires some { IsWindow cut }
    ensures { (m : ℕ) → m < length bytes.old → slice_index bytes.new m
        ≡ (if has_pixel cut (x_at tile m) (y_at tile m) then mixed mix (slice_index tones
        (channel_at tile m)) (slice_index bytes.old m) else slice_index bytes.old m) }
{
    lay_even(0, mix, tones[0], tile, cut, bytes);
    lay_even(1, mix, tones[1], tile, cut, bytes);
    lay_even(2, mix, tones[2], tile, cut, bytes);
}
