ghost use Rattle.std.specs.Prelude.{◌≡◌, ◌*◌, ◌<◌, ◌≤◌, ℕ, length, slice_index, if◌then◌else◌};
ghost use Rattle.std.specs.Prelude.{All, slice_index_or};
ghost use Rattle.flat_drawable.specs.Drawable.{IsDrawable};
ghost use Rattle.flat_ink.specs.Areas.{has_pixel, IsInArea, IsWindow};
ghost use Rattle.flat_tile.specs.Chosen.{chosen};
ghost use Rattle.flat_ink.specs.Channels.{channel_after, channel_step};
ghost use Rattle.flat_ink.specs.Inks.{mixed};
ghost use Rattle.flat_tile.specs.Preparing.{ArePrepared, IsOver, IsPrepared};
ghost use Rattle.flat_tile.specs.Chosen.{drawn_in};
ghost use Rattle.flat_tile.specs.Tiles.{x_at, y_at, channel_at, pixels_of, tile_area, IsTile};

use crate::laying::{lay_fill, lay_steps};
use crate::prepared_item::{ItemChannels, PreparedItem, is_over};
use crate::tile::{Tile, area, first_seen, paint_all, paint_item};
use flat_ink::area::{Area, common, is_in};
use flat_ink::channel_ink::BlendRule;
use flat_ink::colour::cover;
use flat_scene::DrawItem;

/// Of the items with some numbers, the first one of which something is seen in a window: which
/// of the numbers it has.
fn first_chosen(list: &[PreparedItem], places: &[usize], window: Area) -> usize
    requires places { All (λ p. p < length list.now) places.now }
    ensures there { result ≤ length places.now }
    ensures inside { 0 < result → result < length places.now }
    ensures over { (d : PreparedItem) → 0 < result → IsOver (slice_index_or list.now (slice_index
        places.now result) d) window }
{
    for n in 0..places.len() {
        let k = places.len() - 1 - n;
        if is_over(&list[places[k]], window) {
            return k;
        }
    }
    0
}

/// Draws an item on the pixels of a window.
fn paint_prepared(item: &DrawItem, it: &PreparedItem, tile: Tile, window: Area, bytes: &mut [u8])
    requires item { IsDrawable item.now }
    requires prepared { IsPrepared item.now it.now }
    requires tile { IsTile tile }
    requires size { length bytes.old ≡ 3 * pixels_of tile }
    requires window { IsInArea (tile_area tile) window }
    requires some { IsWindow window }
    ensures { (m : ℕ) → m < length bytes.old → slice_index bytes.new m
        ≡ (if has_pixel window (x_at tile m) (y_at tile m) then channel_step (channel_at tile m)
        item.now (x_at tile m) (y_at tile m) (slice_index bytes.old m) else slice_index bytes.old
        m) }
{
    let cut = common(it.area, window);
    if cut.x0 >= cut.x1 {
        return;
    }
    if cut.y0 >= cut.y1 {
        return;
    }
    match it.tones {
        ItemChannels::Even(tones) => lay_fill(it.mix, tones, tile, cut, bytes),
        ItemChannels::Stepped(steps) => lay_steps(it, steps, tile, cut, bytes),
        ItemChannels::Sampled => paint_item(item, tile, window, bytes),
    }
}

/// Draws the items with some numbers, in the order of these, on what is in a window.
fn paint_chosen(
    items: &[DrawItem],
    list: &[PreparedItem],
    places: &[usize],
    tile: Tile,
    window: Area,
    bytes: &mut [u8],
)
    requires items { All IsDrawable items.now }
    requires prepared { ArePrepared items.now list.now }
    requires places { All (λ p. p < length items.now) places.now }
    requires tile { IsTile tile }
    requires size { length bytes.old ≡ 3 * pixels_of tile }
    requires window { IsInArea (tile_area tile) window }
    requires some { IsWindow window }
    ensures { (m : ℕ) → m < length bytes.old → slice_index bytes.new m
        ≡ (if has_pixel window (x_at tile m) (y_at tile m) then channel_after (channel_at tile m)
        (chosen items.now places.now) (x_at tile m) (y_at tile m) (slice_index bytes.old m) else
        slice_index bytes.old m) }
{
    for n in 0..places.len() {
        paint_prepared(&items[places[n]], &list[places[n]], tile, window, bytes);
    }
}

/// Makes a tile black.
fn blacken_all(bytes: &mut [u8])
    ensures { (m : ℕ) → m < length bytes.old → slice_index bytes.new m ≡ 0 }
{
    bytes.fill(0);
}

/// A channel that is mixed with black.
fn over_black(mix: BlendRule, s: u8) -> u8
    ensures { result ≡ mixed mix s 0 }
{
    match mix {
        BlendRule::Replace => s,
        BlendRule::Cover(weight) => cover(weight, s, 0),
    }
}

/// A colour that is mixed with black.
fn colour_over_black(mix: BlendRule, tones: [u8; 3]) -> [u8; 3]
    ensures { (c : ℕ) → c < 3 → slice_index result c ≡ mixed mix (slice_index tones c) 0 }
{
    [
        over_black(mix, tones[0]),
        over_black(mix, tones[1]),
        over_black(mix, tones[2]),
    ]
}

/// Draws an item on a tile that is made black.
fn paint_on_black(item: &DrawItem, it: &PreparedItem, tile: Tile, bytes: &mut [u8])
    requires item { IsDrawable item.now }
    requires prepared { IsPrepared item.now it.now }
    requires tile { IsTile tile }
    requires size { length bytes.old ≡ 3 * pixels_of tile }
    ensures { (m : ℕ) → m < length bytes.old → slice_index bytes.new m
        ≡ channel_step (channel_at tile m) item.now (x_at tile m) (y_at tile m) 0 }
{
    blacken_all(bytes);
    paint_prepared(item, it, tile, area(tile), bytes);
}

/// Draws an item that covers a tile and replaces what is there. So nothing has to be black before.
fn paint_over(item: &DrawItem, it: &PreparedItem, tile: Tile, bytes: &mut [u8])
    requires item { IsDrawable item.now }
    requires prepared { IsPrepared item.now it.now }
    requires tile { IsTile tile }
    requires over { IsOver it.now (tile_area tile) }
    requires size { length bytes.old ≡ 3 * pixels_of tile }
    ensures { (m : ℕ) → m < length bytes.old → slice_index bytes.new m
        ≡ channel_step (channel_at tile m) item.now (x_at tile m) (y_at tile m) 0 }
{
    paint_prepared(item, it, tile, area(tile), bytes);
}

/// Draws a fill that covers a tile, as if this was black.
fn fill_over(item: &DrawItem, it: &PreparedItem, tones: [u8; 3], tile: Tile, bytes: &mut [u8])
    requires prepared { IsPrepared item.now it.now }
    requires tones { it.now.tones ≡ ItemChannels.Even tones }
    requires tile { IsTile tile }
    requires covered { IsInArea it.now.area (tile_area tile) }
    requires size { length bytes.old ≡ 3 * pixels_of tile }
    ensures { (m : ℕ) → m < length bytes.old → slice_index bytes.new m
        ≡ channel_step (channel_at tile m) item.now (x_at tile m) (y_at tile m) 0 }
{
    let colour = colour_over_black(it.mix, tones);
    lay_fill(BlendRule::Replace, colour, tile, area(tile), bytes);
}

/// Draws the first item of a tile, from black. A fill that covers the tile, and what replaces all
/// of it, begins it: nothing is made black before.
fn begin(item: &DrawItem, it: &PreparedItem, tile: Tile, bytes: &mut [u8])
    requires item { IsDrawable item.now }
    requires prepared { IsPrepared item.now it.now }
    requires tile { IsTile tile }
    requires size { length bytes.old ≡ 3 * pixels_of tile }
    ensures { (m : ℕ) → m < length bytes.old → slice_index bytes.new m
        ≡ channel_step (channel_at tile m) item.now (x_at tile m) (y_at tile m) 0 }
{
    let window = area(tile);
    if is_over(it, window) {
        return paint_over(item, it, tile, bytes);
    }
    match it.tones {
        ItemChannels::Even(tones) if is_in(it.area, window) => {
            fill_over(item, it, tones, tile, bytes)
        }
        _ => paint_on_black(item, it, tile, bytes),
    }
}

/// Draws items on a tile, from black.
pub fn draw(items: &[DrawItem], list: &[PreparedItem], tile: Tile, bytes: &mut [u8])
    requires items { All IsDrawable items.now }
    requires prepared { ArePrepared items.now list.now }
    requires tile { IsTile tile }
    requires size { length bytes.old ≡ 3 * pixels_of tile }
    ensures { (m : ℕ) → m < length bytes.old → slice_index bytes.new m
        ≡ drawn_in tile items.now m }
{
    if items.is_empty() {
        return blacken_all(bytes);
    }
    let window = area(tile);
    let first = first_seen(items, window);
    begin(&items[first], &list[first], tile, bytes);
    paint_all(&items[first + 1..], tile, window, bytes);
}

/// Draws the items with some numbers, in the order of these, on a tile, from black.
pub fn draw_chosen(
    items: &[DrawItem],
    list: &[PreparedItem],
    places: &[usize],
    tile: Tile,
    bytes: &mut [u8],
)
    requires items { All IsDrawable items.now }
    requires prepared { ArePrepared items.now list.now }
    requires places { All (λ p. p < length items.now) places.now }
    requires tile { IsTile tile }
    requires size { length bytes.old ≡ 3 * pixels_of tile }
    ensures { (m : ℕ) → m < length bytes.old → slice_index bytes.new m
        ≡ drawn_in tile (chosen items.now places.now) m }
{
    if places.is_empty() {
        return blacken_all(bytes);
    }
    let window = area(tile);
    let first = first_chosen(list, places, window);
    begin(&items[places[first]], &list[places[first]], tile, bytes);
    paint_chosen(items, list, &places[first + 1..], tile, window, bytes);
}
