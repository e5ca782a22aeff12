ghost use Rattle.std.specs.Prelude.{◌≡◌, ◌*◌, ◌<◌, ◌≤◌, ◌-◌, ℕ, length, slice_index, if◌then◌else◌};
ghost use Rattle.flat_ink.specs.Areas.{has_pixel, IsInArea, IsWindow};
ghost use Rattle.flat_ink.specs.Colours.{covered};
ghost use Rattle.flat_ink.specs.Inks.{inked, mixed, IsShade};
ghost use Rattle.flat_tile.specs.Tiles.{x_of, y_of, pixels_of, tile_area, IsTile};

use crate::tile::Tile;
use flat_ink::area::Area;
use flat_ink::channel_ink::{
    BlendRule, ChannelInk, ChannelValues, TILE_SIDE, copy_ends, mix_one, veil, wash_ends, weave,
};

/// Puts one value in place of the pixels of an area, in a plane: so many at each end of each
/// row, which are all of its pixels. The compiler knows how many they are.
#[inline(always)]
fn wash_rows_by(s: u8, count: usize, tile: Tile, cut: Area, plane: &mut [u8])
    requires few { count ≤ cut.x1 - cut.x0 }
    requires many { cut.x1 - cut.x0 ≤ 2 * count }
    requires tile { IsTile tile }
    requires size { length plane.old ≡ pixels_of tile }
    requires cut { IsInArea (tile_area tile) cut }
    requires some { IsWindow cut }
    ensures { (k : ℕ) → k < length plane.old → slice_index plane.new k
        ≡ (if has_pixel cut (x_of tile k) (y_of tile k) then s else slice_index plane.old k) }
{
    for py in cut.y0..cut.y1 {
        let row = (py - tile.top) * tile.width;
        let line = &mut plane[row + (cut.x0 - tile.left)..row + (cut.x1 - tile.left)];
        wash_ends(s, count, line);
    }
}

/// Puts one value in place of the pixels of an area, in a plane.
fn wash_rows(s: u8, tile: Tile, cut: Area, plane: &mut [u8])
    requires tile { IsTile tile }
    requires size { length plane.old ≡ pixels_of tile }
    requires cut { IsInArea (tile_area tile) cut }
    requires some { IsWindow cut }
    ensures { (k : ℕ) → k < length plane.old → slice_index plane.new k
        ≡ (if has_pixel cut (x_of tile k) (y_of tile k) then s else slice_index plane.old k) }
{
    let width = cut.x1 - cut.x0;
    if width >= TILE_SIDE / 2 {
        return wash_rows_by(s, TILE_SIDE / 2, tile, cut, plane);
    }
    if width >= TILE_SIDE / 4 {
        return wash_rows_by(s, TILE_SIDE / 4, tile, cut, plane);
    }
    if width >= TILE_SIDE / 8 {
        return wash_rows_by(s, TILE_SIDE / 8, tile, cut, plane);
    }
    if width >= TILE_SIDE / 16 {
        return wash_rows_by(s, TILE_SIDE / 16, tile, cut, plane);
    }
    if width >= TILE_SIDE / 32 {
        return wash_rows_by(s, TILE_SIDE / 32, tile, cut, plane);
    }
    wash_rows_by(s, TILE_SIDE / 64, tile, cut, plane);
}

/// Puts a value for each column in place of the pixels of an area, in a plane: so many at
/// each end of each row.
#[inline(always)]
fn copy_rows_by(values: &[u8], count: usize, tile: Tile, cut: Area, plane: &mut [u8])
    requires values { cut.x1 - cut.x0 ≤ length values.now }
    requires few { count ≤ cut.x1 - cut.x0 }
    requires many { cut.x1 - cut.x0 ≤ 2 * count }
    requires tile { IsTile tile }
    requires size { length plane.old ≡ pixels_of tile }
    requires cut { IsInArea (tile_area tile) cut }
    requires some { IsWindow cut }
    ensures { (k : ℕ) → k < length plane.old → slice_index plane.new k
        ≡ (if has_pixel cut (x_of tile k) (y_of tile k) then slice_index values.now
        (x_of tile k - cut.x0) else slice_index plane.old k) }
{
    for py in cut.y0..cut.y1 {
        let row = (py - tile.top) * tile.width;
        let line = &mut plane[row + (cut.x0 - tile.left)..row + (cut.x1 - tile.left)];
        copy_ends(values, count, line);
    }
}

/// Puts a value for each column in place of the pixels of an area, in a plane.
fn copy_rows(values: &[u8], tile: Tile, cut: Area, plane: &mut [u8])
    requires values { cut.x1 - cut.x0 ≤ length values.now }
    requires tile { IsTile tile }
    requires size { length plane.old ≡ pixels_of tile }
    requires cut { IsInArea (tile_area tile) cut }
    requires some { IsWindow cut }
    ensures { (k : ℕ) → k < length plane.old → slice_index plane.new k
        ≡ (if has_pixel cut (x_of tile k) (y_of tile k) then slice_index values.now
        (x_of tile k - cut.x0) else slice_index plane.old k) }
{
    let width = cut.x1 - cut.x0;
    if width >= TILE_SIDE / 2 {
        return copy_rows_by(values, TILE_SIDE / 2, tile, cut, plane);
    }
    if width >= TILE_SIDE / 4 {
        return copy_rows_by(values, TILE_SIDE / 4, tile, cut, plane);
    }
    if width >= TILE_SIDE / 8 {
        return copy_rows_by(values, TILE_SIDE / 8, tile, cut, plane);
    }
    if width >= TILE_SIDE / 16 {
        return copy_rows_by(values, TILE_SIDE / 16, tile, cut, plane);
    }
    if width >= TILE_SIDE / 32 {
        return copy_rows_by(values, TILE_SIDE / 32, tile, cut, plane);
    }
    copy_rows_by(values, TILE_SIDE / 64, tile, cut, plane);
}

/// Puts a value for each row in place of the pixels of an area, in a plane: so often at each
/// end of the row.
#[inline(always)]
fn wash_down_by(values: &[u8], count: usize, tile: Tile, cut: Area, plane: &mut [u8])
    requires values { cut.y1 - cut.y0 ≤ length values.now }
    requires few { count ≤ cut.x1 - cut.x0 }
    requires many { cut.x1 - cut.x0 ≤ 2 * count }
    requires tile { IsTile tile }
    requires size { length plane.old ≡ pixels_of tile }
    requires cut { IsInArea (tile_area tile) cut }
    requires some { IsWindow cut }
    ensures { (k : ℕ) → k < length plane.old → slice_index plane.new k
        ≡ (if has_pixel cut (x_of tile k) (y_of tile k) then slice_index values.now
        (y_of tile k - cut.y0) else slice_index plane.old k) }
{
    for py in cut.y0..cut.y1 {
        let row = (py - tile.top) * tile.width;
        let line = &mut plane[row + (cut.x0 - tile.left)..row + (cut.x1 - tile.left)];
        wash_ends(values[py - cut.y0], count, line);
    }
}

/// Puts a value for each row in place of the pixels of an area, in a plane.
fn wash_down(values: &[u8], tile: Tile, cut: Area, plane: &mut [u8])
    requires values { cut.y1 - cut.y0 ≤ length values.now }
    requires tile { IsTile tile }
    requires size { length plane.old ≡ pixels_of tile }
    requires cut { IsInArea (tile_area tile) cut }
    requires some { IsWindow cut }
    ensures { (k : ℕ) → k < length plane.old → slice_index plane.new k
        ≡ (if has_pixel cut (x_of tile k) (y_of tile k) then slice_index values.now
        (y_of tile k - cut.y0) else slice_index plane.old k) }
{
    let width = cut.x1 - cut.x0;
    if width >= TILE_SIDE / 2 {
        return wash_down_by(values, TILE_SIDE / 2, tile, cut, plane);
    }
    if width >= TILE_SIDE / 4 {
        return wash_down_by(values, TILE_SIDE / 4, tile, cut, plane);
    }
    if width >= TILE_SIDE / 8 {
        return wash_down_by(values, TILE_SIDE / 8, tile, cut, plane);
    }
    if width >= TILE_SIDE / 16 {
        return wash_down_by(values, TILE_SIDE / 16, tile, cut, plane);
    }
    if width >= TILE_SIDE / 32 {
        return wash_down_by(values, TILE_SIDE / 32, tile, cut, plane);
    }
    wash_down_by(values, TILE_SIDE / 64, tile, cut, plane);
}

/// Mixes one value with the pixels of an area, in a plane, row by row, weighted so.
fn veil_rows(weight: u8, s: u8, tile: Tile, cut: Area, plane: &mut [u8])
    requires tile { IsTile tile }
    requires size { length plane.old ≡ pixels_of tile }
    requires cut { IsInArea (tile_area tile) cut }
    requires some { IsWindow cut }
    ensures { (k : ℕ) → k < length plane.old → slice_index plane.new k
        ≡ (if has_pixel cut (x_of tile k) (y_of tile k) then covered weight s
        (slice_index plane.old k) else slice_index plane.old k) }
{
    for py in cut.y0..cut.y1 {
        let row = (py - tile.top) * tile.width;
        let line = &mut plane[row + (cut.x0 - tile.left)..row + (cut.x1 - tile.left)];
        veil(weight, s, line);
    }
}

/// Mixes one value with the pixels of an area, in a plane. Where the area is as wide
/// as the tile, its rows are one line.
pub fn mix_plane(mix: BlendRule, s: u8, tile: Tile, cut: Area, plane: &mut [u8])
    requires tile { IsTile tile }
    requires size { length plane.old ≡ pixels_of tile }
    requires cut { IsInArea (tile_area tile) cut }
    requires some { IsWindow cut }
    ensures { (k : ℕ) → k < length plane.old → slice_index plane.new k
        ≡ (if has_pixel cut (x_of tile k) (y_of tile k) then mixed mix s (slice_index plane.old k)
        else slice_index plane.old k) }
{
    if cut.x1 - cut.x0 < tile.width {
        return match mix {
            BlendRule::Replace => wash_rows(s, tile, cut, plane),
            BlendRule::Cover(weight) => veil_rows(weight, s, tile, cut, plane),
        };
    }
    let from = (cut.y0 - tile.top) * tile.width;
    let upto = (cut.y1 - tile.top) * tile.width;
    let lines = &mut plane[from..upto];
    mix_one(mix, s, lines);
}

/// Mixes a value for each column with the pixels of an area, in a plane, weighted so.
fn weave_rows(weight: u8, values: &[u8], tile: Tile, cut: Area, plane: &mut [u8])
    requires values { cut.x1 - cut.x0 ≤ length values.now }
    requires tile { IsTile tile }
    requires size { length plane.old ≡ pixels_of tile }
    requires cut { IsInArea (tile_area tile) cut }
    requires some { IsWindow cut }
    ensures { (k : ℕ) → k < length plane.old → slice_index plane.new k
        ≡ (if has_pixel cut (x_of tile k) (y_of tile k) then covered weight
        (slice_index values.now (x_of tile k - cut.x0)) (slice_index plane.old k) else slice_index
        plane.old k) }
{
    for py in cut.y0..cut.y1 {
        let row = (py - tile.top) * tile.width;
        let line = &mut plane[row + (cut.x0 - tile.left)..row + (cut.x1 - tile.left)];
        weave(weight, values, line);
    }
}

/// Mixes a value for each row with the pixels of an area, in a plane, weighted so.
fn veil_down(weight: u8, values: &[u8], tile: Tile, cut: Area, plane: &mut [u8])
    requires values { cut.y1 - cut.y0 ≤ length values.now }
    requires tile { IsTile tile }
    requires size { length plane.old ≡ pixels_of tile }
    requires cut { IsInArea (tile_area tile) cut }
    requires some { IsWindow cut }
    ensures { (k : ℕ) → k < length plane.old → slice_index plane.new k
        ≡ (if has_pixel cut (x_of tile k) (y_of tile k) then covered weight
        (slice_index values.now (y_of tile k - cut.y0)) (slice_index plane.old k) else slice_index
        plane.old k) }
{
    for py in cut.y0..cut.y1 {
        let row = (py - tile.top) * tile.width;
        let line = &mut plane[row + (cut.x0 - tile.left)..row + (cut.x1 - tile.left)];
        veil(weight, values[py - cut.y0], line);
    }
}

/// Mixes a value for each column with the pixels of an area, in a plane.
pub fn mix_across(mix: BlendRule, values: &[u8], tile: Tile, cut: Area, plane: &mut [u8])
    requires values { cut.x1 - cut.x0 ≤ length values.now }
    requires tile { IsTile tile }
    requires size { length plane.old ≡ pixels_of tile }
    requires cut { IsInArea (tile_area tile) cut }
    requires some { IsWindow cut }
    ensures { (k : ℕ) → k < length plane.old → slice_index plane.new k
        ≡ (if has_pixel cut (x_of tile k) (y_of tile k) then mixed mix
        (slice_index values.now (x_of tile k - cut.x0)) (slice_index plane.old k) else slice_index
        plane.old k) }
{
    match mix {
        BlendRule::Replace => copy_rows(values, tile, cut, plane),
        BlendRule::Cover(weight) => weave_rows(weight, values, tile, cut, plane),
    }
}

/// Mixes a value for each row with the pixels of an area, in a plane.
pub fn mix_down(mix: BlendRule, values: &[u8], tile: Tile, cut: Area, plane: &mut [u8])
    requires values { cut.y1 - cut.y0 ≤ length values.now }
    requires tile { IsTile tile }
    requires size { length plane.old ≡ pixels_of tile }
    requires cut { IsInArea (tile_area tile) cut }
    requires some { IsWindow cut }
    ensures { (k : ℕ) → k < length plane.old → slice_index plane.new k
        ≡ (if has_pixel cut (x_of tile k) (y_of tile k) then mixed mix
        (slice_index values.now (y_of tile k - cut.y0)) (slice_index plane.old k) else slice_index
        plane.old k) }
{
    match mix {
        BlendRule::Replace => wash_down(values, tile, cut, plane),
        BlendRule::Cover(weight) => veil_down(weight, values, tile, cut, plane),
    }
}

/// Lays ink on the pixels of an area, in a plane.
pub fn lay_plane(ink: &ChannelInk, tile: Tile, cut: Area, plane: &mut [u8])
    requires ink { IsShade ink.now.shade }
    requires tile { IsTile tile }
    requires size { length plane.old ≡ pixels_of tile }
    requires cut { IsInArea (tile_area tile) cut }
    requires some { IsWindow cut }
    ensures { (k : ℕ) → k < length plane.old → slice_index plane.new k
        ≡ (if has_pixel cut (x_of tile k) (y_of tile k) then inked ink.now
        (x_of tile k - cut.x0) (y_of tile k - cut.y0) (slice_index plane.old k) else slice_index
        plane.old k) }
{
    match &ink.shade {
        ChannelValues::Even(value) => mix_plane(ink.mix, *value, tile, cut, plane),
        ChannelValues::Across(values) => mix_across(ink.mix, values.as_slice(), tile, cut, plane),
        ChannelValues::Down(values) => mix_down(ink.mix, values.as_slice(), tile, cut, plane),
    }
}
