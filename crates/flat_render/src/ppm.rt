ghost use Rattle.std.specs.Prelude.{◌≡◌, ◌+◌, ◌*◌, ◌<◌, ◌≤◌, ◌++◌, ◌-◌, ℕ, List, [], ◌∷◌, IfOk, OnOk};
ghost use Rattle.std.specs.Prelude.{length, slice_index, take};
ghost use Rattle.std.specs.List.{flat_map, range_with_len};
ghost use Rattle.flat_render.specs.Grids.{band_bytes, grid_bytes, IsGrid};
ghost use Rattle.flat_render.specs.Pictures.{Shows, width_of, height_of, pixel_of};
ghost use Rattle.flat_render.specs.Ppm.{header, row_bytes, ppm_bytes};
ghost use Rattle.flat_render.specs.Rows.{band_of, colour_in, rows_bytes};

use crate::picture::Picture;
use crate::tile_grid::{TileGrid, band_grid, bytes_of_bands, run_start, size_of_tiles};
use flat_base::NoMemory;
use flat_ink::channel_ink::TILE_SIDE;
use flat_tile::tile::CHANNELS;
use std::alloc::Global;

/// The most bytes that the colours of a row of a tile have.
const COLOUR_BYTES: usize = 3 * TILE_SIDE;

/// More bytes than stand before the colours.
const HEAD_BYTES: usize = 64;

/// The text before the colours, with room behind it for so many bytes.
fn start(alloc: Global, w: u32, h: u32, room: usize) -> Result<Vec<u8>, NoMemory>
    ensures { IfOk result (λ out. out.items ≡ header w h) }
{
    let text = format!(in alloc; "P6\n{w} {h}\n255\n")?;
    let mut out = Vec::with_capacity(alloc, room)?;
    out.extend_from_slice(text.as_bytes())?;
    Ok(out)
}

/// The text before the colours of a picture of `w` by `h` pixels, as [`ppm_of`] begins.
pub fn ppm_head(alloc: Global, w: u32, h: u32) -> Result<Vec<u8>, NoMemory>
    ensures { IfOk result (λ out. out.items ≡ header w h) }
{
    start(alloc, w, h, HEAD_BYTES)
}

/// The text before the colours of a picture of `w` by `h` pixels, with room behind it for these.
pub fn start_ppm(alloc: Global, w: u32, h: u32) -> Result<Vec<u8>, NoMemory>
    ensures { IfOk result (λ out. out.items ≡ header w h) }
{
    let room = (w as usize)
        .saturating_mul(h as usize)
        .saturating_mul(CHANNELS);
    start(alloc, w, h, room.saturating_add(HEAD_BYTES))
}

/// Writes the colours of the first `count` pixels to the front of a line, three bytes each.
fn interleave(reds: &[u8], greens: &[u8], blues: &[u8], count: usize, line: &mut [u8; COLOUR_BYTES])
    requires few { count ≤ 64 }
    requires reds { count ≤ length reds.now }
    requires greens { count ≤ length greens.now }
    requires blues { count ≤ length blues.now }
    ensures { take (3 * count) line.new ≡ flat_map (λ i. slice_index reds.now i ∷ slice_index
        greens.now i ∷ slice_index blues.now i ∷ []) (range_with_len 0 count) }
{
    for i in 0..count {
        line[3 * i] = reds[i];
        line[3 * i + 1] = greens[i];
        line[3 * i + 2] = blues[i];
    }
}

/// Appends the colours of so many pixels whose reds stand side by side, and their
/// greens and blues so far behind them.
fn push_run(
    out: &mut Vec<u8>,
    bytes: &[u8],
    first: usize,
    size: usize,
    count: usize,
) -> Result<(), NoMemory>
    requires few { count ≤ 64 }
    requires there { first + 2 * size + count ≤ length bytes.now }
    ensures { OnOk result (out.new.items
        ≡ out.old.items ++ flat_map (λ i. slice_index bytes.now (first + i) ∷ slice_index bytes.now
        (first + size + i) ∷ slice_index bytes.now (first + 2 * size + i) ∷ []) (range_with_len 0
        count)) }
{
    let mut line = [0; COLOUR_BYTES];
    interleave(
        &bytes[first..],
        &bytes[first + size..],
        &bytes[first + 2 * size..],
        count,
        &mut line,
    );
    out.extend_from_slice(&line[..3 * count])?;
    Ok(())
}

/// Appends the colours of a row of what a grid stores, tile by tile.
fn push_row(out: &mut Vec<u8>, grid: &TileGrid, bytes: &[u8], y: usize) -> Result<(), NoMemory>
    requires grid { IsGrid grid.now }
    requires size { length bytes.now ≡ grid_bytes grid.now }
    requires y { y < grid.now.height }
    ensures { OnOk result (out.new.items ≡ out.old.items ++ row_bytes (colour_in grid.now bytes.now)
        grid.now.width y) }
{
    let size = size_of_tiles(grid);
    for n in 0..grid.across {
        let count = grid.width.saturating_sub(n * grid.tile_w).min(grid.tile_w);
        let first = run_start(grid, n, y);
        push_run(out, bytes, first, size, count)?;
    }
    Ok(())
}

/// Appends the colours of a row of tiles, row by row, as far as the picture has them.
pub fn push_band(out: &mut Vec<u8>, grid: &TileGrid, n: usize, band: &[u8]) -> Result<(), NoMemory>
    requires grid { IsGrid grid.now }
    requires there { n < grid.now.down }
    requires size { length band.now ≡ band_bytes grid.now }
    ensures { OnOk result (out.new.items ≡ out.old.items ++ rows_bytes (colour_in (band_of grid.now
        n) band.now) grid.now.width (band_of grid.now n).height) }
{
    let part = band_grid(grid, n);
    for y in 0..part.height {
        push_row(out, &part, band, y)?;
    }
    Ok(())
}

/// Appends the colours of a picture. Each row of tiles is copied before its rows are read, since
/// these lie far apart, and are then in the processor's cache.
fn push_picture(alloc: Global, out: &mut Vec<u8>, picture: &Picture) -> Result<(), NoMemory>
    ensures { OnOk result (out.new.items ≡ out.old.items ++ rows_bytes (pixel_of picture.now)
        (width_of picture.now) (height_of picture.now)) }
{
    let (grid, bytes) = (&picture.grid, picture.bytes.as_slice());
    let size = bytes_of_bands(grid);
    let mut band = vec![in alloc; 0u8; size]?;
    for n in 0..grid.down {
        let start = n * size;
        band.as_mut_slice()
            .copy_from_slice(&bytes[start..start + size]);
        push_band(out, grid, n, band.as_slice())?;
    }
    Ok(())
}

/// The bytes of a picture in the form `P6`: a header with the sides, and three
/// bytes for each pixel, by rows from the top.
pub fn ppm_of(alloc: Global, picture: &Picture) -> Result<Vec<u8>, NoMemory>
    ensures bytes { IfOk result (λ out. out.items
        ≡ ppm_bytes (width_of picture.now) (height_of picture.now) (pixel_of picture.now)) }
    ensures shown { (w h : ℕ) (colour : ℕ → ℕ → List ℕ) → Shows picture.now w h colour →
        IfOk result (λ out. out.items ≡ ppm_bytes w h colour) }
{
    let mut out = start_ppm(alloc, picture.width(), picture.height())?;
    push_picture(alloc, &mut out, picture)?;
    Ok(out)
}

/// The colours of a picture's rows from one up to another, as they stand in [`ppm_of`].
pub fn ppm_rows(alloc: Global, picture: &Picture, from: u32, upto: u32) -> Result<Vec<u8>, NoMemory>
    requires order { from ≤ upto }
    requires there { upto ≤ height_of picture.now }
    ensures { IfOk result (λ out. out.items ≡ rows_bytes (λ x y. pixel_of picture.now x (from + y))
        (width_of picture.now) (upto - from)) }
{
    let rows = (upto - from) as usize;
    let room = rows
        .saturating_mul(picture.grid.width)
        .saturating_mul(CHANNELS);
    let mut out = Vec::with_capacity(alloc, room)?;
    for y in from..upto {
        push_row(
            &mut out,
            &picture.grid,
            picture.bytes.as_slice(),
            y as usize,
        )?;
    }
    Ok(out)
}
