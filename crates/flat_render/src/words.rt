ghost use Rattle.std.specs.Prelude.{◌≡◌, ◌<◌, ◌≤◌, ℕ, [], ◌∷◌, length, slice_index};
ghost use Rattle.flat_render.specs.Pictures.{width_of, height_of, pixel_of};
ghost use Rattle.flat_render.specs.Words.{xrgb};

use crate::picture::Picture;
use crate::tile_grid::{run_start, size_of_tiles};

/// The word of a colour.
fn word(red: u8, green: u8, blue: u8) -> u32
    ensures { result ≡ xrgb (red ∷ green ∷ blue ∷ []) }
{
    65_536 * red as u32 + 256 * green as u32 + blue as u32
}

/// Writes the words of pixels side by side, whose channels stand in three lines.
fn write_run(reds: &[u8], greens: &[u8], blues: &[u8], line: &mut [u32])
    requires reds { length line.old ≤ length reds.now }
    requires greens { length line.old ≤ length greens.now }
    requires blues { length line.old ≤ length blues.now }
    ensures { (i : ℕ) → i < length line.old → slice_index line.new i
        ≡ xrgb (slice_index reds.now i ∷ slice_index greens.now i ∷ slice_index blues.now i ∷ []) }
{
    for i in 0..line.len() {
        line[i] = word(reds[i], greens[i], blues[i]);
    }
}

/// Writes the words of a row to the front of a line, tile by tile.
pub fn write_words(picture: &Picture, y: u32, line: &mut [u32])
    requires y { y < height_of picture.now }
    requires room { width_of picture.now ≤ length line.old }
    ensures pixels { (x : ℕ) → x < width_of picture.now → slice_index line.new x
        ≡ xrgb (pixel_of picture.now x y) }
    ensures rest { (x : ℕ) → width_of picture.now ≤ x → slice_index line.new x
        ≡ slice_index line.old x }
{
    let grid = &picture.grid;
    let size = size_of_tiles(grid);
    for n in 0..grid.across {
        let bytes = picture.bytes.as_slice();
        let from = (n * grid.tile_w).min(grid.width);
        let upto = ((n + 1) * grid.tile_w).min(grid.width);
        let first = run_start(grid, n, y as usize);
        let part = &mut line[from..upto];
        write_run(
            &bytes[first..],
            &bytes[first + size..],
            &bytes[first + 2 * size..],
            part,
        );
    }
}
