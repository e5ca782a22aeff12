ghost use Rattle.std.specs.Prelude.{◌≡◌, ◌<◌, ◌≤◌, ℕ, All, if◌then◌else◌};
ghost use Rattle.std.specs.Prelude.{length, slice_index, vec_len};
ghost use Rattle.flat_render.specs.Grids.{grid_bytes, IsGrid};

use crate::drawing::redraw_rects;
use crate::tile_grid::{TileGrid, place};
use crate::words::write_words;
use flat_scene::{ItemList, RectList};

/// The picture of a draw list: a colour for each pixel of a display.
///
/// It is kept tile by tile, so that tiles can be drawn side by side, and of each
/// tile channel by channel.
#[derive(Drop)]
pub struct Picture {
    pub(crate) grid: TileGrid,
    pub(crate) bytes: Vec<u8>,
    ghost sides: { IsGrid grid },
    ghost filled: { vec_len bytes ≡ grid_bytes grid },
}

impl Picture {
    ghost use Rattle.flat_render.specs.Damaged.{is_in_any};
    ghost use Rattle.flat_drawable.specs.Drawable.{IsDrawable};
    ghost use Rattle.flat_ink.specs.Pixels.{pixel};
    ghost use Rattle.flat_render.specs.Words.{xrgb};
    ghost use Rattle.flat_render.specs.Pictures.{width_of, height_of, channel_of, pixel_of};

    /// The width in pixels.
    pub fn width(&self) -> u32
        ensures { result ≡ width_of self.now }
    {
        self.grid.width as u32
    }

    /// The height in pixels.
    pub fn height(&self) -> u32
        ensures { result ≡ height_of self.now }
    {
        self.grid.height as u32
    }

    fn channel(&self, c: usize, x: u32, y: u32) -> u8
        requires channel { c < 3 }
        requires x { x < width_of self.now }
        requires y { y < height_of self.now }
        ensures { result ≡ channel_of self.now c x y }
    {
        self.bytes[place(&self.grid, c, x as usize, y as usize)]
    }

    /// The colour of a pixel: red, green, blue.
    pub fn pixel(&self, x: u32, y: u32) -> [u8; 3]
        requires x { x < width_of self.now }
        requires y { y < height_of self.now }
        ensures { result ≡ pixel_of self.now x y }
    {
        [
            self.channel(0, x, y),
            self.channel(1, x, y),
            self.channel(2, x, y),
        ]
    }

    /// Writes a row to the front of a line, as a display driver wants it: each pixel is a word
    /// of 32 bits, which in hexadecimal is `00RRGGBB`. The rest of the line stays, so whoever
    /// has a buffer with a stride gives its line from that row's start.
    pub fn write_row(&self, y: u32, line: &mut [u32])
        requires y { y < height_of self.now }
        requires room { width_of self.now ≤ length line.old }
        ensures pixels { (x : ℕ) → x < width_of self.now → slice_index line.new x
            ≡ xrgb (pixel_of self.now x y) }
        ensures rest { (x : ℕ) → width_of self.now ≤ x → slice_index line.new x
            ≡ slice_index line.old x }
    {
        write_words(self, y, line);
    }

    /// Draws anew the pixels whose centre is in any of some rectangles, by that
    /// draw list. The others stay. It takes no memory.
    pub fn repaint(&mut self, items: &ItemList, rects: &RectList)
        requires { All IsDrawable items.now }
        ensures width { width_of self.new ≡ width_of self.old }
        ensures height { height_of self.new ≡ height_of self.old }
        ensures pixels { (x y : ℕ) → x < width_of self.old → y < height_of self.old →
            pixel_of self.new x y ≡ (if is_in_any rects.now x y then pixel items.now x y else
            pixel_of self.old x y) }
    {
        redraw_rects(
            items.as_slice(),
            &self.grid,
            rects.as_slice(),
            self.bytes.as_mut_slice(),
        );
    }
}
