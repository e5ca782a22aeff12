ghost use Rattle.std.specs.Prelude.{◌≡◌, ◌+◌, ◌*◌, ◌<◌, ◌≤◌, ◌^◌};
ghost use Rattle.flat_render.specs.Grids.{tile_of, tile_count, tile_size, tile_bytes, band_bytes};
ghost use Rattle.flat_render.specs.Grids.{grid_bytes, place_of, run_of, IsGrid};
ghost use Rattle.flat_render.specs.Rows.{band_of};
ghost use Rattle.flat_tile.specs.Tiles.{IsTile};

use flat_ink::channel_ink::TILE_SIDE;
use flat_tile::tile::{CHANNELS, Tile};

/// How a picture is cut into tiles. They are 64 pixels wide, or as wide as the picture if that
/// is less, and at most 64 high; the last ones may go beyond the picture.
#[derive(Clone, Copy)]
pub struct TileGrid {
    /// The picture's own sides.
    pub width: usize,
    pub height: usize,
    pub tile_w: usize,
    pub tile_h: usize,
    /// How many tiles stand side by side, and one below another.
    pub across: usize,
    pub down: usize,
}

/// The most pixels of a picture.
pub const PIXELS_MAX: u32 = 4_194_304;

/// How high the tiles of a picture are, if the number of its rows of tiles is to be a multiple
/// of a step.
fn tile_height(height: usize, step: usize) -> usize
    requires height { 0 < height }
    requires not_high { height < 2 ^ 32 }
    requires step { 0 < step }
    requires small { step ≤ 64 }
    ensures some { 0 < result }
    ensures low { result ≤ 64 }
    ensures within { result ≤ height }
{
    let rows = height.div_ceil(TILE_SIDE).div_ceil(step) * step;
    height.div_ceil(rows).clamp(1, height.min(TILE_SIDE))
}

/// The grid of a picture. The number of its rows of tiles is a multiple of a step, if the
/// picture is high enough.
pub fn grid_for(width: u32, height: u32, step: usize) -> TileGrid
    requires width { 0 < width }
    requires height { 0 < height }
    requires size { width * height ≤ PIXELS_MAX }
    requires step { 0 < step }
    requires small { step ≤ 64 }
    ensures grid { IsGrid result }
    ensures width { result.width ≡ width }
    ensures height { result.height ≡ height }
{
    let (width, height) = (width as usize, height as usize);
    let (tile_w, tile_h) = (width.min(TILE_SIDE), tile_height(height, step));
    TileGrid {
        width,
        height,
        tile_w,
        tile_h,
        across: width.div_ceil(tile_w),
        down: height.div_ceil(tile_h),
    }
}

/// How many pixels a tile has.
pub fn size_of_tiles(grid: &TileGrid) -> usize
    requires { IsGrid grid.now }
    ensures { result ≡ tile_size grid.now }
{
    grid.tile_w * grid.tile_h
}

/// How many bytes a tile has.
pub fn bytes_of_tiles(grid: &TileGrid) -> usize
    requires { IsGrid grid.now }
    ensures { result ≡ tile_bytes grid.now }
{
    CHANNELS * size_of_tiles(grid)
}

/// How many bytes a row of tiles has.
pub fn bytes_of_bands(grid: &TileGrid) -> usize
    requires { IsGrid grid.now }
    ensures { result ≡ band_bytes grid.now }
{
    grid.across * bytes_of_tiles(grid)
}

/// How many tiles there are.
pub fn count_of_tiles(grid: &TileGrid) -> usize
    requires { IsGrid grid.now }
    ensures { result ≡ tile_count grid.now }
{
    grid.across * grid.down
}

/// How many bytes are stored.
pub fn stored(grid: &TileGrid) -> usize
    requires { IsGrid grid.now }
    ensures { result ≡ grid_bytes grid.now }
{
    count_of_tiles(grid) * bytes_of_tiles(grid)
}

/// The n-th tile, row by row.
pub fn tile(grid: &TileGrid, n: usize) -> Tile
    requires grid { IsGrid grid.now }
    requires there { n < tile_count grid.now }
    ensures value { result ≡ tile_of grid.now n }
    ensures tile { IsTile result }
{
    Tile {
        left: n % grid.across * grid.tile_w,
        top: n / grid.across * grid.tile_h,
        width: grid.tile_w,
        height: grid.tile_h,
    }
}

/// The n-th row of tiles as a grid of its own, as high as the picture has pixels there.
pub fn band_grid(grid: &TileGrid, n: usize) -> TileGrid
    requires grid { IsGrid grid.now }
    requires there { n < grid.now.down }
    ensures value { result ≡ band_of grid.now n }
    ensures grid { IsGrid result }
{
    TileGrid {
        width: grid.width,
        height: grid.height.saturating_sub(n * grid.tile_h).min(grid.tile_h),
        tile_w: grid.tile_w,
        tile_h: grid.tile_h,
        across: grid.across,
        down: 1,
    }
}

/// Where the red of the first pixel of the n-th tile from the left is stored, on a
/// row of the picture. The tile's next pixels on that row follow.
pub fn run_start(grid: &TileGrid, n: usize, py: usize) -> usize
    requires grid { IsGrid grid.now }
    requires column { n < grid.now.across }
    requires row { py < grid.now.height }
    ensures value { result ≡ run_of grid.now n py }
    ensures there { result + 2 * tile_size grid.now + grid.now.tile_w ≤ grid_bytes grid.now }
{
    let tile = py / grid.tile_h * grid.across + n;
    tile * bytes_of_tiles(grid) + py % grid.tile_h * grid.tile_w
}

/// Where a channel of a pixel is stored.
pub fn place(grid: &TileGrid, c: usize, px: usize, py: usize) -> usize
    requires grid { IsGrid grid.now }
    requires channel { c < 3 }
    requires x { px < grid.now.width }
    requires y { py < grid.now.height }
    ensures value { result ≡ place_of grid.now c px py }
    ensures there { result < grid_bytes grid.now }
{
    let n = py / grid.tile_h * grid.across + px / grid.tile_w;
    let k = py % grid.tile_h * grid.tile_w + px % grid.tile_w;
    n * bytes_of_tiles(grid) + (c * size_of_tiles(grid) + k)
}
