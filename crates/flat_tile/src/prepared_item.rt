ghost use Rattle.std.specs.Prelude.{◌≡◌, ◌<◌, ◌≤◌, All, IfOk, IsTrue, false, slice_index};
ghost use Rattle.std.specs.Thread.{IsSync};
ghost use Rattle.flat_drawable.specs.Drawable.{IsDrawable, IsSample};
ghost use Rattle.flat_ink.specs.Areas.{IsWindow};
ghost use Rattle.flat_ink.specs.Colours.{red_at, green_at, blue_at};
ghost use Rattle.flat_ink.specs.Inks.{mix_of};
ghost use Rattle.flat_ink.specs.Pixels.{buffer_column, buffer_row};
ghost use Rattle.flat_tile.specs.Preparing.{ArePrepared, AreTonesOf, IsAreaOf, IsOver, IsPrepared};
ghost use Rattle.flat_ink.specs.Textures.{rises_across, rises_down, IsBelow, IsTextureOf};

use flat_base::NoMemory;
use flat_ink::area::{Area, area_of, is_in, is_window};
use flat_ink::channel_ink::{BlendRule, mix_for, tone_of};
use flat_ink::colour::{blue, green, red};
use flat_ink::texture::{Texture, column, is_plain, rises, row, sinks, texture_of};
use flat_scene::{DrawItem, Paint};
use std::alloc::Global;
use std::thread::{Threads, join};

/// What an item gives its pixels, as far as it is the same on all tiles. It takes less room
/// than the item does, where it is read again and again.
#[derive(Clone, Copy)]
pub struct PreparedItem {
    /// The pixels that the item covers.
    pub area: Area,
    pub mix: BlendRule,
    pub tones: ItemChannels,
}

/// The channels of an item, as they are mixed with what is there.
#[derive(Clone, Copy)]
pub enum ItemChannels {
    /// Those of a fill: each is the same everywhere.
    Even([u8; 3]),
    Stepped(ChannelRamps),
    /// Those of any other image: they are read from the item.
    Sampled,
}

/// The channels of an image in its own size that isn't turned: those of its first pixel, and
/// how they grow from there.
#[derive(Clone, Copy)]
pub struct ChannelRamps {
    pub red: u8,
    /// Whether the columns of the buffer rise from pixel to pixel.
    pub rises: bool,
    pub green: u8,
    /// Whether its rows rise.
    pub sinks: bool,
    pub blue: u8,
}

/// The steps of a texture in an area that has a pixel.
fn steps_of(texture: &Texture, area: Area) -> ChannelRamps
    requires sample { IsSample texture.now.sample }
    requires straight { texture.now.swap ≡ false }
    requires below { IsBelow texture.now area }
    requires some { IsWindow area }
    ensures red { result.red ≡ red_at texture.now.index (buffer_column texture.now.columns
        texture.now.sample texture.now.flip area.x0) }
    ensures rises { result.rises ≡ rises_across texture.now.columns texture.now.flip }
    ensures green { result.green ≡ green_at (buffer_row texture.now.rows texture.now.sample
        texture.now.flip area.y0) }
    ensures sinks { result.sinks ≡ rises_down texture.now.rows texture.now.flip }
    ensures blue { result.blue ≡ blue_at texture.now.buffers }
{
    let column = column(texture.columns, texture.sample, texture.flip, area.x0);
    let row = row(texture.rows, texture.sample, texture.flip, area.y0);
    ChannelRamps {
        red: red(texture.index, column),
        rises: rises(texture.columns, texture.flip),
        green: green(row),
        sinks: sinks(texture.rows, texture.flip),
        blue: blue(texture.buffers),
    }
}

/// The tones of an image whose item covers an area.
fn tones_of_image(item: &DrawItem, texture: &Texture, area: Area) -> ItemChannels
    requires item { IsDrawable item.now }
    requires texture { IsTextureOf item.now texture.now }
    requires area { IsAreaOf item.now area }
    ensures { AreTonesOf item.now (mix_of item.now.blend item.now.opacity 255) area result }
{
    if !is_window(area) {
        return ItemChannels::Sampled;
    }
    if !is_plain(texture) {
        return ItemChannels::Sampled;
    }
    ItemChannels::Stepped(steps_of(texture, area))
}

/// The tones of a fill.
fn tones_of_fill(item: &DrawItem, rgba: [u8; 4], area: Area) -> ItemChannels
    requires item { IsDrawable item.now }
    requires fill { item.now.paint ≡ Paint.Fill rgba }
    ensures { AreTonesOf item.now (mix_of item.now.blend item.now.opacity (slice_index rgba 3)) area
        result }
{
    ItemChannels::Even([
        tone_of(item.blend, item.opacity, rgba[0]),
        tone_of(item.blend, item.opacity, rgba[1]),
        tone_of(item.blend, item.opacity, rgba[2]),
    ])
}

fn prepare(item: &DrawItem) -> PreparedItem
    requires { IsDrawable item.now }
    ensures { IsPrepared item.now result }
{
    let area = area_of(item.visible);
    match item.paint {
        Paint::Fill { rgba } => PreparedItem {
            area,
            mix: mix_for(item.blend, item.opacity, rgba[3]),
            tones: tones_of_fill(item, rgba, area),
        },
        Paint::Image {
            buffers,
            index,
            sample,
            flip,
        } => {
            let texture = texture_of(item, buffers, index, sample, flip);
            PreparedItem {
                area,
                mix: mix_for(item.blend, item.opacity, u8::MAX),
                tones: tones_of_image(item, &texture, area),
            }
        }
    }
}

/// So many items are prepared sooner by one thread than by several.
const ITEMS_FOR_ONE_THREAD: usize = 2048;

/// Prepares items, each for itself.
fn prepare_each(alloc: Global, items: &[DrawItem]) -> Result<Vec<PreparedItem>, NoMemory>
    requires { All IsDrawable items.now }
    ensures { IfOk result (λ list. ArePrepared items.now list.items) }
{
    let mut list = Vec::with_capacity(alloc, items.len())?;
    for item in items {
        list.push(prepare(item))?;
    }
    Ok(list)
}

/// How many of some items one of so many threads prepares.
fn share_of(items: usize, threads: usize) -> usize
    requires { 0 < threads }
    ensures { result ≤ items }
{
    items / threads
}

/// Prepares items, each for itself, in at most so many threads.
#[cycle(preparing)]
#[tactic(auto, using(crate::proofs::lemmas::PreparedLists::prepared_joined))]
pub fn prepare_all<R: Threads + Sync>(
    rt: &R,
    alloc: Global,
    items: &[DrawItem],
    threads: usize,
) -> Result<Vec<PreparedItem>, NoMemory>
    requires { All IsDrawable items.now }
    ensures { IfOk result (λ list. ArePrepared items.now list.items) }
{
    if threads <= 1 || items.len() <= ITEMS_FOR_ONE_THREAD {
        return prepare_each(alloc, items);
    }
    let (low, high) = (1, threads - 1);
    let (front, back) = items.split_at(share_of(items.len(), threads));
    let first = || -> Result<Vec<PreparedItem>, NoMemory>
        requires { IsSync R.row × All IsDrawable front.now }
        ensures { IfOk result (λ list. ArePrepared front.entry.now list.items) }
    { prepare_all(rt, alloc, front, low) };
    let second = || -> Result<Vec<PreparedItem>, NoMemory>
        requires { IsSync R.row × All IsDrawable back.now }
        ensures { IfOk result (λ list. ArePrepared back.entry.now list.items) }
    { prepare_all(rt, alloc, back, high) };
    let (some, more) = join(rt, first, second);
    let mut list = some?;
    let mut rest = more?;
    list.append(&mut rest)?;
    Ok(list)
}

/// Whether an item leaves nothing of what is below it in a window.
pub fn is_over(it: &PreparedItem, window: Area) -> bool
    ensures { IsTrue result → IsOver it.now window }
{
    match it.mix {
        BlendRule::Replace => is_in(it.area, window),
        BlendRule::Cover(_) => false,
    }
}
