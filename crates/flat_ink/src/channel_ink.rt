ghost use Rattle.std.specs.Prelude.{◌≡◌, ◌*◌, ◌<◌, ◌≤◌, ℕ, length, slice_index};
ghost use Rattle.flat_ink.specs.Colours.{covered};
ghost use Rattle.flat_ink.specs.Inks.{mix_of, mixed, tone};

use crate::colour::{cover, replace, weight_of};
use flat_base::OPACITY_MAX;
use flat_scene::BlendMode;

/// The sides of tiles, where the picture has no smaller ones.
pub const TILE_SIDE: usize = 64;

/// What is laid on one channel of an area of pixels.
#[derive(Clone, Copy)]
pub struct ChannelInk {
    pub shade: ChannelValues,
    pub mix: BlendRule,
}

/// The values of one channel in an area that lies in a tile.
#[derive(Clone, Copy)]
pub enum ChannelValues {
    /// One value everywhere.
    Even(u8),
    /// A value for each column.
    Across([u8; TILE_SIDE]),
    /// A value for each row.
    Down([u8; TILE_SIDE]),
}

/// How values are mixed with what is there.
#[derive(Clone, Copy)]
pub enum BlendRule {
    /// In place of it.
    Replace,
    /// Over it, weighted so.
    Cover(u8),
}

/// A channel as it is mixed with what is there.
pub fn tone_of(blend: BlendMode, opacity: u32, s: u8) -> u8
    requires { opacity ≤ OPACITY_MAX }
    ensures { result ≡ tone blend opacity s }
{
    match blend {
        BlendMode::Src => replace(opacity, s),
        BlendMode::SrcOver => s,
    }
}

/// How a colour with that alpha is mixed with what is there.
pub fn mix_for(blend: BlendMode, opacity: u32, alpha: u8) -> BlendRule
    requires { opacity ≤ OPACITY_MAX }
    ensures { result ≡ mix_of blend opacity alpha }
{
    match blend {
        BlendMode::Src => BlendRule::Replace,
        BlendMode::SrcOver => BlendRule::Cover(weight_of(opacity, alpha)),
    }
}

fn wash_all(s: u8, line: &mut [u8])
    ensures { (i : ℕ) → i < length line.old → slice_index line.new i ≡ s }
{
    for i in 0..line.len() {
        line[i] = s;
    }
}

/// Puts one value in place of so many pixels at each end of a line, which are all of
/// its pixels. The compiler knows how many they are, and calls nothing.
#[inline(always)]
pub fn wash_ends(s: u8, count: usize, line: &mut [u8])
    requires some { count ≤ length line.old }
    requires all { length line.old ≤ 2 * count }
    ensures { (i : ℕ) → i < length line.old → slice_index line.new i ≡ s }
{
    for i in 0..count {
        line[i] = s;
    }
    let rest = line.len() - count;
    if rest == 0 {
        return;
    }
    for i in 0..count {
        line[rest + i] = s;
    }
}

/// Mixes one value with a line of pixels, weighted so.
pub fn veil(weight: u8, s: u8, line: &mut [u8])
    ensures { (i : ℕ) → i < length line.old → slice_index line.new i
        ≡ covered weight s (slice_index line.old i) }
{
    for i in 0..line.len() {
        line[i] = cover(weight, s, line[i]);
    }
}

/// Mixes a value for each pixel with a line of them, weighted so.
pub fn weave(weight: u8, values: &[u8], line: &mut [u8])
    requires { length line.old ≤ length values.now }
    ensures { (i : ℕ) → i < length line.old → slice_index line.new i
        ≡ covered weight (slice_index values.now i) (slice_index line.old i) }
{
    for i in 0..line.len() {
        line[i] = cover(weight, values[i], line[i]);
    }
}

/// Mixes one value with a line of pixels.
pub fn mix_one(mix: BlendRule, s: u8, line: &mut [u8])
    ensures { (i : ℕ) → i < length line.old → slice_index line.new i
        ≡ mixed mix s (slice_index line.old i) }
{
    match mix {
        BlendRule::Replace => wash_all(s, line),
        BlendRule::Cover(weight) => veil(weight, s, line),
    }
}

/// Copies so many values to each end of a line, which are all of its pixels. The
/// compiler knows how many they are, and calls nothing.
#[inline(always)]
pub fn copy_ends(values: &[u8], count: usize, line: &mut [u8])
    requires values { length line.old ≤ length values.now }
    requires some { count ≤ length line.old }
    requires all { length line.old ≤ 2 * count }
    ensures { (i : ℕ) → i < length line.old → slice_index line.new i ≡ slice_index values.now i }
{
    for i in 0..count {
        line[i] = values[i];
    }
    let rest = line.len() - count;
    if rest == 0 {
        return;
    }
    for i in 0..count {
        line[rest + i] = values[rest + i];
    }
}
