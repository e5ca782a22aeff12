ghost use Rattle.std.specs.Prelude.{◌≡◌, ◌+◌, ◌<◌, ◌≤◌};
ghost use Rattle.flat_drawable.specs.Drawable.{IsDrawable, IsSample};
ghost use Rattle.flat_ink.specs.Inks.{mix_of, IsInk};
ghost use Rattle.flat_ink.specs.Textures.{IsBelow, IsTextureOf};

use crate::area::Area;
use crate::channel_ink::{BlendRule, ChannelInk, ChannelValues, mix_for, tone_of};
use crate::texture::{Texture, blue_of, green_shade, red_shade};
use flat_scene::{DrawItem, Paint};

/// What a fill lays on one of its channels.
pub fn fill_ink(c: usize, item: &DrawItem, rgba: [u8; 4]) -> ChannelInk
    requires channel { c < 3 }
    requires drawable { IsDrawable item.now }
    requires fill { item.now.paint ≡ Paint.Fill rgba }
    ensures { (cut : Area) → IsInk c item.now cut result }
{
    ChannelInk {
        shade: ChannelValues::Even(tone_of(item.blend, item.opacity, rgba[c])),
        mix: mix_for(item.blend, item.opacity, rgba[3]),
    }
}

/// How an image is mixed with what is there.
fn image_mix(item: &DrawItem) -> BlendRule
    requires { IsDrawable item.now }
    ensures { result ≡ mix_of item.now.blend item.now.opacity 255 }
{
    mix_for(item.blend, item.opacity, u8::MAX)
}

/// What an image lays on the reds of an area.
pub fn red_ink(item: &DrawItem, texture: &Texture, cut: Area) -> ChannelInk
    requires drawable { IsDrawable item.now }
    requires texture { IsTextureOf item.now texture.now }
    requires sample { IsSample texture.now.sample }
    requires columns { cut.x1 ≤ cut.x0 + 64 }
    requires rows { cut.y1 ≤ cut.y0 + 64 }
    requires below { IsBelow texture.now cut }
    ensures { IsInk 0 item.now cut result }
{
    ChannelInk {
        shade: red_shade(texture, cut),
        mix: image_mix(item),
    }
}

/// What an image lays on the greens of an area.
pub fn green_ink(item: &DrawItem, texture: &Texture, cut: Area) -> ChannelInk
    requires drawable { IsDrawable item.now }
    requires texture { IsTextureOf item.now texture.now }
    requires sample { IsSample texture.now.sample }
    requires columns { cut.x1 ≤ cut.x0 + 64 }
    requires rows { cut.y1 ≤ cut.y0 + 64 }
    requires below { IsBelow texture.now cut }
    ensures { IsInk 1 item.now cut result }
{
    ChannelInk {
        shade: green_shade(texture, cut),
        mix: image_mix(item),
    }
}

/// What an image lays on the blues of an area.
pub fn blue_ink(item: &DrawItem, texture: &Texture) -> ChannelInk
    requires drawable { IsDrawable item.now }
    requires texture { IsTextureOf item.now texture.now }
    ensures { (cut : Area) → IsInk 2 item.now cut result }
{
    ChannelInk {
        shade: ChannelValues::Even(blue_of(texture)),
        mix: image_mix(item),
    }
}
