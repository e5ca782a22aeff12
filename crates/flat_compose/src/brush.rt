ghost use Rattle.std.specs.Prelude.{◌≡◌, ◌≤◌, option_map};
ghost use Rattle.flat_topology.specs.Draw.{blend_of_colour, painting_of};
ghost use Rattle.flat_compose.specs.Brushes.{painting};

use flat_base::{COLOUR_MAX, OPACITY_MAX};
use flat_join::through;
use flat_scene::{BlendMode, Content, Paint};
use flat_topology::PlacedNode;

/// What a content paints.
#[derive(Clone, Copy)]
pub struct Brush {
    /// The content's serial number.
    pub serial: u32,
    pub paint: Paint,
    pub w: u32,
    pub h: u32,
    /// Its own opacity, seen through its node's.
    pub opacity: u32,
    pub blend: BlendMode,
}

/// A colour that covers all replaces what is below it.
fn blend_for(rgba: [u8; 4]) -> BlendMode
    ensures { result ≡ blend_of_colour rgba }
{
    if rgba[3] as u32 == COLOUR_MAX {
        BlendMode::Src
    } else {
        BlendMode::SrcOver
    }
}

/// What the content of a node paints; a viewport paints nothing.
pub fn brush_for(at: &PlacedNode) -> Option<Brush>
    requires { at.now.opacity ≤ OPACITY_MAX }
    ensures { option_map painting result ≡ painting_of at.now.opacity at.now.content }
{
    match at.content? {
        Content::Fill { serial, rgba, w, h } => Some(Brush {
            serial,
            paint: Paint::Fill { rgba },
            w,
            h,
            opacity: at.opacity,
            blend: blend_for(rgba),
        }),
        Content::Image {
            serial,
            buffers,
            index,
            sample,
            w,
            h,
            blend,
            flip,
            opacity,
        } => Some(Brush {
            serial,
            paint: Paint::Image {
                buffers,
                index,
                sample,
                flip,
            },
            w,
            h,
            opacity: through(at.opacity, opacity),
            blend,
        }),
        Content::Viewport { .. } => None,
    }
}
