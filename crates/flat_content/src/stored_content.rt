ghost use Rattle.std.specs.Prelude.{◌≡◌, Some};
ghost use Rattle.flat_scene.specs.Misuse as misuse;
ghost use Rattle.flat_scene.specs.Tree as scene;
ghost use Rattle.flat_scene.specs.Tree.{shown_content};
ghost use Rattle.flat_content.specs.Table.{as_made};

use flat_base::{BufferNo, IntRect, PairNo};
use flat_scene::{BlendMode, Content, ImageFlip, ViewportProps, ViewportUse};

/// An image.
#[derive(Clone, Copy)]
pub struct StoredImage {
    pub buffers: BufferNo,
    pub index: u32,
    /// The size with which it was made, in units.
    pub size: (u32, u32),
    pub sample: IntRect,
    /// The size at which it is drawn, in units.
    pub destination: (u32, u32),
    pub blend: BlendMode,
    pub flip: ImageFlip,
    pub opacity: u32,
}

/// The colour (red, green, blue, alpha) and the size of a filled rectangle.
#[derive(Clone, Copy)]
pub struct StoredFill {
    pub rgba: [u8; 4],
    pub size: (u32, u32),
}

/// A content that was made.
#[derive(Clone, Copy)]
pub enum StoredContent {
    Image(StoredImage),
    /// None before its first SetSolidFill.
    Fill(Option<StoredFill>),
    Viewport(PairNo, ViewportProps),
}

/// Whether it is a filled rectangle.
pub fn is_fill(stored: StoredContent) -> bool
    ensures { result ≡ misuse.is_fill (Some (as_made stored)) }
{
    matches!(stored, StoredContent::Fill(_))
}

/// Whether it is a viewport.
pub fn is_viewport(stored: StoredContent) -> bool
    ensures { result ≡ misuse.is_viewport (Some (as_made stored)) }
{
    matches!(stored, StoredContent::Viewport(..))
}

/// A content as the tree shows it.
pub fn shown(serial: u32, stored: StoredContent) -> Option<Content>
    ensures { result ≡ shown_content serial (as_made stored) }
{
    match stored {
        StoredContent::Image(image) => Some(Content::Image {
            serial,
            buffers: image.buffers,
            index: image.index,
            sample: image.sample,
            w: image.destination.0,
            h: image.destination.1,
            blend: image.blend,
            flip: image.flip,
            opacity: image.opacity,
        }),
        StoredContent::Fill(None) => None,
        StoredContent::Fill(Some(fill)) => {
            let rgba = fill.rgba;
            Some(Content::Fill {
                serial,
                rgba,
                w: fill.size.0,
                h: fill.size.1,
            })
        }
        StoredContent::Viewport(pair, props) => Some(Content::Viewport {
            serial,
            pair,
            props,
        }),
    }
}

/// The use of a viewport, if that is what it is.
pub fn use_in(serial: u32, stored: StoredContent) -> Option<ViewportUse>
    ensures { result ≡ scene.use_in serial (as_made stored) }
{
    match stored {
        StoredContent::Viewport(pair, props) => Some(ViewportUse {
            serial,
            pair,
            props,
        }),
        _ => None,
    }
}
