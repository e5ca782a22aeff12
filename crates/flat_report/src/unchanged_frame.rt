//! A frame before which nothing changed. It has the draw items of the frame before it, which
//! are moved and not looked at.
ghost use Rattle.std.specs.Prelude.{◌≡◌, option_map};
ghost use Rattle.flat_report.specs.FrameTexts.{unchanged};

use flat_base::FrameNo;
use flat_scene::{FrameOut, ViewTree};

/// The frame of a number and with a view tree that has the items of the last one, if there is
/// one.
pub fn unchanged(last: Option<FrameOut>, number: FrameNo, tree: ViewTree) -> Option<FrameOut>
    ensures { result ≡ option_map (unchanged number tree) last }
{
    match last {
        Some(last) => {
            let FrameOut { items, .. } = last;
            Some(FrameOut {
                frame: number,
                items,
                tree,
            })
        }
        None => None,
    }
}
