ghost use Rattle.std.specs.Prelude.{◌≡◌, ◌*◌, ◌<◌, ◌≤◌, ◌↔◌, [], All, true, false, Err, IfOk, OnErr, OnOk};
ghost use Rattle.flat_drawable.specs.Drawable.{IsDrawable};
ghost use Rattle.flat_io.specs.Kept.{counted};
ghost use Rattle.flat_render.specs.Pictures.{Shows};
ghost use Rattle.flat_ink.specs.Pixels.{pixel};
ghost use Rattle.flat_screen.specs.Screens.{after_failure, colour_at, has_pixels};
ghost use Rattle.flat_screen.specs.declared.fault.ScreenFault.TheVariants.{BadSize};

use crate::fault::ScreenFault;
use flat_base::NoMemory;
use flat_damage::redraw;
use flat_display::Display;
use flat_drawable::are_drawable;
use flat_io::{StreamFailed, counted};
use flat_render::{Picture, is_too_large, render};
use flat_scene::{FrameOut, ItemList};
use std::alloc::Global;
use std::marker::Model;
use std::thread::Threads;

/// A display that keeps its picture. Each frame that it is shown repaints what changed since
/// the one before, so a frame in which little moved costs little.
///
/// A show fails if an item can't be drawn, which those of this service can, or if memory runs
/// out. Then the picture stays, and the next show repaints all that changed since.
#[derive(Drop)]
pub struct PictureDisplay {
    alloc: Global,
    picture: Picture,
    items: ItemList,
    faults: u64,
}

impl Model for PictureDisplay {
    ghost use Rattle.flat_render.specs.Pictures.{Shows, height_of, width_of};
    ghost use Rattle.flat_ink.specs.Pixels.{pixel};
    ghost use Rattle.flat_screen.specs.Screens.{Screen};

    ghost Value = { Screen };

    ghost view = { λ d. record {
      width = width_of d.picture;
      height = height_of d.picture;
      items = d.items;
      faults = d.faults;
    } };

    ghost invariant = { λ d. Shows d.picture (width_of d.picture) (height_of d.picture)
        (pixel d.items) };
}

/// Whether a display of these sides has a picture.
fn has_pixels(w: u32, h: u32) -> bool
    ensures { result ≡ has_pixels w h }
{
    w > 0 && h > 0 && !is_too_large(w, h)
}

impl PictureDisplay {
    /// A black display of `w` by `h` pixels. It is drawn in as many threads as serve.
    ///
    /// [`BadSize`](ScreenFault::BadSize) comes if and only if a side is 0 or there are more
    /// pixels than [`PIXELS_MAX`](flat_render::PIXELS_MAX).
    pub fn new(
        rt: &(impl Threads + Sync),
        alloc: Global,
        w: u32,
        h: u32,
    ) -> Result<PictureDisplay, ScreenFault>
        ensures black { IfOk result (λ d. d
            ≡ record { width = w; height = h; items = []; faults = 0 }) }
        ensures size { IfOk result (λ _. has_pixels w h ≡ true) }
        ensures refused { (result ≡ Err BadSize) ↔ (has_pixels w h ≡ false) }
    {
        if !has_pixels(w, h) {
            return Err(ScreenFault::BadSize);
        }
        let items = ItemList::new(alloc);
        let picture = render(rt, alloc, &items, w, h)?;
        Ok(PictureDisplay {
            alloc,
            picture,
            items,
            faults: 0,
        })
    }

    /// What the display shows.
    pub fn picture(&self) -> &Picture
        ensures { Shows result.now self.now.width self.now.height (pixel self.now.items) }
    {
        &self.picture
    }

    /// The colour of a pixel, as red, green and blue; None outside of the display.
    pub fn pixel(&self, x: u32, y: u32) -> Option<[u8; 3]>
        ensures { result ≡ colour_at self.now x y }
    {
        if x < self.picture.width() && y < self.picture.height() {
            return Some(self.picture.pixel(x, y));
        }
        None
    }

    /// Repaints what a draw list changes. If it fails, nothing changed.
    fn repaint(&mut self, items: &ItemList) -> Result<(), NoMemory>
        requires items { All IsDrawable items.now }
        ensures ok { OnOk result (self.new ≡ record self.old { items = items.now }) }
        ensures err { OnErr result (self.new ≡ self.old) }
    {
        let next = items.copy(self.alloc)?;
        redraw(self.alloc, &mut self.picture, &self.items, &next)?;
        self.items = next;
        Ok(())
    }
}

impl Display for PictureDisplay {
    ghost faults = { λ d. d.faults };

    /// Repaints what changed since the frame before.
    fn show(&mut self, frame: &FrameOut) -> Result<(), StreamFailed>
        ensures shown { OnOk result (self.new ≡ record self.old { items = frame.now.items }) }
        ensures failed { OnErr result (self.new ≡ after_failure self.old) }
        ensures drawable { OnOk result (All IsDrawable frame.now.items) }
    {
        if are_drawable(frame.items.as_slice()) && self.repaint(&frame.items).is_ok() {
            return Ok(());
        }
        self.faults = counted(self.faults);
        Err(StreamFailed)
    }
}
