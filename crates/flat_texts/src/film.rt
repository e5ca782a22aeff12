//! A film: the pictures of all frames of a run. One picture is kept over all of them, of which
//! each frame repaints what changed. Its bytes are gathered frame by frame; rows that stayed
//! are shared with the frame before (strips).
ghost use Rattle.std.specs.Prelude.{◌≡◌, ◌*◌, ◌<◌, ◌≤◌, ◌∷◌, ◌++◌, [], List, All, IfOk, OnOk};
ghost use Rattle.flat_drawable.specs.Drawable.{IsDrawable};
ghost use Rattle.flat_render.specs.declared.tile_grid.TheConstants.{PIXELS_MAX};
ghost use Rattle.flat_render.specs.Pictures.{width_of, height_of};
ghost use Rattle.flat_render.specs.Ppm.{header};
ghost use Rattle.flat_scene.specs.declared.frames.FrameOut.{FrameOut};
ghost use Rattle.flat_scene.specs.declared.setup.Setup.{Setup};
ghost use Rattle.flat_texts.specs.Films.{film_text};
ghost use Rattle.flat_texts.specs.Filming.{IsFilm};

use crate::picture::black_picture;
use crate::strips::push_strips;
use flat_base::{Items, NoMemory};
use flat_damage::{damage_laws, redraw};
use flat_render::{Picture, ppm_head, ppm_of};
use flat_report::{Run, TextPieces};
use flat_scene::{FrameOut, ItemList, Setup};
use std::alloc::Global;
use std::sync::Arc;
use std::thread::Threads;

/// The pictures of some frames, and the last of them to go on from.
#[derive(Drop)]
pub struct Film {
    alloc: Global,
    /// What the display shows after these frames, black before the first.
    picture: Picture,
    /// The draw list of that picture.
    shown: ItemList,
    /// The bytes of each frame's picture.
    pictures: TextPieces,
    /// Those of the last one's rows, so many in each run; none before the first frame.
    strips: Vec<Run>,
    /// Whether there was a frame.
    any: bool,
}

/// Puts what stands before a picture's colours behind a text.
fn push_head(alloc: Global, picture: &Picture, text: &mut TextPieces) -> Result<(), NoMemory>
    ensures { OnOk result (text.new ≡ text.old ++ header (width_of picture.now)
        (height_of picture.now)) }
{
    let head = ppm_head(alloc, picture.width(), picture.height())?;
    let run = Arc::new(alloc, Items::from_vec(head))?;
    text.push(run)?;
    Ok(())
}

impl Film {
    /// Before the first frame. The black picture is drawn in as many threads as serve.
    pub fn new(rt: &(impl Threads + Sync), alloc: Global, setup: &Setup) -> Result<Film, NoMemory>
        requires width { 0 < setup.now.width }
        requires height { 0 < setup.now.height }
        requires size { setup.now.width * setup.now.height ≤ PIXELS_MAX }
        ensures { IfOk result (IsFilm setup.now []) }
    {
        let picture = black_picture(rt, alloc, setup)?;
        Ok(Film {
            alloc,
            picture,
            shown: ItemList::new(alloc),
            pictures: TextPieces::new(alloc),
            strips: Vec::new(alloc),
            any: false,
        })
    }

    /// Appends the picture of the next frame, which has to be drawable as those of a run are.
    pub fn push(&mut self, frame: &FrameOut) -> Result<(), NoMemory>
        requires items { All IsDrawable frame.now.items }
        requires film { (setup : Setup) × (frames : List FrameOut) × IsFilm setup frames self.old }
        ensures { (setup : Setup) (frames : List FrameOut) → IsFilm setup frames self.old →
            OnOk result (IsFilm setup (frames ++ frame.now ∷ []) self.new) }
    {
        damage_laws();
        let next = frame.items.copy(self.alloc)?;
        let rects = redraw(self.alloc, &mut self.picture, &self.shown, &next)?;
        self.shown = next;
        push_head(self.alloc, &self.picture, &mut self.pictures)?;
        let (rects, old) = (rects.as_slice(), self.strips.as_slice());
        let strips = push_strips(self.alloc, &self.picture, rects, old, &mut self.pictures)?;
        self.strips = strips;
        self.any = true;
        Ok(())
    }

    /// The pictures of all frames, one behind the other, each as `P6`; where there was no
    /// frame, a black one.
    pub fn into_text(self) -> Result<TextPieces, NoMemory>
        ensures { (setup : Setup) (frames : List FrameOut) → IsFilm setup frames self →
            IfOk result (λ text. text ≡ film_text setup frames) }
    {
        let Film {
            alloc,
            picture,
            shown: _,
            pictures,
            strips: _,
            any,
        } = self;
        if any {
            return Ok(pictures);
        }
        let bytes = ppm_of(alloc, &picture)?;
        let black = TextPieces::one(alloc, bytes)?;
        Ok(black)
    }
}
