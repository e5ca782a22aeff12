ghost use Rattle.std.specs.Prelude.{◌≡◌, [], ◌∷◌, ◌++◌, List, Some, length, map, codes, IfOk, OnOk};
ghost use Rattle.std.specs.List.{flat_map};
ghost use Rattle.std.specs.Option.{option_copied};
ghost use Rattle.flat_base.specs.Last.{last_item};
ghost use Rattle.flat_damage.specs.Damage.{IsDamage};
ghost use Rattle.flat_scene.specs.declared.frames.FrameOut.{FrameOut};
ghost use Rattle.flat_page.specs.Pages.{Writes, WritesLines};
ghost use Rattle.flat_page.specs.Words.{number};
ghost use Rattle.flat_report.specs.FrameTexts.{unchanged};
ghost use Rattle.flat_texts.specs.Damages.{AreDamaged, IsDamageText, IsFound, damaged_lines, damaged_text};
ghost use Rattle.flat_texts.specs.Damages.{end_line, rect_line};
ghost use Rattle.flat_texts.specs.Pictures.{list_of};

use flat_base::{FrameNo, NoMemory, Rect};
use flat_damage::damage;
use flat_page::Page;
use flat_report::unchanged;
use flat_scene::{FrameOut, ItemList, RectList, ViewTree};
use std::alloc::Global;

/// What changed with a frame.
#[derive(Drop)]
pub struct FrameDamage {
    pub frame: FrameNo,
    /// The rectangles outside of which nothing did.
    pub rects: RectList,
}

/// What changed with each of some finished frames. The last one is kept too, so that it
/// is known what changes with the next.
#[derive(Drop)]
pub struct FrameDamages {
    alloc: Global,
    damaged: Vec<FrameDamage>,
    last: Option<FrameOut>,
}

/// What changed with a frame, where this was the one before it, if there was one.
fn damage_since(
    alloc: Global,
    before: Option<&FrameOut>,
    frame: &FrameOut,
) -> Result<RectList, NoMemory>
    ensures { IfOk result (λ rects. IsDamage (list_of (option_copied before.entry)) frame.now.items
        rects) }
{
    match before {
        Some(before) => damage(alloc, &before.items, &frame.items),
        None => {
            let nothing = ItemList::new(alloc);
            damage(alloc, &nothing, &frame.items)
        }
    }
}

impl FrameDamages {
    /// Before the first frame: nothing is drawn. It takes no memory.
    pub fn new(alloc: Global) -> FrameDamages
        ensures { IsFound [] result }
    {
        FrameDamages {
            alloc,
            damaged: Vec::new(alloc),
            last: None,
        }
    }

    /// Finds what changes with the next frame.
    fn note(&mut self, frame: &FrameOut) -> Result<(), NoMemory>
        ensures { (frames : List FrameOut) → IsFound frames self.old →
            OnOk result (AreDamaged [] (frames ++ frame.now ∷ []) self.new.damaged.items) }
    {
        let rects = damage_since(self.alloc, self.last.as_ref(), frame)?;
        self.damaged.push(FrameDamage {
            frame: frame.frame,
            rects,
        })?;
        Ok(())
    }

    /// Finds what changes with the next frame, which is kept until the one after it.
    pub fn push(&mut self, frame: FrameOut) -> Result<(), NoMemory>
        ensures { (frames : List FrameOut) → IsFound frames self.old →
            OnOk result (IsFound (frames ++ frame ∷ []) self.new) }
    {
        self.note(&frame)?;
        self.last = Some(frame);
        Ok(())
    }

    /// The next frame is one before which nothing changed, of a number and with a view tree. No
    /// item is looked at.
    pub fn push_unchanged(&mut self, number: FrameNo, tree: ViewTree) -> Result<(), NoMemory>
        ensures { (frames : List FrameOut) (last : FrameOut) → IsFound frames self.old →
            last_item frames ≡ Some last →
            OnOk result (IsFound (frames ++ unchanged number tree last ∷ []) self.new) }
    {
        self.damaged.push(FrameDamage {
            frame: number,
            rects: RectList::new(self.alloc),
        })?;
        self.last = unchanged(self.last.take(), number, tree);
        Ok(())
    }

    /// The last frame, if there is one.
    pub fn last(&self) -> Option<&FrameOut>
        ensures { (frames : List FrameOut) → IsFound frames self.now → option_copied result
            ≡ last_item frames }
    {
        self.last.as_ref()
    }

    /// The text of what changed from frame to frame: for each finished frame the damage
    /// between the draw list before it and its own. Before the first one nothing is drawn.
    pub fn text(&self) -> Result<Vec<u8>, NoMemory>
        ensures { (frames : List FrameOut) → IsFound frames self.now →
            IfOk result (λ text. IsDamageText frames text.items) }
    {
        print_damages(self.alloc, self.damaged.as_slice())
    }
}

fn push_rect(page: &mut Page, r: Rect) -> Result<(), NoMemory>
    ensures { OnOk result (WritesLines (rect_line r ∷ []) page.old page.new) }
{
    page.put(b"rect")?;
    page.places(r.x0, r.y0, r.x1, r.y1)?;
    page.put(b"\n")?;
    Ok(())
}

fn push_rects(page: &mut Page, rects: &[Rect]) -> Result<(), NoMemory>
    ensures { OnOk result (WritesLines (map rect_line rects.now) page.old page.new) }
{
    for r in rects {
        push_rect(page, *r)?;
    }
    Ok(())
}

fn push_counts(page: &mut Page, frame: FrameNo, rects: usize) -> Result<(), NoMemory>
    ensures { OnOk result (Writes (codes "frame" ∷ number frame.0 ∷ codes "rects" ∷ number rects
        ∷ []) page.old page.new) }
{
    page.counted(b"frame", frame.0)?;
    page.word(b"rects")?;
    page.count(rects as u64)?;
    Ok(())
}

fn push_head(page: &mut Page, frame: FrameNo, rects: usize) -> Result<(), NoMemory>
    ensures { OnOk result (WritesLines ((codes "damage" ∷ codes "frame" ∷ number frame.0
        ∷ codes "rects" ∷ number rects ∷ []) ∷ []) page.old page.new) }
{
    page.put(b"damage")?;
    push_counts(page, frame, rects)?;
    page.put(b"\n")?;
    Ok(())
}

fn push_damaged(page: &mut Page, one: &FrameDamage) -> Result<(), NoMemory>
    ensures { OnOk result (WritesLines (damaged_lines one.now) page.old page.new) }
{
    push_head(page, one.frame, one.rects.len())?;
    push_rects(page, one.rects.as_slice())?;
    Ok(())
}

fn push_all(page: &mut Page, damaged: &[FrameDamage]) -> Result<(), NoMemory>
    ensures { OnOk result (WritesLines (flat_map damaged_lines damaged.now) page.old page.new) }
{
    for one in damaged {
        push_damaged(page, one)?;
    }
    Ok(())
}

fn push_text(page: &mut Page, damaged: &[FrameDamage]) -> Result<(), NoMemory>
    ensures { OnOk result (WritesLines (flat_map damaged_lines damaged.now
        ++ end_line (length damaged.now) ∷ []) page.old page.new) }
{
    push_all(page, damaged)?;
    page.ends(b"damage", b"frames", damaged.len())?;
    Ok(())
}

/// The text of what changed, in memory of its own.
fn print_damages(alloc: Global, damaged: &[FrameDamage]) -> Result<Vec<u8>, NoMemory>
    ensures { IfOk result (λ text. text.items ≡ damaged_text damaged.now) }
{
    let mut page = Page::new(alloc);
    push_text(&mut page, damaged)?;
    Ok(page.into_text())
}
