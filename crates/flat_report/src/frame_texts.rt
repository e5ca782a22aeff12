//! The text of each finished frame, written when it is finished: of a frame its lines are
//! kept and not its items, which are let go once the frame after it is written. What two
//! frames have in common they share. The texts carry no number: the n-th `done` has the
//! n-th.
ghost use Rattle.std.specs.Prelude.{◌≡◌, ◌∷◌, ◌++◌, [], List, IfOk, OnOk, Some, map, option_map};
ghost use Rattle.std.specs.Arc.{arc_value};
ghost use Rattle.std.specs.Option.{option_copied};
ghost use Rattle.flat_base.specs.Last.{last_item};
ghost use Rattle.flat_scene.specs.declared.frames.FrameOut.{FrameOut};
ghost use Rattle.flat_report.specs.FrameTexts.{AreTexts, frame_text, tree_text, unchanged};
ghost use Rattle.flat_report.specs.ItemLines.{AreLines, HaveLines, stretches_text};

use crate::item_lines::{ItemChunk, ItemLines, run_of};
use crate::text_pieces::{Run, TextPieces};
use crate::unchanged_frame::unchanged;
use flat_base::{FrameNo, NoMemory};
use flat_lines::push_tree;
use flat_page::Page;
use flat_places::Script;
use flat_scene::{FrameOut, ViewTree};
use std::alloc::Global;
use std::sync::Arc;

/// Puts the lines of some stretches behind a text, which shares them.
fn push_stretches(text: &mut TextPieces, stretches: &[ItemChunk]) -> Result<(), NoMemory>
    ensures { OnOk result (text.new ≡ text.old ++ stretches_text stretches.now) }
{
    for stretch in stretches {
        text.push(Arc::try_clone(&stretch.lines)?)?;
    }
    Ok(())
}

/// The lines of a view tree.
fn tree_run(alloc: Global, script: &Script, tree: &ViewTree) -> Result<Run, NoMemory>
    ensures { IfOk result (λ run. arc_value run ≡ tree_text script.now tree.now) }
{
    let mut page = Page::new(alloc);
    push_tree(&mut page, script, tree)?;
    run_of(alloc, page)
}

/// The text of a frame with these stretches and this view tree.
fn text_with(
    alloc: Global,
    script: &Script,
    stretches: &[ItemChunk],
    tree: &ViewTree,
) -> Result<TextPieces, NoMemory>
    ensures { IfOk result
        (λ text. text ≡ stretches_text stretches.now ++ tree_text script.now tree.now) }
{
    let mut text = TextPieces::new(alloc);
    push_stretches(&mut text, stretches)?;
    text.push(tree_run(alloc, script, tree)?)?;
    Ok(text)
}

/// The texts of finished frames, each as its lines stand in the report. The last frame
/// is kept too, so that the next one shares the lines of the same items.
#[derive(Drop)]
pub struct FrameTexts {
    alloc: Global,
    pub(crate) texts: Vec<TextPieces>,
    last: ItemLines,
}

impl FrameTexts {
    /// Before the first frame. It takes no memory.
    pub fn new(alloc: Global) -> FrameTexts
        ensures { (script : Script) → AreTexts script [] result }
    {
        FrameTexts {
            alloc,
            texts: Vec::new(alloc),
            last: ItemLines::none(alloc),
        }
    }

    /// Writes the next frame. It is kept until the one after it is written.
    pub fn push(&mut self, script: &Script, frame: FrameOut) -> Result<(), NoMemory>
        ensures { (frames : List FrameOut) → AreTexts script.now frames self.old →
            OnOk result (AreTexts script.now (frames ++ frame ∷ []) self.new) }
    {
        let stretches = self.last.next(self.alloc, script, frame.items.as_slice())?;
        let text = text_with(self.alloc, script, stretches.as_slice(), &frame.tree)?;
        self.texts.push(text)?;
        self.last = ItemLines {
            frame: Some(frame),
            stretches,
        };
        Ok(())
    }

    /// Writes the next frame, before which nothing changed, by its number and its view tree. It
    /// shares the lines of the last one's items, and looks at none of them.
    pub fn push_unchanged(
        &mut self,
        script: &Script,
        number: FrameNo,
        tree: ViewTree,
    ) -> Result<(), NoMemory>
        ensures { (frames : List FrameOut) (last : FrameOut) → AreTexts script.now frames self.old →
            last_item frames ≡ Some last →
            OnOk result (AreTexts script.now (frames ++ unchanged number tree last ∷ []) self.new) }
    {
        let text = text_with(self.alloc, script, self.last.stretches.as_slice(), &tree)?;
        self.texts.push(text)?;
        self.last.frame = unchanged(self.last.frame.take(), number, tree);
        Ok(())
    }

    /// The texts, in order.
    pub(crate) fn as_slice(&self) -> &[TextPieces]
        ensures { result.now ≡ self.now.texts.items }
    {
        self.texts.as_slice()
    }

    /// The last frame, if there is one.
    pub fn last(&self) -> Option<&FrameOut>
        ensures { (script : Script) (frames : List FrameOut) → AreTexts script frames self.now →
            option_copied result ≡ last_item frames }
    {
        self.last.frame.as_ref()
    }

    /// The text of the last frame, if there is one.
    pub fn last_text(&self) -> Option<&TextPieces>
        ensures { (script : Script) (frames : List FrameOut) → AreTexts script frames self.now →
            option_map (λ text. text.now) result ≡ last_item (map (frame_text script) frames) }
    {
        self.texts.last()
    }
}
