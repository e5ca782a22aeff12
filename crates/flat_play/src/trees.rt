//! The view trees of frames, on which alone the texts of focus and of pointers hang: so the
//! items of a frame are dropped when the next one comes.
ghost use Rattle.std.specs.Prelude.{◌≡◌, ◌∷◌, ◌++◌, [], List, Some, map, IfOk, OnOk};
ghost use Rattle.std.specs.Option.{option_copied};
ghost use Rattle.flat_base.specs.Last.{last_item};
ghost use Rattle.flat_page.specs.Steps.{without_items};
ghost use Rattle.flat_scene.specs.declared.frames.FrameOut.{FrameOut};
ghost use Rattle.flat_report.specs.FrameTexts.{unchanged};
ghost use Rattle.flat_play.specs.Keeping.{AreTrees};

use flat_base::{FrameNo, Items, NoMemory};
use flat_scene::{FrameOut, ItemList, ViewTree};
use std::alloc::Global;

/// Finished frames with their view trees, but without their draw items; the last frame
/// has its items too.
#[derive(Drop)]
pub struct FrameTrees {
    alloc: Global,
    /// Those before the last one, without items.
    before: Items<FrameOut>,
    last: Option<FrameOut>,
}

/// A frame without its draw items, and these.
fn apart(alloc: Global, whole: FrameOut) -> (FrameOut, ItemList)
    ensures { result ≡ (without_items whole, whole.items) }
{
    let FrameOut { frame, items, tree } = whole;
    let bare = FrameOut {
        frame,
        items: ItemList::new(alloc),
        tree,
    };
    (bare, items)
}

/// A frame without its draw items.
fn without_items(alloc: Global, whole: FrameOut) -> FrameOut
    ensures { result ≡ without_items whole }
{
    let (bare, _items) = apart(alloc, whole);
    bare
}

impl FrameTrees {
    /// Before the first frame. It takes no memory.
    pub fn new(alloc: Global) -> FrameTrees
        ensures { AreTrees [] result }
    {
        FrameTrees {
            alloc,
            before: Items::new(alloc),
            last: None,
        }
    }

    /// Keeps the next frame. The items of the one before it are dropped.
    pub fn push(&mut self, frame: FrameOut) -> Result<(), NoMemory>
        ensures { (frames : List FrameOut) → AreTrees frames self.old →
            OnOk result (AreTrees (frames ++ frame ∷ []) self.new) }
    {
        if let Some(last) = self.last.take() {
            let tree = without_items(self.alloc, last);
            self.before.push(tree)?;
        }
        self.last = Some(frame);
        Ok(())
    }

    /// Keeps the next frame, before which nothing changed, by its number and its view tree.
    pub fn push_unchanged(&mut self, number: FrameNo, tree: ViewTree) -> Result<(), NoMemory>
        ensures { (frames : List FrameOut) (last : FrameOut) → AreTrees frames self.old →
            last_item frames ≡ Some last →
            OnOk result (AreTrees (frames ++ unchanged number tree last ∷ []) self.new) }
    {
        let Some(last) = self.last.take() else {
            drop(tree);
            return Ok(());
        };
        let (before, items) = apart(self.alloc, last);
        self.last = Some(FrameOut {
            frame: number,
            items,
            tree,
        });
        self.before.push(before)?;
        Ok(())
    }

    /// The last frame, if there is one.
    pub fn last(&self) -> Option<&FrameOut>
        ensures { (frames : List FrameOut) → AreTrees frames self.now → option_copied result
            ≡ last_item frames }
    {
        self.last.as_ref()
    }

    /// The frames without their items, in order.
    pub fn into_frames(self) -> Result<Items<FrameOut>, NoMemory>
        ensures { (frames : List FrameOut) → AreTrees frames self → IfOk result (λ trees. trees
            ≡ map without_items frames) }
    {
        let FrameTrees {
            alloc,
            mut before,
            last,
        } = self;
        if let Some(last) = last {
            let tree = without_items(alloc, last);
            before.push(tree)?;
        }
        Ok(before)
    }
}
