//! What a run keeps of its frames: what its word writes of them, and no more. The last one
//! is kept whole, since displays are shown it, and the next one's lines and damage are told
//! by it.
ghost use Rattle.std.specs.Prelude.{◌≡◌, ◌∷◌, ◌++◌, [], List, map, option_map, OnOk};
ghost use Rattle.std.specs.Option.{option_copied};
ghost use Rattle.flat_base.specs.Last.{last_item};
ghost use Rattle.flat_scene.specs.declared.frames.FrameOut.{FrameOut};
ghost use Rattle.flat_report.specs.FrameTexts.{frame_text};
ghost use Rattle.flat_play.specs.Keeping.{Keeps, KeepsMore, KeepsUnchanged, keeping_of};
ghost use Rattle.flat_play.specs.declared.kept_frames.KeptFrames.TheVariants as kept;
ghost use Rattle.flat_play.specs.declared.kept_frames.FramesToKeep.TheVariants as keeping;

use crate::trees::FrameTrees;
use flat_base::{FrameNo, NoMemory};
use flat_places::Script;
use flat_report::{FrameTexts, TextPieces, unchanged};
use flat_scene::{FrameOut, ViewTree};
use flat_texts::FrameDamages;
use std::alloc::Global;

/// What a run is to keep of the frames that it finishes.
#[derive(Clone, Copy)]
pub enum FramesToKeep {
    /// The texts of their lines, as a report has them.
    Texts,
    /// What changed with each of them.
    Damages,
    /// Their view trees.
    Trees,
    /// The last of them alone.
    Last,
}

/// What a run keeps of the frames that it finished. The last of them is always there
/// whole; no item of a frame before it is.
#[derive(Drop)]
pub enum KeptFrames {
    Texts(FrameTexts),
    Damages(FrameDamages),
    Trees(FrameTrees),
    Last(Option<FrameOut>),
}

impl KeptFrames {
    /// Before the first frame. It takes no memory.
    pub fn new(alloc: Global, keeping: FramesToKeep) -> KeptFrames
        ensures none { (script : Script) → Keeps script result [] }
        ensures keeping { keeping_of result ≡ keeping }
    {
        match keeping {
            FramesToKeep::Texts => KeptFrames::Texts(FrameTexts::new(alloc)),
            FramesToKeep::Damages => KeptFrames::Damages(FrameDamages::new(alloc)),
            FramesToKeep::Trees => KeptFrames::Trees(FrameTrees::new(alloc)),
            FramesToKeep::Last => KeptFrames::Last(None),
        }
    }

    /// Keeps the next frame.
    pub fn keep(&mut self, script: &Script, frame: FrameOut) -> Result<(), NoMemory>
        ensures { OnOk result (KeepsMore script.now frame self.old self.new) }
    {
        match self {
            KeptFrames::Texts(texts) => texts.push(script, frame),
            KeptFrames::Damages(damages) => damages.push(frame),
            KeptFrames::Trees(trees) => trees.push(frame),
            KeptFrames::Last(last) => {
                *last = Some(frame);
                Ok(())
            }
        }
    }

    /// Keeps the next frame, before which nothing changed, by its number and its view tree.
    pub fn keep_unchanged(
        &mut self,
        script: &Script,
        number: FrameNo,
        tree: ViewTree,
    ) -> Result<(), NoMemory>
        ensures { OnOk result (KeepsUnchanged script.now number tree self.old self.new) }
    {
        match self {
            KeptFrames::Texts(texts) => texts.push_unchanged(script, number, tree),
            KeptFrames::Damages(damages) => damages.push_unchanged(number, tree),
            KeptFrames::Trees(trees) => trees.push_unchanged(number, tree),
            KeptFrames::Last(last) => {
                *last = unchanged(last.take(), number, tree);
                Ok(())
            }
        }
    }

    /// The last frame; none exactly where there is none.
    pub fn last(&self) -> Option<&FrameOut>
        ensures { (script : Script) (frames : List FrameOut) → Keeps script self.now frames →
            option_copied result ≡ last_item frames }
    {
        match self {
            KeptFrames::Texts(texts) => texts.last(),
            KeptFrames::Damages(damages) => damages.last(),
            KeptFrames::Trees(trees) => trees.last(),
            KeptFrames::Last(last) => last.as_ref(),
        }
    }

    /// The text of the last frame, if there is one and texts are kept.
    pub fn last_text(&self) -> Option<&TextPieces>
        ensures { (script : Script) (frames : List FrameOut) → Keeps script self.now frames →
            keeping_of self.now ≡ keeping.Texts → option_map (λ text. text.now) result
            ≡ last_item (map (frame_text script) frames) }
    {
        match self {
            KeptFrames::Texts(texts) => texts.last_text(),
            KeptFrames::Damages(_) | KeptFrames::Trees(_) | KeptFrames::Last(_) => None,
        }
    }

    /// The texts of the frames, where these are kept.
    pub fn into_texts(self) -> FrameTexts
        requires { keeping_of self ≡ keeping.Texts }
        ensures { kept.Texts result ≡ self }
    {
        match self {
            KeptFrames::Texts(texts) => texts,
            KeptFrames::Damages(_) | KeptFrames::Trees(_) | KeptFrames::Last(_) => unreachable!(),
        }
    }

    /// What changed with each frame, where this is kept.
    pub fn into_damages(self) -> FrameDamages
        requires { keeping_of self ≡ keeping.Damages }
        ensures { kept.Damages result ≡ self }
    {
        match self {
            KeptFrames::Damages(damages) => damages,
            KeptFrames::Texts(_) | KeptFrames::Trees(_) | KeptFrames::Last(_) => unreachable!(),
        }
    }

    /// The view trees of the frames, where these are kept.
    pub fn into_trees(self) -> FrameTrees
        requires { keeping_of self ≡ keeping.Trees }
        ensures { kept.Trees result ≡ self }
    {
        match self {
            KeptFrames::Trees(trees) => trees,
            KeptFrames::Texts(_) | KeptFrames::Damages(_) | KeptFrames::Last(_) => unreachable!(),
        }
    }
}
