//! The lines of a frame's draw items, in stretches. Where the frame before has the same
//! items side by side, its run is shared, and no line is written.
ghost use Rattle.std.specs.Prelude.{◌≡◌, ◌<◌, ◌≤◌, ◌-◌, ◌∷◌, [], ℕ, List, length, map, take, drop};
ghost use Rattle.std.specs.Prelude.{false, None, IfOk, IfSome, IsTrue, OnOk};
ghost use Rattle.std.specs.Arc.{arc_value};
ghost use Rattle.flat_page.specs.Pages.{WritesLines};
ghost use Rattle.flat_lines.specs.FrameLines.{item_line};
ghost use Rattle.flat_report.specs.ItemLines.{AreLines, HaveLines, items_of, items_text};
ghost use Rattle.flat_report.specs.ItemLines.{stretch_items};

use crate::text_pieces::Run;
use flat_base::{Items, NoMemory};
use flat_drawable::is_same;
use flat_lines::push_item;
use flat_page::Page;
use flat_places::Script;
use flat_scene::{DrawItem, FrameOut};
use std::alloc::Global;
use std::sync::Arc;

/// A stretch has no more items than these, so that few lines are written where few items
/// change.
const STRETCH_ITEMS: usize = 256;

/// Room for the lines of a stretch as they mostly are, taken at once.
const STRETCH_BYTES: usize = 32_768;

/// Draw items of one session that stand side by side in a frame, from a place to before
/// another one, and the text of their lines.
#[derive(Drop)]
pub(crate) struct ItemChunk {
    start: usize,
    end: usize,
    pub(crate) lines: Run,
}

impl ItemChunk {
    /// Its items, where a frame has so many.
    fn among<'a>(&self, items: &'a [DrawItem]) -> Option<&'a [DrawItem]>
        ensures { IfSome result (λ part. part.now ≡ stretch_items items.now self.now) }
    {
        if self.start > self.end {
            return None;
        }
        if self.end > items.len() {
            return None;
        }
        Some(&items[self.start..self.end])
    }
}

/// Whether two lists have the same items.
fn are_same(old: &[DrawItem], new: &[DrawItem]) -> bool
    ensures { IsTrue result → old.now ≡ new.now }
{
    if old.len() != new.len() {
        return false;
    }
    for place in 0..old.len() {
        if !is_same(&old[place], &new[place]) {
            return false;
        }
    }
    true
}

/// Where the stretch ends that begins at a place: its items are of one session.
fn stretch_end(items: &[DrawItem], start: usize) -> usize
    requires { start < length items.now }
    ensures some { start < result }
    ensures there { result ≤ length items.now }
{
    let session = items[start].session;
    let most = start + (items.len() - start).min(STRETCH_ITEMS);
    for end in start + 1..most {
        if items[end].session.0 != session.0 {
            return end;
        }
    }
    most
}

/// Puts the lines of draw items.
fn push_items(page: &mut Page, script: &Script, items: &[DrawItem]) -> Result<(), NoMemory>
    ensures { OnOk result
        (WritesLines (map (item_line script.now) items.now) page.old page.new) }
{
    for item in items {
        push_item(page, script, item)?;
    }
    Ok(())
}

/// What stands on a page, as a run that takes no more room than it has bytes.
pub(crate) fn run_of(alloc: Global, page: Page) -> Result<Run, NoMemory>
    ensures { IfOk result (λ run. arc_value run ≡ page) }
{
    let own = Vec::from_slice(alloc, page.as_slice())?;
    Ok(Arc::new(alloc, Items::from_vec(own))?)
}

/// The lines of draw items, as a run of their own.
fn written(alloc: Global, script: &Script, items: &[DrawItem]) -> Result<Run, NoMemory>
    ensures { IfOk result (λ run. arc_value run ≡ items_text script.now items.now) }
{
    let mut page = Page::with_capacity(alloc, STRETCH_BYTES)?;
    push_items(&mut page, script, items)?;
    run_of(alloc, page)
}

/// A frame, if there is one, and the lines of its draw items.
#[derive(Drop)]
pub(crate) struct ItemLines {
    pub(crate) frame: Option<FrameOut>,
    pub(crate) stretches: Vec<ItemChunk>,
}

impl ItemLines {
    /// No frame. It takes no memory.
    pub(crate) fn none(alloc: Global) -> ItemLines
        ensures lines { (script : Script) → AreLines script result }
        ensures frame { result.frame ≡ None }
    {
        ItemLines {
            frame: None,
            stretches: Vec::new(alloc),
        }
    }

    /// The frame's draw items.
    fn items(&self) -> &[DrawItem]
        ensures { result.now ≡ items_of self.now.frame }
    {
        match &self.frame {
            Some(frame) => frame.items.as_slice(),
            None => &[],
        }
    }

    /// The run of the stretch of a number, where it has these items.
    fn same_run(&self, number: usize, items: &[DrawItem]) -> Option<&Run>
        ensures { (script : Script) → AreLines script self.now →
            IfSome result (λ run. arc_value run.now ≡ items_text script items.now) }
    {
        let stretch = self.stretches.get(number)?;
        let old = stretch.among(self.items())?;
        if are_same(old, items) {
            Some(&stretch.lines)
        } else {
            None
        }
    }

    /// The same, also where one stretch more or less stands before it than did.
    fn near_run(&self, number: usize, items: &[DrawItem]) -> Option<&Run>
        ensures { (script : Script) → AreLines script self.now →
            IfSome result (λ run. arc_value run.now ≡ items_text script items.now) }
    {
        if let Some(run) = self.same_run(number, items) {
            return Some(run);
        }
        if let Some(run) = self.same_run(number.saturating_add(1), items) {
            return Some(run);
        }
        self.same_run(number.saturating_sub(1), items)
    }

    /// The run of the next frame's stretch of a number, which has these items.
    fn next_run(
        &self,
        alloc: Global,
        script: &Script,
        number: usize,
        items: &[DrawItem],
    ) -> Result<Run, NoMemory>
        ensures { AreLines script.now self.now →
            IfOk result (λ run. arc_value run ≡ items_text script.now items.now) }
    {
        match self.near_run(number, items) {
            Some(run) => Ok(Arc::try_clone(run)?),
            None => written(alloc, script, items),
        }
    }

    /// The stretches of the next frame's items, of which these are the lines of the frame
    /// before.
    pub(crate) fn next(
        &self,
        alloc: Global,
        script: &Script,
        items: &[DrawItem],
    ) -> Result<Vec<ItemChunk>, NoMemory>
        ensures { AreLines script.now self.now →
            IfOk result (λ stretches. HaveLines script.now items.now stretches.items) }
    {
        let mut stretches = Vec::new(alloc);
        let mut start = 0;
        while start < items.len() {
            let end = stretch_end(items, start);
            let lines = self.next_run(alloc, script, stretches.len(), &items[start..end])?;
            stretches.push(ItemChunk { start, end, lines })?;
            start = end;
        }
        Ok(stretches)
    }
}
