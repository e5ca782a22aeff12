//! The text of a report while it is written: what stands between long runs of frames
//! fills pages of one size, so that the number of writes is small where frames are
//! small, and no room for the whole is taken.
ghost use Rattle.std.specs.Prelude.{◌≡◌, ◌<◌, ◌^◌, ◌-◌, ◌∷◌, ◌++◌, [], map, IfOk, OnOk};
ghost use Rattle.std.specs.Arc.{arc_value};
ghost use Rattle.flat_page.specs.Words.{text_of};
ghost use Rattle.flat_lines.specs.Ends.{end_line, title_line};
ghost use Rattle.flat_lines.specs.EntryLines.{entry_line};
ghost use Rattle.flat_lines.specs.PostLines.{post_line};
ghost use Rattle.flat_lines.specs.FrameLines.{lost_at, lost_line};
ghost use Rattle.flat_report.specs.Handed.{answer_line};

use crate::probe_lines::push_probe_line;
use crate::probes::ProbeAnswer;
use crate::text_pieces::{Run, TextPieces};
use flat_base::{Items, NoMemory};
use flat_lines::{push_end, push_entry, push_losses, push_posts, push_title};
use flat_page::Page;
use flat_places::Script;
use flat_scene::{Entry, Hit, LostDisplay, PostedEvent};
use std::alloc::Global;
use std::marker::Model;
use std::mem;
use std::sync::Arc;

/// A page of so many bytes is full.
const PAGE_BYTES: usize = 65_536;

/// A run that long is a piece of its own, which is shared; shorter ones are copied onto the
/// page.
const RUN_BYTES: usize = 512;

/// A text that is written in pieces: those that are full, and the page behind them.
#[derive(Drop)]
pub(crate) struct PagedText {
    alloc: Global,
    full: TextPieces,
    page: Page,
}

impl Model for PagedText {
    ghost use Rattle.std.specs.Prelude.{List, ℕ, ◌++◌};

    ghost Value = { List ℕ };

    ghost view = { λ s. s.full ++ s.page };
}

/// What stands on a page, as a run.
fn run_on(alloc: Global, page: Page) -> Result<Run, NoMemory>
    ensures { IfOk result (λ run. arc_value run ≡ page) }
{
    let text = Items::from_vec(page.into_text());
    Ok(Arc::new(alloc, text)?)
}

/// Puts the text of a page behind full pieces, and leaves an empty page with so much
/// room.
fn end_page(
    alloc: Global,
    full: &mut TextPieces,
    page: &mut Page,
    room: usize,
) -> Result<(), NoMemory>
    ensures full { OnOk result (full.new ≡ full.old ++ page.old) }
    ensures page { OnOk result (page.new ≡ []) }
{
    let next = Page::with_capacity(alloc, room)?;
    let ended = mem::replace(page, next);
    full.push(run_on(alloc, ended)?)?;
    Ok(())
}

/// The same where the page has any text.
fn end_started(alloc: Global, full: &mut TextPieces, page: &mut Page) -> Result<(), NoMemory>
    ensures full { OnOk result (full.new ≡ full.old ++ page.old) }
    ensures page { OnOk result (page.new ≡ []) }
{
    if page.len() == 0 {
        return Ok(());
    }
    end_page(alloc, full, page, 0)
}

impl PagedText {
    /// A text without bytes.
    pub(crate) fn new(alloc: Global) -> PagedText
        ensures { result ≡ [] }
    {
        PagedText {
            alloc,
            full: TextPieces::new(alloc),
            page: Page::new(alloc),
        }
    }

    /// Begins a new page.
    fn turn(&mut self) -> Result<(), NoMemory>
        ensures { OnOk result (self.new ≡ self.old) }
    {
        end_page(self.alloc, &mut self.full, &mut self.page, 2 * PAGE_BYTES)?;
        Ok(())
    }

    /// Begins a new page where this one is full.
    pub(crate) fn turn_full(&mut self) -> Result<(), NoMemory>
        ensures { OnOk result (self.new ≡ self.old) }
    {
        if self.page.len() < PAGE_BYTES {
            return Ok(());
        }
        self.turn()?;
        Ok(())
    }

    /// Puts a run. A long one isn't copied.
    pub(crate) fn add(&mut self, run: &Run) -> Result<(), NoMemory>
        ensures { OnOk result (self.new ≡ self.old ++ arc_value run.now) }
    {
        if run.len() < RUN_BYTES {
            self.copy(run.as_slice())?;
            return self.turn_full();
        }
        end_started(self.alloc, &mut self.full, &mut self.page)?;
        self.full.push(Arc::try_clone(run)?)?;
        Ok(())
    }

    /// Puts a text on the page.
    fn copy(&mut self, text: &[u8]) -> Result<(), NoMemory>
        ensures { OnOk result (self.new ≡ self.old ++ text.now) }
    {
        self.page.put(text)
    }

    /// Puts the first line, of a script of that version.
    pub(crate) fn title(&mut self, version: u32) -> Result<(), NoMemory>
        ensures { OnOk result (self.new ≡ self.old ++ text_of (title_line version ∷ [])) }
    {
        push_title(&mut self.page, version)?;
        Ok(())
    }

    /// Puts the line of an entry, before which so many frames were finished.
    pub(crate) fn entry(
        &mut self,
        script: &Script,
        finished: u64,
        hits: &[Hit],
        entry: &Entry,
    ) -> Result<(), NoMemory>
        requires { finished < 2 ^ 64 - 1 }
        ensures { OnOk result (self.new ≡ self.old
            ++ text_of (entry_line script.now finished (λ x y. hits.now) entry.now ∷ [])) }
    {
        push_entry(&mut self.page, script, finished, hits, entry)?;
        Ok(())
    }

    /// Puts the lines of the displays that were lost at the frame of a number.
    pub(crate) fn losses(&mut self, number: u64, lost: &[LostDisplay]) -> Result<(), NoMemory>
        ensures { OnOk result
            (self.new ≡ self.old ++ text_of (map lost_line (lost_at number lost.now))) }
    {
        push_losses(&mut self.page, number, lost)?;
        Ok(())
    }

    /// Puts the lines of events.
    pub(crate) fn posts(&mut self, script: &Script, posts: &[PostedEvent]) -> Result<(), NoMemory>
        ensures { OnOk result
            (self.new ≡ self.old ++ text_of (map (post_line script.now) posts.now)) }
    {
        push_posts(&mut self.page, script, posts)?;
        Ok(())
    }

    /// Puts the line of a probe's answer.
    pub(crate) fn answer(&mut self, script: &Script, answer: &ProbeAnswer) -> Result<(), NoMemory>
        ensures { OnOk result
            (self.new ≡ self.old ++ text_of (answer_line script.now answer.now ∷ [])) }
    {
        push_probe_line(&mut self.page, script, answer)?;
        Ok(())
    }

    /// Puts the last line, after so many entries and finished frames.
    pub(crate) fn end(&mut self, entries: usize, finished: u64) -> Result<(), NoMemory>
        ensures { OnOk result (self.new ≡ self.old ++ text_of (end_line entries finished ∷ [])) }
    {
        push_end(&mut self.page, entries, finished)?;
        Ok(())
    }

    /// All pieces.
    pub(crate) fn into_pieces(self) -> Result<TextPieces, NoMemory>
        ensures { IfOk result (λ pieces. pieces ≡ self) }
    {
        let PagedText {
            alloc,
            mut full,
            page,
        } = self;
        full.push(run_on(alloc, page)?)?;
        Ok(full)
    }
}
