//! The parts of a report's text that an entry adds: its own line, those of the displays lost at
//! its frame, and those of its events. The lines of its frame are kept with the frame.
ghost use Rattle.std.specs.Prelude.{◌≡◌, ◌∷◌, ◌<◌, ◌-◌, ◌^◌, [], map, IfOk};
ghost use Rattle.flat_page.specs.Words.{text_of};
ghost use Rattle.flat_lines.specs.Ends.{title_line};
ghost use Rattle.flat_lines.specs.EntryLines.{entry_line};
ghost use Rattle.flat_lines.specs.PostLines.{post_line};
ghost use Rattle.flat_lines.specs.FrameLines.{lost_line};

use flat_base::NoMemory;
use flat_lines::{push_entry, push_losses, push_posts, push_title};
use flat_page::Page;
use flat_places::Script;
use flat_scene::{Entry, Hit, LostDisplay, PostedEvent};
use std::alloc::Global;

/// The first line of a report, of a script of that version.
pub(crate) fn title_text(alloc: Global, version: u32) -> Result<Vec<u8>, NoMemory>
    ensures { IfOk result (λ text. text.items ≡ text_of (title_line version ∷ [])) }
{
    let mut page = Page::new(alloc);
    push_title(&mut page, version)?;
    Ok(page.into_text())
}

/// The line of an entry, before which so many frames were finished.
pub(crate) fn line_text(
    alloc: Global,
    script: &Script,
    finished: u64,
    hits: &[Hit],
    entry: &Entry,
) -> Result<Vec<u8>, NoMemory>
    requires { finished < 2 ^ 64 - 1 }
    ensures { IfOk result (λ text. text.items
        ≡ text_of (entry_line script.now finished (λ x y. hits.now) entry.now ∷ [])) }
{
    let mut page = Page::new(alloc);
    push_entry(&mut page, script, finished, hits, entry)?;
    Ok(page.into_text())
}

/// The line of a display that was lost.
pub(crate) fn loss_text(alloc: Global, one: LostDisplay) -> Result<Vec<u8>, NoMemory>
    ensures { IfOk result (λ text. text.items ≡ text_of (lost_line one ∷ [])) }
{
    let mut page = Page::new(alloc);
    push_losses(&mut page, one.frame.0 as u64, &[one])?;
    Ok(page.into_text())
}

/// The lines of events.
pub(crate) fn posts_text(
    alloc: Global,
    script: &Script,
    posts: &[PostedEvent],
) -> Result<Vec<u8>, NoMemory>
    ensures { IfOk result (λ text. text.items ≡ text_of (map (post_line script.now) posts.now)) }
{
    let mut page = Page::new(alloc);
    push_posts(&mut page, script, posts)?;
    Ok(page.into_text())
}
