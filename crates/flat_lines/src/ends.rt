//! The first line of a report and its last one.
ghost use Rattle.std.specs.Prelude.{◌∷◌, [], OnOk, codes};
ghost use Rattle.flat_page.specs.Pages.{Writes, WritesLines};
ghost use Rattle.flat_page.specs.Words.{number};
ghost use Rattle.flat_lines.specs.Ends.{end_line, title_line};

use flat_base::NoMemory;
use flat_page::Page;

/// The first line, of a script of that version.
pub fn push_title(page: &mut Page, version: u32) -> Result<(), NoMemory>
    ensures { OnOk result (WritesLines (title_line version ∷ []) page.old page.new) }
{
    page.put(b"report")?;
    page.word(b"flatland")?;
    page.count(version as u64)?;
    page.put(b"\n")?;
    Ok(())
}

fn push_totals(page: &mut Page, entries: usize, finished: u64) -> Result<(), NoMemory>
    ensures { OnOk result (Writes (codes "ends" ∷ codes "entries" ∷ number entries ∷ codes "frames"
        ∷ number finished ∷ []) page.old page.new) }
{
    page.word(b"ends")?;
    page.word(b"entries")?;
    page.count(entries as u64)?;
    page.word(b"frames")?;
    page.count(finished)?;
    Ok(())
}

/// The last line, after so many entries and finished frames.
pub fn push_end(page: &mut Page, entries: usize, finished: u64) -> Result<(), NoMemory>
    ensures { OnOk result (WritesLines (end_line entries finished ∷ []) page.old page.new) }
{
    page.put(b"report")?;
    push_totals(page, entries, finished)?;
    page.put(b"\n")?;
    Ok(())
}
