ghost use Rattle.std.specs.Prelude.{◌≡◌, IfOk};
ghost use Rattle.flat_stress.specs.Summary.{summary_line};

use crate::words::{LoadWord, push_line};
use LoadWord::{Count, Number, Text};
use flat_base::NoMemory;
use flat_page::Page;
use std::alloc::Global;

/// What a run of the load comes to.
#[derive(Clone, Copy)]
pub struct LoadTotals {
    /// The load's number, that of the frames it asks for.
    pub load: u32,
    /// The sessions.
    pub sessions: u32,
    /// The entries of the history.
    pub entries: usize,
    /// The frames that were finished.
    pub frames: usize,
    /// The presents among the entries.
    pub presents: usize,
    /// The items of the last frame.
    pub items: usize,
}

// What the line takes at most.
const LINE_BYTES: usize = 128;

/// The line that sums up a run of the load.
#[tactic(auto, unfolding(crate::specs::Summary::summary_line))]
pub fn summary(alloc: Global, totals: LoadTotals) -> Result<Vec<u8>, NoMemory>
    ensures { IfOk result (λ line. line.items ≡ summary_line totals) }
{
    let mut page = Page::with_capacity(alloc, LINE_BYTES)?;
    let words = [
        Text("stress"),
        Number(totals.load),
        Text("sessions"),
        Number(totals.sessions),
        Text("entries"),
        Count(totals.entries),
        Text("frames"),
        Count(totals.frames),
        Text("presents"),
        Count(totals.presents),
        Text("items"),
        Count(totals.items),
    ];
    push_line(&mut page, &words)?;
    Ok(page.into_text())
}
