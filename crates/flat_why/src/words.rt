//! The words of a cause, of a present that waits, and of what a session draws (specs/Text).
ghost use Rattle.std.specs.Prelude.{◌≡◌, [], ◌∷◌, ◌++◌, codes, OnOk};
ghost use Rattle.flat_lines.specs.EntryLines.{closing_words};
ghost use Rattle.flat_lines.specs.FrameLines.{rect_words};
ghost use Rattle.flat_lines.specs.Names.{pair_name};
ghost use Rattle.flat_page.specs.Pages.{Writes};
ghost use Rattle.flat_page.specs.Words.{number, session_name};
ghost use Rattle.flat_why.specs.Text.{fence_name, hold_words, parting_word, cause_words};
ghost use Rattle.flat_why.specs.Text.{hidden_words, blank_word, drawn_words};

use crate::reasons::{
    BlankReason, CloseReason, DetachedReason, DisplayedSession, HiddenReason, HoldReason,
    UnplacedReason,
};
use flat_base::{FenceNo, NoMemory, PairNo, Rect, SessionNo};
use flat_lines::{pair_name, push_closing};
use flat_page::{Page, name_at, session_name};
use flat_places::Script;

fn push_close_reason(page: &mut Page, closing: CloseReason) -> Result<(), NoMemory>
    ensures { OnOk result (Writes (codes "closed" ∷ number closing.line
        ∷ closing_words closing.error closing.reason) page.old page.new) }
{
    page.counted(b"closed", closing.line)?;
    push_closing(page, closing.error, closing.reason)?;
    Ok(())
}

fn fence_name(script: &Script, f: FenceNo) -> &[u8]
    ensures { result.now ≡ fence_name script.now f }
{
    name_at(&script.fences, f.0 as usize)
}

fn push_named(page: &mut Page, word: &[u8], name: &[u8]) -> Result<(), NoMemory>
    ensures { OnOk result (Writes (word.now ∷ name.now ∷ []) page.old page.new) }
{
    page.word(word)?;
    page.word(name)
}

fn push_timed(page: &mut Page, time: u64) -> Result<(), NoMemory>
    ensures { OnOk result (Writes (codes "time" ∷ number time ∷ []) page.old page.new) }
{
    page.word(b"time")?;
    page.count(time)
}

/// What holds a present back.
pub fn push_hold(page: &mut Page, script: &Script, hold: HoldReason) -> Result<(), NoMemory>
    ensures { OnOk result (Writes (hold_words script.now hold) page.old page.new) }
{
    match hold {
        HoldReason::Time(time) => push_timed(page, time),
        HoldReason::Fence(f) => push_named(page, b"fence", fence_name(script, f)),
        HoldReason::Behind => page.word(b"behind"),
        HoldReason::Unsquashable => page.word(b"unsquashable"),
    }
}

fn push_held(page: &mut Page, script: &Script, hold: HoldReason) -> Result<(), NoMemory>
    ensures { OnOk result
        (Writes (codes "waits" ∷ hold_words script.now hold) page.old page.new) }
{
    page.word(b"waits")?;
    push_hold(page, script, hold)?;
    Ok(())
}

fn parting_word(why: UnplacedReason) -> &'static [u8]
    ensures { result.now ≡ parting_word why }
{
    match why {
        UnplacedReason::Unmade => b"unmade",
        UnplacedReason::Unshown => b"unshown",
        UnplacedReason::Ended => b"ended",
        UnplacedReason::Loose => b"loose",
    }
}

fn push_parted(
    page: &mut Page,
    script: &Script,
    parent: SessionNo,
    pair: PairNo,
    why: UnplacedReason,
) -> Result<(), NoMemory>
    ensures { OnOk result (Writes (codes "viewport" ∷ pair_name script.now pair
        ∷ session_name script.now.sessions parent ∷ parting_word why ∷ []) page.old page.new) }
{
    push_named(page, b"viewport", pair_name(script, pair))?;
    push_named(
        page,
        session_name(&script.sessions, parent),
        parting_word(why),
    )?;
    Ok(())
}

/// Why a session hangs nowhere.
fn push_cause(page: &mut Page, script: &Script, cause: DetachedReason) -> Result<(), NoMemory>
    ensures { OnOk result (Writes (cause_words script.now cause) page.old page.new) }
{
    match cause {
        DetachedReason::Closed(closing) => push_close_reason(page, closing),
        DetachedReason::Unpresented => page.word(b"unpresented"),
        DetachedReason::Held(hold) => push_held(page, script, hold),
        DetachedReason::Viewless => page.word(b"viewless"),
        DetachedReason::Parted { parent, pair, why } => {
            push_parted(page, script, parent, pair, why)
        }
    }
}

/// Why a session is hidden.
fn push_hidden(page: &mut Page, script: &Script, hidden: HiddenReason) -> Result<(), NoMemory>
    ensures { OnOk result (Writes (hidden_words script.now (Some hidden)) page.old page.new) }
{
    match hidden {
        HiddenReason::Unhung(cause) => push_cause(page, script, cause),
        HiddenReason::Parent(parent) => {
            push_named(page, b"parent", session_name(&script.sessions, parent))
        }
        HiddenReason::Cycle => page.word(b"cycle"),
    }
}

/// Why a session is hidden, if it is.
pub fn push_why(
    page: &mut Page,
    script: &Script,
    hidden: Option<HiddenReason>,
) -> Result<(), NoMemory>
    ensures { OnOk result (Writes (hidden_words script.now hidden) page.old page.new) }
{
    match hidden {
        Some(hidden) => push_hidden(page, script, hidden),
        None => Ok(()),
    }
}

fn blank_word(blank: BlankReason) -> &'static [u8]
    ensures { result.now ≡ blank_word blank }
{
    match blank {
        BlankReason::Rootless => b"rootless",
        BlankReason::Contentless => b"contentless",
        BlankReason::Transparent => b"transparent",
        BlankReason::Sizeless => b"sizeless",
        BlankReason::Clipped => b"clipped",
    }
}

/// How many items are drawn, and if there is none, why.
pub fn push_drawn(page: &mut Page, items: usize, blank: BlankReason) -> Result<(), NoMemory>
    ensures { OnOk result (Writes (drawn_words items blank) page.old page.new) }
{
    page.count(items as u64)?;
    if items == 0 {
        page.word(blank_word(blank))?;
    }
    Ok(())
}

fn push_rect(page: &mut Page, rect: Rect) -> Result<(), NoMemory>
    ensures { OnOk result (Writes (rect_words rect) page.old page.new) }
{
    page.places(rect.x0, rect.y0, rect.x1, rect.y1)
}

/// Of a session that is shown: its view's rectangle, and how many items it draws.
pub fn push_shown(page: &mut Page, drawn: DisplayedSession) -> Result<(), NoMemory>
    ensures { OnOk result (Writes (rect_words drawn.bounds
        ++ drawn_words drawn.items drawn.blank) page.old page.new) }
{
    push_rect(page, drawn.bounds)?;
    push_drawn(page, drawn.items, drawn.blank)?;
    Ok(())
}
