//! The words of an entry's line behind its number, and of an event, by their kinds
//! (specs/EntryLines).
ghost use Rattle.std.specs.Prelude.{◌≡◌, ◌++◌, ◌∷◌, [], OnOk, Some, codes};
ghost use Rattle.flat_page.specs.Words.{number, numbers};
ghost use Rattle.flat_page.specs.Pages.{Writes};
ghost use Rattle.flat_lines.specs.EntryLines.{layout_words, value_words, watched_word};
ghost use Rattle.flat_lines.specs.EntryLines.{event_words, get_word, reason_words, closing_words};
ghost use Rattle.flat_lines.specs.EntryLines.{done_words, asked_words, reply_words};

use crate::names::pair_name;
use flat_base::{FlatlandError, NoMemory, Reason};
use flat_page::Page;
use flat_places::Script;
use flat_scene::{EntryKind, Event, Inset, Layout, Reply, Watch, WatcherValue};

fn push_inset(page: &mut Page, inset: &Inset) -> Result<(), NoMemory>
    ensures { OnOk result (Writes (number inset.now.top ∷ number inset.now.right
        ∷ number inset.now.bottom ∷ number inset.now.left ∷ []) page.old page.new) }
{
    page.counts(inset.top, inset.right)?;
    page.counts(inset.bottom, inset.left)
}

fn push_layout(page: &mut Page, layout: &Layout) -> Result<(), NoMemory>
    ensures { OnOk result (Writes (layout_words layout.now) page.old page.new) }
{
    page.counts(layout.w, layout.h)?;
    page.word(b"inset")?;
    push_inset(page, &layout.inset)?;
    page.counted(b"ratio", layout.ratio)
}

fn push_value(page: &mut Page, value: &WatcherValue) -> Result<(), NoMemory>
    ensures { OnOk result (Writes (value_words value.now) page.old page.new) }
{
    match value {
        WatcherValue::Layout(layout) => push_layout(page, layout),
        WatcherValue::Connected => page.word(b"connected"),
        WatcherValue::Disconnected => page.word(b"disconnected"),
        WatcherValue::HasPresented => page.word(b"content_has_presented"),
        WatcherValue::Gone => page.word(b"gone"),
    }
}

fn watched_word(watching: Watch) -> &'static [u8]
    ensures { result.now ≡ watched_word watching }
{
    match watching {
        Watch::Layout => b"layout",
        Watch::Status => b"status",
        Watch::Child(_) => b"child",
    }
}

/// What is said of an event behind its session.
pub fn push_event(page: &mut Page, script: &Script, event: &Event) -> Result<(), NoMemory>
    ensures { OnOk result (Writes (event_words script.now event.now) page.old page.new) }
{
    match event {
        Event::Told(pair, watching, value) => {
            page.word(watched_word(*watching))?;
            page.word(pair_name(script, *pair))?;
            push_value(page, value)
        }
        Event::FramePresented(count) => page.counted(b"framepresented", *count),
        Event::TokenBack(pair) => {
            page.word(b"tokenback")?;
            page.word(pair_name(script, *pair))
        }
        Event::Credits(count) => page.counted(b"credits", *count),
    }
}

fn get_word(watching: Watch) -> &'static [u8]
    ensures { result.now ≡ get_word watching }
{
    match watching {
        Watch::Layout => b"GetLayout",
        Watch::Status => b"GetStatus",
        Watch::Child(_) => b"GetChildStatus",
    }
}

fn push_asked(page: &mut Page, kind: &EntryKind) -> Result<(), NoMemory>
    ensures { OnOk result (Writes (asked_words kind.now) page.old page.new) }
{
    match kind {
        EntryKind::Get(watching) => page.word(get_word(*watching)),
        _ => Ok(()),
    }
}

/// That a call was done.
fn push_ok(page: &mut Page, call: &[u8]) -> Result<(), NoMemory>
    ensures { OnOk result (Writes (call.now ∷ codes "ok" ∷ []) page.old page.new) }
{
    page.word(call)?;
    page.word(b"ok")
}

fn push_done(page: &mut Page, kind: &EntryKind) -> Result<(), NoMemory>
    ensures { OnOk result (Writes (done_words kind.now) page.old page.new) }
{
    match kind {
        EntryKind::View(_) => push_ok(page, b"CreateView"),
        EntryKind::Viewport(_, _) => push_ok(page, b"CreateViewport"),
        EntryKind::Signal(_) => push_ok(page, b"Signal"),
        EntryKind::Dpr(_) => push_ok(page, b"dpr"),
        _ => Ok(()),
    }
}

/// `B7` for the reason of number 7.
fn push_reason(page: &mut Page, reason: Option<Reason>) -> Result<(), NoMemory>
    ensures { OnOk result (Writes (reason_words reason) page.old page.new) }
{
    match reason {
        Some(reason) => page.numbered(b" B", u64::from(reason.number())),
        None => Ok(()),
    }
}

fn push_bad(page: &mut Page, reason: Option<Reason>) -> Result<(), NoMemory>
    ensures { OnOk result (Writes (codes "BAD_OPERATION" ∷ reason_words reason) page.old page.new) }
{
    page.word(b"BAD_OPERATION")?;
    push_reason(page, reason)?;
    Ok(())
}

fn push_error(page: &mut Page, error: FlatlandError, reason: Option<Reason>) -> Result<(), NoMemory>
    ensures { OnOk result (Writes (closing_words (Some error) reason) page.old page.new) }
{
    match error {
        FlatlandError::BadOperation => push_bad(page, reason),
        FlatlandError::NoPresentsRemaining => page.word(b"NO_PRESENTS_REMAINING"),
        FlatlandError::BadHangingGet => page.word(b"BAD_HANGING_GET"),
    }
}

/// Why a session was closed: the error, and the reason of a bad operation; nothing for an end
/// without an error.
pub fn push_closing(
    page: &mut Page,
    error: Option<FlatlandError>,
    reason: Option<Reason>,
) -> Result<(), NoMemory>
    ensures { OnOk result (Writes (closing_words error reason) page.old page.new) }
{
    match error {
        Some(error) => push_error(page, error, reason),
        None => Ok(()),
    }
}

fn push_presented(page: &mut Page, count: u32, credits: u32) -> Result<(), NoMemory>
    ensures { OnOk result (Writes (codes "Present" ∷ number count ∷ codes "credits" ∷ number credits
        ∷ []) page.old page.new) }
{
    page.counted(b"Present", count)?;
    page.counted(b"credits", credits)
}

fn push_waited(page: &mut Page, met: &[u8], value: u32) -> Result<(), NoMemory>
    ensures { OnOk result (Writes (codes "Wait" ∷ met.now ∷ number value ∷ []) page.old page.new) }
{
    page.word(b"Wait")?;
    page.counted(met, value)
}

fn push_held(page: &mut Page, kind: &EntryKind) -> Result<(), NoMemory>
    ensures { OnOk result (Writes (asked_words kind.now ++ codes "held" ∷ []) page.old page.new) }
{
    push_asked(page, kind)?;
    page.word(b"held")?;
    Ok(())
}

fn push_now(page: &mut Page, kind: &EntryKind, value: &WatcherValue) -> Result<(), NoMemory>
    ensures { OnOk result
        (Writes (asked_words kind.now ++ codes "now" ∷ value_words value.now) page.old page.new) }
{
    push_asked(page, kind)?;
    page.word(b"now")?;
    push_value(page, value)?;
    Ok(())
}

/// What an entry of this kind was answered.
pub fn push_reply(page: &mut Page, kind: &EntryKind, reply: &Reply) -> Result<(), NoMemory>
    ensures { OnOk result (Writes (reply_words kind.now reply.now) page.old page.new) }
{
    match reply {
        Reply::Done => push_done(page, kind),
        Reply::Presented { number, credits } => push_presented(page, *number, *credits),
        Reply::Held => push_held(page, kind),
        Reply::Now(value) => push_now(page, kind, value),
        Reply::Polled(count) => page.counted(b"Poll", *count),
        Reply::Met(value) => push_waited(page, b"met", *value),
        Reply::Unmet(value) => push_waited(page, b"unmet", *value),
        Reply::Closed(error, reason) => {
            page.word(b"closed")?;
            push_closing(page, *error, *reason)
        }
    }
}
