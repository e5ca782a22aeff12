//! The lines of entries and of events (specs/EntryLines).
ghost use Rattle.std.specs.Prelude.{◌≡◌, ◌++◌, ◌∷◌, [], ℤ, pos, suc, List, OnOk, codes, map, ◌<◌, ◌-◌, ◌^◌};
ghost use Rattle.flat_page.specs.Words.{number, numbers, session_name};
ghost use Rattle.flat_page.specs.Pages.{Writes, WritesLines};
ghost use Rattle.flat_print.specs.Choices.{interaction_number};
ghost use Rattle.flat_lines.specs.EntryLines.{answer_words, said_words, entry_line, event_words, hit_words};
ghost use Rattle.flat_lines.specs.EntryLines.{point_words};
ghost use Rattle.flat_lines.specs.PostLines.{post_line};

use crate::entry_words::{push_event, push_reply};
use flat_base::NoMemory;
use flat_page::{Page, actor_name, session_name};
use flat_places::Script;
use flat_print::interaction_number;
use flat_scene::{Entry, EntryKind, Hit, PostedEvent};

fn push_hit(page: &mut Page, script: &Script, hit: Hit) -> Result<(), NoMemory>
    ensures { OnOk result (Writes (session_name script.now.sessions hit.session
        ∷ number (interaction_number hit.interaction) ∷ []) page.old page.new) }
{
    push_long(
        page,
        session_name(&script.sessions, hit.session),
        interaction_number(hit.interaction),
    )
}

fn push_hits(page: &mut Page, script: &Script, hits: &[Hit]) -> Result<(), NoMemory>
    ensures { OnOk result (Writes (hit_words script.now hits.now) page.old page.new) }
{
    for hit in hits {
        push_hit(page, script, *hit)?;
    }
    Ok(())
}

/// A word, and a number that counts.
pub fn push_long(page: &mut Page, word: &[u8], value: u64) -> Result<(), NoMemory>
    ensures { OnOk result (Writes (word.now ∷ number value ∷ []) page.old page.new) }
{
    page.word(word)?;
    page.count(value)
}

/// What is said of a point: it, the frame in which it was asked, and who is hit.
pub fn push_point(
    page: &mut Page,
    script: &Script,
    x: i32,
    y: i32,
    frame: u64,
    hits: &[Hit],
) -> Result<(), NoMemory>
    ensures { OnOk result (Writes (point_words script.now x y frame hits.now) page.old page.new) }
{
    page.word(b"hit")?;
    page.point(x, y)?;
    push_long(page, b"frame", frame)?;
    push_hits(page, script, hits)?;
    Ok(())
}

fn push_begin(page: &mut Page, time: u64, frame: u64) -> Result<(), NoMemory>
    ensures { OnOk result (Writes
        (codes "begin" ∷ number time ∷ codes "frame" ∷ number frame ∷ []) page.old page.new) }
{
    push_long(page, b"begin", time)?;
    push_long(page, b"frame", frame)
}

fn push_finish(page: &mut Page, frame: u64) -> Result<(), NoMemory>
    ensures { OnOk result
        (Writes (codes "done" ∷ codes "frame" ∷ number frame ∷ []) page.old page.new) }
{
    page.word(b"done")?;
    push_long(page, b"frame", frame)
}

/// What is said of an entry behind the number of its line; nothing of an End.
fn push_answer(
    page: &mut Page,
    script: &Script,
    finished: u64,
    hits: &[Hit],
    entry: &Entry,
) -> Result<(), NoMemory>
    requires { finished < 2 ^ 64 - 1 }
    ensures { OnOk result (Writes (answer_words script.now finished
        (λ x y. hits.now) entry.now.kind entry.now.reply) page.old page.new) }
{
    match &entry.kind {
        EntryKind::Begin(time) => push_begin(page, *time, finished + 1),
        EntryKind::Finish => push_finish(page, finished + 1),
        EntryKind::Hit(x, y) => push_point(page, script, *x, *y, finished, hits),
        EntryKind::End(_) => Ok(()),
        kind => push_reply(page, kind, &entry.reply),
    }
}

/// What is said of an entry behind its actor.
fn push_said(
    page: &mut Page,
    script: &Script,
    finished: u64,
    hits: &[Hit],
    entry: &Entry,
) -> Result<(), NoMemory>
    requires { finished < 2 ^ 64 - 1 }
    ensures { OnOk result (Writes (said_words script.now finished
        (λ x y. hits.now) entry.now.line entry.now.kind entry.now.reply) page.old page.new) }
{
    if let EntryKind::End(refused) = &entry.kind {
        return page.counted(b"end", *refused);
    }
    page.count(entry.line as u64)?;
    push_answer(page, script, finished, hits, entry)
}

/// The line of an entry. `finished` frames were finished before it, and a point
/// that it asks for has these hits.
pub fn push_entry(
    page: &mut Page,
    script: &Script,
    finished: u64,
    hits: &[Hit],
    entry: &Entry,
) -> Result<(), NoMemory>
    requires { finished < 2 ^ 64 - 1 }
    ensures { OnOk result (WritesLines
        (entry_line script.now finished (λ x y. hits.now) entry.now ∷ []) page.old page.new) }
{
    page.put(actor_name(script, entry.actor))?;
    push_said(page, script, finished, hits, entry)?;
    page.put(b"\n")?;
    Ok(())
}

fn push_posted(page: &mut Page, script: &Script, post: &PostedEvent) -> Result<(), NoMemory>
    ensures { OnOk result (Writes (session_name script.now.sessions post.now.session
        ∷ event_words script.now post.now.event) page.old page.new) }
{
    page.word(session_name(&script.sessions, post.session))?;
    push_event(page, script, &post.event)?;
    Ok(())
}

/// The line of an event.
fn push_post(page: &mut Page, script: &Script, post: &PostedEvent) -> Result<(), NoMemory>
    ensures { OnOk result (WritesLines (post_line script.now post.now ∷ []) page.old page.new) }
{
    page.put(b">")?;
    push_posted(page, script, post)?;
    page.put(b"\n")?;
    Ok(())
}

/// The lines of events.
pub fn push_posts(page: &mut Page, script: &Script, posts: &[PostedEvent]) -> Result<(), NoMemory>
    ensures { OnOk result (WritesLines (map (post_line script.now) posts.now) page.old page.new) }
{
    for post in posts {
        push_post(page, script, post)?;
    }
    Ok(())
}
