//! The lines of a frame: of each session, and of each present that waits (specs/Text).
ghost use Rattle.std.specs.Prelude.{◌≡◌, ◌<◌, ◌≤◌, [], ◌∷◌, ◌++◌, length, map};
ghost use Rattle.std.specs.Prelude.{count_by, OnOk, IfOk, ◌==◌};
ghost use Rattle.flat_lines.specs.FrameLines.{rect_words};
ghost use Rattle.flat_page.specs.Pages.{Writes, WritesLines};
ghost use Rattle.flat_page.specs.Words.{number, session_name};
ghost use Rattle.flat_scene.specs.Frames.{sessions_to};
ghost use Rattle.flat_scene.specs.Setups.{at_ratio};
ghost use Rattle.flat_topology.specs.Fit.{FitsSetup};
ghost use Rattle.flat_topology.specs.Place.{placed_nodes};
ghost use Rattle.flat_topology.specs.Shown.{state_of};
ghost use Rattle.flat_why.specs.Blanks.{blank_of};
ghost use Rattle.flat_why.specs.Hidden.{hidden_in, node_of};
ghost use Rattle.flat_why.specs.Text.{hold_words, hidden_words, drawn_words, shown_line};
ghost use Rattle.flat_why.specs.Text.{hidden_line, wait_line, own_items};
ghost use Rattle.flat_why.specs.Noted.{session_line, stands_in};

use crate::blanks::why_blank;
use crate::counts::count_items;
use crate::hidden::{hidden_in, node_of};
use crate::reasons::{AttachPoint, BlankReason, DisplayedSession, HiddenReason, PendingPresent};
use crate::words::{push_hold, push_shown, push_why};
use flat_base::{FrameNo, NoMemory, SESSIONS_MAX, SessionNo};
use flat_join::ShownStates;
use flat_page::{Page, session_name};
use flat_places::Script;
use flat_scene::FrameOut;
use std::alloc::Global;

/// The number of a frame, and a session.
fn push_session_of(
    page: &mut Page,
    script: &Script,
    frame: FrameNo,
    s: SessionNo,
) -> Result<(), NoMemory>
    ensures { OnOk result (Writes (number frame.0 ∷ session_name script.now.sessions s ∷ [])
        page.old page.new) }
{
    page.count(frame.0 as u64)?;
    page.word(session_name(&script.sessions, s))?;
    Ok(())
}

fn push_shown_words(
    page: &mut Page,
    script: &Script,
    frame: FrameNo,
    s: SessionNo,
    drawn: DisplayedSession,
) -> Result<(), NoMemory>
    ensures { OnOk result (Writes (number frame.0 ∷ session_name script.now.sessions s
        ∷ rect_words drawn.bounds ++ drawn_words drawn.items drawn.blank) page.old page.new) }
{
    push_session_of(page, script, frame, s)?;
    push_shown(page, drawn)?;
    Ok(())
}

/// The line of a session that is shown.
fn push_shown_line(
    page: &mut Page,
    script: &Script,
    frame: FrameNo,
    s: SessionNo,
    drawn: DisplayedSession,
) -> Result<(), NoMemory>
    ensures { OnOk result (WritesLines (shown_line script.now frame.0 s drawn ∷ []) page.old
        page.new) }
{
    page.put(b"shown")?;
    push_shown_words(page, script, frame, s, drawn)?;
    page.put(b"\n")?;
    Ok(())
}

fn push_hidden_words(
    page: &mut Page,
    script: &Script,
    frame: FrameNo,
    s: SessionNo,
    hidden: Option<HiddenReason>,
) -> Result<(), NoMemory>
    ensures { OnOk result (Writes (number frame.0 ∷ session_name script.now.sessions s
        ∷ hidden_words script.now hidden) page.old page.new) }
{
    push_session_of(page, script, frame, s)?;
    push_why(page, script, hidden)?;
    Ok(())
}

/// The line of a session that is hidden.
fn push_hidden_line(
    page: &mut Page,
    script: &Script,
    frame: FrameNo,
    s: SessionNo,
    hidden: Option<HiddenReason>,
) -> Result<(), NoMemory>
    ensures { OnOk result (WritesLines (hidden_line script.now frame.0 s hidden ∷ []) page.old
        page.new) }
{
    page.put(b"hidden")?;
    push_hidden_words(page, script, frame, s, hidden)?;
    page.put(b"\n")?;
    Ok(())
}

fn push_wait_words(
    page: &mut Page,
    script: &Script,
    frame: FrameNo,
    waiting: PendingPresent,
) -> Result<(), NoMemory>
    ensures { OnOk result (Writes (number frame.0 ∷ session_name script.now.sessions waiting.session
        ∷ number waiting.number ∷ hold_words script.now waiting.hold) page.old page.new) }
{
    push_session_of(page, script, frame, waiting.session)?;
    page.count(waiting.number as u64)?;
    push_hold(page, script, waiting.hold)?;
    Ok(())
}

/// The line of a present that waits.
fn push_wait_line(
    page: &mut Page,
    script: &Script,
    frame: FrameNo,
    waiting: PendingPresent,
) -> Result<(), NoMemory>
    ensures { OnOk result (WritesLines (wait_line script.now frame.0 waiting ∷ []) page.old
        page.new) }
{
    page.put(b"waits")?;
    push_wait_words(page, script, frame, waiting)?;
    page.put(b"\n")?;
    Ok(())
}

/// The lines of presents that wait.
pub fn push_waits(
    page: &mut Page,
    script: &Script,
    frame: FrameNo,
    waits: &[PendingPresent],
) -> Result<(), NoMemory>
    ensures { OnOk result (WritesLines (map (wait_line script.now frame.0) waits.now) page.old
        page.new) }
{
    for waiting in waits {
        push_wait_line(page, script, frame, *waiting)?;
    }
    Ok(())
}

/// A finished frame: the states that it shows, the pixel ratio at its begin, what was
/// composed of them, and where each session hangs, session 1 first.
#[derive(Clone, Copy)]
pub struct ExplainedFrame<'a> {
    pub shown: &'a ShownStates,
    pub ratio: u32,
    pub frame: &'a FrameOut,
    pub standings: &'a [AttachPoint],
}

/// Why a session draws nothing in a frame, where it has so many items: looked for only
/// where it has none.
fn blank_for(
    alloc: Global,
    script: &Script,
    scene: &ExplainedFrame<'_>,
    s: SessionNo,
    items: usize,
) -> Result<BlankReason, NoMemory>
    requires some { 0 < s.0 }
    requires few { s.0 ≤ length scene.now.shown.now }
    requires made { length scene.now.shown.now ≡ script.now.setup.sessions }
    requires within { script.now.setup.sessions ≤ SESSIONS_MAX }
    requires fit { FitsSetup script.now.setup scene.now.shown.now }
    ensures { IfOk result (λ blank. drawn_words items blank
        ≡ drawn_words items (blank_of (state_of scene.now.shown.now s.0) s
        (placed_nodes (at_ratio scene.now.ratio script.now.setup) scene.now.shown.now))) }
{
    if items > 0 {
        return Ok(BlankReason::Clipped);
    }
    why_blank(alloc, &script.setup, scene.ratio, scene.shown, s)
}

/// The line of a session of a frame that has so many items of its own.
fn push_session(
    page: &mut Page,
    alloc: Global,
    script: &Script,
    scene: &ExplainedFrame<'_>,
    s: SessionNo,
    items: usize,
) -> Result<(), NoMemory>
    requires some { 0 < s.0 }
    requires few { s.0 ≤ length scene.now.shown.now }
    requires made { length scene.now.shown.now ≡ script.now.setup.sessions }
    requires within { script.now.setup.sessions ≤ SESSIONS_MAX }
    requires fit { FitsSetup script.now.setup scene.now.shown.now }
    requires counted { items ≡ own_items s scene.now.frame.now }
    ensures { OnOk result (WritesLines (session_line script.now scene.now.ratio
        scene.now.shown.now scene.now.frame.now scene.now.standings.now s ∷ []) page.old
        page.new) }
{
    let frame = scene.frame.frame;
    let nodes = scene.frame.tree.nodes.as_slice();
    match node_of(nodes, s) {
        Some(node) => {
            let bounds = node.bounds;
            let blank = blank_for(alloc, script, scene, s, items)?;
            let drawn = DisplayedSession {
                bounds,
                items,
                blank,
            };
            push_shown_line(page, script, frame, s, drawn)
        }
        None => push_hidden_line(page, script, frame, s, hidden_in(scene.standings, nodes, s)),
    }
}

/// The lines of all sessions of a frame.
pub fn push_sessions(
    page: &mut Page,
    alloc: Global,
    script: &Script,
    scene: &ExplainedFrame<'_>,
) -> Result<(), NoMemory>
    requires made { length scene.now.shown.now ≡ script.now.setup.sessions }
    requires all { length scene.now.standings.now ≡ script.now.setup.sessions }
    requires within { script.now.setup.sessions ≤ SESSIONS_MAX }
    requires fit { FitsSetup script.now.setup scene.now.shown.now }
    ensures { OnOk result (WritesLines (map (session_line script.now scene.now.ratio
        scene.now.shown.now scene.now.frame.now scene.now.standings.now)
        (sessions_to script.now.setup.sessions)) page.old page.new) }
{
    let sessions = script.setup.sessions;
    let counts = count_items(alloc, sessions, scene.frame.items.as_slice())?;
    for i in 0..sessions {
        let s = SessionNo(i + 1);
        push_session(page, alloc, script, scene, s, counts[i as usize])?;
    }
    Ok(())
}
