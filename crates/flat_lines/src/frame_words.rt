//! The lines of a frame: its draw items, its view tree and the sessions apart; and those of
//! the displays that were lost at it (specs/FrameLines).
ghost use Rattle.std.specs.Prelude.{◌≡◌, ◌++◌, ◌∷◌, [], OnOk, codes, cond, map, slice_index};
ghost use Rattle.flat_page.specs.Words.{number, numbers, session_name};
ghost use Rattle.flat_lines.specs.Names.{buffers_name};
ghost use Rattle.flat_page.specs.Pages.{Writes, WritesLines};
ghost use Rattle.flat_lines.specs.FrameLines.{rect_words, blend_word, paint_words, matrix_words, item_line};
ghost use Rattle.flat_lines.specs.FrameLines.{parent_word, view_line, apart_line, lost_at, lost_line};
ghost use Rattle.flat_print.specs.Choices.{flip_number};

use crate::entry_lines::push_long;
use crate::names::buffers_name;
use flat_base::{BufferNo, IntRect, NoMemory, Rect, SessionNo};
use flat_page::{Page, session_name};
use flat_places::Script;
use flat_print::flip_number;
use flat_scene::{BlendMode, DrawItem, LostDisplay, Paint, SceneMatrix, ViewNode, ViewTree};

fn push_rect(page: &mut Page, rect: Rect) -> Result<(), NoMemory>
    ensures { OnOk result (Writes (rect_words rect) page.old page.new) }
{
    page.places(rect.x0, rect.y0, rect.x1, rect.y1)
}

fn blend_word(blend: BlendMode) -> &'static [u8]
    ensures { result.now ≡ blend_word blend }
{
    match blend {
        BlendMode::Src => b"src",
        BlendMode::SrcOver => b"over",
    }
}

/// The bytes of a colour.
fn push_colour(page: &mut Page, rgba: [u8; 4]) -> Result<(), NoMemory>
    ensures { OnOk result (Writes (number (slice_index rgba 0) ∷ number (slice_index rgba 1)
        ∷ number (slice_index rgba 2) ∷ number (slice_index rgba 3) ∷ []) page.old page.new) }
{
    let [r, g, b, a] = rgba;
    page.counts(r as u32, g as u32)?;
    page.counts(b as u32, a as u32)
}

fn push_fill(page: &mut Page, w: u32, h: u32, rgba: [u8; 4]) -> Result<(), NoMemory>
    ensures { OnOk result (Writes (codes "fill"
        ∷ number (slice_index rgba 0) ∷ number (slice_index rgba 1)
        ∷ number (slice_index rgba 2) ∷ number (slice_index rgba 3)
        ∷ number w ∷ number h ∷ []) page.old page.new) }
{
    page.word(b"fill")?;
    push_colour(page, rgba)?;
    page.counts(w, h)
}

fn push_units(page: &mut Page, rect: IntRect) -> Result<(), NoMemory>
    ensures { OnOk result
        (Writes (numbers (rect.x ∷ rect.y ∷ rect.w ∷ rect.h ∷ [])) page.old page.new) }
{
    page.units(rect.x, rect.y, rect.w, rect.h)
}

fn push_sample(page: &mut Page, sample: IntRect) -> Result<(), NoMemory>
    ensures { OnOk result (Writes (codes "sample"
        ∷ numbers (sample.x ∷ sample.y ∷ sample.w ∷ sample.h ∷ [])) page.old page.new) }
{
    page.word(b"sample")?;
    push_units(page, sample)?;
    Ok(())
}

fn push_size(page: &mut Page, w: u32, h: u32) -> Result<(), NoMemory>
    ensures { OnOk result (Writes (codes "size" ∷ number w ∷ number h ∷ []) page.old page.new) }
{
    page.word(b"size")?;
    page.counts(w, h)
}

fn push_buffer(
    page: &mut Page,
    script: &Script,
    buffers: BufferNo,
    index: u32,
) -> Result<(), NoMemory>
    ensures { OnOk result (Writes
        (codes "image" ∷ buffers_name script.now buffers ∷ number index ∷ []) page.old page.new) }
{
    page.word(b"image")?;
    page.counted(buffers_name(script, buffers), index)
}

fn push_paint(
    page: &mut Page,
    script: &Script,
    w: u32,
    h: u32,
    paint: &Paint,
) -> Result<(), NoMemory>
    ensures { OnOk result (Writes (paint_words script.now w h paint.now) page.old page.new) }
{
    match paint {
        Paint::Fill { rgba } => push_fill(page, w, h, *rgba),
        Paint::Image {
            buffers,
            index,
            sample,
            flip,
        } => {
            push_buffer(page, script, *buffers, *index)?;
            push_sample(page, *sample)?;
            push_size(page, w, h)?;
            push_long(page, b"flip", flip_number(*flip))?;
            Ok(())
        }
    }
}

fn push_entries(page: &mut Page, matrix: SceneMatrix) -> Result<(), NoMemory>
    ensures { OnOk result
        (Writes (numbers (matrix.a ∷ matrix.b ∷ matrix.x ∷ matrix.y ∷ [])) page.old page.new) }
{
    page.places(matrix.a, matrix.b, matrix.x, matrix.y)
}

fn push_swap(page: &mut Page, swap: bool) -> Result<(), NoMemory>
    ensures { OnOk result (Writes (codes "m" ∷ number (cond swap 1 0) ∷ []) page.old page.new) }
{
    page.counted(b"m", if swap { 1 } else { 0 })
}

fn push_matrix(page: &mut Page, matrix: SceneMatrix) -> Result<(), NoMemory>
    ensures { OnOk result (Writes (matrix_words matrix) page.old page.new) }
{
    push_swap(page, matrix.swap)?;
    push_entries(page, matrix)?;
    Ok(())
}

fn push_visible(page: &mut Page, visible: Rect) -> Result<(), NoMemory>
    ensures { OnOk result (Writes (codes "v" ∷ rect_words visible) page.old page.new) }
{
    page.word(b"v")?;
    push_rect(page, visible)
}

fn push_look(page: &mut Page, opacity: u32, blend: BlendMode) -> Result<(), NoMemory>
    ensures { OnOk result
        (Writes (codes "o" ∷ number opacity ∷ blend_word blend ∷ []) page.old page.new) }
{
    page.counted(b"o", opacity)?;
    page.word(blend_word(blend))
}

/// The line of a draw item, without what ends it.
fn push_item_words(page: &mut Page, script: &Script, item: &DrawItem) -> Result<(), NoMemory>
    ensures { OnOk result (Writes (session_name script.now.sessions item.now.session
        ∷ number item.now.serial ∷ paint_words script.now item.now.w item.now.h item.now.paint
        ++ matrix_words item.now.matrix ++ (codes "v" ∷ rect_words item.now.visible)
        ++ (codes "o" ∷ number item.now.opacity ∷ blend_word item.now.blend ∷ []))
        page.old page.new) }
{
    page.counted(session_name(&script.sessions, item.session), item.serial)?;
    push_paint(page, script, item.w, item.h, &item.paint)?;
    push_matrix(page, item.matrix)?;
    push_visible(page, item.visible)?;
    push_look(page, item.opacity, item.blend)?;
    Ok(())
}

fn push_view_words(page: &mut Page, script: &Script, view: &ViewNode) -> Result<(), NoMemory>
    ensures { OnOk result (Writes (session_name script.now.sessions view.now.session
        ∷ parent_word script.now view.now.parent ∷ rect_words view.now.bounds) page.old page.new) }
{
    page.word(session_name(&script.sessions, view.session))?;
    page.word(parent_word(script, view.parent))?;
    push_rect(page, view.bounds)?;
    Ok(())
}

/// The name of a view's parent, or `-`.
fn parent_word(script: &Script, parent: Option<SessionNo>) -> &[u8]
    ensures { result.now ≡ parent_word script.now parent }
{
    match parent {
        Some(session) => session_name(&script.sessions, session),
        None => b"-",
    }
}

/// The line of a draw item.
pub fn push_item(page: &mut Page, script: &Script, item: &DrawItem) -> Result<(), NoMemory>
    ensures { OnOk result (WritesLines (item_line script.now item.now ∷ []) page.old page.new) }
{
    page.put(b"item")?;
    push_item_words(page, script, item)?;
    page.put(b"\n")?;
    Ok(())
}

/// The line of a view.
pub fn push_view(page: &mut Page, script: &Script, view: &ViewNode) -> Result<(), NoMemory>
    ensures { OnOk result (WritesLines (view_line script.now view.now ∷ []) page.old page.new) }
{
    page.put(b"view")?;
    push_view_words(page, script, view)?;
    page.put(b"\n")?;
    Ok(())
}

/// The line of a session that is apart.
pub fn push_apart(page: &mut Page, script: &Script, session: SessionNo) -> Result<(), NoMemory>
    ensures { OnOk result (WritesLines (apart_line script.now session ∷ []) page.old page.new) }
{
    page.put(b"apart")?;
    page.word(session_name(&script.sessions, session))?;
    page.put(b"\n")?;
    Ok(())
}

fn push_lost_words(page: &mut Page, lost: &LostDisplay) -> Result<(), NoMemory>
    ensures { OnOk result (Writes (number lost.now.display ∷ codes "lost" ∷ codes "at"
        ∷ codes "frame" ∷ number lost.now.frame.0 ∷ []) page.old page.new) }
{
    page.count(lost.display as u64)?;
    page.word(b"lost")?;
    page.word(b"at")?;
    page.counted(b"frame", lost.frame.0)?;
    Ok(())
}

/// The line of a display that was lost.
pub fn push_lost(page: &mut Page, lost: &LostDisplay) -> Result<(), NoMemory>
    ensures { OnOk result (WritesLines (lost_line lost.now ∷ []) page.old page.new) }
{
    page.put(b"display")?;
    push_lost_words(page, lost)?;
    page.put(b"\n")?;
    Ok(())
}

fn push_views(page: &mut Page, script: &Script, views: &[ViewNode]) -> Result<(), NoMemory>
    ensures { OnOk result (WritesLines (map (view_line script.now) views.now) page.old page.new) }
{
    for view in views {
        push_view(page, script, view)?;
    }
    Ok(())
}

fn push_aparts(page: &mut Page, script: &Script, sessions: &[SessionNo]) -> Result<(), NoMemory>
    ensures { OnOk result
        (WritesLines (map (apart_line script.now) sessions.now) page.old page.new) }
{
    for session in sessions {
        push_apart(page, script, *session)?;
    }
    Ok(())
}

/// The lines of a view tree: its views, the sessions apart.
pub fn push_tree(page: &mut Page, script: &Script, tree: &ViewTree) -> Result<(), NoMemory>
    ensures { OnOk result (WritesLines (map (view_line script.now) tree.now.nodes
        ++ map (apart_line script.now) tree.now.apart) page.old page.new) }
{
    push_views(page, script, tree.nodes.as_slice())?;
    push_aparts(page, script, tree.apart.as_slice())?;
    Ok(())
}

/// The line of a display, if it was lost at the frame of that number.
fn push_lost_at(page: &mut Page, number: u64, lost: &LostDisplay) -> Result<(), NoMemory>
    ensures { OnOk result
        (WritesLines (map lost_line (lost_at number (lost.now ∷ []))) page.old page.new) }
{
    if u64::from(lost.frame.0) == number {
        push_lost(page, lost)
    } else {
        Ok(())
    }
}

/// The lines of the displays that were lost at the frame of a number.
pub fn push_losses(page: &mut Page, number: u64, lost: &[LostDisplay]) -> Result<(), NoMemory>
    ensures { OnOk result
        (WritesLines (map lost_line (lost_at number lost.now)) page.old page.new) }
{
    for one in lost {
        push_lost_at(page, number, one)?;
    }
    Ok(())
}
