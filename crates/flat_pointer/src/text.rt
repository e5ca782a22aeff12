ghost use Rattle.std.specs.Prelude.{◌≡◌, ◌<◌, [], ◌∷◌, ◌++◌, length, take, map, codes, OnOk, IfOk};
ghost use Rattle.flat_page.specs.Happenings.{finished, said, count_before, merged, all_lines};
ghost use Rattle.flat_page.specs.Steps.{after_all};
ghost use Rattle.flat_page.specs.Pages.{Writes, WritesLines};
ghost use Rattle.flat_page.specs.Words.{number, numbers, session_name};
ghost use Rattle.flat_pointer.specs.Streams.{cancelled_in};
ghost use Rattle.flat_pointer.specs.Steps.{no_streams, stream_of, framed, after_call, lines_with, after, ArePointers};
ghost use Rattle.flat_pointer.specs.Text.{point_words, answer_words, touch_line, cancel_line, cancel_lines};
ghost use Rattle.flat_pointer.specs.Text.{frame_lines, end_line, call_answer, pointer_text};

use crate::pointers::{POINTERS, PointerAnswer, Pointers};
use flat_base::{FrameNo, Items, NoMemory, SessionNo};
use flat_page::{Page, session_name};
use flat_places::NameList;
use flat_scene::{FrameOut, HitList, ViewTree};
use std::alloc::Global;

/// What a pointer does, at a point of the display in units.
#[derive(Clone, Copy, PartialEq, Eq)]
pub enum PointerCall {
    Down { x: i32, y: i32 },
    Move { x: i32, y: i32 },
    Up,
}

/// A line of a pointer.
#[derive(Clone, Copy, PartialEq, Eq)]
pub struct PointerLine {
    /// The number of the line.
    pub number: u32,
    /// The number of the pointer, from 0 to 15.
    pub pointer: u8,
    pub call: PointerCall,
}

/// Lines of pointers, in order.
pub type PointerLines = Items<PointerLine>;

/// A line of a pointer, and whom its point hits, where it goes down.
#[derive(Drop)]
pub struct PointerTouch {
    pub line: PointerLine,
    pub hits: HitList,
}

fn push_named(
    page: &mut Page,
    names: &NameList,
    word: &[u8],
    session: SessionNo,
) -> Result<(), NoMemory>
    ensures { OnOk result (Writes (word.now ∷ session_name names.now session ∷ []) page.old
        page.new) }
{
    page.word(word)?;
    page.word(session_name(names, session))
}

fn push_point(page: &mut Page, call: PointerCall) -> Result<(), NoMemory>
    ensures { OnOk result (Writes (point_words call) page.old page.new) }
{
    match call {
        PointerCall::Move { x, y } => page.point(x, y),
        _ => Ok(()),
    }
}

fn push_moved(
    page: &mut Page,
    names: &NameList,
    call: PointerCall,
    session: SessionNo,
) -> Result<(), NoMemory>
    ensures { OnOk result (Writes (codes "move" ∷ session_name names.now session ∷ point_words call)
        page.old page.new) }
{
    push_named(page, names, b"move", session)?;
    push_point(page, call)?;
    Ok(())
}

fn push_answer(
    page: &mut Page,
    names: &NameList,
    call: PointerCall,
    answer: PointerAnswer,
) -> Result<(), NoMemory>
    ensures { OnOk result (Writes (answer_words names.now call answer) page.old page.new) }
{
    match answer {
        PointerAnswer::Down(session) => push_named(page, names, b"down", session),
        PointerAnswer::Moved(session) => push_moved(page, names, call, session),
        PointerAnswer::Up(session) => push_named(page, names, b"up", session),
        PointerAnswer::Nobody => page.word(b"nobody"),
        PointerAnswer::Busy => page.word(b"busy"),
    }
}

fn push_touch_words(
    page: &mut Page,
    names: &NameList,
    line: PointerLine,
    answer: PointerAnswer,
) -> Result<(), NoMemory>
    ensures { OnOk result (Writes (number line.number ∷ number line.pointer ∷ answer_words names.now
        line.call answer) page.old page.new) }
{
    page.count(line.number as u64)?;
    page.count(line.pointer as u64)?;
    push_answer(page, names, line.call, answer)?;
    Ok(())
}

/// The line of a pointer's line that is answered so.
fn push_touch_line(
    page: &mut Page,
    names: &NameList,
    line: PointerLine,
    answer: PointerAnswer,
) -> Result<(), NoMemory>
    ensures { OnOk result (WritesLines (touch_line names.now line answer ∷ []) page.old page.new) }
{
    page.put(b"pointer")?;
    push_touch_words(page, names, line, answer)?;
    page.put(b"\n")?;
    Ok(())
}

fn push_cancelled(
    page: &mut Page,
    names: &NameList,
    frame: u32,
    p: u8,
    session: SessionNo,
) -> Result<(), NoMemory>
    ensures { OnOk result (Writes (number frame ∷ number p ∷ session_name names.now session
        ∷ []) page.old page.new) }
{
    page.count(frame as u64)?;
    page.count(p as u64)?;
    page.word(session_name(names, session))?;
    Ok(())
}

fn push_cancel_line(
    page: &mut Page,
    names: &NameList,
    frame: u32,
    p: u8,
    session: SessionNo,
) -> Result<(), NoMemory>
    ensures { OnOk result (WritesLines ((codes "cancel" ∷ number frame ∷ number p
        ∷ session_name names.now session ∷ []) ∷ []) page.old page.new) }
{
    page.put(b"cancel")?;
    push_cancelled(page, names, frame, p, session)?;
    page.put(b"\n")?;
    Ok(())
}

/// The line of a pointer, if its stream is cancelled.
fn push_cancel(
    page: &mut Page,
    names: &NameList,
    frame: u32,
    p: u8,
    cancelled: Option<SessionNo>,
) -> Result<(), NoMemory>
    ensures { OnOk result (WritesLines (cancel_line names.now frame p cancelled) page.old
        page.new) }
{
    match cancelled {
        Some(session) => push_cancel_line(page, names, frame, p, session),
        None => Ok(()),
    }
}

/// All pointers see a frame: the lines of those whose streams are cancelled.
fn push_cancels(
    page: &mut Page,
    names: &NameList,
    pointers: &mut Pointers,
    frame: u32,
    tree: &ViewTree,
) -> Result<(), NoMemory>
    ensures text { OnOk result (WritesLines (cancel_lines names.now frame
        (λ p. cancelled_in tree.now.nodes (stream_of pointers.old p))) page.old page.new) }
    ensures after { OnOk result (pointers.new ≡ framed tree.now.nodes pointers.old) }
{
    for p in 0..POINTERS {
        let cancelled = pointers.cancel(p, tree);
        push_cancel(page, names, frame, p, cancelled)?;
    }
    Ok(())
}

fn push_title(page: &mut Page, frame: u32) -> Result<(), NoMemory>
    ensures { OnOk result (WritesLines ((codes "frame" ∷ number frame ∷ []) ∷ []) page.old
        page.new) }
{
    page.put(b"frame")?;
    page.count(frame as u64)?;
    page.put(b"\n")?;
    Ok(())
}

/// What a pointer's line is answered.
fn answer(pointers: &mut Pointers, touch: &PointerTouch) -> PointerAnswer
    requires { touch.now.line.pointer < POINTERS }
    ensures answer { result ≡ call_answer (stream_of pointers.old touch.now.line.pointer)
        touch.now.hits touch.now.line.call }
    ensures after { pointers.new ≡ after_call pointers.old touch.now.line.pointer touch.now.hits
        touch.now.line.call }
{
    match touch.line.call {
        PointerCall::Down { .. } => pointers.down(touch.line.pointer, &touch.hits),
        PointerCall::Move { .. } => pointers.moved(touch.line.pointer),
        PointerCall::Up => pointers.up(touch.line.pointer),
    }
}

/// A line of a pointer.
fn push_touch(
    page: &mut Page,
    names: &NameList,
    pointers: &mut Pointers,
    one: &PointerTouch,
) -> Result<(), NoMemory>
    requires { one.now.line.pointer < POINTERS }
    ensures text { OnOk result (WritesLines (touch_line names.now one.now.line
        (call_answer (stream_of pointers.old one.now.line.pointer) one.now.hits one.now.line.call)
        ∷ []) page.old page.new) }
    ensures after { pointers.new ≡ after_call pointers.old one.now.line.pointer one.now.hits
        one.now.line.call }
{
    let answer = answer(pointers, one);
    push_touch_line(page, names, one.line, answer)
}

/// Lines of pointers, one after another.
fn push_touches(
    page: &mut Page,
    names: &NameList,
    pointers: &mut Pointers,
    touches: &[PointerTouch],
) -> Result<(), NoMemory>
    requires { ArePointers touches.now }
    ensures text { OnOk result (WritesLines (all_lines (lines_with names.now) after pointers.old
        (map said touches.now)) page.old page.new) }
    ensures after { OnOk result (pointers.new
        ≡ after_all after (map said touches.now) pointers.old) }
{
    for one in touches {
        push_touch(page, names, pointers, one)?;
    }
    Ok(())
}

/// A frame is finished.
fn push_frame(
    page: &mut Page,
    names: &NameList,
    pointers: &mut Pointers,
    frame: &FrameOut,
) -> Result<(), NoMemory>
    ensures text { OnOk result (WritesLines (frame_lines names.now frame.now.frame.0
        (λ p. cancelled_in frame.now.tree.nodes (stream_of pointers.old p))) page.old page.new) }
    ensures after { OnOk result (pointers.new ≡ framed frame.now.tree.nodes pointers.old) }
{
    push_title(page, frame.frame.0)?;
    push_cancels(page, names, pointers, frame.frame.0, &frame.tree)?;
    Ok(())
}

/// Lines of pointers, and then a frame is finished.
fn push_done(
    page: &mut Page,
    names: &NameList,
    pointers: &mut Pointers,
    early: &[PointerTouch],
    frame: &FrameOut,
) -> Result<(), NoMemory>
    requires { ArePointers early.now }
    ensures text { OnOk result (WritesLines (all_lines (lines_with names.now) after pointers.old
        (map said early.now ++ finished frame.now ∷ [])) page.old page.new) }
    ensures after { OnOk result (pointers.new
        ≡ after_all after (map said early.now ++ finished frame.now ∷ []) pointers.old) }
{
    push_touches(page, names, pointers, early)?;
    push_frame(page, names, pointers, frame)?;
    Ok(())
}

/// How many of the lines, from the first, stand before that of a number.
fn count_before(touches: &[PointerTouch], done: u32) -> usize
    ensures { result ≡ count_before (λ touch. touch.line.number) done touches.now }
{
    touches
        .iter()
        .take_while(|touch| touch.line.number < done)
        .count()
}

/// Lines and frames, in the order of the text.
fn push_happenings(
    page: &mut Page,
    names: &NameList,
    pointers: &mut Pointers,
    dones: &[u32],
    frames: &[FrameOut],
    touches: &[PointerTouch],
) -> Result<(), NoMemory>
    requires { ArePointers touches.now }
    ensures { OnOk result (WritesLines (all_lines (lines_with names.now) after pointers.old
        (merged (λ touch. touch.line.number) dones.now frames.now touches.now)) page.old page.new) }
{
    match dones {
        [done, dones @ ..] => match frames {
            [frame, frames @ ..] => {
                let (early, late) = touches.split_at(count_before(touches, *done));
                push_done(page, names, pointers, early, frame)?;
                push_happenings(page, names, pointers, dones, frames, late)?;
                Ok(())
            }
            [] => push_touches(page, names, pointers, touches),
        },
        [] => push_touches(page, names, pointers, touches),
    }
}

fn push_text(
    page: &mut Page,
    names: &NameList,
    dones: &[u32],
    frames: &[FrameOut],
    touches: &[PointerTouch],
) -> Result<(), NoMemory>
    requires { ArePointers touches.now }
    ensures { OnOk result (WritesLines (all_lines (lines_with names.now) after no_streams
        (merged (λ touch. touch.line.number) dones.now frames.now touches.now)
        ++ end_line (length touches.now) ∷ []) page.old page.new) }
{
    let mut pointers = Pointers::new();
    push_happenings(page, names, &mut pointers, dones, frames, touches)?;
    page.ends(b"pointer", b"lines", touches.len())?;
    Ok(())
}

/// The pointer text of finished frames and of pointers' lines, in memory of its own.
/// `dones` are the numbers of the lines that finished the frames, and `names` those
/// of the sessions.
pub fn print_pointers(
    alloc: Global,
    names: &NameList,
    dones: &[u32],
    frames: &[FrameOut],
    touches: &[PointerTouch],
) -> Result<Vec<u8>, NoMemory>
    requires { ArePointers touches.now }
    ensures { IfOk result (λ text. text.items ≡ pointer_text names.now dones.now frames.now
        touches.now) }
{
    let mut page = Page::new(alloc);
    push_text(&mut page, names, dones, frames, touches)?;
    Ok(page.into_text())
}
