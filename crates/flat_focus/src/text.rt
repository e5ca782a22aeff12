ghost use Rattle.std.specs.Prelude.{◌≡◌, ◌≤◌, ◌<◌, [], ◌∷◌, ◌++◌, length, map, nat_lt, take_while, OnOk, IfOk};
ghost use Rattle.std.specs.List.{list_all};
ghost use Rattle.flat_page.specs.Happenings.{finished, said, count_before, merged, all_lines};
ghost use Rattle.flat_page.specs.Steps.{after_all};
ghost use Rattle.flat_page.specs.Pages.{Writes, WritesLines};
ghost use Rattle.flat_page.specs.Words.{number, session_name};
ghost use Rattle.flat_focus.specs.Chains.{answer_to};
ghost use Rattle.flat_focus.specs.Steps.{unfocused, framed, asked, lines_with, after};
ghost use Rattle.flat_focus.specs.Text.{chain_words, frame_line, answer_word, ask_line, end_line, focus_text};
ghost use Rattle.flat_focus.specs.Room.{AreFew};

use crate::focus::{Focus, FocusAnswer};
use flat_base::{FrameNo, Items, NoMemory, SessionNo};
use flat_page::{Page, session_name};
use flat_places::NameList;
use flat_scene::{FrameOut, ViewTree};
use std::alloc::Global;

/// A line on which a session asks for the focus of another.
#[derive(Clone, Copy, PartialEq, Eq)]
pub struct FocusLine {
    /// The number of the line.
    pub number: u32,
    pub by: SessionNo,
    pub of: SessionNo,
}

/// Lines that ask, in order.
pub type FocusLines = Items<FocusLine>;

fn push_names(page: &mut Page, names: &NameList, chain: &[SessionNo]) -> Result<(), NoMemory>
    ensures { OnOk result (Writes (map (session_name names.now) chain.now) page.old page.new) }
{
    for session in chain {
        page.word(session_name(names, *session))?;
    }
    Ok(())
}

fn push_chain(page: &mut Page, names: &NameList, chain: &[SessionNo]) -> Result<(), NoMemory>
    ensures { OnOk result (Writes (chain_words names.now chain.now) page.old page.new) }
{
    page.word(b"chain")?;
    push_names(page, names, chain)?;
    Ok(())
}

fn push_framed(
    page: &mut Page,
    names: &NameList,
    frame: FrameNo,
    chain: &[SessionNo],
) -> Result<(), NoMemory>
    ensures { OnOk result (Writes (number frame.0 ∷ chain_words names.now chain.now) page.old
        page.new) }
{
    page.count(frame.0 as u64)?;
    push_chain(page, names, chain)?;
    Ok(())
}

/// The line of a frame, where this is the chain after it.
fn push_frame_line(
    page: &mut Page,
    names: &NameList,
    frame: FrameNo,
    chain: &[SessionNo],
) -> Result<(), NoMemory>
    ensures { OnOk result (WritesLines (frame_line names.now frame.0 chain.now ∷ []) page.old
        page.new) }
{
    page.put(b"frame")?;
    push_framed(page, names, frame, chain)?;
    page.put(b"\n")?;
    Ok(())
}

fn answer_word(answer: FocusAnswer) -> &'static [u8]
    ensures { result.now ≡ answer_word answer }
{
    match answer {
        FocusAnswer::Granted => b"granted",
        FocusAnswer::Denied => b"denied",
    }
}

fn push_asked(page: &mut Page, names: &NameList, line: FocusLine) -> Result<(), NoMemory>
    ensures { OnOk result (Writes (number line.number ∷ session_name names.now line.by
        ∷ session_name names.now line.of ∷ []) page.old page.new) }
{
    page.count(line.number as u64)?;
    page.word(session_name(names, line.by))?;
    page.word(session_name(names, line.of))?;
    Ok(())
}

fn push_answered(
    page: &mut Page,
    names: &NameList,
    answer: FocusAnswer,
    chain: &[SessionNo],
) -> Result<(), NoMemory>
    ensures { OnOk result (Writes (answer_word answer ∷ chain_words names.now chain.now) page.old
        page.new) }
{
    page.word(answer_word(answer))?;
    push_chain(page, names, chain)?;
    Ok(())
}

fn push_ask_words(
    page: &mut Page,
    names: &NameList,
    line: FocusLine,
    answer: FocusAnswer,
    chain: &[SessionNo],
) -> Result<(), NoMemory>
    ensures { OnOk result (Writes (number line.number ∷ session_name names.now line.by
        ∷ session_name names.now line.of ∷ answer_word answer ∷ chain_words names.now chain.now)
        page.old page.new) }
{
    push_asked(page, names, line)?;
    push_answered(page, names, answer, chain)?;
    Ok(())
}

/// The line of a session that asks, where this is the answer, and the chain after
/// it.
fn push_ask_line(
    page: &mut Page,
    names: &NameList,
    line: FocusLine,
    answer: FocusAnswer,
    chain: &[SessionNo],
) -> Result<(), NoMemory>
    ensures { OnOk result (WritesLines (ask_line names.now line answer chain.now ∷ []) page.old
        page.new) }
{
    page.put(b"focus")?;
    push_ask_words(page, names, line, answer, chain)?;
    page.put(b"\n")?;
    Ok(())
}

/// A frame is finished.
fn push_frame(
    page: &mut Page,
    names: &NameList,
    focus: &mut Focus,
    frame: &FrameOut,
) -> Result<(), NoMemory>
    requires { length frame.now.tree.nodes ≤ focus.old.sessions }
    ensures text { OnOk result (WritesLines (frame_line names.now frame.now.frame.0
        (framed frame.now.tree.nodes focus.old).chain ∷ []) page.old page.new) }
    ensures after { focus.new ≡ framed frame.now.tree.nodes focus.old }
{
    focus.frame(&frame.tree);
    push_frame_line(page, names, frame.frame, focus.chain())
}

/// A session asks.
fn push_ask(
    page: &mut Page,
    names: &NameList,
    focus: &mut Focus,
    line: FocusLine,
) -> Result<(), NoMemory>
    ensures text { OnOk result (WritesLines (ask_line names.now line
        (answer_to focus.old.nodes line.by line.of) (asked line.by line.of focus.old).chain
        ∷ []) page.old page.new) }
    ensures after { focus.new ≡ asked line.by line.of focus.old }
{
    let answer = focus.request(line.by, line.of);
    push_ask_line(page, names, line, answer, focus.chain())
}

/// Sessions ask, one after another.
fn push_asks(
    page: &mut Page,
    names: &NameList,
    focus: &mut Focus,
    lines: &[FocusLine],
) -> Result<(), NoMemory>
    ensures text { OnOk result (WritesLines (all_lines (lines_with names.now) after focus.old
        (map said lines.now)) page.old page.new) }
    ensures after { OnOk result (focus.new ≡ after_all after (map said lines.now) focus.old) }
{
    for line in lines {
        push_ask(page, names, focus, *line)?;
    }
    Ok(())
}

/// Sessions ask, and then a frame is finished.
fn push_done(
    page: &mut Page,
    names: &NameList,
    focus: &mut Focus,
    early: &[FocusLine],
    frame: &FrameOut,
) -> Result<(), NoMemory>
    requires { length frame.now.tree.nodes ≤ focus.old.sessions }
    ensures text { OnOk result (WritesLines (all_lines (lines_with names.now) after focus.old
        (map said early.now ++ finished frame.now ∷ [])) page.old page.new) }
    ensures after { OnOk result (focus.new
        ≡ after_all after (map said early.now ++ finished frame.now ∷ []) focus.old) }
{
    push_asks(page, names, focus, early)?;
    push_frame(page, names, focus, frame)?;
    Ok(())
}

/// How many of the lines, from the first, stand before that of a number.
fn count_before(lines: &[FocusLine], done: u32) -> usize
    ensures { result ≡ count_before (λ line. line.number) done lines.now }
{
    lines.iter().take_while(|line| line.number < done).count()
}

/// Lines and frames, in the order of the text.
fn push_happenings(
    page: &mut Page,
    names: &NameList,
    focus: &mut Focus,
    dones: &[u32],
    frames: &[FrameOut],
    lines: &[FocusLine],
) -> Result<(), NoMemory>
    requires { AreFew focus.old.sessions frames.now }
    ensures { OnOk result (WritesLines (all_lines (lines_with names.now) after focus.old
        (merged (λ line. line.number) dones.now frames.now lines.now)) page.old page.new) }
{
    match dones {
        [done, dones @ ..] => match frames {
            [frame, frames @ ..] => {
                let (early, late) = lines.split_at(count_before(lines, *done));
                push_done(page, names, focus, early, frame)?;
                push_happenings(page, names, focus, dones, frames, late)?;
                Ok(())
            }
            [] => push_asks(page, names, focus, lines),
        },
        [] => push_asks(page, names, focus, lines),
    }
}

/// The focus text of finished frames and of lines that ask, in memory of its own.
/// `dones` are the numbers of the lines that finished the frames, and `names` those
/// of the sessions.
pub fn print_focus(
    alloc: Global,
    sessions: u32,
    names: &NameList,
    dones: &[u32],
    frames: &[FrameOut],
    lines: &[FocusLine],
) -> Result<Vec<u8>, NoMemory>
    requires { AreFew sessions frames.now }
    ensures { IfOk result (λ text. text.items
        ≡ focus_text names.now dones.now frames.now lines.now) }
{
    let mut page = Page::new(alloc);
    let mut focus = Focus::new(alloc, sessions)?;
    push_happenings(&mut page, names, &mut focus, dones, frames, lines)?;
    page.ends(b"focus", b"requests", lines.len())?;
    Ok(page.into_text())
}
