ghost use Rattle.std.specs.Prelude.{◌≡◌, ◌++◌, ◌∷◌, [], OnOk, codes};
ghost use Rattle.std.specs.Fmt.{decimal, signed_decimal};
ghost use Rattle.flat_page.specs.Pages.{Writes};
ghost use Rattle.flat_print.specs.Print.{session_word, lists_words};
ghost use Rattle.flat_print.specs.Print.{unsquashable_word, present_words, condition_words};
ghost use Rattle.flat_print.specs.Print.{get_words, session_words};
ghost use Rattle.flat_print.specs.Print.{display_words, probe_words, body_words};

use crate::print_calls::push_call;
use crate::print_words::{fence_word, push_list, session_word};
use flat_base::{ContentId, NoMemory, SessionNo};
use flat_page::Page;
use flat_places::Script;
use flat_scene::{
    DisplayLine, LineBody, PresentArgs, ProbeLine, SessionLine, WaitCondition, Watch,
};

fn push_present(page: &mut Page, script: &Script, present: &PresentArgs) -> Result<(), NoMemory>
    ensures { OnOk result (Writes (present_words script.now present.now) page.old
        page.new) }
{
    page.word(b"Present")?;
    page.count(present.time)?;
    push_unsquashable(page, present.unsquashable)?;
    push_lists(page, script, present)?;
    Ok(())
}

fn push_unsquashable(page: &mut Page, unsquashable: bool) -> Result<(), NoMemory>
    ensures { OnOk result (Writes (unsquashable_word unsquashable) page.old page.new) }
{
    if unsquashable {
        page.word(b"unsquashable")
    } else {
        Ok(())
    }
}

fn push_lists(page: &mut Page, script: &Script, present: &PresentArgs) -> Result<(), NoMemory>
    ensures { OnOk result (Writes (lists_words script.now present.now) page.old
        page.new) }
{
    push_list(page, script, "acquire", present.acquire.as_slice())?;
    push_list(page, script, "release", present.release.as_slice())?;
    Ok(())
}

fn push_condition(
    page: &mut Page,
    script: &Script,
    condition: WaitCondition,
) -> Result<(), NoMemory>
    ensures { OnOk result (Writes (condition_words script.now condition) page.old
        page.new) }
{
    match condition {
        WaitCondition::Frames(n) => push_count(page, "frames", n),
        WaitCondition::Credits(n) => push_count(page, "credits", n),
        WaitCondition::Taken(n) => push_count(page, "taken", n),
        WaitCondition::Answers(n) => push_count(page, "answers", n),
        WaitCondition::Fence(f) => push_named(page, "fence", fence_word(script, f)),
        WaitCondition::Presents(a, n) => push_presents(page, script, a, n),
    }
}

fn push_count(page: &mut Page, word: &str, n: u32) -> Result<(), NoMemory>
    ensures { OnOk result (Writes (word.now ∷ decimal n ∷ []) page.old page.new) }
{
    page.word(word.as_bytes())?;
    page.count(n as u64)?;
    Ok(())
}

fn push_named(page: &mut Page, word: &str, name: &[u8]) -> Result<(), NoMemory>
    ensures { OnOk result (Writes (word.now ∷ name.now ∷ []) page.old page.new) }
{
    page.word(word.as_bytes())?;
    page.word(name)?;
    Ok(())
}

fn push_presents(
    page: &mut Page,
    script: &Script,
    session: SessionNo,
    n: u32,
) -> Result<(), NoMemory>
    ensures { OnOk result (Writes (codes "presents" ∷ session_word script.now session ∷ decimal n
        ∷ []) page.old page.new) }
{
    push_named(page, "presents", session_word(script, session))?;
    page.count(n as u64)?;
    Ok(())
}

fn push_get(page: &mut Page, watch: Watch) -> Result<(), NoMemory>
    ensures { OnOk result (Writes (get_words watch) page.old page.new) }
{
    match watch {
        Watch::Layout => page.word(b"GetLayout"),
        Watch::Status => page.word(b"GetStatus"),
        Watch::Child(c) => push_child(page, c),
    }
}

fn push_child(page: &mut Page, c: ContentId) -> Result<(), NoMemory>
    ensures { OnOk result (Writes (codes "GetChildStatus" ∷ decimal c.0 ∷ []) page.old
        page.new) }
{
    page.word(b"GetChildStatus")?;
    page.count(c.0)?;
    Ok(())
}

fn push_wait(page: &mut Page, script: &Script, condition: WaitCondition) -> Result<(), NoMemory>
    ensures { OnOk result (Writes (codes "Wait" ∷ condition_words script.now condition)
        page.old page.new) }
{
    page.word(b"Wait")?;
    push_condition(page, script, condition)?;
    Ok(())
}

fn push_hit(page: &mut Page, x: i32, y: i32) -> Result<(), NoMemory>
    ensures { OnOk result (Writes (codes "hit" ∷ signed_decimal x ∷ signed_decimal y
        ∷ []) page.old page.new) }
{
    page.word(b"hit")?;
    page.point(x, y)?;
    Ok(())
}

fn push_time(page: &mut Page, time: u64) -> Result<(), NoMemory>
    ensures { OnOk result (Writes (codes "begin" ∷ decimal time ∷ []) page.old page.new) }
{
    page.word(b"begin")?;
    page.count(time)?;
    Ok(())
}

fn push_session_line(page: &mut Page, script: &Script, line: &SessionLine) -> Result<(), NoMemory>
    ensures { OnOk result (Writes (session_words script.now line.now) page.old page.new) }
{
    match line {
        SessionLine::Call(call) => push_call(page, script, call),
        SessionLine::Present(present) => push_present(page, script, present),
        SessionLine::Get(watch) => push_get(page, *watch),
        SessionLine::Signal(f) => push_named(page, "Signal", fence_word(script, *f)),
        SessionLine::Poll => page.word(b"Poll"),
        SessionLine::Wait(condition) => push_wait(page, script, *condition),
        SessionLine::Disconnect => page.word(b"Disconnect"),
    }
}

fn push_display_line(page: &mut Page, script: &Script, line: DisplayLine) -> Result<(), NoMemory>
    ensures { OnOk result (Writes (display_words script.now line) page.old page.new) }
{
    match line {
        DisplayLine::Begin(time) => push_time(page, time),
        DisplayLine::Done => page.word(b"done"),
        DisplayLine::Signal(f) => push_named(page, "Signal", fence_word(script, f)),
        DisplayLine::Wait(condition) => push_wait(page, script, condition),
        DisplayLine::Hit(x, y) => push_hit(page, x, y),
        DisplayLine::Dpr(ratio) => push_count(page, "dpr", ratio),
    }
}

fn push_probe_line(page: &mut Page, line: ProbeLine) -> Result<(), NoMemory>
    ensures { OnOk result (Writes (probe_words line) page.old page.new) }
{
    match line {
        ProbeLine::Hit(x, y) => push_hit(page, x, y),
        ProbeLine::Await(n) => push_count(page, "await", n),
    }
}

/// What stands behind an actor.
pub fn push_body(page: &mut Page, script: &Script, body: &LineBody) -> Result<(), NoMemory>
    ensures { OnOk result (Writes (body_words script.now body.now) page.old page.new) }
{
    match body {
        LineBody::Session(line) => push_session_line(page, script, line),
        LineBody::Display(line) => push_display_line(page, script, *line),
        LineBody::Probe(line) => push_probe_line(page, *line),
    }
}
