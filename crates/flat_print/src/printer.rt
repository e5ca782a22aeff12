ghost use Rattle.flat_page.specs.Pages.{Writes};
ghost use Rattle.flat_page.specs.Words.{actor_name, line_of, name_at};
ghost use Rattle.std.specs.Prelude.{◌≡◌, ◌++◌, ◌∷◌, [], ℕ, List, OnOk, IfOk, map, codes};
ghost use Rattle.flat_print.specs.Print.{Feeds, Starts, name_words};
ghost use Rattle.flat_print.specs.Print.{buffers_line_words, pair_line_words, fence_line_words};
ghost use Rattle.flat_print.specs.Print.{numbered, display_line_words, ratio_words, head_words, line_words};
ghost use Rattle.flat_print.specs.Print.{session_word, numbers, text_of, version_words};
ghost use Rattle.flat_print.specs.Print.{IsReadBack};
ghost use Rattle.flat_script.specs.Grammar.{IsScript};

use crate::print_lines::push_body;
use crate::print_words::{push_numbers, push_owners, session_word};
use flat_base::{NoMemory, ONE};
use flat_page::{Page, actor_name, name_at};
use flat_places::{Name, Script};
use flat_scene::{BufferDecl, FenceDecl, PairDecl, ScriptLine};
use std::alloc::Global;

/// The canonical text of a script, in memory of its own: the version, the display,
/// the sessions, the probes, the buffers, the pairs, the fences and `run`, each
/// sort in order of declaration; then the lines of the body. It has no line that
/// is skipped and no line feed at its end, and what may be left out where it says
/// nothing is left out.
///
/// A number that the script doesn't declare is written as an empty word; no script
/// that `parse` of flat_script gives has one.
pub fn print(alloc: Global, script: &Script) -> Result<Vec<u8>, NoMemory>
    ensures text { IfOk result (λ text. text.items ≡ text_of script.now) }
    // What is printed of a script that some text has is read as that script.
    ensures back { (bytes : List ℕ) → IsScript bytes script.now →
        IfOk result (λ text. IsReadBack text.items script.now) }
{
    let mut page = Page::new(alloc);
    push_version(&mut page, script)?;
    push_head(&mut page, script)?;
    push_lines(&mut page, script, script.lines.as_slice())?;
    Ok(page.into_text())
}

fn push_version(page: &mut Page, script: &Script) -> Result<(), NoMemory>
    ensures { OnOk result (page.new ≡ page.old ++ line_of (version_words script.now)) }
{
    page.put(b"flatland")?;
    push_numbers(page, &[script.version as u64])?;
    Ok(())
}

/// A line feed, and the first word of a line.
fn start(page: &mut Page, word: &[u8]) -> Result<(), NoMemory>
    ensures { OnOk result (Starts word.now page.old page.new) }
{
    page.put(b"\n")?;
    page.put(word)
}

fn push_line(page: &mut Page, script: &Script, line: &ScriptLine) -> Result<(), NoMemory>
    ensures { OnOk result (Feeds (line_words script.now line.now ∷ []) page.old
        page.new) }
{
    start(page, actor_name(script, line.actor))?;
    push_body(page, script, &line.body)?;
    Ok(())
}

fn push_lines(page: &mut Page, script: &Script, lines: &[ScriptLine]) -> Result<(), NoMemory>
    ensures { OnOk result (Feeds (map (line_words script.now) lines.now) page.old
        page.new) }
{
    for line in lines {
        push_line(page, script, line)?;
    }
    Ok(())
}

fn push_display(page: &mut Page, script: &Script) -> Result<(), NoMemory>
    ensures { OnOk result (Feeds (display_line_words script.now ∷ []) page.old
        page.new) }
{
    start(page, b"display")?;
    page.count(script.setup.width as u64)?;
    page.count(script.setup.height as u64)?;
    push_ratio(page, script.setup.ratio)?;
    Ok(())
}

/// The display's first pixel ratio, where it isn't one.
fn push_ratio(page: &mut Page, ratio: u32) -> Result<(), NoMemory>
    ensures { OnOk result (Writes (ratio_words ratio) page.old page.new) }
{
    if ratio == ONE {
        return Ok(());
    }
    page.count(ratio as u64)
}

fn push_name(page: &mut Page, keyword: &str, name: &[u8]) -> Result<(), NoMemory>
    ensures { OnOk result (Feeds (name_words keyword.now name.now ∷ []) page.old
        page.new) }
{
    start(page, keyword.as_bytes())?;
    page.word(name)?;
    Ok(())
}

fn push_names(page: &mut Page, keyword: &str, names: &[Name]) -> Result<(), NoMemory>
    ensures { OnOk result (Feeds (map (name_words keyword.now) names.now) page.old
        page.new) }
{
    for name in names {
        push_name(page, keyword, name.as_slice())?;
    }
    Ok(())
}

fn push_buffer(
    page: &mut Page,
    script: &Script,
    number: usize,
    decl: &BufferDecl,
) -> Result<(), NoMemory>
    ensures { OnOk result (Feeds (buffers_line_words script.now number decl.now
        ∷ []) page.old page.new) }
{
    start(page, b"buffers")?;
    page.word(name_at(&script.buffers, number))?;
    page.word(session_word(script, decl.owner))?;
    push_numbers(page, &[decl.count as u64, decl.w as u64, decl.h as u64])?;
    Ok(())
}

fn push_buffers(page: &mut Page, script: &Script, decls: &[BufferDecl]) -> Result<(), NoMemory>
    ensures { OnOk result (Feeds (numbered (buffers_line_words script.now) 0 decls.now)
        page.old page.new) }
{
    for (number, decl) in decls.iter().enumerate() {
        push_buffer(page, script, number, decl)?;
    }
    Ok(())
}

fn push_pair(
    page: &mut Page,
    script: &Script,
    number: usize,
    decl: &PairDecl,
) -> Result<(), NoMemory>
    ensures { OnOk result (Feeds (pair_line_words script.now number decl.now
        ∷ []) page.old page.new) }
{
    start(page, b"pair")?;
    page.word(name_at(&script.pairs, number))?;
    page.word(actor_name(script, decl.viewport))?;
    page.word(session_word(script, decl.view))?;
    Ok(())
}

fn push_pairs(page: &mut Page, script: &Script, decls: &[PairDecl]) -> Result<(), NoMemory>
    ensures { OnOk result (Feeds (numbered (pair_line_words script.now) 0 decls.now)
        page.old page.new) }
{
    for (number, decl) in decls.iter().enumerate() {
        push_pair(page, script, number, decl)?;
    }
    Ok(())
}

fn push_fence(
    page: &mut Page,
    script: &Script,
    number: usize,
    decl: &FenceDecl,
) -> Result<(), NoMemory>
    ensures { OnOk result (Feeds (fence_line_words script.now number decl.now
        ∷ []) page.old page.new) }
{
    start(page, b"fence")?;
    page.word(name_at(&script.fences, number))?;
    push_owners(page, script, decl.owners.as_slice())?;
    Ok(())
}

fn push_fences(page: &mut Page, script: &Script, decls: &[FenceDecl]) -> Result<(), NoMemory>
    ensures { OnOk result (Feeds (numbered (fence_line_words script.now) 0 decls.now)
        page.old page.new) }
{
    for (number, decl) in decls.iter().enumerate() {
        push_fence(page, script, number, decl)?;
    }
    Ok(())
}

fn push_run(page: &mut Page) -> Result<(), NoMemory>
    ensures { OnOk result (Feeds ((codes "run" ∷ []) ∷ []) page.old page.new) }
{
    start(page, b"run")
}

/// The head behind the version.
fn push_head(page: &mut Page, script: &Script) -> Result<(), NoMemory>
    ensures { OnOk result (Feeds (head_words script.now) page.old page.new) }
{
    push_display(page, script)?;
    push_names(page, "session", script.sessions.as_slice())?;
    push_names(page, "probe", script.probes.as_slice())?;
    push_buffers(page, script, script.setup.buffers.as_slice())?;
    push_pairs(page, script, script.setup.pairs.as_slice())?;
    push_fences(page, script, script.setup.fences.as_slice())?;
    push_run(page)?;
    Ok(())
}
