//! The load: its script is written as text and read like any other, since the text is what
//! anyone can repeat and there is one way into a run. All numbers of its summary but the
//! first are counted from the run.
ghost use Rattle.std.specs.Prelude.{◌≡◌, ◌<◌, ◌≤◌, ◌^◌, length, count_by, IfOk, Ok, Some, None};
ghost use Rattle.flat_base.specs.declared.limits.TheConstants.{LOAD_FRAMES_MAX};
ghost use Rattle.flat_report.specs.Report.{finished};
ghost use Rattle.flat_scene.specs.History.{is_finish};
ghost use Rattle.flat_scene.specs.Journals.{history_of};
ghost use Rattle.flat_base.specs.Last.{last_item};
ghost use Rattle.std.specs.Option.{option_copied};
ghost use Rattle.flat_script.specs.Grammar.{text_read};
ghost use Rattle.flat_stress.specs.Load.{load_text};
ghost use Rattle.flat_words.specs.declared.service_word.ServiceWord.TheVariants.{Stress};
ghost use Rattle.flat_display.specs.Had.{AreKept};
ghost use Rattle.flat_play.specs.Beginning.{AreBegun};
ghost use Rattle.flat_run.specs.Promise.{AreFramesOf, IsTold};
ghost use Rattle.flat_run.specs.Totals.{is_present, items_of, totals_of};

use crate::answers::{DONE, ServiceAnswer};
use flat_base::NoMemory;
use flat_display::Display;
use flat_places::Script;
use flat_play::{FramesToKeep, play_script};
use flat_playable::scripts_are_playable;
use flat_report::{TextPieces, due_presents_are_taken, frames_are_seen};
use flat_rules::families_are_alone;
use flat_scene::{Entry, EntryKind, FrameOut, Journal, Setup};
use flat_script::{ScriptError, parse};
use flat_stress::{LoadTotals, loads_are_scripts, loads_have_their_frames, summary};
use std::alloc::Global;

/// How many of some entries end a frame, and how many are presents.
fn finishes_and_presents(entries: &[Entry]) -> (usize, usize)
    ensures finishes { result.0 ≡ count_by (λ entry. is_finish entry.kind) entries.now }
    ensures presents { result.1 ≡ count_by (λ entry. is_present entry.kind) entries.now }
{
    let mut finishes = 0;
    let mut presents = 0;
    for entry in entries {
        finishes += usize::from(is_finish(&entry.kind));
        presents += usize::from(is_present(&entry.kind));
    }
    (finishes, presents)
}

fn is_finish(kind: &EntryKind) -> bool
    ensures { result ≡ is_finish kind.now }
{
    matches!(kind, EntryKind::Finish)
}

#[tactic(auto, unfolding(crate::specs::Totals::is_present))]
fn is_present(kind: &EntryKind) -> bool
    ensures { result ≡ is_present kind.now }
{
    matches!(kind, EntryKind::Present(_))
}

/// How many items the last frame has.
fn items_of(last: Option<&FrameOut>) -> usize
    ensures { result ≡ items_of (option_copied last.entry) }
{
    match last {
        Some(frame) => frame.items.len(),
        None => 0,
    }
}

/// What a run of the load of so many frames comes to, by its setup, its journal and the
/// last of the frames that it finished.
fn totals_of(frames: u32, setup: &Setup, journal: &Journal, last: Option<&FrameOut>) -> LoadTotals
    requires { option_copied last ≡
        last_item (finished setup.now (history_of journal.now.entries.items)) }
    ensures { result ≡ totals_of frames setup.now (history_of journal.now.entries.items) }
{
    let entries = journal.entries.as_slice();
    let (finishes, presents) = finishes_and_presents(entries);
    LoadTotals {
        load: frames,
        sessions: setup.sessions,
        entries: entries.len(),
        frames: finishes,
        presents,
        items: items_of(last),
    }
}

/// Plays the script of the load of so many frames, and sums its run up.
fn summed(
    alloc: Global,
    frames: u32,
    script: &Script,
    displays: &mut Vec<Box<dyn Display>>,
) -> Result<Vec<u8>, NoMemory>
    requires first { 1 ≤ frames }
    requires last { frames ≤ LOAD_FRAMES_MAX }
    requires read { text_read (load_text frames) ≡ Ok script.now }
    requires few { length displays.old.items < 2 ^ 32 }
    ensures told { IfOk result (λ text. IsTold (λ d. shown d) (λ d. faults d)
        displays.old.items displays.new.items (Stress frames) (load_text frames) text.items) }
    ensures kept { AreKept (λ d. shown d) (λ d. faults d) (AreBegun script.now)
        displays.old.items displays.new.items (λ d. d.vtable) }
{
    families_are_alone();
    due_presents_are_taken();
    frames_are_seen();
    scripts_are_playable();
    loads_have_their_frames();
    let played = play_script(alloc, script, FramesToKeep::Last, displays)?;
    let journal = played.board.journal();
    let totals = totals_of(frames, &script.setup, journal, played.kept.last());
    played.let_go();
    summary(alloc, totals)
}

/// The script of the load of so many frames, read from its text.
fn load_script(alloc: Global, frames: u32) -> Result<Script, NoMemory>
    requires first { 1 ≤ frames }
    requires last { frames ≤ LOAD_FRAMES_MAX }
    ensures { IfOk result (λ script. text_read (load_text frames) ≡ Ok script) }
{
    loads_are_scripts();
    let load = flat_stress::script(alloc, frames)?;
    match parse(alloc, load.as_slice()) {
        Ok(script) => Ok(script),
        Err(ScriptError::Fault(_)) => unreachable!(),
        Err(ScriptError::Memory) => Err(NoMemory),
    }
}

/// The summary of a run of the load of so many frames.
fn load_summary(
    alloc: Global,
    frames: u32,
    displays: &mut Vec<Box<dyn Display>>,
) -> Result<Vec<u8>, NoMemory>
    requires first { 1 ≤ frames }
    requires last { frames ≤ LOAD_FRAMES_MAX }
    requires few { length displays.old.items < 2 ^ 32 }
    ensures told { IfOk result (λ text. IsTold (λ d. shown d) (λ d. faults d)
        displays.old.items displays.new.items (Stress frames) (load_text frames) text.items) }
    ensures kept { AreKept (λ d. shown d) (λ d. faults d) (AreFramesOf (Stress frames)
        (load_text frames)) displays.old.items displays.new.items (λ d. d.vtable) }
{
    let script = load_script(alloc, frames)?;
    let text = summed(alloc, frames, &script, displays);
    drop(script);
    text
}

/// Plays the load of so many frames.
pub fn stress(
    alloc: Global,
    frames: u32,
    displays: &mut Vec<Box<dyn Display>>,
) -> Result<ServiceAnswer, NoMemory>
    requires first { 1 ≤ frames }
    requires last { frames ≤ LOAD_FRAMES_MAX }
    requires few { length displays.old.items < 2 ^ 32 }
    ensures status { IfOk result (λ answer. answer.status ≡ DONE) }
    ensures told { IfOk result (λ answer. IsTold (λ d. shown d) (λ d. faults d)
        displays.old.items displays.new.items (Stress frames) (load_text frames) answer.text) }
    ensures kept { AreKept (λ d. shown d) (λ d. faults d) (AreFramesOf (Stress frames)
        (load_text frames)) displays.old.items displays.new.items (λ d. d.vtable) }
{
    let text = load_summary(alloc, frames, displays)?;
    Ok(ServiceAnswer {
        status: DONE,
        text: TextPieces::one(alloc, text)?,
    })
}
