//! Plays the lines of a script in written order. Fallible functions borrow the `Play`:
//! owning it makes every early return drop it field by field, which is slow to prove. On an
//! error, `play_lines` drops it by one call of `drop`.
ghost use Rattle.std.specs.Prelude.{◌≡◌, ◌+◌, ◌<◌, ◌^◌, slice_index, [], true, length, replicate};
ghost use Rattle.std.specs.Prelude.{IfOk, OnOk};
ghost use Rattle.flat_scene.specs.Journals.{seat_number};
ghost use Rattle.flat_scene.specs.Heads.{is_setup};
ghost use Rattle.flat_playable.specs.Playable.{is_playable};
ghost use Rattle.flat_play.specs.Beginning.{AreBegun};
ghost use Rattle.flat_play.specs.Playing.{with_one_more, shares_of, AreNew, PlayStands};
ghost use Rattle.flat_play.specs.Explaining.{NotesOn, StandsExplained};
ghost use Rattle.flat_play.specs.Runs.{HasReadLines};
ghost use Rattle.flat_play.specs.Keeping.{keeping_of};
ghost use Rattle.flat_display.specs.Had.{AreKept};
ghost use Rattle.flat_pointer.specs.Lines.{rise_after};

use crate::kept_frames::FramesToKeep;
use crate::play::Play;
use crate::probes::{answer_line, no_answers};
use crate::side_output::SideOutput;
use crate::store::FrameStore;
use crate::touches::{answer_all, answer_upto};
use flat_base::{Actor, NoMemory, SessionNo, ShareList, TryCopy};
use flat_core::{Board, FrameStart};
use flat_display::{Display, DisplaySet};
use flat_places::Script;
use flat_pointer::{PointerLine, PointerTouch};
use flat_report::ProbeAnswers;
use flat_scene::Setup;
use flat_session::{SessionReader, lines_are_read};
use std::alloc::Global;

/// The number of an actor's seat.
fn seat_of(actor: Actor) -> u64
    ensures { result ≡ seat_number actor }
{
    match actor {
        Actor::Display => 0,
        Actor::Session(s) => u64::from(s.0),
        Actor::Probe(_) => u64::from(u32::MAX) + 1,
    }
}

/// Counts one more line of an actor, where its seat has a share.
fn count_line(shares: &mut ShareList, actor: Actor)
    requires { slice_index shares.old (seat_number actor) + 1 < 2 ^ 32 }
    ensures { shares.new ≡ with_one_more (seat_number actor) shares.old }
{
    let place = seat_of(actor) as usize;
    if place < shares.len() {
        let share = *shares.at(place);
        shares.set(place, share + 1);
    }
}

/// How many entries each actor may make: one for each of its lines, and a session
/// its End. The lines are gone through once.
fn shares_of(alloc: Global, script: &Script) -> Result<ShareList, NoMemory>
    requires { length script.now.lines < 2 ^ 31 }
    ensures { IfOk result (λ shares. shares ≡ shares_of script.now) }
{
    let mut shares = ShareList::new(alloc);
    shares.push(0)?;
    for _ in 0..script.setup.sessions {
        shares.push(1)?;
    }
    for place in 0..script.lines.len() {
        count_line(&mut shares, script.lines.at(place).actor);
    }
    Ok(shares)
}

/// The sessions of a setup, none of which has read a line.
fn new_readers(alloc: Global, setup: &Setup) -> Result<Vec<SessionReader>, NoMemory>
    requires { is_setup setup.now ≡ true }
    ensures { IfOk result (λ readers. AreNew setup.now setup.now.sessions readers.items) }
{
    let mut readers = Vec::new(alloc);
    for before in 0..setup.sessions {
        let reader = SessionReader::new(alloc, SessionNo(before + 1), &setup.buffers)?;
        readers.push(reader)?;
    }
    Ok(readers)
}

/// A board of a script's setup before any entry, with room for its lines.
pub fn open_board(alloc: Global, script: &Script) -> Result<Board, NoMemory>
    requires { is_playable script.now ≡ true }
    ensures { IfOk result (λ board. board
        ≡ record { setup = script.now.setup; shares = shares_of script.now; history = [] }) }
{
    let shares = shares_of(alloc, script)?;
    let setup = script.setup.copy(alloc)?;
    Board::open(alloc, setup, shares)
}

/// A run of which no line is played.
fn start(alloc: Global, script: &Script, keeping: FramesToKeep) -> Result<Play, NoMemory>
    requires { is_playable script.now ≡ true }
    ensures stands { IfOk result (λ play. PlayStands script.now 0 play) }
    ensures keeping { IfOk result (λ play. keeping_of play.store.kept ≡ keeping) }
    ensures no_entry { IfOk result (λ play. play.board.history ≡ []) }
{
    lines_are_read();
    let readers = new_readers(alloc, &script.setup)?;
    let start = FrameStart::new(alloc, &script.setup)?;
    let store = FrameStore::new(alloc, script, keeping)?;
    let board = open_board(alloc, script)?;
    Ok(Play {
        board,
        readers,
        start,
        store,
    })
}

/// What a play reads: a script, and the pointers' lines to answer on the way.
#[derive(Clone, Copy)]
pub(crate) struct PlayInput<'a> {
    pub(crate) script: &'a Script,
    pub(crate) pointers: &'a [PointerLine],
}

/// A play of a script's lines, with the answers to the lines of pointers and probes.
#[derive(Drop)]
pub(crate) struct LinesPlayed {
    pub(crate) play: Play,
    pub(crate) touches: Vec<PointerTouch>,
    pub(crate) probes: Vec<ProbeAnswers>,
}

/// Plays all lines of a script in written order, in a play that has played none. Shows each
/// frame to the displays before it is finished, and answers each line of a pointer or a probe
/// at its place among the others.
fn play_each(
    alloc: Global,
    input: PlayInput<'_>,
    ran: &mut LinesPlayed,
    explaining: &mut SideOutput,
    set: &mut DisplaySet,
    displays: &mut Vec<Box<dyn Display>>,
) -> Result<(), NoMemory>
    requires playable { is_playable input.script.now ≡ true }
    requires begins { PlayStands input.script.now 0 ran.old.play }
    requires no_entry { ran.old.play.board.history ≡ [] }
    requires no_answer { ran.old.touches.items ≡ [] }
    requires unasked { ran.old.probes.items ≡ replicate input.script.now.setup.probes [] }
    requires rise { rise_after 0 input.pointers.now ≡ true }
    requires unexplained { StandsExplained input.script.now [] explaining.old }
    requires number { length displays.old.items ≡ set.old.displays }
    requires few { set.old.displays < 2 ^ 32 }
    requires none { set.old.lost ≡ [] }
    ensures reads { OnOk result (HasReadLines (λ d. shown d) (λ d. faults d)
        input.entry.script.now displays.old.items displays.new.items
        (keeping_of ran.old.play.store.kept) input.entry.pointers.now ran.new.play
        ran.new.touches.items ran.new.probes.items set.new.lost) }
    ensures notes { OnOk result (NotesOn input.entry.script.now ran.new.play.board.history
        explaining.old explaining.new) }
    ensures kept { AreKept (λ d. shown d) (λ d. faults d) (AreBegun input.entry.script.now)
        displays.old.items displays.new.items (λ d. d.vtable) }
{
    let script = input.script;
    let setup = &script.setup;
    let mut left = input.pointers;
    for place in 0..script.lines.len() {
        // proof: the entries so far are legal.
        let _journal = ran.play.board.journal();
        let line = script.lines.at(place);
        let last = &mut ran.play.store.last;
        left = answer_upto(alloc, setup, last, left, line.number, &mut ran.touches)?;
        answer_line(alloc, setup, last, line, &mut ran.probes)?;
        let frame = last.frame;
        let entries = ran.play.board.journal().entries.len();
        ran.play.play_line(alloc, script, place, set, displays)?;
        // proof: and so are they with those of the line.
        let _journal = ran.play.board.journal();
        explaining.note(alloc, script, &ran.play, entries, frame)?;
    }
    // proof: so are all of them.
    let _journal = ran.play.board.journal();
    answer_all(
        alloc,
        setup,
        &mut ran.play.store.last,
        left,
        &mut ran.touches,
    )?;
    Ok(())
}

/// Plays a script to the end of its lines.
pub(crate) fn play_lines(
    alloc: Global,
    input: PlayInput<'_>,
    keeping: FramesToKeep,
    explaining: &mut SideOutput,
    set: &mut DisplaySet,
    displays: &mut Vec<Box<dyn Display>>,
) -> Result<LinesPlayed, NoMemory>
    requires playable { is_playable input.script.now ≡ true }
    requires rise { rise_after 0 input.pointers.now ≡ true }
    requires unexplained { StandsExplained input.script.now [] explaining.old }
    requires number { length displays.old.items ≡ set.old.displays }
    requires few { set.old.displays < 2 ^ 32 }
    requires none { set.old.lost ≡ [] }
    ensures reads { IfOk result (λ ran. HasReadLines (λ d. shown d) (λ d. faults d)
        input.entry.script.now displays.old.items displays.new.items keeping
        input.entry.pointers.now ran.play ran.touches.items ran.probes.items set.new.lost) }
    ensures notes { IfOk result (λ ran. NotesOn input.entry.script.now ran.play.board.history
        explaining.old explaining.new) }
    ensures kept { AreKept (λ d. shown d) (λ d. faults d) (AreBegun input.entry.script.now)
        displays.old.items displays.new.items (λ d. d.vtable) }
{
    let script = input.script;
    let probes = no_answers(alloc, script.setup.probes)?;
    let touches = Vec::new(alloc);
    let play = start(alloc, script, keeping)?;
    let mut ran = LinesPlayed {
        play,
        touches,
        probes,
    };
    match play_each(alloc, input, &mut ran, explaining, set, displays) {
        Ok(()) => Ok(ran),
        Err(NoMemory) => {
            drop(ran);
            Err(NoMemory)
        }
    }
}
