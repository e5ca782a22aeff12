//! The frames that the lines of probes saw, as a report says. Probes are asked while a run
//! goes on, but their answers stand behind all entries: so the end of the text is looked
//! through for them first.
ghost use Rattle.std.specs.Prelude.{◌≡◌, ◌+◌, ◌-◌, drop, length, replicate, slice_get, Some, IfOk, OnOk};
ghost use Rattle.std.specs.Prelude.{List, ℕ, [], false};
ghost use Rattle.std.specs.Char.{is_ascii_digit};
ghost use Rattle.std.specs.List.{list_all};
ghost use Rattle.flat_text.specs.Number.{natural};
ghost use Rattle.flat_text.specs.Pieces.{lines_of, words_of};
ghost use Rattle.flat_places.specs.Names.{place_of};
ghost use Rattle.flat_report.specs.Report.{is_probe, probe_lines, probe_lines_of};
ghost use Rattle.flat_judge.specs.Heeding.{is_reached};
ghost use Rattle.flat_judge.specs.Hints.{AreHints, AreNamed, NotesLine, frame_told, low_number};
ghost use Rattle.flat_judge.specs.Hints.{probe_answered};

use flat_base::{Actor, Items, NoMemory};
use flat_places::{Script, is_word};
use flat_text::{line, read_natural, word};
use std::alloc::Global;

/// The places of the frame's number among the words of an answer: `P 9 await frame 2` and
/// `P 9 hit 10 20 frame 2`.
const FRAME_OF_AWAIT: usize = 4;

const FRAME_OF_HIT: usize = 6;

/// The frames that the lines of each probe saw, in their order.
#[derive(Drop)]
pub struct ProbeGuide {
    pub seen: Vec<Items<u32>>,
}

/// How many lines a text has.
fn count_lines(text: &[u8]) -> usize
    ensures { result ≡ length (lines_of text.now) }
{
    let mut rest = text;
    for count in 0..text.len() {
        let Some((_, later)) = line(rest) else {
            return count;
        };
        rest = later;
    }
    text.len()
}

/// What stands behind so many lines of a text.
fn behind_lines(text: &[u8], count: usize) -> &[u8]
    ensures { lines_of result.now ≡ drop count (lines_of text.now) }
{
    let mut rest = text;
    for _ in 0..count {
        let Some((_, later)) = line(rest) else {
            return rest;
        };
        rest = later;
    }
    rest
}

/// Whether an actor is the probe of a number.
fn is_probe(probe: u32, actor: Actor) -> bool
    ensures { result ≡ is_probe probe actor }
{
    match actor {
        Actor::Probe(p) => p == probe,
        _ => false,
    }
}

/// How many lines of the script are a probe's.
fn count_asked(script: &Script, probe: u32) -> usize
    ensures { result ≡ length (probe_lines_of probe script.now.lines) }
{
    let lines = script.lines.as_slice();
    lines
        .iter()
        .filter(|line| is_probe(probe, line.actor))
        .count()
}

/// How many lines of a text stand before those that may answer probes.
fn lines_before(script: &Script, text: &[u8]) -> usize
    ensures { result ≡ length (lines_of text.now) - (length (probe_lines script.now) + 1) }
{
    let mut before = count_lines(text).saturating_sub(1);
    for probe in 0..script.setup.probes {
        before = before.saturating_sub(count_asked(script, probe));
    }
    before
}

/// The place of a probe's name.
fn place_of(script: &Script, name: &[u8]) -> Option<usize>
    ensures { result ≡ place_of script.now.probes name.now }
{
    let names = script.probes.as_slice();
    names.iter().position(|known| known.as_slice() == name)
}

/// Whether all bytes of a word are digits.
fn are_digits(word: &[u8]) -> bool
    ensures { result ≡ list_all is_ascii_digit word.now }
{
    word.iter().all(|byte| byte.is_ascii_digit())
}

/// The probe that a line of a report answers. Such a line begins with the probe's name and
/// the number of a line of the script.
fn probe_answered(script: &Script, answer: &[u8]) -> Option<usize>
    ensures { result ≡ probe_answered script.now (words_of answer.now) }
{
    let name = word(answer, 0)?;
    let number = word(answer, 1)?;
    if are_digits(number) {
        place_of(script, name)
    } else {
        None
    }
}

/// The frame whose number a word is; 0, if it is none.
fn frame_in(word: &[u8]) -> u32
    ensures { result ≡ low_number (natural word.now) }
{
    match read_natural(word) {
        Some(frame) if frame <= u32::MAX as u128 => frame as u32,
        _ => 0,
    }
}

/// The frame by which an answer says that its probe was answered; 0, where it says of none.
fn frame_told(answer: &[u8]) -> u32
    ensures { result ≡ frame_told (words_of answer.now) }
{
    let place = match word(answer, 2) {
        Some(asked) if is_word(asked, "hit") => FRAME_OF_HIT,
        _ => FRAME_OF_AWAIT,
    };
    match word(answer, place) {
        Some(found) => frame_in(found),
        None => 0,
    }
}

impl ProbeGuide {
    /// No answer yet, of so many probes.
    fn new(alloc: Global, probes: u32) -> Result<ProbeGuide, NoMemory>
        ensures { IfOk result (λ guide. guide.seen.items ≡ replicate probes []) }
    {
        let mut seen = Vec::new(alloc);
        for _ in 0..probes {
            seen.push(Items::new(alloc))?;
        }
        Ok(ProbeGuide { seen })
    }

    /// Notes the frame of a line, if the line answers a probe.
    fn note(&mut self, script: &Script, line: &[u8]) -> Result<(), NoMemory>
        ensures { OnOk result (NotesLine script.now line.now self.old.seen.items
            self.new.seen.items) }
    {
        let Some(probe) = probe_answered(script, line) else {
            return Ok(());
        };
        if self.seen.len() <= probe {
            return Ok(());
        }
        self.seen[probe].push(frame_told(line))
    }

    /// Reads the answers of all probes among the lines of a text.
    fn of_lines(alloc: Global, script: &Script, text: &[u8]) -> Result<ProbeGuide, NoMemory>
        ensures { IfOk result (λ guide. AreNamed script.now (lines_of text.now) guide.seen.items) }
    {
        let mut guide = ProbeGuide::new(alloc, script.setup.probes)?;
        let mut rest = text;
        for _ in 0..text.len() {
            let Some((first, later)) = line(rest) else {
                return Ok(guide);
            };
            guide.note(script, first)?;
            rest = later;
        }
        Ok(guide)
    }

    /// Whether each line of a probe has an answer.
    fn is_whole(&self, script: &Script) -> bool
        requires { length self.now.seen.items ≡ script.now.setup.probes }
        ensures { result ≡ false → ((probe : ℕ) (one : List ℕ) →
            slice_get self.now.seen.items probe ≡ Some one →
            length one ≡ length (probe_lines_of probe script.now.lines)) → ⊥ }
    {
        for probe in 0..script.setup.probes {
            if self.seen[probe as usize].len() != count_asked(script, probe) {
                return false;
            }
        }
        true
    }

    /// Reads the answers of all probes in a report. They are its last lines but one. If these
    /// aren't all there, the text is no report, and answers are looked for in all of it. Where
    /// there is no probe, nothing is read of the text, which may be long.
    pub fn read(alloc: Global, script: &Script, text: &[u8]) -> Result<ProbeGuide, NoMemory>
        ensures { IfOk result (λ guide. AreHints script.now text.now guide.seen.items) }
    {
        if script.setup.probes == 0 {
            return ProbeGuide::new(alloc, 0);
        }
        let end = behind_lines(text, lines_before(script, text));
        let last = ProbeGuide::of_lines(alloc, script, end)?;
        if last.is_whole(script) {
            return Ok(last);
        }
        drop(last);
        ProbeGuide::of_lines(alloc, script, text)
    }

    /// Whether a probe's line, with so many lines of the probe before it, saw a frame up to
    /// this number. So is each line of which nothing was read.
    pub fn is_due(&self, probe: usize, before: usize, frame: u32) -> bool
        ensures { (named : List ℕ) → slice_get self.now.seen.items probe ≡ Some named → result
            ≡ is_reached (slice_get named before) frame }
    {
        if probe >= self.seen.len() {
            return true;
        }
        match self.seen[probe].get(before) {
            Some(seen) => *seen <= frame,
            None => true,
        }
    }
}
