//! The word `why`: a script is played, and what is written is made as it is played, since what
//! a begin shows and leaves waiting is known only then.
ghost use Rattle.std.specs.Prelude.{◌≡◌, ◌<◌, ◌^◌, ℕ, List, length, IfOk, Ok};
ghost use Rattle.flat_words.specs.declared.service_word.ServiceWord.TheVariants.{Why};
ghost use Rattle.flat_display.specs.Had.{AreKept};
ghost use Rattle.flat_play.specs.Beginning.{AreBegun};
ghost use Rattle.flat_run.specs.Answering.{IsRunnable};
ghost use Rattle.flat_run.specs.Forms.{form_read};
ghost use Rattle.flat_run.specs.Promise.{IsTold};

use crate::reading::ParsedText;
use flat_base::NoMemory;
use flat_display::Display;
use flat_play::play_explained;
use flat_report::{TextPieces, due_presents_are_taken, frames_are_seen};
use flat_rules::families_are_alone;
use std::alloc::Global;

/// Plays what was read, and writes why each session was on the display, or wasn't.
pub(crate) fn why_told(
    alloc: Global,
    reading: &ParsedText,
    displays: &mut Vec<Box<dyn Display>>,
) -> Result<TextPieces, NoMemory>
    requires runnable { IsRunnable reading.now }
    requires few { length displays.old.items < 2 ^ 32 }
    ensures told { (bytes : List ℕ) → form_read Why bytes ≡ Ok reading.now →
        IfOk result (λ text. IsTold (λ d. shown d) (λ d. faults d)
        displays.old.items displays.new.items Why bytes text) }
    ensures kept { AreKept (λ d. shown d) (λ d. faults d) (AreBegun reading.now.script)
        displays.old.items displays.new.items (λ d. d.vtable) }
{
    families_are_alone();
    due_presents_are_taken();
    frames_are_seen();
    let (played, text) = play_explained(alloc, &reading.script, displays)?;
    // proof: the entries so far are legal.
    let _journal = played.board.journal();
    let pieces = TextPieces::one(alloc, text);
    played.let_go();
    pieces
}
