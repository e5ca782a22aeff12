//! The word `film`: a script is played, and the picture of each frame is made as it is finished,
//! since no run keeps the items of all frames.
ghost use Rattle.std.specs.Prelude.{◌≡◌, ◌<◌, ◌^◌, ℕ, List, length, IfOk, Ok};
ghost use Rattle.flat_words.specs.declared.service_word.ServiceWord.TheVariants as form;
ghost use Rattle.flat_display.specs.Had.{AreKept};
ghost use Rattle.flat_play.specs.Beginning.{AreBegun};
ghost use Rattle.flat_run.specs.Answering.{IsRunnable};
ghost use Rattle.flat_run.specs.Forms.{Fits, form_read};
ghost use Rattle.flat_run.specs.Promise.{IsTold};

use crate::reading::ParsedText;
use flat_base::NoMemory;
use flat_display::Display;
use flat_play::play_filmed;
use flat_report::{TextPieces, due_presents_are_taken, frames_are_seen};
use flat_rules::families_are_alone;
use flat_texts::Film;
use std::alloc::Global;
use std::thread::Threads;

/// Plays what was read, and makes the pictures of all its frames.
pub(crate) fn film_told<T: Threads + Sync>(
    rt: &T,
    alloc: Global,
    reading: &ParsedText,
    displays: &mut Vec<Box<dyn Display>>,
) -> Result<TextPieces, NoMemory>
    requires runnable { IsRunnable reading.now }
    requires fits { Fits form.Film reading.now.script }
    requires few { length displays.old.items < 2 ^ 32 }
    ensures told { (bytes : List ℕ) → form_read form.Film bytes ≡ Ok reading.now →
        IfOk result (λ text. IsTold (λ d. shown d) (λ d. faults d)
        displays.old.items displays.new.items form.Film bytes text) }
    ensures kept { AreKept (λ d. shown d) (λ d. faults d) (AreBegun reading.now.script)
        displays.old.items displays.new.items (λ d. d.vtable) }
{
    families_are_alone();
    due_presents_are_taken();
    frames_are_seen();
    let empty = Film::new(rt, alloc, &reading.script.setup)?;
    let (played, film) = play_filmed(alloc, &reading.script, empty, displays)?;
    // proof: the entries so far are legal.
    let _journal = played.board.journal();
    played.let_go();
    film.into_text()
}
