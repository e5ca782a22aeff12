//! The top call, from words to a status. What a status says of the source, the sink and the
//! displays is one record (`Serves`: specs/Serving), which takes what displays tell and their
//! counts as arguments; the record of what ran knows no display, so that a law can speak of
//! all runs with a report.
ghost use Rattle.std.specs.Prelude.{◌≡◌, ◌<◌, ◌^◌, ◌||◌, ◌==◌, None, true, false};
ghost use Rattle.std.specs.Prelude.{length, map, IfSome, IsTrue};
ghost use Rattle.std.specs.String.{string_bytes};
ghost use Rattle.flat_words.specs.declared.service_word.ServiceWord.{ServiceWord};
ghost use Rattle.flat_words.specs.declared.service_word.ServiceWord.TheVariants.{Race};
ghost use Rattle.flat_words.specs.Forms.{CallFor};
ghost use Rattle.flat_run.specs.Forms.{is_read};
ghost use Rattle.flat_run.specs.Serving.{Serves};

use crate::answers::{NO_MEMORY, READ_FAULT, REFUSED, TOO_LARGE, USED_WRONGLY, WRONG};
use crate::runs::{answer_in_order, answer_race};
use crate::writing::{write_answer, write_text};
use flat_display::Display;
use flat_io::{Sink, Source};
use flat_race::Gate;
use flat_words::{ServiceWord, read};
use std::alloc::Global;
use std::sync::Wait;
use std::thread::Threads;

/// What is written where the words call for no form.
const USAGE: &[u8] =
    b"usage: flatland play | race | stress N | render | damage | focus | pointer | judge | why | film\n";

/// What a call of the service runs on: a runtime, and the gate that the actors of a `race` ask.
#[derive(Clone, Copy)]
pub struct RaceHost<'a, T, G> {
    pub rt: &'a T,
    pub gate: &'a G,
}

/// Serves a call as [`flatland`] does, unless its words are `race`: then nothing is done, and
/// None is answered. It waits for nobody, so it always returns.
pub fn serve<T: Threads + Sync, R: Source, W: Sink>(
    rt: &T,
    alloc: Global,
    words: &[String],
    source: &mut R,
    sink: &mut W,
    displays: &mut Vec<Box<dyn Display>>,
) -> Option<u8>
    requires { length displays.old.items < 2 ^ 32 }
    ensures race { result ≡ None → CallFor (map string_bytes words.now) Race
        × ((form : ServiceWord) → CallFor (map string_bytes words.now) form → form ≡ Race) }
    ensures nothing { result ≡ None → (source.new ≡ source.old) × (sink.new ≡ sink.old)
        × (displays.new ≡ displays.old) }
    ensures serves { IfSome result (Serves (λ d. shown d)
        (λ d. (Display-box d).faults d.value) (λ d. d.vtable) (map string_bytes words.now)
        (record { left = R.left source.old; faults = R.faults source.old })
        (record { left = R.left source.new; faults = R.faults source.new })
        (record { held = W.held sink.old; faults = W.faults sink.old; stalls = W.stalls sink.old })
        (record { held = W.held sink.new; faults = W.faults sink.new; stalls = W.stalls sink.new })
        displays.old.items displays.new.items) }
    ensures untouched { IfSome result (λ status. IsTrue (status == USED_WRONGLY
        || status == REFUSED || status == READ_FAULT || status == TOO_LARGE || status == WRONG) →
        displays.new ≡ displays.old) }
    ensures unwritten { IfSome result (λ status. IsTrue (status == READ_FAULT
        || status == NO_MEMORY) → sink.new ≡ sink.old) }
    ensures unread { IfSome result (λ _. ((form : ServiceWord) →
        CallFor (map string_bytes words.now) form → is_read form ≡ false) →
        source.new ≡ source.old) }
{
    match read(alloc, words) {
        Ok(Some(ServiceWord::Race)) => None,
        Ok(Some(form)) => {
            let answer = answer_in_order(rt, alloc, form, source, displays);
            Some(write_answer(sink, alloc, answer))
        }
        Ok(None) => Some(write_text(sink, USAGE, USED_WRONGLY)),
        Err(_) => Some(NO_MEMORY),
    }
}

/// Answers a call of the service: reads what the words after the program's name ask for
/// from the source, writes the text to the sink, and answers the status. The displays are
/// shown each frame when it is finished. A display that fails is shown no more, the report
/// says so, and the status stays as it is.
///
/// - 0, 2, 3, 7, 8: the whole text was written. It is what the form writes of a run, the usage,
///   the script's fault, that a picture would be too large, or where a report is wrong.
/// - 4: a read failed, and nothing was written. The source's count rose.
/// - 5: a write failed or took nothing, and a count of the sink rose. The first bytes of a
///   text of 0, 2, 3, 7 or 8 were written.
/// - 6: memory ran out, and nothing was written.
///
/// With any other status these counts are as they were. If the source tells a script and no
/// count rose, the status is 0 or 6; for `render` or `film` of what is too large, 7 or 6.
///
/// With 0 for any word but `judge`, and with 5 if the text was that of 0, each display that tells
/// its frames has had those of the history, in order and once, or those before the frame at which
/// it was lost. With 6 it has had frames of a legal history that the script's actors began, or
/// none. With any other status, the displays are as they were.
///
/// Whatever the status, the source has lost bytes from its front alone, the sink has only
/// gained some, no count has fallen, and each display stands at its place.
pub fn flatland<T: Threads + Wait + Sync, R: Source, W: Sink, G: Gate>(
    host: &RaceHost<'_, T, G>,
    alloc: Global,
    words: &[String],
    source: &mut R,
    sink: &mut W,
    displays: &mut Vec<Box<dyn Display>>,
) -> u8
    requires { length displays.old.items < 2 ^ 32 }
    ensures serves { Serves (λ d. shown d) (λ d. (Display-box d).faults d.value) (λ d. d.vtable)
        (map string_bytes words.now)
        (record { left = R.left source.old; faults = R.faults source.old })
        (record { left = R.left source.new; faults = R.faults source.new })
        (record { held = W.held sink.old; faults = W.faults sink.old; stalls = W.stalls sink.old })
        (record { held = W.held sink.new; faults = W.faults sink.new; stalls = W.stalls sink.new })
        displays.old.items displays.new.items result }
    ensures untouched { IsTrue (result == USED_WRONGLY || result == REFUSED
        || result == READ_FAULT || result == TOO_LARGE || result == WRONG) →
        displays.new ≡ displays.old }
    ensures unwritten { IsTrue (result == READ_FAULT || result == NO_MEMORY) → sink.new ≡ sink.old }
    ensures unread { ((form : ServiceWord) → CallFor (map string_bytes words.now) form →
        is_read form ≡ false) → source.new ≡ source.old }
{
    match serve(host.rt, alloc, words, source, sink, displays) {
        Some(status) => status,
        None => {
            let answer = answer_race(host.rt, alloc, source, displays, host.gate);
            write_answer(sink, alloc, answer)
        }
    }
}
