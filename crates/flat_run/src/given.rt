//! What a source gives for a form: the whole text is read, and is a script that can be run
//! for it, or is refused before anything runs.
ghost use Rattle.std.specs.Prelude.{◌≡◌, ◌≢◌, ◌≤◌, ◌<◌, ◌*◌, ◌↔◌, ℕ, List, IfOk, IsFalse, IsTrue, Err, Ok, true};
ghost use Rattle.flat_io.specs.Counts.{has_risen};
ghost use Rattle.flat_forms.specs.Body.{dones, ends_frame};
ghost use Rattle.flat_render.specs.declared.tile_grid.TheConstants.{PIXELS_MAX};
ghost use Rattle.flat_run.specs.Answering.{IsGiven, IsRead, IsRunnable};
ghost use Rattle.flat_run.specs.Forms.{Fits, form_read, is_read, pixels};
ghost use Rattle.flat_run.specs.Promise.{AreGiven, IsTooLarge};

use crate::answers::{NoAnswer, ServiceAnswer, large, refusal};
use crate::reading::{ParsedText, read_text};
use flat_base::{NoMemory, SCRIPT_BYTES_MAX};
use flat_extra::{extra_laws, pointers_rise, rests_are_read};
use flat_io::{ReadAll, Source, read_all};
use flat_places::{FaultKind, Script};
use flat_playable::scripts_are_playable;
use flat_render::is_too_large;
use flat_scene::{DisplayLine, LineBody};
use flat_script::{ScriptError, ScriptFault};
use flat_words::ServiceWord;
use std::alloc::Global;
use std::thread::Threads;

/// What a source gave for a form.
#[derive(Drop)]
pub(crate) enum Given {
    /// A script that can be run.
    Script(ParsedText),
    /// None; this is the answer.
    Refused(ServiceAnswer),
}

/// The pictures of all frames together have no more pixels than these.
pub const FILM_PIXELS_MAX: u64 = 268_435_456;

/// Whether a line of a script ends a frame.
fn ends_frame(body: &LineBody) -> bool
    ensures { result ≡ ends_frame body.now }
{
    matches!(body, LineBody::Display(DisplayLine::Done))
}

/// How many frames a script finishes.
fn frames_of(script: &Script) -> usize
    ensures { result ≡ dones script.now }
{
    let mut frames = 0;
    for line in script.lines.as_slice() {
        frames += usize::from(ends_frame(&line.body));
    }
    frames
}

/// Whether the pictures of all frames would have too many pixels.
fn is_film_too_large(script: &Script) -> bool
    ensures { IsTrue result ↔ FILM_PIXELS_MAX < dones script.now * pixels script.now }
{
    let pixels = script.setup.width as u64 * script.setup.height as u64;
    frames_of(script) as u128 * pixels as u128 > FILM_PIXELS_MAX as u128
}

/// Whether a form writes a picture that would have too many pixels.
fn is_too_large_for(form: ServiceWord, script: &Script) -> bool
    ensures large { IsTrue result → IsTooLarge form script.now }
    ensures fits { IsFalse result → Fits form script.now }
{
    match form {
        ServiceWord::Render => is_too_large(script.setup.width, script.setup.height),
        ServiceWord::Film => {
            is_too_large(script.setup.width, script.setup.height) || is_film_too_large(script)
        }
        _ => false,
    }
}

/// What was read, unless its display is too large for the form.
fn fitting(alloc: Global, form: ServiceWord, reading: ParsedText) -> Result<Given, NoMemory>
    requires runnable { IsRunnable reading }
    ensures { (bytes : List ℕ) → form_read form bytes ≡ Ok reading →
        IfOk result (λ given. IsRead form bytes given) }
{
    if is_too_large_for(form, &reading.script) {
        drop(reading);
        let answer = large(alloc)?;
        return Ok(Given::Refused(answer));
    }
    Ok(Given::Script(reading))
}

/// What a whole text is for a form.
fn read_bytes<T: Threads + Sync>(
    rt: &T,
    alloc: Global,
    form: ServiceWord,
    bytes: &[u8],
) -> Result<Given, NoMemory>
    ensures { IfOk result (λ given. IsRead form bytes.now given) }
{
    scripts_are_playable();
    rests_are_read();
    pointers_rise();
    extra_laws();
    match read_text(rt, alloc, form, bytes) {
        Ok(reading) => fitting(alloc, form, reading),
        Err(ScriptError::Fault(fault)) => Ok(Given::Refused(refusal(alloc, fault)?)),
        Err(ScriptError::Memory) => Err(NoMemory),
    }
}

/// Reads a source to its end, for a form whose script is read.
pub(crate) fn read_source<T: Threads + Sync, R: Source>(
    rt: &T,
    alloc: Global,
    form: ServiceWord,
    source: &mut R,
) -> Result<Given, NoAnswer>
    requires { is_read form ≡ true }
    ensures is { IfOk result (λ given. IsGiven form (R.left source.old) (R.left source.new)
        given) }
    ensures fault { result ≡ Err NoAnswer.Fault →
        IsTrue (has_risen (R.faults source.old) (R.faults source.new)) }
    ensures given { (given : List ℕ) × AreGiven given (R.left source.old) (R.left source.new) }
    ensures counts { R.faults source.old ≤ R.faults source.new }
    ensures steady { result ≢ Err NoAnswer.Fault → R.faults source.new ≡ R.faults source.old }
{
    match read_all(alloc, source, SCRIPT_BYTES_MAX) {
        Ok(bytes) => Ok(read_bytes(rt, alloc, form, bytes.as_slice())?),
        Err(ReadAll::TooLong) => {
            let fault = ScriptFault {
                line: 0,
                kind: FaultKind::TooLong,
            };
            Ok(Given::Refused(refusal(alloc, fault)?))
        }
        Err(ReadAll::Fault) => Err(NoAnswer::Fault),
        Err(ReadAll::Memory) => Err(NoAnswer::Memory),
    }
}
