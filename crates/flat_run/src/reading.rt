//! What each form reads of a text: a function by the rows of `form_read` (specs/Forms), so
//! that a further form is a row more of each.
ghost use Rattle.flat_extra.specs.Readers.{Reads};
ghost use Rattle.flat_words.specs.declared.service_word.ServiceWord.TheVariants.{Play, Focus, Pointer};
ghost use Rattle.flat_run.specs.Forms.{form_read};

use flat_extra::{FocusScript, PointerScript, parse_focus, parse_pointers};
use flat_focus::FocusLines;
use flat_places::Script;
use flat_pointer::PointerLines;
use flat_script::{ScriptError, parse_on};
use flat_words::ServiceWord;
use std::alloc::Global;
use std::thread::Threads;

/// What a form reads of a text: its script, and the values of the extra lines that the
/// form knows.
#[derive(Drop)]
pub struct ParsedText {
    pub script: Script,
    pub focus: FocusLines,
    pub pointers: PointerLines,
}

/// A text with extra lines that ask for the focus.
fn read_focus(alloc: Global, bytes: &[u8]) -> Result<ParsedText, ScriptError>
    ensures { Reads result (form_read Focus bytes.now) }
{
    match parse_focus(alloc, bytes) {
        Ok(FocusScript { script, lines }) => Ok(ParsedText {
            script,
            focus: lines,
            pointers: PointerLines::new(alloc),
        }),
        Err(error) => Err(error),
    }
}

/// A text with extra lines that pointers have.
fn read_pointers(alloc: Global, bytes: &[u8]) -> Result<ParsedText, ScriptError>
    ensures { Reads result (form_read Pointer bytes.now) }
{
    match parse_pointers(alloc, bytes) {
        Ok(PointerScript { script, lines }) => Ok(ParsedText {
            script,
            focus: FocusLines::new(alloc),
            pointers: lines,
        }),
        Err(error) => Err(error),
    }
}

/// A text without extra lines. Several threads read it, if it is long.
fn read_plain<T: Threads + Sync>(
    rt: &T,
    alloc: Global,
    bytes: &[u8],
) -> Result<ParsedText, ScriptError>
    ensures { Reads result (form_read Play bytes.now) }
{
    match parse_on(rt, alloc, bytes) {
        Ok(script) => Ok(ParsedText {
            script,
            focus: FocusLines::new(alloc),
            pointers: PointerLines::new(alloc),
        }),
        Err(error) => Err(error),
    }
}

/// What a form reads of a text, or the text's fault.
pub(crate) fn read_text<T: Threads + Sync>(
    rt: &T,
    alloc: Global,
    form: ServiceWord,
    bytes: &[u8],
) -> Result<ParsedText, ScriptError>
    ensures { Reads result (form_read form bytes.now) }
{
    match form {
        ServiceWord::Focus => read_focus(alloc, bytes),
        ServiceWord::Pointer => read_pointers(alloc, bytes),
        _ => read_plain(rt, alloc, bytes),
    }
}
