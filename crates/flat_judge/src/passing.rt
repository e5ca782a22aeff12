//! Whether a text goes on as a run's report does, from a place on.
ghost use Rattle.std.specs.Prelude.{◌≤◌, length};
ghost use Rattle.flat_judge.specs.Following.{Passes};

use flat_report::TextPieces;

/// The place of a text behind these bytes, if it has them at a place.
pub(crate) fn pass(text: &[u8], at: usize, bytes: &[u8]) -> Option<usize>
    requires { at ≤ length text.now }
    ensures { Passes text.now at bytes.now result }
{
    if text.len() - at < bytes.len() {
        return None;
    }
    if &text[at..at + bytes.len()] == bytes {
        Some(at + bytes.len())
    } else {
        None
    }
}

/// The place of a text behind these pieces, if it has them at a place.
pub(crate) fn pass_pieces(text: &[u8], at: usize, pieces: &TextPieces) -> Option<usize>
    requires { at ≤ length text.now }
    ensures { Passes text.now at pieces.now result }
{
    let mut reached = at;
    let runs = pieces.as_slice();
    for run in runs {
        match pass(text, reached, run.as_slice()) {
            Some(next) => reached = next,
            None => return None,
        }
    }
    Some(reached)
}
