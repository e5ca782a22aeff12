ghost use Rattle.std.specs.Prelude.{◌≡◌};
ghost use Rattle.std.specs.List.{list_any};
ghost use Rattle.std.specs.Str.{bytes_eq};
ghost use Rattle.flat_places.specs.Known.{knows, words_since_second, words_since_third};

use crate::names::is_word;
use flat_base::{RATIO_SINCE, UNSQUASHABLE_SINCE};

/// Whether scripts of that version may use the word, where the grammar has it.
pub fn knows(version: u32, word: &[u8]) -> bool
    ensures { result ≡ knows version word.now }
{
    let has_third = version >= RATIO_SINCE || !is_since_third(word);
    has_third && (version >= UNSQUASHABLE_SINCE || !is_since_second(word))
}

fn is_since_third(word: &[u8]) -> bool
    ensures { result ≡ list_any (bytes_eq word.now) words_since_third }
{
    is_word(word, "dpr")
}

fn is_since_second(word: &[u8]) -> bool
    ensures { result ≡ list_any (bytes_eq word.now) words_since_second }
{
    is_word(word, "ReplaceChildren") || is_word(word, "unsquashable")
}
