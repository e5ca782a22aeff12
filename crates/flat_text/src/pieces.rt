ghost use Rattle.std.specs.Prelude.{◌≡◌, ◌==◌, ◌<◌, ◌≤◌, ◌↔◌, ◌∷◌, ◌++◌, [], MatchOption, length, slice_get};
ghost use Rattle.std.specs.Prelude.{option_map, IfSome, IsNone};
ghost use Rattle.std.specs.List.{position_or_len, before_first, after_first, slice_split};
ghost use Rattle.flat_text.specs.Pieces.{is_feed, lines_of, words_of};
ghost use Rattle.flat_text.specs.Left.{pieces_left};

use memchr::memchr;

/// The first line of the text without its line feed, and what follows that line
/// feed; where the text has no line feed, the whole text and nothing. None exactly
/// where the text is empty.
///
/// Calls of it, each on what the one before left, give the lines of a text one by
/// one. What follows the last line feed is a line only if it isn't empty.
pub fn line(text: &[u8]) -> Option<(&[u8], &[u8])>
    ensures none { IsNone result ↔ (length text.now ≡ 0) }
    ensures first { IfSome result (λ p. p.0.now ≡ before_first is_feed text.now) }
    ensures rest { IfSome result (λ p. p.1.now ≡ after_first is_feed text.now) }
    ensures shorter { IfSome result (λ p. length p.1.now < length text.now) }
    // So the calls, each on the rest that the one before it left, give the lines of the text.
    ensures lines { MatchOption result (lines_of text.now ≡ []) (λ p. lines_of text.now
        ≡ p.0.now ∷ lines_of p.1.now) }
{
    if text.is_empty() {
        return None;
    }
    Some(cut(text))
}

/// A front of the text that ends behind the first line feed from a place on, and what
/// follows it; where there is none, the whole text and nothing. So a text is cut into
/// pieces that have its lines.
pub fn cut_lines(text: &[u8], from: usize) -> (&[u8], &[u8])
    ensures lines { lines_of text.now ≡ lines_of result.0.now ++ lines_of result.1.now }
    ensures shorter { 0 < length text.now → length result.1.now < length text.now }
{
    if from >= text.len() {
        return (text, &[]);
    }
    let end = from + place_of_feed(&text[from..]);
    if end < text.len() {
        (&text[..end + 1], &text[end + 1..])
    } else {
        (text, &[])
    }
}

/// Word `i` of the line, from 0. None exactly where the line has no such word.
///
/// Two spaces in a row, and a space at an end, have an empty word between them or
/// beside them. An empty line has one word, which is empty.
pub fn word(line: &[u8], i: usize) -> Option<&[u8]>
    ensures value { option_map (λ w. w.now) result ≡ slice_get (words_of line.now) i }
    ensures none { IsNone result ↔ (length (words_of line.now) ≤ i) }
{
    word_at(line, i)
}

fn word_at(line: &[u8], i: usize) -> Option<&[u8]>
    ensures { option_map (λ w. w.now) result ≡ slice_get (words_of line.now) i }
{
    line.split(|b| *b == b' ').nth(i)
}

fn cut(text: &[u8]) -> (&[u8], &[u8])
    ensures before { result.0.now ≡ before_first is_feed text.now }
    ensures after { result.1.now ≡ after_first is_feed text.now }
    ensures shorter { 0 < length text.now → length result.1.now < length text.now }
{
    let end = place_of_feed(text);
    if end < text.len() {
        (&text[..end], &text[end + 1..])
    } else {
        (text, &[])
    }
}

/// The place of the first line feed; the length, where there is none.
fn place_of_feed(text: &[u8]) -> usize
    ensures place { result ≡ position_or_len is_feed text.now }
    ensures within { result ≤ length text.now }
{
    memchr(b'\n', text).unwrap_or(text.len())
}

fn place_of(text: &[u8], separator: u8) -> usize
    ensures place { result ≡ position_or_len (λ b. b == separator) text.now }
    ensures within { result ≤ length text.now }
{
    text.iter()
        .position(|b| *b == separator)
        .unwrap_or(text.len())
}

/// What stands before the first separator, and what follows it, where the text
/// has one.
///
/// So a text is never without a piece, and calls of it give all its pieces one by
/// one, each on what the one before left.
pub fn next_piece(text: &[u8], separator: u8) -> (&[u8], Option<&[u8]>)
    ensures { slice_split (λ b. b == separator) text.now
        ≡ result.0.now ∷ pieces_left (λ b. b == separator) result.1 }
{
    let end = place_of(text, separator);
    if end < text.len() {
        (&text[..end], Some(&text[end + 1..]))
    } else {
        (text, None)
    }
}
