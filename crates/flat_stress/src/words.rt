ghost use Rattle.std.specs.Prelude.{◌≡◌, ◌++◌, OnOk, map};
ghost use Rattle.flat_stress.specs.Spelling.{spelling};
ghost use Rattle.flat_stress.specs.Words.{line_text};
ghost use Rattle.flat_page.specs.Words.{text_of, spaced};

use flat_base::NoMemory;
use flat_page::Page;

/// A word of a line.
#[derive(Clone, Copy)]
pub enum LoadWord {
    /// As it stands.
    Text(&'static str),
    /// In decimal.
    Number(u32),
    /// How many there are of something, in decimal.
    Count(usize),
    /// The name of a session.
    Session(u32),
    /// The name of the pair whose view is that session's.
    Pair(u32),
}

/// Appends lines.
pub fn push_lines(page: &mut Page, lines: &[&[LoadWord]]) -> Result<(), NoMemory>
    ensures { OnOk result (page.new
        ≡ page.old ++ text_of (map (λ line. map spelling line.now) lines.now)) }
{
    for line in lines {
        push_line(page, line)?;
    }
    Ok(())
}

/// Appends a line.
pub fn push_line(page: &mut Page, words: &[LoadWord]) -> Result<(), NoMemory>
    ensures { OnOk result (page.new ≡ page.old ++ line_text (map spelling words.now)) }
{
    if let [first, rest @ ..] = words {
        push_word(page, *first)?;
        push_spaced(page, rest)?;
    }
    page.put(b"\n")
}

fn push_spaced(page: &mut Page, words: &[LoadWord]) -> Result<(), NoMemory>
    ensures { OnOk result (page.new ≡ page.old ++ spaced (map spelling words.now)) }
{
    for word in words {
        page.put(b" ")?;
        push_word(page, *word)?;
    }
    Ok(())
}

fn push_word(page: &mut Page, word: LoadWord) -> Result<(), NoMemory>
    ensures { OnOk result (page.new ≡ page.old ++ spelling word) }
{
    match word {
        LoadWord::Text(text) => page.put(text.as_bytes()),
        LoadWord::Number(n) => page.number(u64::from(n)),
        LoadWord::Count(n) => page.number(n as u64),
        LoadWord::Session(n) => page.numbered(b"S", u64::from(n)),
        LoadWord::Pair(n) => page.numbered(b"t", u64::from(n)),
    }
}
