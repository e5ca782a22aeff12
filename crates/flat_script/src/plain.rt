//! Which bytes lines have. Nearly every text has plain bytes alone, and one pass over all of it
//! without an exit, which takes many bytes at once, shows that sooner than a test of each line.
ghost use Rattle.std.specs.Prelude.{◌≡◌, true};
ghost use Rattle.std.specs.List.{list_all};
ghost use Rattle.flat_script.specs.Grammar.{is_plain};
ghost use Rattle.flat_script.specs.Plain.{is_text_byte};

/// Whether a line has printable ASCII alone.
pub fn all_plain(line: &[u8]) -> bool
    ensures { result ≡ list_all is_plain line.now }
{
    line.iter().all(|b| 32 <= *b && *b <= 126)
}

/// The same, where it may be known of the line that it has.
pub(crate) fn is_plain_line(known: bool, line: &[u8]) -> bool
    requires { known ≡ true → list_all is_plain line.now ≡ true }
    ensures { result ≡ list_all is_plain line.now }
{
    known || all_plain(line)
}

/// Whether a text has printable ASCII and line feeds alone.
pub(crate) fn is_plain_text(text: &[u8]) -> bool
    ensures { result ≡ list_all is_text_byte text.now }
{
    let mut plain = true;
    for b in text {
        plain = is_text_byte(*b) & plain;
    }
    plain
}

fn is_text_byte(b: u8) -> bool
    ensures { result ≡ is_text_byte b }
{
    ((32 <= b) & (b <= 126)) | (b == b'\n')
}
