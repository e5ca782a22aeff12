//! Room behind what stands on a page, and bytes written there.
ghost use Rattle.std.specs.Prelude.{◌≡◌, ◌≤◌, ◌∷◌, take, length, vec_len, OnOk};
ghost use Rattle.flat_page.specs.Rooms.{Fills, HasRoom};

use flat_base::NoMemory;

/// So many bytes beyond those asked for become room too, where memory was taken for them.
const MORE_BYTES: usize = 1024;

/// Makes sure that a text has room for so many bytes at a place. The bytes before it stay.
#[inline(always)]
pub(crate) fn ensure_room(text: &mut Vec<u8>, at: usize, more: usize) -> Result<(), NoMemory>
    requires { at ≤ vec_len text.old }
    ensures kept { take at text.new.items ≡ take at text.old.items }
    ensures within { at ≤ vec_len text.new }
    ensures room { OnOk result (HasRoom more text.new.items at) }
{
    if more <= text.len() - at {
        return Ok(());
    }
    make_room(text, at, more)
}

/// Makes room for so many bytes behind a text.
#[cold]
#[inline(never)]
fn make_room(text: &mut Vec<u8>, at: usize, more: usize) -> Result<(), NoMemory>
    requires { at ≤ vec_len text.old }
    ensures kept { take at text.new.items ≡ take at text.old.items }
    ensures within { at ≤ vec_len text.new }
    ensures room { OnOk result (HasRoom more text.new.items at) }
{
    text.reserve(more)?;
    let least = text.len() + more;
    let most = text.capacity();
    text.resize((least + MORE_BYTES).min(most), 0)?;
    Ok(())
}

/// Writes these bytes at a place that has room for them, and answers the place behind them.
#[inline(always)]
pub(crate) fn write_bytes(bytes: &mut [u8], at: usize, word: &[u8]) -> usize
    requires { HasRoom (length word.now) bytes.old at }
    ensures { Fills word.now bytes.old at bytes.new result }
{
    let end = at + word.len();
    bytes[at..end].copy_from_slice(word);
    end
}

/// Writes a space and a word.
#[inline(always)]
pub(crate) fn write_word(bytes: &mut [u8], at: usize, word: &[u8]) -> usize
    requires { HasRoom (length (32 ∷ word.now)) bytes.old at }
    ensures { Fills (32 ∷ word.now) bytes.old at bytes.new result }
{
    bytes[at] = b' ';
    write_bytes(bytes, at + 1, word)
}
