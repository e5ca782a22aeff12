ghost use Rattle.std.specs.Prelude.{◌≡◌, ◌++◌, ◌∷◌, [], length, codes, IfOk, OnOk};
ghost use Rattle.std.specs.Fmt.{decimal, signed_decimal};
ghost use Rattle.flat_page.specs.Words.{number, numbers};
ghost use Rattle.flat_page.specs.Pages.{Puts, Writes, WritesLines};

use crate::digits::{NUMBER_BYTES, write_count, write_digits, write_places, write_two_places};
use crate::room::{ensure_room, write_bytes, write_word};
use flat_base::NoMemory;
use std::alloc::Global;
use std::marker::Model;

/// A text that is written, which contracts see as its bytes.
#[derive(Drop)]
pub struct Page {
    /// What stands there, and room behind it.
    text: Vec<u8>,
    /// How many bytes stand there.
    len: usize,
}

impl Model for Page {
    ghost use Rattle.std.specs.Prelude.{List, ℕ, ◌≤◌, take, vec_len};

    ghost Value = { List ℕ };

    ghost view = { λ page. take page.len page.text.items };

    ghost invariant = { λ page. page.len ≤ vec_len page.text };
}

impl Page {
    /// An empty page. It takes no memory.
    pub fn new(alloc: Global) -> Page
        ensures { result ≡ [] }
    {
        Page {
            text: Vec::new(alloc),
            len: 0,
        }
    }

    /// An empty page with room for so many bytes.
    pub fn with_capacity(alloc: Global, bytes: usize) -> Result<Page, NoMemory>
        ensures { IfOk result (λ page. page ≡ []) }
    {
        Ok(Page {
            text: Vec::with_capacity(alloc, bytes)?,
            len: 0,
        })
    }

    /// How many bytes stand on the page.
    pub fn len(&self) -> usize
        ensures { result ≡ length self.now }
    {
        self.len
    }

    /// The bytes that stand on the page.
    pub fn as_slice(&self) -> &[u8]
        ensures { result.now ≡ self.now }
    {
        &self.text.as_slice()[..self.len]
    }

    /// The text, without a copy.
    pub fn into_text(self) -> Vec<u8>
        ensures { result.items ≡ self }
    {
        let Page { mut text, len } = self;
        text.truncate(len);
        text
    }

    /// Puts bytes behind those that stand there.
    pub fn put(&mut self, bytes: &[u8]) -> Result<(), NoMemory>
        ensures { OnOk result (Puts bytes.now self.old self.new) }
    {
        ensure_room(&mut self.text, self.len, bytes.len())?;
        self.len = write_bytes(self.text.as_mut_slice(), self.len, bytes);
        Ok(())
    }

    /// Puts a space and a word.
    pub fn word(&mut self, word: &[u8]) -> Result<(), NoMemory>
        ensures { OnOk result (Writes (word.now ∷ []) self.old self.new) }
    {
        ensure_room(&mut self.text, self.len, word.len() + 1)?;
        self.len = write_word(self.text.as_mut_slice(), self.len, word);
        Ok(())
    }

    /// Puts a number without a sign.
    pub fn number(&mut self, value: u64) -> Result<(), NoMemory>
        ensures { OnOk result (Puts (decimal value) self.old self.new) }
    {
        ensure_room(&mut self.text, self.len, NUMBER_BYTES)?;
        self.len = write_digits(self.text.as_mut_slice(), self.len, value);
        Ok(())
    }

    /// Puts a number without a sign behind these bytes.
    pub fn numbered(&mut self, before: &[u8], value: u64) -> Result<(), NoMemory>
        ensures { OnOk result (Puts (before.now ++ decimal value) self.old self.new) }
    {
        self.put(before)?;
        self.number(value)
    }

    /// Puts a space and a number without a sign.
    pub fn count(&mut self, value: u64) -> Result<(), NoMemory>
        ensures { OnOk result (Writes (number value ∷ []) self.old self.new) }
    {
        ensure_room(&mut self.text, self.len, NUMBER_BYTES)?;
        self.len = write_count(self.text.as_mut_slice(), self.len, value);
        Ok(())
    }

    /// Puts two numbers of units, each behind a space.
    pub fn point(&mut self, x: i32, y: i32) -> Result<(), NoMemory>
        ensures { OnOk result (Writes (numbers (x ∷ y ∷ [])) self.old self.new) }
    {
        ensure_room(&mut self.text, self.len, 2 * NUMBER_BYTES)?;
        self.len = write_two_places(self.text.as_mut_slice(), self.len, x as i64, y as i64);
        Ok(())
    }

    /// Puts four numbers of places, each behind a space.
    pub fn places(&mut self, a: i64, b: i64, c: i64, d: i64) -> Result<(), NoMemory>
        ensures { OnOk result (Writes (numbers (a ∷ b ∷ c ∷ d ∷ [])) self.old self.new) }
    {
        ensure_room(&mut self.text, self.len, 4 * NUMBER_BYTES)?;
        self.len = write_places(self.text.as_mut_slice(), self.len, a, b, c, d);
        Ok(())
    }

    /// Puts four numbers of units, each behind a space.
    pub fn units(&mut self, a: i32, b: i32, c: i32, d: i32) -> Result<(), NoMemory>
        ensures { OnOk result (Writes (numbers (a ∷ b ∷ c ∷ d ∷ [])) self.old self.new) }
    {
        self.places(a as i64, b as i64, c as i64, d as i64)
    }

    /// Puts a word, and a number without a sign.
    pub fn counted(&mut self, word: &[u8], value: u32) -> Result<(), NoMemory>
        ensures { OnOk result (Writes (word.now ∷ number value ∷ []) self.old self.new) }
    {
        ensure_room(&mut self.text, self.len, word.len() + 1 + NUMBER_BYTES)?;
        let next = write_word(self.text.as_mut_slice(), self.len, word);
        self.len = write_count(self.text.as_mut_slice(), next, value as u64);
        Ok(())
    }

    /// Puts two numbers without a sign, each behind a space.
    pub fn counts(&mut self, a: u32, b: u32) -> Result<(), NoMemory>
        ensures { OnOk result (Writes (number a ∷ number b ∷ []) self.old self.new) }
    {
        ensure_room(&mut self.text, self.len, 2 * NUMBER_BYTES)?;
        let next = write_count(self.text.as_mut_slice(), self.len, a as u64);
        self.len = write_count(self.text.as_mut_slice(), next, b as u64);
        Ok(())
    }

    fn total(&mut self, what: &[u8], count: usize) -> Result<(), NoMemory>
        ensures { OnOk result
            (Writes (codes "ends" ∷ what.now ∷ number count ∷ []) self.old self.new) }
    {
        self.word(b"ends")?;
        self.word(what)?;
        self.count(count as u64)?;
        Ok(())
    }

    /// Puts the last line of a text: the text's word, and of what it has so many.
    pub fn ends(&mut self, text: &[u8], what: &[u8], count: usize) -> Result<(), NoMemory>
        ensures { OnOk result (WritesLines
            ((text.now ∷ codes "ends" ∷ what.now ∷ number count ∷ []) ∷ []) self.old self.new) }
    {
        self.put(text)?;
        self.total(what, count)?;
        self.put(b"\n")?;
        Ok(())
    }
}
