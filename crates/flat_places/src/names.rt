ghost use Rattle.std.specs.Prelude.{◌≡◌, ◌<◌, ◌≤◌, ℕ, List, true, Some, None, cond, length, OnOk};
ghost use Rattle.std.specs.Prelude.{IfSome, IsTrue};
ghost use Rattle.std.specs.List.{list_all};
ghost use Rattle.std.specs.Str.{bytes_eq};
ghost use Rattle.flat_places.specs.Index.{key_of, slot_of, first_cached};
ghost use Rattle.flat_places.specs.Names.{place_of, session_named, owner_named, actor_named};
ghost use Rattle.flat_places.specs.Names.{is_name, is_name_byte, is_reserved, is_declared};

use crate::script::Script;
use flat_base::{Actor, NAME_BYTES_MAX, NoMemory, PROBES_MAX, SESSIONS_MAX, SessionNo};
use std::alloc::Global;
use std::collections::BTreeMap;

/// What a name names: the place among those of its sort, from 0, in the order of
/// declaration.
#[derive(Clone, Copy)]
pub enum NameMeaning {
    /// A session.
    Session(u32),
    /// A probe.
    Probe(u32),
    /// A buffer collection.
    Buffers(u32),
    /// A pair.
    Pair(u32),
    /// A fence.
    Fence(u32),
}

/// How many names the cache can hold. It is a prime, so that names that differ in one letter
/// fall into different slots.
const CACHE_SLOTS: usize = 61;

/// A name in the cache, by its key and its length, and its meaning.
#[derive(Clone, Copy)]
pub struct CachedName {
    pub key: u128,
    pub len: usize,
    pub meaning: NameMeaning,
}

/// Names and their meanings.
#[derive(Drop)]
pub struct Names {
    /// The meaning of each name, by its key.
    pub map: BTreeMap<u128, NameMeaning>,
    /// Some of the names, each in the slot of its key, where it is found without a search.
    pub cache: [Option<CachedName>; CACHE_SLOTS],
}

impl Names {
    ghost use Rattle.flat_places.specs.Index.{meaning_at, IsCache};

    /// No name yet. It takes no memory.
    pub fn new(alloc: Global) -> Names
        ensures empty { (w : List ℕ) → meaning_at result w ≡ None }
        ensures cache { IsCache result }
    {
        Names {
            map: BTreeMap::new(alloc),
            cache: [None; CACHE_SLOTS],
        }
    }

    /// The meaning of a word, where it is a name that was declared.
    fn find(&self, word: &[u8]) -> Option<NameMeaning>
        requires { IsCache self.now }
        ensures { result ≡ meaning_at self.now word.now }
    {
        if word.len() > NAME_BYTES_MAX {
            return None;
        }
        let key = key_of(word);
        let cached = self.cache[slot_of(key)];
        match cached {
            Some(found) if found.key == key && found.len == word.len() => Some(found.meaning),
            _ => self.find_in_map(word, key),
        }
    }

    /// The meaning of a word with this key, by a search in the map.
    fn find_in_map(&self, word: &[u8], key: u128) -> Option<NameMeaning>
        requires { key ≡ key_of word.now }
        ensures { result ≡ meaning_at self.now word.now }
    {
        if !is_name(word) {
            return None;
        }
        self.map.get(&key).copied()
    }

    /// Gives a name its meaning, in place of one that it had. It fails only if memory runs
    /// out.
    pub fn declare(&mut self, name: &[u8], meaning: NameMeaning) -> Result<(), NoMemory>
        requires cache { IsCache self.old }
        requires name { is_name name.now ≡ true }
        ensures found { OnOk result ((w : List ℕ) → meaning_at self.new w
            ≡ cond (bytes_eq w name.now) (Some meaning) (meaning_at self.old w)) }
        ensures cache { OnOk result (IsCache self.new) }
    {
        let key = key_of(name);
        self.map.insert(key, meaning)?;
        let slot = slot_of(key);
        let new = CachedName {
            key,
            len: name.len(),
            meaning,
        };
        self.cache[slot] = Some(first_cached(self.cache[slot], new));
        Ok(())
    }
}

/// What a slot holds once a further name falls into it: the first name keeps it.
fn first_cached(old: Option<CachedName>, new: CachedName) -> CachedName
    ensures { result ≡ first_cached old new }
{
    match old {
        Some(first) if first.key != new.key => first,
        _ => new,
    }
}

/// The slot into which a key falls.
fn slot_of(key: u128) -> usize
    ensures slot { result ≡ slot_of key }
    ensures within { result < CACHE_SLOTS }
{
    ((key % (1 << 64)) as u64 % CACHE_SLOTS as u64) as usize
}

/// The bytes of a name as the digits of one number, which tells names apart.
fn key_of(name: &[u8]) -> u128
    requires { length name.now ≤ NAME_BYTES_MAX }
    ensures { result ≡ key_of name.now }
{
    let mut key = 0u128;
    let mut place = name.len();
    while place > 0 {
        place -= 1;
        key = key * 256 + name[place] as u128;
    }
    key
}

/// A script, and where its names are found. Whoever adds a name to one of the script's
/// lists declares it too, so that the two go together (`IsIndexed`).
#[derive(Drop)]
pub struct IndexedScript {
    /// The script so far.
    pub script: Script,
    /// The names that it declares.
    pub names: Names,
}

impl IndexedScript {
    ghost use Rattle.flat_places.specs.Index.{IsIndexed};
    ghost use Rattle.flat_places.specs.Slots.{IsCounted};

    /// The place of a session.
    fn session_place(&self, word: &[u8]) -> Option<u32>
        requires { IsIndexed self.now }
        ensures place { result ≡ place_of self.now.script.sessions word.now }
        ensures few { IfSome result (λ i. i < SESSIONS_MAX) }
    {
        match self.names.find(word) {
            Some(NameMeaning::Session(i)) => Some(i),
            _ => None,
        }
    }

    fn probe_place(&self, word: &[u8]) -> Option<u32>
        requires { IsIndexed self.now }
        ensures place { result ≡ place_of self.now.script.probes word.now }
        ensures few { IfSome result (λ i. i < PROBES_MAX) }
    {
        match self.names.find(word) {
            Some(NameMeaning::Probe(i)) => Some(i),
            _ => None,
        }
    }

    pub(crate) fn buffers_place(&self, word: &[u8]) -> Option<u32>
        requires { IsIndexed self.now }
        ensures { result ≡ place_of self.now.script.buffers word.now }
    {
        match self.names.find(word) {
            Some(NameMeaning::Buffers(i)) => Some(i),
            _ => None,
        }
    }

    pub(crate) fn pair_place(&self, word: &[u8]) -> Option<u32>
        requires { IsIndexed self.now }
        ensures { result ≡ place_of self.now.script.pairs word.now }
    {
        match self.names.find(word) {
            Some(NameMeaning::Pair(i)) => Some(i),
            _ => None,
        }
    }

    pub(crate) fn fence_place(&self, word: &[u8]) -> Option<u32>
        requires { IsIndexed self.now }
        ensures { result ≡ place_of self.now.script.fences word.now }
    {
        match self.names.find(word) {
            Some(NameMeaning::Fence(i)) => Some(i),
            _ => None,
        }
    }

    pub(crate) fn session(&self, word: &[u8]) -> Option<SessionNo>
        requires { IsIndexed self.now }
        ensures named { result ≡ session_named self.now.script word.now }
        ensures counted { IfSome result (λ s. (0 < s.0) × (s.0 ≤ SESSIONS_MAX)) }
    {
        match self.session_place(word) {
            Some(i) => Some(SessionNo(i + 1)),
            None => None,
        }
    }

    /// A session, or the display.
    pub(crate) fn owner(&self, word: &[u8]) -> Option<Actor>
        requires { IsIndexed self.now }
        ensures named { result ≡ owner_named self.now.script word.now }
        ensures counted { IfSome result IsCounted }
    {
        if is_word(word, "display") {
            return Some(Actor::Display);
        }
        match self.session(word) {
            Some(s) => Some(Actor::Session(s)),
            None => None,
        }
    }

    /// The actor of that name: a session, the display or a probe.
    pub fn actor(&self, word: &[u8]) -> Option<Actor>
        requires { IsIndexed self.now }
        ensures named { result ≡ actor_named self.now.script word.now }
        ensures counted { IfSome result IsCounted }
    {
        match self.owner(word) {
            Some(found) => Some(found),
            None => match self.probe_place(word) {
                Some(i) => Some(Actor::Probe(i)),
                None => None,
            },
        }
    }

    pub(crate) fn is_declared(&self, word: &[u8]) -> bool
        requires { IsIndexed self.now }
        ensures { result ≡ is_declared self.now.script word.now }
    {
        self.names.find(word).is_some()
    }
}

/// Whether the word is this text.
pub fn is_word(word: &[u8], text: &str) -> bool
    ensures { result ≡ bytes_eq word.now text.now }
{
    word == text.as_bytes()
}

pub(crate) fn is_name(word: &[u8]) -> bool
    ensures { result ≡ is_name word.now }
{
    if word.is_empty() {
        return false;
    }
    if !word[0].is_ascii_alphabetic() {
        return false;
    }
    if !all_name_bytes(word) {
        return false;
    }
    if word.len() > NAME_BYTES_MAX {
        return false;
    }
    !is_reserved(word)
}

fn all_name_bytes(word: &[u8]) -> bool
    ensures { result ≡ list_all is_name_byte word.now }
{
    word.iter().all(|b| is_name_byte(*b))
}

fn is_reserved(word: &[u8]) -> bool
    ensures { result ≡ is_reserved word.now }
{
    if is_word(word, "display") {
        return true;
    }
    if is_word(word, "acquire") {
        return true;
    }
    is_word(word, "release")
}

fn is_name_byte(b: u8) -> bool
    ensures { result ≡ is_name_byte b }
{
    b.is_ascii_alphabetic() || b.is_ascii_digit() || b == b'_'
}
