ghost use Rattle.std.specs.Prelude.{◌≡◌, true, nat_lt, length, [], IfOk};
ghost use Rattle.std.specs.List.{before_first};
ghost use Rattle.flat_base.specs.declared.ids.Actor.TheVariants.{Session};
ghost use Rattle.flat_forms.specs.Body.{fence_lists};
ghost use Rattle.flat_places.specs.Forms.{each, one_or_more};
ghost use Rattle.flat_places.specs.Index.{IsIndexed};
ghost use Rattle.flat_forms.specs.Lists.{ends_list, behind_end, ReadsList};
ghost use Rattle.flat_places.specs.Places.{fence_word};
ghost use Rattle.flat_places.specs.Reads.{Reads, left};

use flat_base::{Actor, FenceList, Items, NoMemory, SessionNo};
use flat_places::{FaultKind, IndexedScript, WordCursor, is_word};
use flat_text::next_piece;
use std::alloc::Global;

/// Whether the next word is a fence's: the line goes on, and, where another
/// list may follow, not with its keyword.
fn has_fence(places: &WordCursor, follows: bool) -> bool
    ensures { result ≡ nat_lt 0 (length (before_first (ends_list follows) (left places.now))) }
{
    match places.words {
        None => false,
        Some(words) => {
            let (word, _) = next_piece(words, b' ');
            !ends_list(follows, word)
        }
    }
}

/// Fences up to the end of their list.
fn each_fence(
    places: &mut WordCursor,
    alloc: Global,
    script: &IndexedScript,
    owner: Actor,
    follows: bool,
) -> Result<FenceList, NoMemory>
    requires { IsIndexed script.now }
    ensures { IfOk result (λ v. ReadsList (each (fence_word script.now.script owner)) follows
        places.old places.new v) }
{
    let mut found = Items::new(alloc);
    while has_fence(places, follows) {
        let one = places.fence(script, owner);
        found.push(one)?;
    }
    Ok(found)
}

/// The same, and there has to be one at least.
fn some_fences(
    places: &mut WordCursor,
    alloc: Global,
    script: &IndexedScript,
    owner: Actor,
    follows: bool,
) -> Result<FenceList, NoMemory>
    requires { IsIndexed script.now }
    ensures { IfOk result (λ v. ReadsList (one_or_more (fence_word script.now.script owner)) follows
        places.old places.new v) }
{
    let some = has_fence(places, follows);
    places.note_unless(FaultKind::WrongCount, some);
    each_fence(places, alloc, script, owner, follows)
}

/// The fences to the end of the line, one at least.
fn last_list(
    places: &mut WordCursor,
    alloc: Global,
    script: &IndexedScript,
    owner: Actor,
) -> Result<FenceList, NoMemory>
    requires { IsIndexed script.now }
    ensures { IfOk result (λ v. Reads
        (λ words. (one_or_more (fence_word script.now.script owner) words, [])) places.old
        places.new v) }
{
    some_fences(places, alloc, script, owner, false)
}

/// The fences behind `release`, where it comes next.
fn list_if_any(
    places: &mut WordCursor,
    alloc: Global,
    script: &IndexedScript,
    owner: Actor,
) -> Result<FenceList, NoMemory>
    requires indexed { IsIndexed script.now }
    requires stops { before_first (ends_list true) (left places.old) ≡ [] }
    ensures { IfOk result (λ v. Reads
        (behind_end (one_or_more (fence_word script.now.script owner))) places.old places.new v) }
{
    match places.next() {
        Some(_) => last_list(places, alloc, script, owner),
        None => Ok(Items::new(alloc)),
    }
}

/// The lists of fences of a present, to the end of the line.
pub fn fence_lists(
    places: &mut WordCursor,
    alloc: Global,
    script: &IndexedScript,
    session: SessionNo,
) -> Result<(FenceList, FenceList), NoMemory>
    requires { IsIndexed script.now }
    ensures { IfOk result (λ v. Reads
        (λ words. (
          fence_lists (fence_word script.now.script (Session session)) words,
          [],
        )) places.old places.new v) }
{
    let owner = Actor::Session(session);
    let Some(word) = places.next() else {
        return Ok((Items::new(alloc), Items::new(alloc)));
    };
    if is_word(word, "acquire") {
        let acquire = some_fences(places, alloc, script, owner, true)?;
        let release = list_if_any(places, alloc, script, owner)?;
        return Ok((acquire, release));
    }
    if is_word(word, "release") {
        let release = last_list(places, alloc, script, owner)?;
        return Ok((Items::new(alloc), release));
    }
    places.note(FaultKind::WrongCount);
    places.words = None;
    Ok((Items::new(alloc), Items::new(alloc)))
}

fn ends_list(follows: bool, word: &[u8]) -> bool
    ensures { result ≡ ends_list follows word.now }
{
    follows && is_word(word, "release")
}
