ghost use Rattle.std.specs.Prelude.{◌≡◌, length, [], ◌∷◌, IfOk};
ghost use Rattle.std.specs.List.{list_any};
ghost use Rattle.flat_base.specs.declared.ids.Actor.TheVariants.{Session};
ghost use Rattle.flat_places.specs.Forms.{each};
ghost use Rattle.flat_places.specs.Index.{IsIndexed};
ghost use Rattle.flat_places.specs.Names.{is_actor};
ghost use Rattle.flat_places.specs.Places.{session, view_end, viewport_end, collection, fence};
ghost use Rattle.flat_places.specs.Places.{owner, owner_word, new_name, pair_owner, owners};
ghost use Rattle.flat_places.specs.Places.{has_display_pair};
ghost use Rattle.flat_places.specs.Reads.{Reads};

use crate::kinds::FaultKind;
use crate::names::{IndexedScript, is_name, is_word};
use crate::word_cursor::WordCursor;
use flat_base::{Actor, ActorList, BufferNo, FenceNo, Items, NoMemory, PairNo, SessionNo};
use flat_scene::FenceDecl;
use std::alloc::Global;

/// The places of names.
impl<'a> WordCursor<'a> {
    /// A session that is declared.
    pub fn session(&mut self, script: &IndexedScript) -> SessionNo
        requires { IsIndexed script.now }
        ensures { Reads (session script.now.script) self.old self.new result }
    {
        let Some(word) = self.next() else {
            self.note(FaultKind::WrongCount);
            return SessionNo(0);
        };
        match script.session(word) {
            Some(found) => found,
            None => {
                self.note(FaultKind::UnknownName);
                SessionNo(0)
            }
        }
    }

    fn owner(&mut self, script: &IndexedScript) -> Actor
        requires { IsIndexed script.now }
        ensures { Reads (owner script.now.script) self.old self.new result }
    {
        let Some(word) = self.next() else {
            self.note(FaultKind::WrongCount);
            return Actor::Display;
        };
        match script.owner(word) {
            Some(found) => found,
            None => {
                self.note(FaultKind::UnknownName);
                Actor::Display
            }
        }
    }

    /// Owners to the end of the line, one at least. Fails only if memory runs out.
    pub fn owners(&mut self, alloc: Global, script: &IndexedScript) -> Result<ActorList, NoMemory>
        requires { IsIndexed script.now }
        ensures { IfOk result (λ v. Reads (owners script.now.script) self.old self.new v) }
    {
        if self.words.is_none() {
            self.note(FaultKind::WrongCount);
            return Ok(Items::new(alloc));
        }
        self.each_owner(alloc, script)
    }

    fn each_owner(&mut self, alloc: Global, script: &IndexedScript) -> Result<ActorList, NoMemory>
        requires { IsIndexed script.now }
        ensures { IfOk result (λ v. Reads (λ words. (each (owner_word script.now.script) words, []))
            self.old self.new v) }
    {
        let mut found = Items::new(alloc);
        while self.words.is_some() {
            let one = self.owner(script);
            found.push(one)?;
        }
        Ok(found)
    }

    /// A pair whose view end the session owns.
    pub fn view_end(&mut self, script: &IndexedScript, owner: SessionNo) -> PairNo
        requires { IsIndexed script.now }
        ensures { Reads (view_end script.now.script owner) self.old self.new result }
    {
        let Some(word) = self.next() else {
            return self.kept(Err(FaultKind::WrongCount), PairNo(0));
        };
        self.kept(view_end_in(word, script, owner), PairNo(0))
    }

    /// A pair whose viewport end the session owns.
    pub fn viewport_end(&mut self, script: &IndexedScript, owner: SessionNo) -> PairNo
        requires { IsIndexed script.now }
        ensures { Reads (viewport_end script.now.script owner) self.old self.new result }
    {
        let Some(word) = self.next() else {
            return self.kept(Err(FaultKind::WrongCount), PairNo(0));
        };
        self.kept(viewport_end_in(word, script, owner), PairNo(0))
    }

    /// A buffer collection that the session owns.
    pub fn collection(&mut self, script: &IndexedScript, owner: SessionNo) -> BufferNo
        requires { IsIndexed script.now }
        ensures { Reads (collection script.now.script owner) self.old self.new result }
    {
        let Some(word) = self.next() else {
            return self.kept(Err(FaultKind::WrongCount), BufferNo(0));
        };
        self.kept(collection_in(word, script, owner), BufferNo(0))
    }

    /// A fence that the actor owns.
    pub fn fence(&mut self, script: &IndexedScript, owner: Actor) -> FenceNo
        requires { IsIndexed script.now }
        ensures { Reads (fence script.now.script owner) self.old self.new result }
    {
        let Some(word) = self.next() else {
            return self.kept(Err(FaultKind::WrongCount), FenceNo(0));
        };
        self.kept(fence_in(word, script, owner), FenceNo(0))
    }

    /// A name that isn't declared yet.
    pub fn new_name(&mut self, script: &IndexedScript) -> &'a [u8]
        requires { IsIndexed script.now }
        ensures { Reads (new_name script.now.script) self.old self.new result.now }
    {
        let Some(word) = self.next() else {
            self.note(FaultKind::WrongCount);
            return &[];
        };
        if is_name(word) {
            if !script.is_declared(word) {
                return word;
            }
        }
        self.note(FaultKind::BadHead);
        &[]
    }

    /// The owner of a viewport end, where `paired` says whether the display has a
    /// pair already.
    pub fn pair_owner(&mut self, script: &IndexedScript, paired: bool) -> Actor
        requires indexed { IsIndexed script.now }
        requires paired { paired ≡ has_display_pair script.now.script }
        ensures { Reads (pair_owner script.now.script) self.old self.new result }
    {
        let Some(word) = self.next() else {
            self.note(FaultKind::WrongCount);
            return Actor::Display;
        };
        if paired {
            if is_word(word, "display") {
                self.note(FaultKind::BadHead);
                return Actor::Display;
            }
        }
        match script.owner(word) {
            Some(found) => found,
            None => {
                self.note(FaultKind::UnknownName);
                Actor::Display
            }
        }
    }
}

/// The pair of that name, whose view end the session owns.
fn view_end_in(word: &[u8], script: &IndexedScript, owner: SessionNo) -> Result<PairNo, FaultKind>
    requires { IsIndexed script.now }
    ensures { result ≡ (view_end script.now.script owner (word.now ∷ [])).0 }
{
    let Some(i) = script.pair_place(word) else {
        return Err(FaultKind::UnknownName);
    };
    match script.script.setup.pairs.as_slice().get(i as usize) {
        Some(pair) if is_session(owner, pair.view) => Ok(PairNo(i)),
        _ => Err(FaultKind::NotOwner),
    }
}

/// The pair of that name, whose viewport end the session owns.
fn viewport_end_in(
    word: &[u8],
    script: &IndexedScript,
    owner: SessionNo,
) -> Result<PairNo, FaultKind>
    requires { IsIndexed script.now }
    ensures { result ≡ (viewport_end script.now.script owner (word.now ∷ [])).0 }
{
    let Some(i) = script.pair_place(word) else {
        return Err(FaultKind::UnknownName);
    };
    match script.script.setup.pairs.as_slice().get(i as usize) {
        Some(pair) if is_actor(Actor::Session(owner), pair.viewport) => Ok(PairNo(i)),
        _ => Err(FaultKind::NotOwner),
    }
}

/// The collection of that name, which the session owns.
fn collection_in(
    word: &[u8],
    script: &IndexedScript,
    owner: SessionNo,
) -> Result<BufferNo, FaultKind>
    requires { IsIndexed script.now }
    ensures { result ≡ (collection script.now.script owner (word.now ∷ [])).0 }
{
    let Some(i) = script.buffers_place(word) else {
        return Err(FaultKind::UnknownName);
    };
    match script.script.setup.buffers.as_slice().get(i as usize) {
        Some(buffers) if is_session(owner, buffers.owner) => Ok(BufferNo(i)),
        _ => Err(FaultKind::NotOwner),
    }
}

/// The fence of that name, which the actor owns.
fn fence_in(word: &[u8], script: &IndexedScript, owner: Actor) -> Result<FenceNo, FaultKind>
    requires { IsIndexed script.now }
    ensures { result ≡ (fence script.now.script owner (word.now ∷ [])).0 }
{
    let Some(i) = script.fence_place(word) else {
        return Err(FaultKind::UnknownName);
    };
    match script.script.setup.fences.as_slice().get(i as usize) {
        Some(fence) if has_owner(fence, owner) => Ok(FenceNo(i)),
        _ => Err(FaultKind::NotOwner),
    }
}

fn has_owner(fence: &FenceDecl, actor: Actor) -> bool
    ensures { result ≡ list_any (is_actor actor) fence.now.owners }
{
    fence
        .owners
        .as_slice()
        .iter()
        .any(|owner| is_actor(actor, *owner))
}

fn is_session(a: SessionNo, b: SessionNo) -> bool
    ensures { result ≡ is_actor (Session a) (Session b) }
{
    a == b
}

fn is_actor(a: Actor, b: Actor) -> bool
    ensures { result ≡ is_actor a b }
{
    match (a, b) {
        (Actor::Display, Actor::Display) => true,
        (Actor::Session(s), Actor::Session(t)) => s == t,
        (Actor::Probe(p), Actor::Probe(q)) => p == q,
        _ => false,
    }
}
