ghost use Rattle.std.specs.Prelude.{◌≡◌, ◌+◌, ◌<◌, ◌≤◌, ◌∷◌, None, Some, IfOk, IfSome, IfNone};
ghost use Rattle.std.specs.Prelude.{MatchResult, OnErr, length, map, slice_get, sum};
ghost use Rattle.flat_scene.specs.declared.setup.BufferDecl.{BufferDecl};
ghost use Rattle.flat_scene.specs.declared.setup.FenceDecl.{FenceDecl};
ghost use Rattle.flat_scene.specs.declared.setup.PairDecl.{PairDecl};

use crate::fault::{DISPLAY_OWES, ENTRIES_MAX, SESSION_OWES, SetupFault};
use crate::parts::{is_declared, is_display, is_ratio, is_size, is_within, may_all_own, may_own};
use flat_base::{
    Actor, ActorList, BUFFER_COLLECTIONS_MAX, BUFFERS_PER_COLLECTION_MAX, BufferNo, FENCES_MAX,
    FenceNo, Items, NoMemory, ONE, PAIRS_MAX, PairNo, SESSIONS_MAX, SessionNo, ShareList,
};
use flat_scene::{BufferDecl, FenceDecl, PairDecl, Setup};
use std::alloc::Global;
use std::marker::Model;

/// What was said of a setup so far. Sessions, pairs, buffer collections and fences are numbered in
/// the order of their declaration, and an owner must be declared before what it owns.
///
/// A call that declares something refuses it at once if it is at fault, and then leaves the
/// builder as it was. Contracts see what was said.
#[derive(Drop)]
pub struct SetupBuilder {
    alloc: Global,
    setup: Setup,
    /// Whether the display has a pair.
    paired: bool,
    /// How many entries the display may make.
    display: u32,
    /// How many entries each session may make.
    sessions: Items<u32>,
    /// How many entries all actors may make, with those that they may owe.
    total: u64,
}

impl Model for SetupBuilder {
    ghost use Rattle.flat_setup.specs.Builders.{Plan, IsHeld};

    ghost Value = { Plan };

    ghost view = { λ b. record { setup = b.setup; display = b.display; sessions = b.sessions } };

    ghost invariant = { λ b. IsHeld
        (record { setup = b.setup; display = b.display; sessions = b.sessions })
        b.paired b.total };
}

impl SetupBuilder {
    ghost use Rattle.flat_setup.specs.Builders.{begun, with_ratio, with_session, with_pair};
    ghost use Rattle.flat_setup.specs.Builders.{with_buffers, with_fence, built, IsKept};
    ghost use Rattle.flat_setup.specs.Builders.{IsNewSetup, shares_of};
    ghost use Rattle.flat_setup.specs.Faults.{session_fault, pair_fault, buffers_fault};
    ghost use Rattle.flat_setup.specs.Faults.{fence_fault, fault_of};

    /// A display of that size in units, with the pixel ratio 1, that may make so many entries.
    /// It takes no memory.
    pub fn new(alloc: Global, width: u32, height: u32, entries: u32) -> SetupBuilder
        ensures { result ≡ begun width height entries }
    {
        SetupBuilder {
            alloc,
            setup: Setup {
                width,
                height,
                sessions: 0,
                probes: 0,
                pairs: Items::new(alloc),
                buffers: Items::new(alloc),
                fences: Items::new(alloc),
                ratio: ONE,
            },
            paired: false,
            display: entries,
            sessions: Items::new(alloc),
            total: u64::from(entries) + u64::from(DISPLAY_OWES),
        }
    }

    /// Sets the display's pixel ratio at the start, in fixed point.
    pub fn ratio(&mut self, ratio: u32)
        ensures { self.new ≡ with_ratio self.old ratio }
    {
        self.setup.ratio = ratio;
    }

    /// Declares a session that may make so many entries, and answers its number.
    pub fn session(&mut self, entries: u32) -> Result<SessionNo, SetupFault>
        ensures fault { IfSome (session_fault self.old entries) (λ fault. result ≡ Err fault) }
        ensures said { IfNone (session_fault self.old entries)
            (MatchResult result (λ s. self.new ≡ with_session self.old entries)
            (λ fault. fault ≡ SetupFault.NoMemory)) }
        ensures number { IfOk result (λ s. s.0 ≡ self.old.setup.sessions + 1) }
        ensures same { OnErr result (self.new ≡ self.old) }
    {
        if let Some(fault) = self.session_fault(entries) {
            return Err(fault);
        }
        self.sessions.push(entries)?;
        self.setup.sessions += 1;
        self.total += u64::from(entries) + u64::from(SESSION_OWES);
        Ok(SessionNo(self.setup.sessions))
    }

    /// Declares a pair by the owners of its ends, and answers its number. The display owns one
    /// viewport end in all.
    pub fn pair(&mut self, viewport: Actor, view: SessionNo) -> Result<PairNo, SetupFault>
        ensures fault { IfSome (pair_fault self.old viewport view) (λ fault. result ≡ Err fault) }
        ensures said { IfNone (pair_fault self.old viewport view) (MatchResult result
            (λ p. self.new ≡ with_pair self.old (record { viewport = viewport; view = view }))
            (λ fault. fault ≡ SetupFault.NoMemory)) }
        ensures number { IfOk result (λ p. p.0 ≡ length self.old.setup.pairs) }
        ensures declared { IfOk result (λ p. slice_get self.new.setup.pairs p.0
            ≡ Some (record { viewport = viewport; view = view })) }
        ensures same { OnErr result (self.new ≡ self.old) }
    {
        if let Some(fault) = self.pair_fault(viewport, view) {
            return Err(fault);
        }
        let number = self.setup.pairs.len() as u32;
        self.setup.pairs.push(PairDecl { viewport, view })?;
        let shown = is_display(viewport);
        self.paired = self.paired || shown;
        Ok(PairNo(number))
    }

    /// Declares a collection of `count` buffers, `w` by `h` units each, and answers its number.
    pub fn buffers(
        &mut self,
        owner: SessionNo,
        count: u32,
        w: u32,
        h: u32,
    ) -> Result<BufferNo, SetupFault>
        ensures fault { let decl : BufferDecl = record
            { owner = owner; count = count; w = w; h = h } in
            IfSome (buffers_fault self.old decl) (λ fault. result ≡ Err fault) }
        ensures said { let decl : BufferDecl = record
            { owner = owner; count = count; w = w; h = h } in
            IfNone (buffers_fault self.old decl) (MatchResult result
            (λ b. self.new ≡ with_buffers self.old decl) (λ fault. fault ≡ SetupFault.NoMemory)) }
        ensures number { IfOk result (λ b. b.0 ≡ length self.old.setup.buffers) }
        ensures declared { IfOk result (λ b. slice_get self.new.setup.buffers b.0
            ≡ Some (record { owner = owner; count = count; w = w; h = h })) }
        ensures same { OnErr result (self.new ≡ self.old) }
    {
        let decl = BufferDecl { owner, count, w, h };
        if let Some(fault) = self.buffers_fault(decl) {
            return Err(fault);
        }
        let number = self.setup.buffers.len() as u32;
        self.setup.buffers.push(decl)?;
        Ok(BufferNo(number))
    }

    /// Declares a fence that these actors may name, and answers its number.
    pub fn fence(&mut self, owners: &[Actor]) -> Result<FenceNo, SetupFault>
        ensures fault { IfSome (fence_fault self.old owners.now) (λ fault. result ≡ Err fault) }
        ensures said { IfNone (fence_fault self.old owners.now) (MatchResult result
            (λ f. self.new ≡ with_fence self.old (record { owners = owners.now }))
            (λ fault. fault ≡ SetupFault.NoMemory)) }
        ensures number { IfOk result (λ f. f.0 ≡ length self.old.setup.fences) }
        ensures declared { IfOk result (λ f. slice_get self.new.setup.fences f.0
            ≡ Some (record { owners = owners.now })) }
        ensures same { OnErr result (self.new ≡ self.old) }
    {
        if let Some(fault) = self.fence_fault(owners) {
            return Err(fault);
        }
        let number = self.setup.fences.len() as u32;
        let owners = copied(self.alloc, owners)?;
        self.setup.fences.push(FenceDecl { owners })?;
        Ok(FenceNo(number))
    }

    /// What [`build`](SetupBuilder::build) would refuse now, if anything.
    pub fn fault(&self) -> Option<SetupFault>
        ensures first { result ≡ fault_of self.now }
        ensures kept { IsKept self.now }
    {
        if !is_size(self.setup.width, self.setup.height) {
            return Some(SetupFault::BadSize);
        }
        if !is_ratio(self.setup.ratio) {
            return Some(SetupFault::BadRatio);
        }
        if self.setup.sessions == 0 {
            return Some(SetupFault::NoSession);
        }
        if !self.paired {
            return Some(SetupFault::NoDisplayPair);
        }
        if self.total > ENTRIES_MAX {
            return Some(SetupFault::TooManyEntries);
        }
        None
    }

    /// The setup that was said, and what each actor may make in it.
    #[tactic(auto, using(crate::proofs::Keeping::sum_first))]
    pub fn build(self) -> Result<BuiltSetup, SetupFault>
        ensures fault { IfSome (fault_of self) (λ fault. result ≡ Err fault) }
        ensures made { IfNone (fault_of self) (MatchResult result
            (λ made. (made ≡ built self) × IsNewSetup made)
            (λ fault. fault ≡ SetupFault.NoMemory)) }
    {
        if let Some(fault) = self.fault() {
            return Err(fault);
        }
        let shares = shares_of(self.alloc, self.display, self.sessions.as_slice())?;
        Ok(BuiltSetup {
            setup: self.setup,
            shares,
        })
    }
}

// What a declaration would be refused for.
impl SetupBuilder {
    ghost use Rattle.flat_setup.specs.Faults.{session_fault, pair_fault, buffers_fault};
    ghost use Rattle.flat_setup.specs.Faults.{fence_fault};

    fn session_fault(&self, entries: u32) -> Option<SetupFault>
        ensures { result ≡ session_fault self.now entries }
    {
        if self.setup.sessions >= SESSIONS_MAX {
            return Some(SetupFault::TooManySessions);
        }
        if self.total + (u64::from(entries) + u64::from(SESSION_OWES)) > ENTRIES_MAX {
            return Some(SetupFault::TooManyEntries);
        }
        None
    }

    fn pair_fault(&self, viewport: Actor, view: SessionNo) -> Option<SetupFault>
        ensures { result ≡ pair_fault self.now viewport view }
    {
        if self.setup.pairs.len() >= PAIRS_MAX as usize {
            return Some(SetupFault::TooManyPairs);
        }
        if !may_own(&self.setup, viewport) || !is_declared(&self.setup, view) {
            return Some(SetupFault::UnknownOwner);
        }
        if is_display(viewport) && self.paired {
            return Some(SetupFault::SecondDisplayPair);
        }
        None
    }

    fn buffers_fault(&self, decl: BufferDecl) -> Option<SetupFault>
        ensures { result ≡ buffers_fault self.now decl }
    {
        if self.setup.buffers.len() >= BUFFER_COLLECTIONS_MAX as usize {
            return Some(SetupFault::TooManyBuffers);
        }
        if !is_declared(&self.setup, decl.owner) {
            return Some(SetupFault::UnknownOwner);
        }
        if !is_within(BUFFERS_PER_COLLECTION_MAX, decl.count) {
            return Some(SetupFault::BadCount);
        }
        if !is_size(decl.w, decl.h) {
            return Some(SetupFault::BadSize);
        }
        None
    }

    fn fence_fault(&self, owners: &[Actor]) -> Option<SetupFault>
        ensures { result ≡ fence_fault self.now owners.now }
    {
        if self.setup.fences.len() >= FENCES_MAX as usize {
            return Some(SetupFault::TooManyFences);
        }
        if owners.is_empty() {
            return Some(SetupFault::NoOwner);
        }
        if !may_all_own(&self.setup, owners) {
            return Some(SetupFault::UnknownOwner);
        }
        None
    }
}

/// A list of these actors.
fn copied(alloc: Global, actors: &[Actor]) -> Result<ActorList, NoMemory>
    ensures { IfOk result (λ list. list ≡ actors.now) }
{
    let mut list = Items::new(alloc);
    list.extend_from_slice(actors)?;
    Ok(list)
}

/// How many entries each actor may make, with those that it may owe.
fn shares_of(alloc: Global, display: u32, sessions: &[u32]) -> Result<ShareList, NoMemory>
    requires { (display + DISPLAY_OWES) + sum (map (λ entries. entries + SESSION_OWES) sessions.now)
        ≤ ENTRIES_MAX }
    ensures { IfOk result (λ shares. shares
        ≡ (display + DISPLAY_OWES) ∷ map (λ entries. entries + SESSION_OWES) sessions.now) }
{
    let mut shares = Items::new(alloc);
    shares.push(display + DISPLAY_OWES)?;
    for entries in sessions {
        shares.push(*entries + SESSION_OWES)?;
    }
    Ok(shares)
}

/// A setup that a [`SetupBuilder`] built, and how many entries each actor may make in it: the
/// display first, then the sessions.
#[derive(Drop)]
pub struct BuiltSetup {
    setup: Setup,
    shares: ShareList,
}

impl Model for BuiltSetup {
    ghost use Rattle.flat_setup.specs.Builders.{Built, IsNewSetup};

    ghost Value = { Built };

    ghost view = { λ it. record { setup = it.setup; shares = it.shares } };

    ghost invariant = { λ it. IsNewSetup (record { setup = it.setup; shares = it.shares }) };
}

impl BuiltSetup {
    ghost use Rattle.flat_setup.specs.Builders.{IsNewSetup};

    pub fn setup(&self) -> &Setup
        ensures value { result.now ≡ self.now.setup }
        ensures good { IsNewSetup self.now }
    {
        &self.setup
    }

    /// The setup and the shares, as a service takes them.
    pub fn into_parts(self) -> (Setup, ShareList)
        ensures setup { result.0 ≡ self.setup }
        ensures shares { result.1 ≡ self.shares }
        ensures good { IsNewSetup self }
    {
        let BuiltSetup { setup, shares } = self;
        (setup, shares)
    }
}
