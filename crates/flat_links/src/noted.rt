ghost use Rattle.std.specs.Prelude.{◌≡◌, ◌<◌, [], ◌∷◌, length, replicate, slice_index_or, IfOk};
ghost use Rattle.flat_links.specs.Noted.{AreNoted, KeptPairs, ListsPair, NotesPairs, new_pair};
ghost use Rattle.flat_links.specs.Hearing.{AreSettledBut, HearsOne};
ghost use Rattle.flat_links.specs.Usage.{SeesUses, SettlesPairs, UsesPair};
ghost use Rattle.flat_facts.specs.Views.{if_unended};
ghost use Rattle.flat_links.specs.Views.{end_stamp, is_ended};

use crate::clears::note_clears;
use crate::pairs::{PairState, note_views};
use crate::usage::{see_use, settle_pairs, use_pair};
use flat_base::{NoMemory, PairNo, Roomy, SESSIONS_MAX};
use flat_facts::live_viewport::LiveViewport;
use flat_scene::{Call, SessionSet, Setup, ViewportProps, ViewportUse};
use flat_states::state::SessionCounts;
use std::alloc::Global;
use std::marker::Model;

const NEW_PAIR: PairState = PairState {
    ended: None,
    cleared: None,
    serial: 0,
    given: None,
    seen: None,
    pending: None,
};

/// What is kept of all declared pairs. Contracts see their states. The pairs that
/// frames noted since the last one ended are listed, so that the end of a frame
/// looks at these alone.
#[derive(Drop)]
pub struct PairStates {
    states: Vec<PairState>,
    noted: Roomy<PairNo>,
    /// More were noted than the list has room for.
    overflows: bool,
}

impl Model for PairStates {
    ghost use Rattle.flat_links.specs.Noted.{AreNoted, KeptPairs};

    ghost Value = { KeptPairs };

    ghost view = { λ p. record { items = p.states.items } };

    ghost invariant = { λ p. AreNoted p.overflows p.noted.items p.states.items };
}

impl PairStates {
    /// So many pairs, to which nothing happened. The list's room is taken here.
    pub fn new(alloc: Global, count: usize) -> Result<PairStates, NoMemory>
        ensures { IfOk result (λ pairs. pairs.items ≡ replicate count new_pair) }
    {
        let noted = Roomy::with_capacity(alloc, count)?;
        let states = Vec::from_elem(alloc, NEW_PAIR, count)?;
        Ok(PairStates {
            states,
            noted,
            overflows: false,
        })
    }

    /// How many pairs there are.
    pub fn len(&self) -> usize
        ensures { result ≡ length self.now.items }
    {
        self.states.len()
    }

    /// What is kept of a pair.
    pub fn state(&self, p: PairNo) -> PairState
        requires { p.0 < length self.now.items }
        ensures { result ≡ slice_index_or self.now.items p.0 result }
    {
        self.states[p.0 as usize]
    }

    /// The stamp of the end of a pair's view: how many presents its owner had made then.
    /// None where the view hasn't ended, and where there is no such pair.
    pub fn end_stamp(&self, p: PairNo) -> Option<u32>
        ensures { result ≡ end_stamp self.now.items p }
    {
        match self.states.get(p.0 as usize) {
            Some(state) => state.ended,
            None => None,
        }
    }

    /// The last view of a session, where it hasn't ended.
    fn unended(&self, last: Option<PairNo>) -> Option<PairNo>
        ensures { result ≡ if_unended last (is_ended self.now.items) }
    {
        match last {
            Some(p) => {
                if self.end_stamp(p).is_some() {
                    return None;
                }
                last
            }
            None => None,
        }
    }

    /// Notes the calls of an entry, where its session had this account, and these
    /// viewports of it lived, before. It takes no memory.
    pub fn note(&mut self, account: SessionCounts, calls: &[Call], live: &[LiveViewport])
        ensures { NotesPairs (if_unended account.view (is_ended self.old.items)) calls.now
            account.presents live.now self.old.items self.new.items }
    {
        let view = self.unended(account.view);
        note_views(self.states.as_mut_slice(), view, calls, account.presents);
        note_clears(self.states.as_mut_slice(), live, calls, account.presents);
    }

    /// The viewport end of a pair is used; the viewport has that serial. It takes no
    /// memory.
    pub fn use_pair(&mut self, p: PairNo, serial: u64, props: ViewportProps)
        ensures { UsesPair p serial props self.old.items self.new.items }
    {
        use_pair(&mut self.states, p, serial, props);
    }

    /// A frame that begins has these viewports. It takes no memory.
    pub fn see_uses(&mut self, uses: &[ViewportUse])
        ensures { SeesUses uses.now self.old.items self.new.items }
    {
        for one in uses {
            self.see_use(one);
        }
    }

    /// A frame that begins has this viewport.
    fn see_use(&mut self, one: &ViewportUse)
        ensures { SeesUses (one.now ∷ []) self.old.items self.new.items }
    {
        self.overflows = list_pair(&mut self.noted, self.overflows, one.pair);
        see_use(&mut self.states, one);
    }

    /// The owners of the views of those pairs of which the frame begun last has other
    /// properties than those seen before. Where more pairs were noted than the list has
    /// room for, all sessions.
    pub fn heard(&self, setup: &Setup) -> SessionSet
        ensures { AreSettledBut result setup.now self.now.items }
    {
        if self.overflows {
            return SessionSet { has: [true; 16] };
        }
        let mut heard = SessionSet { has: [false; 16] };
        for p in self.noted.as_slice() {
            hear_one(self.states.as_slice(), setup, *p, &mut heard);
        }
        heard
    }

    /// The frame begun last ends: what was pending is seen. It looks at no pair that
    /// nothing was noted of, and takes no memory.
    pub fn settle(&mut self)
        ensures { SettlesPairs self.old.items self.new.items }
    {
        settle_pairs(&mut self.states, self.overflows, self.noted.as_slice());
        self.noted.clear();
        self.overflows = false;
    }
}

/// The owner of a pair's view hears that it has other properties, where it has.
fn hear_one(pairs: &[PairState], setup: &Setup, p: PairNo, heard: &mut SessionSet)
    ensures { HearsOne setup.now p pairs.now heard.old heard.new }
{
    let place = p.0 as usize;
    if place >= pairs.len() || place >= setup.pairs.len() {
        return;
    }
    if pairs[place].pending == pairs[place].seen {
        return;
    }
    let owner = setup.pairs.at(place).view;
    if owner.0 == 0 || owner.0 > SESSIONS_MAX {
        return;
    }
    heard.has[owner.0 as usize - 1] = true;
}

/// Lists a pair, where there is room. Answers whether more were noted than the list
/// has room for, where it is known of the pairs before.
fn list_pair(noted: &mut Roomy<PairNo>, overflows: bool, p: PairNo) -> bool
    ensures { ListsPair p overflows result noted.old.items noted.new.items }
{
    if noted.room() == 0 {
        return true;
    }
    noted.push(p);
    overflows
}
