ghost use Rattle.std.specs.Prelude.{◌≡◌, ◌<◌, ◌≤◌, ◌-◌, [], length, IfOk, All, None};
ghost use Rattle.std.specs.Prelude.{slice_index_or, slice_set, option_map};
ghost use Rattle.std.specs.Arc.{arc_value};
ghost use Rattle.flat_topology.specs.Shown.{state_of};

use flat_base::{NoMemory, SessionNo};
use flat_snap::Snapshot;
use std::alloc::Global;
use std::marker::Model;
use std::sync::Arc;

/// What is shown of each session, or that nothing is. The states are shared, not
/// copied. Contracts see a list with the tree of each session, or None.
#[derive(Drop)]
pub struct ShownStates {
    states: Vec<Option<Arc<Snapshot>>>,
}

impl Model for ShownStates {
    ghost use Rattle.std.specs.Prelude.{List, Option, map, option_map};
    ghost use Rattle.std.specs.Arc.{arc_value};
    ghost use Rattle.flat_scene.specs.declared.trees.Tree.{Tree};
    ghost use Rattle.flat_scene.specs.contracts.trees.Tree as contract;
    ghost use Rattle.std.specs.Coded.{codes};

    ghost Value = { List (Option Tree) };

    ghost coded = { Prim.hlevel (codes, contract.the_row.coded) };

    ghost view = { λ shown. map (option_map arc_value) shown.states.items };
}

impl ShownStates {
    /// So many sessions, of which nothing is shown.
    pub fn new(alloc: Global, sessions: u32) -> Result<ShownStates, NoMemory>
        ensures size { IfOk result (λ shown. length shown ≡ sessions) }
        ensures none { IfOk result (All (λ state. state ≡ None)) }
    {
        let mut states = Vec::with_capacity(alloc, sessions as usize)?;
        for _ in 0..sessions {
            states.push_reserved(None);
        }
        Ok(ShownStates { states })
    }

    /// No session. It takes no memory.
    pub fn none(alloc: Global) -> ShownStates
        ensures { result ≡ [] }
    {
        ShownStates {
            states: Vec::new(alloc),
        }
    }

    /// Shows this state of a session from now on, or nothing. It takes no memory.
    pub fn set(&mut self, s: SessionNo, state: Option<Arc<Snapshot>>)
        requires some { 0 < s.0 }
        requires few { s.0 ≤ length self.old }
        ensures { self.new ≡ slice_set self.old (s.0 - 1) (option_map arc_value state) }
    {
        self.states[s.0 as usize - 1] = state;
    }

    /// What is shown of a session; None exactly where nothing is.
    pub fn state(&self, s: SessionNo) -> Option<&Arc<Snapshot>>
        requires some { 0 < s.0 }
        requires few { s.0 ≤ length self.now }
        ensures { option_map (λ state. arc_value state.now) result ≡ state_of self.now s.0 }
    {
        self.states[s.0 as usize - 1].as_ref()
    }

    /// For how many sessions it was made.
    pub fn sessions(&self) -> usize
        ensures { result ≡ length self.now }
    {
        self.states.len()
    }
}
