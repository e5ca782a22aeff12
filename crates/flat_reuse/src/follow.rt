ghost use Rattle.std.specs.Prelude.{◌≡◌, ◌↔◌, ◌<◌, ◌≤◌, length, IfOk, IsTrue, OnOk, Some, None};
ghost use Rattle.std.specs.Prelude.{option_map, slice_index_or, ℕ};
ghost use Rattle.std.specs.Arc.{arc_value};
ghost use Rattle.flat_topology.specs.Changes.{AreSame};
ghost use Rattle.flat_reuse.specs.Keeping.{AreFitted};

use crate::slots::Slots;
use flat_base::{NoMemory, SESSIONS_MAX, SessionNo};
use flat_join::ShownStates;
use flat_scene::SessionSet;
use flat_snap::Snapshot;
use std::alloc::Global;
use std::sync::Arc;

/// Whether two states are of one tree.
fn is_same(one: Option<&Arc<Snapshot>>, other: Option<&Arc<Snapshot>>) -> bool
    ensures { IsTrue result ↔ (option_map (λ state. arc_value state.now) one.entry
        ≡ option_map (λ state. arc_value state.now) other.entry) }
{
    match one {
        Some(one) => match other {
            Some(other) => one.same(other),
            None => false,
        },
        None => other.is_none(),
    }
}

/// The sessions that show one tree in `new` and another one in `old`.
pub fn differing(old: &ShownStates, new: &ShownStates) -> SessionSet
    requires { length new.now ≤ SESSIONS_MAX }
    ensures { AreSame result old.now new.now }
{
    let mut has = [true; 16];
    if old.sessions() == new.sessions() {
        for before in 0..new.sessions() {
            let s = SessionNo(before as u32 + 1);
            has[before] = !is_same(old.state(s), new.state(s));
        }
    }
    SessionSet { has }
}

fn shared(state: Option<&Arc<Snapshot>>) -> Result<Option<Arc<Snapshot>>, NoMemory>
    ensures { IfOk result (λ shared. option_map arc_value shared
        ≡ option_map (λ state. arc_value state.now) state.entry) }
{
    match state {
        Some(state) => Ok(Some(Arc::try_clone(state)?)),
        None => Ok(None),
    }
}

/// The same shown states, which are shared.
pub fn copied(alloc: Global, shown: &ShownStates) -> Result<ShownStates, NoMemory>
    requires { length shown.now ≤ SESSIONS_MAX }
    ensures { IfOk result (λ copy. copy ≡ shown.now) }
{
    let mut copy = ShownStates::new(alloc, shown.sessions() as u32)?;
    for before in 0..shown.sessions() {
        let s = SessionNo(before as u32 + 1);
        copy.set(s, shared(shown.state(s))?);
    }
    Ok(copy)
}

/// So many slots, all empty.
fn empty(slots: &mut Slots, sessions: usize) -> Result<(), NoMemory>
    ensures size { OnOk result (length slots.new.items ≡ sessions) }
    ensures none { OnOk result ((k : ℕ) → slice_index_or slots.new.items k None ≡ None) }
{
    slots.clear();
    for _ in 0..sessions {
        slots.push(None)?;
    }
    Ok(())
}

/// Empties the slots of some sessions.
fn forget(slots: &mut Slots, changed: &SessionSet)
    requires { length slots.old.items ≤ SESSIONS_MAX }
    ensures { AreFitted changed.now slots.old.items slots.new.items (length slots.old.items) }
{
    for before in 0..slots.len() {
        if changed.has[before] {
            slots[before] = None;
        }
    }
}

/// Makes it so many slots. Those of the sessions that changed are empty.
pub fn fit_slots(slots: &mut Slots, sessions: usize, changed: &SessionSet) -> Result<(), NoMemory>
    requires { sessions ≤ SESSIONS_MAX }
    ensures { OnOk result (AreFitted changed.now slots.old.items slots.new.items sessions) }
{
    if slots.len() != sessions {
        return empty(slots, sessions);
    }
    forget(slots, changed);
    Ok(())
}
