ghost use Rattle.std.specs.Prelude.{◌≡◌, ◌≤◌, [], length, IfOk, OnErr, OnOk};
ghost use Rattle.flat_scene.specs.Setups.{at_ratio};
ghost use Rattle.flat_topology.specs.Draw.{draw_list};
ghost use Rattle.flat_topology.specs.Fit.{FitsSetup};
ghost use Rattle.flat_topology.specs.Views.{view_nodes};
ghost use Rattle.flat_topology.specs.Changes.{AreSame};
ghost use Rattle.flat_reuse.specs.Keeping.{AreSlots};

use crate::follow::{copied, differing, fit_slots};
use crate::show::{Drawing, draw};
use crate::slots::Slots;
use flat_base::{NoMemory, SESSIONS_MAX};
use flat_join::ShownStates;
use flat_scene::{ItemList, SessionSet, Setup};
use std::alloc::Global;
use std::marker::Model;
use std::mem;

/// What was composed before, kept as far as it can serve again. Contracts see what
/// the sessions showed at the last call, and nothing where that was refused.
#[derive(Drop)]
pub struct Reuse {
    shown: ShownStates,
    slots: Slots,
    /// How many items the last call gave: the next one takes room for so many.
    room: usize,
}

impl Model for Reuse {
    ghost use Rattle.std.specs.Prelude.{List, Option};
    ghost use Rattle.flat_scene.specs.declared.trees.Tree.{Tree};
    ghost use Rattle.flat_scene.specs.contracts.trees.Tree as contract;
    ghost use Rattle.std.specs.Coded.{codes};

    ghost Value = { List (Option Tree) };

    ghost coded = { Prim.hlevel (codes, contract.the_row.coded) };

    ghost use Rattle.flat_reuse.specs.Keeping.{AreSlots};

    ghost view = { λ r. r.shown };

    ghost invariant = { λ r. AreSlots r.shown r.slots.items };
}

impl Reuse {
    /// Keeps nothing yet.
    pub fn new(alloc: Global) -> Result<Reuse, NoMemory>
        ensures { IfOk result (λ reuse. reuse ≡ []) }
    {
        let slots = Vec::with_capacity(alloc, SESSIONS_MAX as usize)?;
        Ok(Reuse {
            shown: ShownStates::none(alloc),
            slots,
            room: 0,
        })
    }

    /// Hands out all that is kept.
    fn take(&mut self, alloc: Global) -> Slots
        ensures slots { AreSlots self.old result.items }
        ensures rest { self.new ≡ [] }
    {
        self.shown = ShownStates::none(alloc);
        mem::replace(&mut self.slots, Vec::new(alloc))
    }

    /// Keeps this from now on.
    fn keep(&mut self, shown: ShownStates, slots: Slots, room: usize)
        requires { AreSlots shown slots.items }
        ensures { self.new ≡ shown }
    {
        self.room = room;
        self.shown = shown;
        self.slots = slots;
    }

    /// What the sessions showed at the last call.
    pub fn shown(&self) -> &ShownStates
        ensures { result.now ≡ self.now }
    {
        &self.shown
    }

    /// What the display shows, as it is composed of what the sessions show: the draw
    /// list, and the views of the view tree. Each session outside `changed` shows the
    /// tree that it showed at the last call.
    ///
    /// A call that is refused leaves what [`Reuse::new`] gives.
    pub fn draw_changed(
        &mut self,
        alloc: Global,
        shown: &ShownStates,
        setup: &Setup,
        ratio: u32,
        changed: SessionSet,
    ) -> Result<Drawing, NoMemory>
        requires made { length shown.now ≡ setup.now.sessions }
        requires few { setup.now.sessions ≤ SESSIONS_MAX }
        requires fit { FitsSetup setup.now shown.now }
        requires same { AreSame changed self.old shown.now }
        ensures items { IfOk result (λ drawing. drawing.items
            ≡ draw_list (at_ratio ratio setup.now) shown.now) }
        ensures views { IfOk result (λ drawing. drawing.views
            ≡ view_nodes (at_ratio ratio setup.now) shown.now) }
        ensures kept { OnOk result (self.new ≡ shown.now) }
        ensures anew { OnErr result (self.new ≡ []) }
    {
        let room = self.room;
        let mut slots = self.take(alloc);
        fit_slots(&mut slots, shown.sessions(), &changed)?;
        let drawing = draw(&mut slots, alloc, shown, setup, ratio, room)?;
        let copy = copied(alloc, shown)?;
        self.keep(copy, slots, drawing.items.len());
        Ok(drawing)
    }

    /// The same for any shown states. Looks itself which sessions show the tree that
    /// they showed at the last call, node by node.
    ///
    /// A call that is refused leaves what [`Reuse::new`] gives.
    pub fn draw_next(
        &mut self,
        alloc: Global,
        shown: &ShownStates,
        setup: &Setup,
        ratio: u32,
    ) -> Result<Drawing, NoMemory>
        requires made { length shown.now ≡ setup.now.sessions }
        requires few { setup.now.sessions ≤ SESSIONS_MAX }
        requires fit { FitsSetup setup.now shown.now }
        ensures items { IfOk result (λ drawing. drawing.items
            ≡ draw_list (at_ratio ratio setup.now) shown.now) }
        ensures views { IfOk result (λ drawing. drawing.views
            ≡ view_nodes (at_ratio ratio setup.now) shown.now) }
        ensures kept { OnOk result (self.new ≡ shown.now) }
        ensures anew { OnErr result (self.new ≡ []) }
    {
        let changed = differing(&self.shown, shown);
        self.draw_changed(alloc, shown, setup, ratio, changed)
    }

    /// The draw list of any shown states: what `compose` of `join` gives.
    ///
    /// A call that is refused leaves what [`Reuse::new`] gives.
    pub fn compose_next(
        &mut self,
        alloc: Global,
        shown: &ShownStates,
        setup: &Setup,
        ratio: u32,
    ) -> Result<ItemList, NoMemory>
        requires made { length shown.now ≡ setup.now.sessions }
        requires few { setup.now.sessions ≤ SESSIONS_MAX }
        requires fit { FitsSetup setup.now shown.now }
        ensures items { IfOk result (λ items. items ≡ draw_list (at_ratio ratio setup.now)
            shown.now) }
        ensures kept { OnOk result (self.new ≡ shown.now) }
        ensures anew { OnErr result (self.new ≡ []) }
    {
        let Drawing { items, views: _ } = self.draw_next(alloc, shown, setup, ratio)?;
        Ok(items)
    }
}
