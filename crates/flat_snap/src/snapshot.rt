ghost use Rattle.std.specs.Prelude.{◌≡◌, ◌<◌, length, map, Some, slice_get};
ghost use Rattle.flat_snap.specs.Flat.{flat_nodes, lent, viewport_places};

use crate::flat::{FlatNode, PackedNode};
use flat_base::{Items, PairNo};
use flat_scene::{HitRegion, UseList};
use std::marker::Model;

/// What a session presented: contracts see its tree. The nodes lie in a list, in
/// preorder, and the hit regions of all of them in another one.
#[derive(Drop)]
pub struct Snapshot {
    pub(crate) pair: Option<PairNo>,
    pub(crate) flat: Items<PackedNode>,
    pub(crate) regions: Items<HitRegion>,
    /// The numbers of the nodes that show a viewport.
    pub(crate) places: Items<u32>,
    pub(crate) uses: UseList,
}

impl Model for Snapshot {
    ghost use Rattle.std.specs.Prelude.{ℕ, ◌≡◌, ◌<◌, ◌^◌, length, map, All};
    ghost use Rattle.flat_scene.specs.declared.trees.Tree.{Tree};
    ghost use Rattle.flat_scene.specs.contracts.trees.Tree as contract;
    ghost use Rattle.flat_scene.specs.Tree.{head_of};
    ghost use Rattle.flat_snap.specs.Flat.{flat_from, rooted, viewport_places};
    ghost use Rattle.flat_snap.specs.Forest.{forest};
    ghost use Rattle.flat_snap.specs.Packed.{unpacked_all, IsWithin};
    ghost use Rattle.std.specs.Coded.{codes};

    ghost Value = { Tree };

    ghost coded = { Prim.hlevel (codes, contract.the_row.coded) };

    ghost view = { λ s. record {
      view = s.pair;
      root = head_of (forest (unpacked_all s.regions
          s.flat));
      viewports = s.uses;
    } };

    ghost invariant = { λ s.
        (unpacked_all s.regions s.flat
        ≡ flat_from 0 (rooted (head_of (forest (unpacked_all s.regions s.flat)))))
        × (length s.flat < 2 ^ 32)
        × All (IsWithin (length s.regions)) s.flat
        × (s.places ≡ viewport_places 0 (map (λ n. n.content) s.flat)) };
}

impl Snapshot {
    /// The pair of the view.
    pub fn view(&self) -> Option<PairNo>
        ensures { result ≡ self.now.view }
    {
        self.pair
    }

    /// How many nodes the tree has.
    pub fn nodes(&self) -> u32
        ensures { result ≡ length (flat_nodes self.now) }
    {
        self.flat.len() as u32
    }

    /// The node of a number, from 0 and in preorder, with regions that the snapshot
    /// lends.
    pub fn node(&self, i: u32) -> FlatNode<'_>
        requires { i < length (flat_nodes self.now) }
        ensures { slice_get (flat_nodes self.entry.now) i ≡ Some (lent result) }
    {
        self.flat.at(i as usize).unpack(self.regions.as_slice())
    }

    /// The numbers of the nodes that show a viewport, in preorder.
    pub fn viewport_nodes(&self) -> &[u32]
        ensures { result.now ≡ viewport_places 0 (map (λ n. n.content) (flat_nodes self.now)) }
    {
        self.places.as_slice()
    }

    /// The viewports neither released nor cleared, by serial.
    pub fn viewports(&self) -> &UseList
        ensures { result.now ≡ self.now.viewports }
    {
        &self.uses
    }
}
