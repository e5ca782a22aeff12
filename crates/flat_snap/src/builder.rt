ghost use Rattle.std.specs.Prelude.{◌≡◌, ◌≢◌, ◌<◌, ◌≤◌, [], ◌∷◌, ◌++◌, length, IfOk, OnOk, OnErr};
ghost use Rattle.flat_scene.specs.Trees.{nodes};
ghost use Rattle.flat_scene.specs.Tree.{head_of};
ghost use Rattle.flat_scene.specs.declared.trees.Children.TheVariants.{Empty};
ghost use Rattle.flat_snap.specs.Flat.{lent, viewport_places};
ghost use Rattle.flat_snap.specs.Forest.{as_node};
ghost use Rattle.flat_snap.specs.Building.{begun, entered, left};

use crate::flat::{FlatNode, PackedNode, Part};
use crate::snapshot::Snapshot;
use flat_base::{Items, NoMemory, PairNo};
use flat_scene::{Content, HitRegion, UseList};
use std::alloc::Global;
use std::marker::Model;

/// Builds a snapshot from the nodes of a tree, which are entered in preorder and
/// left when all below them are. Contracts see a part of a tree.
#[derive(Drop)]
pub struct SnapshotBuilder {
    flat: Vec<PackedNode>,
    /// The hit regions of all nodes.
    regions: Vec<HitRegion>,
    /// The numbers of the nodes that show a viewport.
    viewports: Vec<u32>,
    /// The numbers of the open nodes, the innermost last.
    places: Vec<u32>,
}

impl Model for SnapshotBuilder {
    ghost use Rattle.std.specs.Prelude.{◌+◌, ◌-◌, ◌≡◌, ◌<◌, ◌≤◌, ◌^◌, length, map, reverse};
    ghost use Rattle.std.specs.Prelude.{vec_capacity, All};
    ghost use Rattle.flat_snap.specs.Building.{Building};
    ghost use Rattle.flat_scene.specs.contracts.trees.Node as node;
    ghost use Rattle.flat_scene.specs.contracts.trees.Children as children;
    ghost use Rattle.std.specs.Coded.{codes};

    ghost Value = { Building };

    ghost coded = { Prim.hlevel (codes, node.the_row.coded, children.the_row.coded) };

    ghost use Rattle.flat_snap.specs.Flat.{viewport_places};
    ghost use Rattle.flat_snap.specs.Inside.{whole_part, IsWhole};
    ghost use Rattle.flat_snap.specs.Packed.{unpacked_all, IsWithin};

    ghost view = { λ b. let parts = whole_part (unpacked_all b.regions.items b.flat.items)
        b.places.items in
        record {
          room = vec_capacity b.flat - length b.flat.items;
          path = parts.path;
          done = parts.done;
        } };

    ghost invariant = { λ b.
        IsWhole (unpacked_all b.regions.items b.flat.items) b.places.items
        × (vec_capacity b.flat < 2 ^ 32)
        × ((vec_capacity b.flat - length b.flat.items) + length b.places.items
        ≤ vec_capacity b.places)
        × All (IsWithin (length b.regions.items)) b.flat.items
        × (b.viewports.items ≡ viewport_places 0 (map (λ n. n.content) b.flat.items)) };
}

/// Notes the number of a node, if it shows a viewport.
fn note(viewports: &mut Vec<u32>, place: u32, content: Option<Content>) -> Result<(), NoMemory>
    ensures ok { OnOk result (viewports.new.items ≡ viewports.old.items ++ viewport_places place
        (content ∷ [])) }
    ensures err { OnErr result (viewports.new.items ≡ viewports.old.items) }
{
    match content {
        Some(Content::Viewport { .. }) => {
            viewports.push(place)?;
            Ok(())
        }
        _ => Ok(()),
    }
}

impl SnapshotBuilder {
    /// Takes room for that many nodes.
    pub fn new(alloc: Global, nodes: u32) -> Result<SnapshotBuilder, NoMemory>
        ensures { IfOk result (λ made. made ≡ begun nodes) }
    {
        let flat = Vec::with_capacity(alloc, nodes as usize)?;
        let places = Vec::with_capacity(alloc, nodes as usize)?;
        Ok(SnapshotBuilder {
            flat,
            regions: Vec::new(alloc),
            viewports: Vec::new(alloc),
            places,
        })
    }

    /// Adds a node, which is open from now on: its children come by later calls, and
    /// its end, whatever it says, by `leave`. It takes memory for its hit regions and
    /// for the number of a viewport alone. If memory runs out, no node is added.
    pub fn enter(&mut self, node: &FlatNode<'_>) -> Result<(), NoMemory>
        requires { 0 < self.old.room }
        ensures ok { OnOk result (self.new ≡ entered self.old (as_node (lent node.now) Empty)) }
        ensures err { OnErr result (self.new ≡ self.old) }
    {
        let place = self.flat.len() as u32;
        let start = self.regions.len();
        self.regions.extend_from_slice(node.hits)?;
        note(&mut self.viewports, place, node.content)?;
        let hits = Part {
            start,
            end: self.regions.len(),
        };
        self.flat.push_reserved(PackedNode::new(node, hits));
        self.places.push_reserved(place);
        Ok(())
    }

    /// Closes the innermost open node. It takes no memory.
    pub fn leave(&mut self)
        requires { self.old.path ≢ [] }
        ensures { self.new ≡ left self.old }
    {
        if let Some(place) = self.places.pop() {
            self.flat[place as usize].end = self.flat.len() as u32;
        }
    }

    /// The snapshot of the tree that was built, with a view and the viewports in
    /// use. It takes no memory.
    pub fn finish(self, view: Option<PairNo>, viewports: UseList) -> Snapshot
        requires closed { self.path ≡ [] }
        requires one { length (nodes self.done) ≤ 1 }
        ensures { result ≡ record { view = view; root = head_of self.done; viewports = viewports } }
    {
        let SnapshotBuilder {
            flat,
            regions,
            viewports: shown,
            places: _,
        } = self;
        Snapshot {
            pair: view,
            flat: Items::from_vec(flat),
            regions: Items::from_vec(regions),
            places: Items::from_vec(shown),
            uses: viewports,
        }
    }
}
