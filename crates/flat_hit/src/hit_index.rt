//! A joined tree for points. Most nodes have no hit region, and give no hit: so the places
//! of the others are noted once, and each point looks at these nodes alone.
ghost use Rattle.std.specs.Prelude.{◌≡◌, ◌∷◌, ◌++◌, [], cond, filter_map, reverse, IfOk, OnOk};
ghost use Rattle.flat_topology.specs.Hits.{hit_on, first_of_each, hits_among};
ghost use Rattle.flat_hit.specs.Touchable.{has_region, region_places};

use crate::{add, place_of};
use flat_base::{Items, NoMemory};
use flat_scene::HitList;
use flat_topology::{GlobalTopology, PlacedList, PlacedNode};
use std::alloc::Global;
use std::marker::Model;

/// A joined tree, with the places of its nodes that have hit regions. Contracts see the
/// joined tree.
#[derive(Drop)]
pub struct HitIndex {
    joined: GlobalTopology,
    places: Items<usize>,
}

impl Model for HitIndex {
    ghost use Rattle.std.specs.Prelude.{◌≡◌};
    ghost use Rattle.flat_topology.specs.declared.GlobalTopology.{GlobalTopology};
    ghost use Rattle.flat_hit.specs.Touchable.{region_places};

    ghost Value = { GlobalTopology };

    ghost view = { λ t. t.joined };

    ghost invariant = { λ t. t.places ≡ region_places t.joined.nodes };
}

/// Notes the place of a node, where it has a hit region.
fn note(places: &mut Items<usize>, place: usize, at: &PlacedNode) -> Result<(), NoMemory>
    ensures { OnOk result (places.new ≡ places.old ++ cond (has_region at.now) (place ∷ []) []) }
{
    if at.hits.is_empty() {
        return Ok(());
    }
    places.push(place)
}

/// The places of the nodes that have hit regions.
fn region_places(alloc: Global, nodes: &PlacedList) -> Result<Items<usize>, NoMemory>
    ensures { IfOk result (λ places. places ≡ region_places nodes.now) }
{
    let mut places = Items::new(alloc);
    for place in 0..nodes.len() {
        note(&mut places, place, nodes.at(place))?;
    }
    Ok(places)
}

/// The first hit of each session, the last of the nodes first. Only those at these places
/// are looked at.
fn first_hits(
    alloc: Global,
    nodes: &PlacedList,
    places: &[usize],
    x: i64,
    y: i64,
) -> Result<HitList, NoMemory>
    requires { places.now ≡ region_places nodes.now }
    ensures { IfOk result (λ hits. hits
        ≡ first_of_each (filter_map (hit_on x y) (reverse nodes.now))) }
{
    let mut hits = Items::new(alloc);
    for before in 0..places.len() {
        let node = nodes.at(places[places.len() - 1 - before]);
        add(&mut hits, node, x, y)?;
    }
    Ok(hits)
}

impl HitIndex {
    /// Goes through all nodes once.
    pub fn new(alloc: Global, joined: GlobalTopology) -> Result<HitIndex, NoMemory>
        ensures { IfOk result (λ touchable. touchable ≡ joined) }
    {
        let places = region_places(alloc, &joined.nodes)?;
        Ok(HitIndex { joined, places })
    }

    /// The sessions that a point of the display hits, in units: last drawn first, each
    /// once, by its first hit.
    pub fn hits(&self, alloc: Global, x: i32, y: i32) -> Result<HitList, NoMemory>
        ensures { IfOk result (λ hits. hits ≡ hits_among self.now.nodes x y) }
    {
        let (x, y) = (place_of(x), place_of(y));
        first_hits(alloc, &self.joined.nodes, self.places.as_slice(), x, y)
    }
}
