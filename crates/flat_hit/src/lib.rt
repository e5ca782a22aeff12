//! The hit test: which sessions a point of the display hits (`hits_among` of
//! flat_topology: specs/Hits). A node has a hit here; all nodes of a joined tree have
//! theirs by [`HitIndex`].
#![tactic(auto)]

ghost use Rattle.std.specs.Prelude.{◌≡◌, ◌++◌, ◌*ℤ◌, find, OnOk};
ghost use Rattle.flat_geom.specs.Matrices.{unit};
ghost use Rattle.flat_geom.specs.Rectangles.{has_point};
ghost use Rattle.flat_topology.specs.Hits.{region_rect, hit_on};
ghost use Rattle.flat_hit.specs.Firsts.{is_hit, if_new};

mod hit_index;

pub use crate::hit_index::HitIndex;
use flat_base::{IntRect, NoMemory, ONE, Rect, SessionNo};
use flat_geom::{contains, intersect, map_rect, units};
use flat_scene::{Hit, HitList, HitRegion};
use flat_topology::PlacedNode;

/// The part of the display that a region of a node covers.
fn covered(at: &PlacedNode, area: Option<IntRect>) -> Rect
    ensures { result ≡ region_rect at.now area }
{
    match area {
        Some(area) => intersect(map_rect(at.matrix, units(area)), at.clip),
        None => at.clip,
    }
}

/// The first region of a node that has a place.
fn region_at(at: &PlacedNode, x: i64, y: i64) -> Option<HitRegion>
    ensures { result ≡ find (λ region. has_point (region_rect at.now region.area) x y) at.now.hits }
{
    at.hits
        .as_slice()
        .iter()
        .copied()
        .find(|region| contains(covered(at, region.area), x, y))
}

/// The hit of a place on a node. Outside of the node's clip no region has it.
fn hit_at(at: &PlacedNode, x: i64, y: i64) -> Option<Hit>
    ensures { result ≡ hit_on x y at.now }
{
    if !contains(at.clip, x, y) {
        return None;
    }
    let region = region_at(at, x, y)?;
    Some(Hit {
        session: at.session,
        interaction: region.interaction,
    })
}

fn is_listed(hits: &HitList, session: SessionNo) -> bool
    ensures { result ≡ is_hit hits.now session.0 }
{
    hits.as_slice().iter().any(|hit| hit.session.0 == session.0)
}

/// Appends the hit of a place on a node, if its session has none yet.
fn add(hits: &mut HitList, at: &PlacedNode, x: i64, y: i64) -> Result<(), NoMemory>
    ensures { OnOk result (hits.new ≡ hits.old ++ if_new hits.old (hit_on x y at.now)) }
{
    if is_listed(hits, at.session) {
        return Ok(());
    }
    if let Some(hit) = hit_at(at, x, y) {
        hits.push(hit)?;
    }
    Ok(())
}

fn place_of(units: i32) -> i64
    ensures { result ≡ units *ℤ unit }
{
    units as i64 * ONE as i64
}
