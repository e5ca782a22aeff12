//! The draw list: what the nodes of the joined tree paint, in order.
//!
//! `compose` answers `items_of` (flat_topology: specs/Draw), item by item.
#![tactic(auto)]

mod brush;

ghost use Rattle.std.specs.Prelude.{◌≡◌, ◌+◌, ◌<◌, ◌≤◌, ◌++◌, All, option_to_list, IfOk};
ghost use Rattle.flat_topology.specs.Draw.{scene_matrix, visible_rect, node_item, items_of};

use crate::brush::brush_for;
use flat_base::{NoMemory, OPACITY_MAX, Rect, Roomy};
use flat_geom::{Matrix, intersect, is_empty, map_rect, sized};
use flat_scene::{DrawItem, ItemList, SceneMatrix};
use flat_topology::{GlobalTopology, PlacedNode};
use std::alloc::Global;

fn for_display(m: Matrix) -> SceneMatrix
    ensures { result ≡ scene_matrix m }
{
    SceneMatrix {
        swap: m.swap,
        a: m.a,
        b: m.b,
        x: m.x,
        y: m.y,
    }
}

fn visible(at: &PlacedNode, w: u32, h: u32) -> Rect
    ensures { result ≡ visible_rect at.now w h }
{
    intersect(map_rect(at.matrix, sized(w, h)), at.clip)
}

/// The item that a node gives, if it gives one.
pub fn item(at: &PlacedNode) -> Option<DrawItem>
    requires { at.now.opacity ≤ OPACITY_MAX }
    ensures { result ≡ node_item at.now }
{
    let brush = brush_for(at)?;
    let visible = visible(at, brush.w, brush.h);
    if is_empty(visible) || at.opacity == 0 {
        return None;
    }
    Some(DrawItem {
        session: at.session,
        serial: brush.serial,
        paint: brush.paint,
        w: brush.w,
        h: brush.h,
        matrix: for_display(at.matrix),
        visible,
        opacity: brush.opacity,
        blend: brush.blend,
    })
}

/// Appends the item that a node gives, if it gives one.
fn draw(items: &mut Roomy<DrawItem>, at: &PlacedNode)
    requires low { at.now.opacity ≤ OPACITY_MAX }
    requires room { 0 < items.old.room }
    ensures items { items.new.items ≡ items.old.items ++ option_to_list (node_item at.now) }
    ensures room { items.old.room ≤ items.new.room + 1 }
{
    if let Some(item) = item(at) {
        items.push(item);
    }
}

/// The draw list of a joined tree. The room is taken once.
///
/// No opacity of a node that [`join`](flat_join::join) placed is above one.
pub fn compose(alloc: Global, joined: &GlobalTopology) -> Result<ItemList, NoMemory>
    requires { All (λ at. at.opacity ≤ OPACITY_MAX) joined.now.nodes }
    ensures { IfOk result (λ items. items ≡ items_of joined.now.nodes) }
{
    let nodes = joined.nodes.as_slice();
    let mut items = Roomy::with_capacity(alloc, nodes.len())?;
    for at in nodes {
        draw(&mut items, at);
    }
    Ok(items.into_items())
}
