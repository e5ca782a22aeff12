ghost use Rattle.std.specs.Prelude.{◌≡◌, ◌<◌, ◌^◌, IfOk, Some};
ghost use Rattle.flat_scene.specs.declared.trees.Content.TheVariants as content;
ghost use Rattle.flat_scene.specs.declared.trees.Children.TheVariants.{Empty};
ghost use Rattle.flat_scene.specs.Setups.{at_ratio};
ghost use Rattle.flat_snap.specs.Flat.{lent};
ghost use Rattle.flat_snap.specs.Forest.{as_node};
ghost use Rattle.flat_topology.specs.Place.{seen_through, cut_clip, display_rect, display_space};
ghost use Rattle.flat_topology.specs.Place.{node_matrix, node_space, viewport_rect, placed_node};
ghost use Rattle.flat_geom.specs.Rectangles.{shared_part};
ghost use Rattle.flat_join.specs.Walking.{space_of};

use flat_base::{IntRect, Items, NoMemory, ONE, OPACITY_MAX, Rect, SessionNo};
use flat_geom::{Matrix, compose, intersect, local, map_rect, scaling, sized, units};
use flat_scene::{Setup, ViewportProps};
use flat_snap::FlatNode;
use flat_topology::PlacedNode;
use std::alloc::Global;

/// What a node hands on to the nodes below it.
#[derive(Clone, Copy)]
pub struct Scope {
    pub matrix: Matrix,
    pub clip: Rect,
    pub opacity: u32,
}

/// The display's rectangle.
pub fn whole_display(setup: &Setup) -> Rect
    ensures { result ≡ display_rect setup.now }
{
    sized(setup.width, setup.height)
}

/// What the display hands on at a pixel ratio.
pub fn outermost(setup: &Setup, ratio: u32) -> Scope
    ensures { space_of result ≡ display_space (at_ratio ratio setup.now) }
{
    Scope {
        matrix: scaling(ratio),
        clip: whole_display(setup),
        opacity: OPACITY_MAX,
    }
}

/// An opacity seen through another one, rounded down. It is none greater than
/// `own` where `outer` is at most one.
pub fn through(outer: u32, own: u32) -> u32
    requires { seen_through outer own < 2 ^ 32 }
    ensures { result ≡ seen_through outer own }
{
    (outer as u64 * own as u64 / ONE as u64) as u32
}

fn cut(clip: Rect, matrix: Matrix, boundary: Option<IntRect>) -> Rect
    ensures { result ≡ cut_clip clip matrix boundary }
{
    match boundary {
        Some(boundary) => intersect(clip, map_rect(matrix, units(boundary))),
        None => clip,
    }
}

impl Scope {
    /// What a node in this scope hands on.
    pub fn inner(&self, node: &FlatNode<'_>) -> Scope
        requires { seen_through self.now.opacity node.now.opacity < 2 ^ 32 }
        ensures { space_of result ≡ node_space (space_of self.now) (as_node (lent node.now) Empty) }
    {
        let (sx, sy) = node.scale;
        let (tx, ty) = node.place;
        let matrix = compose(self.matrix, local(sx, sy, node.turn, tx, ty));
        Scope {
            matrix,
            clip: cut(self.clip, matrix, node.clip),
            opacity: through(self.opacity, node.opacity),
        }
    }

    /// What a viewport that hands on this scope hands on to the child view below it.
    pub fn linked(&self, props: ViewportProps) -> Scope
        ensures matrix { result.matrix ≡ self.now.matrix }
        ensures clip { result.clip ≡ shared_part self.now.clip (viewport_rect self.now.matrix
            props) }
        ensures opacity { result.opacity ≡ self.now.opacity }
    {
        Scope {
            clip: intersect(self.clip, map_rect(self.matrix, sized(props.w, props.h))),
            ..*self
        }
    }

    /// A node of a session that hands on this scope, in its place.
    pub fn placed(
        &self,
        alloc: Global,
        session: SessionNo,
        node: &FlatNode<'_>,
    ) -> Result<PlacedNode, NoMemory>
        ensures { IfOk result (λ placed. placed
            ≡ placed_node session.0 (space_of self.now) (as_node (lent node.now) Empty)) }
    {
        Ok(PlacedNode {
            session,
            serial: node.serial,
            matrix: self.matrix,
            clip: self.clip,
            opacity: self.opacity,
            content: node.content,
            hits: Items::from_vec(Vec::from_slice(alloc, node.hits)?),
        })
    }
}
