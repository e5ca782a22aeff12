ghost use Rattle.std.specs.Prelude.{◌≡◌, ◌≤◌, [], IfOk, OnOk, map, option_to_list};
ghost use Rattle.flat_scene.specs.declared.trees.Children.TheVariants.{Empty};
ghost use Rattle.flat_snap.specs.Flat.{lent};
ghost use Rattle.flat_snap.specs.Forest.{as_node};
ghost use Rattle.flat_topology.specs.Draw.{node_item};
ghost use Rattle.flat_topology.specs.Place.{placed_node};
ghost use Rattle.flat_join.specs.Walking.{space_of};
ghost use Rattle.flat_reuse.specs.Parts.{appended, laid_out};
ghost use Rattle.flat_reuse.specs.Pieces.{Drawn, Linked, link_of, node_pieces};

use flat_base::{Items, NoMemory, OPACITY_MAX, Rect, Roomy, SessionNo};
use flat_compose::item;
use flat_geom::{map_rect, sized};
use flat_join::Scope;
use flat_scene::{Content, DrawItem, ItemList};
use flat_snap::FlatNode;
use flat_topology::PlacedNode;
use std::alloc::Global;

/// Where the child view of a pair is shown.
#[derive(Clone, Copy)]
pub struct ChildLink {
    pub pair: usize,
    /// What the viewport hands on.
    pub scope: Scope,
    /// The viewport's rectangle on the display, uncut.
    pub bounds: Rect,
}

/// A link, and how many items of its session come before its child view.
#[derive(Clone, Copy)]
pub struct PlacedLink {
    pub place: usize,
    pub link: ChildLink,
}

/// What a session gives, in preorder of its nodes. The items lie in a row, so that a
/// frame copies all that come before the next link at once.
#[derive(Drop)]
pub struct SessionParts {
    pub items: ItemList,
    pub links: Items<PlacedLink>,
}

/// The link of a viewport that hands on this scope.
fn viewport_link(scope: &Scope, content: Option<Content>) -> Option<ChildLink>
    ensures { result ≡ link_of (space_of scope.now) content }
{
    match content {
        Some(Content::Viewport { pair, props, .. }) => Some(ChildLink {
            pair: pair.0 as usize,
            scope: scope.linked(props),
            bounds: map_rect(scope.matrix, sized(props.w, props.h)),
        }),
        _ => None,
    }
}

/// The item of a node of a session that hands on this scope, if it gives one.
fn item_in(
    alloc: Global,
    session: SessionNo,
    scope: &Scope,
    node: &FlatNode<'_>,
) -> Option<DrawItem>
    requires { scope.now.opacity ≤ OPACITY_MAX }
    ensures { result ≡ node_item (placed_node session.0 (space_of scope.now)
        (as_node (lent node.now) Empty)) }
{
    item(&PlacedNode {
        session,
        serial: node.serial,
        matrix: scope.matrix,
        clip: scope.clip,
        opacity: scope.opacity,
        content: node.content,
        hits: Items::new(alloc),
    })
}

impl SessionParts {
    /// Nothing yet, with room for so many items.
    pub fn with_room(alloc: Global, room: usize) -> Result<SessionParts, NoMemory>
        ensures { IfOk result (λ parts. parts ≡ laid_out []) }
    {
        Ok(SessionParts {
            items: Roomy::with_capacity(alloc, room)?.into_items(),
            links: Items::new(alloc),
        })
    }

    /// Appends an item, if there is one.
    fn add_item(&mut self, item: Option<DrawItem>) -> Result<(), NoMemory>
        ensures { OnOk result (self.new
            ≡ appended self.old (map (λ item. Drawn item) (option_to_list item))) }
    {
        if let Some(item) = item {
            self.items.push(item)?;
        }
        Ok(())
    }

    /// Appends a link, if there is one.
    fn add_link(&mut self, link: Option<ChildLink>) -> Result<(), NoMemory>
        ensures { OnOk result (self.new
            ≡ appended self.old (map (λ link. Linked link) (option_to_list link))) }
    {
        if let Some(link) = link {
            let place = self.items.len();
            self.links.push(PlacedLink { place, link })?;
        }
        Ok(())
    }

    /// Appends what a node of a session gives that hands on this scope.
    pub fn add_node(
        &mut self,
        alloc: Global,
        session: SessionNo,
        scope: &Scope,
        node: &FlatNode<'_>,
    ) -> Result<(), NoMemory>
        requires { scope.now.opacity ≤ OPACITY_MAX }
        ensures { OnOk result (self.new ≡ appended self.old (node_pieces session.0
            (space_of scope.now) (as_node (lent node.now) Empty))) }
    {
        self.add_item(item_in(alloc, session, scope, node))?;
        self.add_link(viewport_link(scope, node.content))?;
        Ok(())
    }
}
