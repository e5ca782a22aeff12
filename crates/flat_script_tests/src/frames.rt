ghost use Rattle.std.specs.Prelude.{◌≡◌, length, IfOk};

use flat_base::{FrameNo, Items, NoMemory, Rect, SessionNo};
use flat_places::{Name, NameList};
use flat_scene::{FrameOut, ViewNode, ViewTree};
use std::alloc::Global;

/// A view tree of these sessions, each with the number of its parent, or 0 where it
/// has none.
pub fn tree(alloc: Global, rows: &[(u32, u32)]) -> Result<ViewTree, NoMemory>
    ensures { IfOk result (λ tree. length tree.nodes ≡ length rows.now) }
{
    let nowhere = Rect {
        x0: 0,
        y0: 0,
        x1: 0,
        y1: 0,
    };
    let mut nodes = Items::new(alloc);
    for (session, parent) in rows {
        nodes.push(ViewNode {
            session: SessionNo(*session),
            parent: if *parent == 0 {
                None
            } else {
                Some(SessionNo(*parent))
            },
            bounds: nowhere,
        })?;
    }
    Ok(ViewTree {
        nodes,
        apart: Items::new(alloc),
    })
}

/// The frame of a number with such a view tree, and nothing drawn.
pub fn frame(alloc: Global, number: u32, rows: &[(u32, u32)]) -> Result<FrameOut, NoMemory>
    ensures { IfOk result (λ frame. length frame.tree.nodes ≡ length rows.now) }
{
    Ok(FrameOut {
        frame: FrameNo(number),
        items: Items::new(alloc),
        tree: tree(alloc, rows)?,
    })
}

/// The names of two sessions.
pub fn two_names(alloc: Global) -> Result<NameList, NoMemory> {
    let mut names = Items::new(alloc);
    names.push(Name::new(b"A"))?;
    names.push(Name::new(b"B"))?;
    Ok(names)
}
