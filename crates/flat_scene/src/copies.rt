ghost use Rattle.std.specs.Prelude.{◌≡◌, IfOk, true};
ghost use Rattle.flat_scene.specs.CallKinds.{is_fill_call, is_image_call, is_viewport_call};
ghost use Rattle.flat_scene.specs.declared.trees.Children.TheVariants.{More};

use crate::calls::{Call, PresentArgs, RegionList};
use crate::frames::{FrameOut, ViewTree};
use crate::journal::{Entry, EntryKind};
use crate::script::{LineBody, ScriptLine, SessionLine};
use crate::setup::{FenceDecl, Setup};
use crate::trees::{Children, Node, Tree};
use flat_base::{Boxed, NoMemory, TryCopy};
use std::alloc::Global;

impl TryCopy for PresentArgs {
    fn copy(&self, alloc: Global) -> Result<PresentArgs, NoMemory> {
        Ok(PresentArgs {
            time: self.time,
            acquire: self.acquire.copy(alloc)?,
            release: self.release.copy(alloc)?,
            unsquashable: self.unsquashable,
        })
    }
}

impl TryCopy for Children {
    fn copy(&self, alloc: Global) -> Result<Children, NoMemory> {
        match self {
            Children::Empty => Ok(Children::Empty),
            Children::More(node, rest) => {
                let node = node.get();
                let hits = node.hits.copy(alloc)?;
                let children = node.children.copy(alloc)?;
                let after = rest.get().copy(alloc)?;
                joined(alloc, node, hits, children, after)
            }
        }
    }
}

/// The node with these lists as its own, and then the others.
fn joined(
    alloc: Global,
    node: &Node,
    hits: RegionList,
    children: Children,
    after: Children,
) -> Result<Children, NoMemory>
    ensures { IfOk result (λ made.
        made ≡ More (record node.now { hits = hits; children = children }) after) }
{
    let first = Node {
        serial: node.serial,
        scale: node.scale,
        turn: node.turn,
        place: node.place,
        clip: node.clip,
        opacity: node.opacity,
        hits,
        content: node.content,
        children,
    };
    Ok(Children::More(Boxed::new(alloc, first)?, Boxed::new(alloc, after)?))
}

impl TryCopy for Node {
    fn copy(&self, alloc: Global) -> Result<Node, NoMemory> {
        Ok(Node {
            serial: self.serial,
            scale: self.scale,
            turn: self.turn,
            place: self.place,
            clip: self.clip,
            opacity: self.opacity,
            hits: self.hits.copy(alloc)?,
            content: self.content,
            children: self.children.copy(alloc)?,
        })
    }
}

impl TryCopy for Tree {
    fn copy(&self, alloc: Global) -> Result<Tree, NoMemory> {
        let root = match &self.root {
            Some(node) => Some(Boxed::new(alloc, node.get().copy(alloc)?)?),
            None => None,
        };
        Ok(Tree {
            view: self.view,
            root,
            viewports: self.viewports.copy(alloc)?,
        })
    }
}

impl TryCopy for ViewTree {
    fn copy(&self, alloc: Global) -> Result<ViewTree, NoMemory> {
        Ok(ViewTree {
            nodes: self.nodes.copy(alloc)?,
            apart: self.apart.copy(alloc)?,
        })
    }
}

impl TryCopy for FrameOut {
    fn copy(&self, alloc: Global) -> Result<FrameOut, NoMemory> {
        Ok(FrameOut {
            frame: self.frame,
            items: self.items.copy(alloc)?,
            tree: self.tree.copy(alloc)?,
        })
    }
}

impl TryCopy for FenceDecl {
    fn copy(&self, alloc: Global) -> Result<FenceDecl, NoMemory> {
        Ok(FenceDecl {
            owners: self.owners.copy(alloc)?,
        })
    }
}

impl TryCopy for Setup {
    fn copy(&self, alloc: Global) -> Result<Setup, NoMemory> {
        Ok(Setup {
            width: self.width,
            height: self.height,
            sessions: self.sessions,
            probes: self.probes,
            pairs: self.pairs.copy(alloc)?,
            buffers: self.buffers.copy(alloc)?,
            fences: self.fences.copy_each(alloc)?,
            ratio: self.ratio,
        })
    }
}

impl TryCopy for SessionLine {
    fn copy(&self, alloc: Global) -> Result<SessionLine, NoMemory> {
        Ok(match self {
            SessionLine::Call(call) => SessionLine::Call(call.copy(alloc)?),
            SessionLine::Present(args) => SessionLine::Present(args.copy(alloc)?),
            SessionLine::Get(watch) => SessionLine::Get(*watch),
            SessionLine::Signal(f) => SessionLine::Signal(*f),
            SessionLine::Poll => SessionLine::Poll,
            SessionLine::Wait(c) => SessionLine::Wait(*c),
            SessionLine::Disconnect => SessionLine::Disconnect,
        })
    }
}

impl TryCopy for LineBody {
    fn copy(&self, alloc: Global) -> Result<LineBody, NoMemory> {
        Ok(match self {
            LineBody::Session(line) => LineBody::Session(line.copy(alloc)?),
            LineBody::Display(line) => LineBody::Display(*line),
            LineBody::Probe(line) => LineBody::Probe(*line),
        })
    }
}

impl TryCopy for ScriptLine {
    fn copy(&self, alloc: Global) -> Result<ScriptLine, NoMemory> {
        Ok(ScriptLine {
            number: self.number,
            actor: self.actor,
            body: self.body.copy(alloc)?,
        })
    }
}

impl TryCopy for EntryKind {
    fn copy(&self, alloc: Global) -> Result<EntryKind, NoMemory> {
        Ok(match self {
            EntryKind::View(p) => EntryKind::View(*p),
            EntryKind::Viewport(p, props) => EntryKind::Viewport(*p, *props),
            EntryKind::Present(args) => EntryKind::Present(args.copy(alloc)?),
            EntryKind::Get(watch) => EntryKind::Get(*watch),
            EntryKind::Signal(f) => EntryKind::Signal(*f),
            EntryKind::Poll => EntryKind::Poll,
            EntryKind::Wait(c) => EntryKind::Wait(*c),
            EntryKind::Close(why) => EntryKind::Close(*why),
            EntryKind::End(refused) => EntryKind::End(*refused),
            EntryKind::Begin(time) => EntryKind::Begin(*time),
            EntryKind::Finish => EntryKind::Finish,
            EntryKind::Hit(x, y) => EntryKind::Hit(*x, *y),
            EntryKind::Dpr(ratio) => EntryKind::Dpr(*ratio),
        })
    }
}

impl TryCopy for Entry {
    fn copy(&self, alloc: Global) -> Result<Entry, NoMemory> {
        Ok(Entry {
            actor: self.actor,
            line: self.line,
            calls: self.calls.copy_each(alloc)?,
            kind: self.kind.copy(alloc)?,
            reply: self.reply,
        })
    }
}

impl TryCopy for Call {
    fn copy(&self, alloc: Global) -> Result<Call, NoMemory> {
        Ok(match *self {
            Call::CreateView { pair } => Call::CreateView { pair },
            Call::ReleaseView => Call::ReleaseView,
            Call::CreateTransform { t } => Call::CreateTransform { t },
            Call::ReleaseTransform { t } => Call::ReleaseTransform { t },
            Call::SetTranslation { t, x, y } => Call::SetTranslation { t, x, y },
            Call::SetOrientation { t, o } => Call::SetOrientation { t, o },
            Call::SetScale { t, sx, sy } => Call::SetScale { t, sx, sy },
            Call::SetOpacity { t, v } => Call::SetOpacity { t, v },
            Call::SetClipBoundary { t, rect } => Call::SetClipBoundary { t, rect },
            Call::AddChild { p, k } => Call::AddChild { p, k },
            Call::RemoveChild { p, k } => Call::RemoveChild { p, k },
            Call::ReplaceChildren { p, ref children } => Call::ReplaceChildren {
                p,
                children: children.copy(alloc)?,
            },
            Call::SetRootTransform { t } => Call::SetRootTransform { t },
            Call::SetHitRegions { t, ref regions } => Call::SetHitRegions {
                t,
                regions: regions.copy(alloc)?,
            },
            Call::SetInfiniteHitRegion { t, i } => Call::SetInfiniteHitRegion { t, i },
            Call::SetContent { t, c } => Call::SetContent { t, c },
            Call::Clear => Call::Clear,
            Call::CreateViewport { .. } => copy_viewport_call(self),
            Call::SetViewportProperties { .. } => copy_viewport_call(self),
            Call::ReleaseViewport { .. } => copy_viewport_call(self),
            Call::CreateFilledRect { .. } => copy_fill_call(self),
            Call::SetSolidFill { .. } => copy_fill_call(self),
            Call::ReleaseFilledRect { .. } => copy_fill_call(self),
            _ => copy_image_call(self),
        })
    }
}

/// The same call on a viewport.
fn copy_viewport_call(call: &Call) -> Call
    requires { is_viewport_call call.now ≡ true }
    ensures { result ≡ call.now }
{
    match *call {
        Call::CreateViewport {
            c,
            pair,
            w,
            h,
            inset,
        } => Call::CreateViewport {
            c,
            pair,
            w,
            h,
            inset,
        },
        Call::SetViewportProperties { c, w, h, inset } => Call::SetViewportProperties {
            c,
            w,
            h,
            inset,
        },
        Call::ReleaseViewport { c } => Call::ReleaseViewport { c },
        _ => unreachable!(),
    }
}

/// The same call on an image.
fn copy_image_call(call: &Call) -> Call
    requires { is_image_call call.now ≡ true }
    ensures { result ≡ call.now }
{
    match *call {
        Call::CreateImage {
            c,
            buffers,
            i,
            w,
            h,
        } => Call::CreateImage {
            c,
            buffers,
            i,
            w,
            h,
        },
        Call::SetImageSampleRegion { c, rect } => Call::SetImageSampleRegion { c, rect },
        Call::SetImageDestinationSize { c, w, h } => Call::SetImageDestinationSize { c, w, h },
        Call::SetImageBlendingFunction { c, m } => Call::SetImageBlendingFunction { c, m },
        Call::SetImageFlip { c, f } => Call::SetImageFlip { c, f },
        Call::SetImageOpacity { c, v } => Call::SetImageOpacity { c, v },
        Call::ReleaseImage { c } => Call::ReleaseImage { c },
        _ => unreachable!(),
    }
}

/// The same call on a filled rectangle.
fn copy_fill_call(call: &Call) -> Call
    requires { is_fill_call call.now ≡ true }
    ensures { result ≡ call.now }
{
    match *call {
        Call::CreateFilledRect { c } => Call::CreateFilledRect { c },
        Call::SetSolidFill {
            c,
            r,
            g,
            b,
            a,
            w,
            h,
        } => Call::SetSolidFill {
            c,
            r,
            g,
            b,
            a,
            w,
            h,
        },
        Call::ReleaseFilledRect { c } => Call::ReleaseFilledRect { c },
        _ => unreachable!(),
    }
}
