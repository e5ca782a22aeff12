ghost use Rattle.std.specs.Prelude.{◌≡◌, ◌≢◌, ◌||◌, IsTrue, true, MatchResult, length, nat_lt};
ghost use Rattle.std.specs.Arc.{arc_value};
ghost use Rattle.flat_scene.specs.declared.setup.Setup.{Setup};
ghost use Rattle.flat_scene.specs.Draft as scene;
ghost use Rattle.flat_draft.specs.Answers.{IsAnswer, IsApplied, IsReadied, IsTested, IsTried};
ghost use Rattle.flat_draft.specs.Answers.{uses_an_end};
ghost use Rattle.flat_draft.specs.Answers.{has_room_for, IsRefused, IsWatched, Presents};
ghost use Rattle.flat_draft.specs.Kinds.{is_of_contents_alone, is_of_images, is_of_one_part};
ghost use Rattle.flat_draft.specs.Stands.{StandsFor};
ghost use Rattle.flat_draft.specs.State.{DraftState, closed, empty_state, emptied};

use crate::fault::DraftFault;
use crate::lay::flatten;
use crate::parts::{
    create_transform, create_view, done, made, may_create_view, release_view, release_viewport,
    set_content, set_hits, watched,
};
use flat_base::{FENCES_PER_LIST_MAX, NoMemory, PairNo, Reason};
use flat_collect::{TreeCheck, judge, sweep};
use flat_content::ContentTable;
use flat_graph::Graph;
use flat_scene::{BufferList, Call, GraphFault, HitRegion, PresentArgs, ViewportProps, Watch};
use flat_snap::Snapshot;
use std::alloc::Global;
use std::marker::Model;
use std::sync::Arc;

/// A session's private draft.
///
/// It is made by the session's calls, one after another, and closed by the first
/// misuse. Contracts see its parts, which stand for the draft of the rules.
#[derive(Drop)]
pub struct Draft {
    alloc: Global,
    graph: Graph,
    contents: ContentTable,
    view: Option<PairNo>,
    closed: bool,
}

impl Model for Draft {
    ghost Value = { DraftState };

    ghost view = { λ d. record {
      graph = d.graph;
      contents = d.contents;
      view = d.view;
      closed = d.closed;
    } };
}

/// One of the two lists has more fences than it may have.
fn has_too_many(args: &PresentArgs) -> bool
    ensures { result ≡ (nat_lt FENCES_PER_LIST_MAX (length args.now.acquire) || nat_lt
        FENCES_PER_LIST_MAX (length args.now.release)) }
{
    let most = FENCES_PER_LIST_MAX as usize;
    args.acquire.len() > most || args.release.len() > most
}

impl Draft {
    ghost use Rattle.std.specs.Prelude.{IfOk, IsErrOf, OnOk, OnErr};
    ghost use Rattle.flat_collect.specs.Forest.{size};
    ghost use Rattle.flat_collect.specs.Judge.{HasTree, graph_tree};
    ghost use Rattle.flat_collect.specs.Sweep.{IsSwept};
    ghost use Rattle.flat_draft.specs.Shown.{shown_tree};
    ghost use Rattle.std.specs.List.{list_all};
    ghost use Rattle.flat_content.specs.Limits.{are_sides};
    ghost use Rattle.flat_draft.specs.declared.fault.DraftFault.TheVariants.{Bad, Closed};
    ghost use Rattle.flat_draft.specs.declared.fault.DraftFault.{DraftFault};
    ghost use Rattle.flat_scene.specs.declared.trees.GraphFault.{GraphFault};

    /// The draft of a session that made no call. It may make images of these
    /// collections. It takes no memory.
    pub fn new(alloc: Global, buffers: BufferList) -> Draft
        requires { list_all are_sides buffers ≡ true }
        ensures { result ≡ empty_state buffers }
    {
        Draft {
            alloc,
            graph: Graph::new(alloc),
            contents: ContentTable::new(alloc, buffers),
            view: None,
            closed: false,
        }
    }

    /// Whether a misuse closed it.
    pub fn is_closed(&self) -> bool
        ensures { result ≡ self.now.closed }
    {
        self.closed
    }

    /// The pair of its view.
    pub fn view(&self) -> Option<PairNo>
        ensures { result ≡ self.now.view }
    {
        self.view
    }

    /// Whether a CreateView or a CreateViewport may be made, with the room for it: it
    /// answers what `call` would answer, and after its `Ok` the next `call` of the
    /// draft, made with that same call, is done.
    ///
    /// It makes nothing, and a misuse doesn't close the draft.
    pub fn ready(&mut self, c: &Call) -> Result<(), DraftFault>
        requires { IsTrue (uses_an_end c.now) }
        ensures answered { (setup : Setup) (draft : scene.Draft) → StandsFor setup self.old draft →
            IsReadied setup draft c.now self.old self.new result }
        ensures ended { self.old.closed ≡ true → IsErrOf result Closed × (self.new ≡ self.old) }
    {
        if self.closed {
            return Err(DraftFault::Closed);
        }
        match self.test_end(c) {
            Ok(()) => Ok(()),
            Err(GraphFault::Bad(reason)) => Err(DraftFault::Bad(reason)),
            Err(GraphFault::Memory) => Err(DraftFault::Memory),
        }
    }

    /// Makes a call, but for the token of a CreateView or a CreateViewport, which is
    /// asked for elsewhere.
    ///
    /// A misuse closes the draft. Only what makes a transform or a content, adds or
    /// replaces children or sets hit regions takes memory; a CreateViewport finds it
    /// where `ready` took it.
    pub fn call(&mut self, c: &Call) -> Result<(), DraftFault>
        ensures answered { (setup : Setup) (draft : scene.Draft) → StandsFor setup self.old draft →
            IsAnswer setup draft c.now self.old self.new result }
        ensures ended { self.old.closed ≡ true → IsErrOf result Closed × (self.new ≡ self.old) }
        ensures room { has_room_for c.now self.old ≡ true → result ≢ Err DraftFault.Memory }
    {
        match self.try_call(c) {
            Ok(()) => Ok(()),
            Err(DraftFault::Bad(reason)) => Err(self.close(reason)),
            Err(DraftFault::Memory) => Err(DraftFault::Memory),
            Err(DraftFault::Closed) => Err(DraftFault::Closed),
        }
    }

    /// Makes a call as `call` does, but a misuse doesn't close the draft: it leaves it as
    /// it was.
    pub fn try_call(&mut self, c: &Call) -> Result<(), DraftFault>
        ensures tried { (setup : Setup) (draft : scene.Draft) → StandsFor setup self.old draft →
            IsTried setup draft c.now self.old self.new result }
        ensures ended { self.old.closed ≡ true → IsErrOf result Closed × (self.new ≡ self.old) }
        ensures room { has_room_for c.now self.old ≡ true → result ≢ Err DraftFault.Memory }
    {
        if self.closed {
            return Err(DraftFault::Closed);
        }
        match self.apply(c) {
            Ok(()) => Ok(()),
            Err(GraphFault::Bad(reason)) => Err(DraftFault::Bad(reason)),
            Err(GraphFault::Memory) => Err(DraftFault::Memory),
        }
    }

    /// The pair whose watcher a get means.
    ///
    /// A misuse closes the draft: NoView, or at a child ZeroId, UnknownContent or
    /// WrongContent. It takes no memory.
    pub fn get(&mut self, w: Watch) -> Result<PairNo, DraftFault>
        ensures answered { (setup : Setup) (draft : scene.Draft) → StandsFor setup self.old draft →
            IsWatched draft w self.old self.new result }
        ensures ended { self.old.closed ≡ true → IsErrOf result Closed × (self.new ≡ self.old) }
    {
        if self.closed {
            return Err(DraftFault::Closed);
        }
        match watched(self.view, &self.contents, w) {
            Ok(pair) => Ok(pair),
            Err(reason) => Err(self.close(reason)),
        }
    }

    /// The snapshot of the draft.
    ///
    /// A misuse closes the draft: the reason is Cycle, TreeTooLarge, ViewportTwice
    /// or TooManyFences, the first that holds. A present that is done drops the
    /// transforms that nothing reaches any more, and changes nothing else; one that is
    /// refused drops none.
    pub fn present(&mut self, args: &PresentArgs) -> Result<Arc<Snapshot>, DraftFault>
        ensures answered { (setup : Setup) (draft : scene.Draft) → StandsFor setup self.old draft →
            MatchResult result (λ snapshot. Presents draft args.now self.old self.new
            (arc_value snapshot)) (IsRefused draft args.now self.old self.new) }
        ensures ended { self.old.closed ≡ true → IsErrOf result Closed × (self.new ≡ self.old) }
    {
        if self.closed {
            return Err(DraftFault::Closed);
        }
        let nodes = match judge(self.alloc, &self.graph) {
            Ok(TreeCheck::Good { nodes }) => nodes,
            Ok(TreeCheck::Bad(reason)) => return Err(self.close(reason)),
            Err(NoMemory) => return Err(DraftFault::Memory),
        };
        if has_too_many(args) {
            return Err(self.close(Reason::TooManyFences));
        }
        match self.snapshot(nodes) {
            Ok(snapshot) => Ok(snapshot),
            Err(NoMemory) => Err(DraftFault::Memory),
        }
    }

    /// The snapshot of a tree of so many nodes. What may be refused comes before the
    /// sweep, so that all is as it was if memory runs out.
    fn snapshot(&mut self, nodes: u32) -> Result<Arc<Snapshot>, NoMemory>
        requires tree { HasTree self.old.graph }
        requires counted { nodes ≡ size (graph_tree self.old.graph) }
        ensures shown { IfOk result (λ snapshot. arc_value snapshot
            ≡ shown_tree self.old.view self.old.graph self.old.contents) }
        ensures swept { OnOk result (IsSwept self.old.graph self.new.graph) }
        ensures rest { OnOk result (self.new ≡ record self.old { graph = self.new.graph }) }
        ensures kept { OnErr result (self.new ≡ self.old) }
    {
        let snapshot = flatten(self.alloc, &self.graph, &self.contents, self.view, nodes)?;
        let shared = Arc::new(self.alloc, snapshot)?;
        sweep(self.alloc, &mut self.graph)?;
        Ok(shared)
    }

    /// Closes the draft for a misuse.
    fn close(&mut self, reason: Reason) -> DraftFault
        ensures closed { self.new ≡ closed self.old }
        ensures fault { result ≡ Bad reason }
    {
        self.closed = true;
        DraftFault::Bad(reason)
    }

    /// Tests a call that uses an end, and takes the room for it.
    fn test_end(&mut self, c: &Call) -> Result<(), GraphFault>
        requires { IsTrue (uses_an_end c.now) }
        ensures { (setup : Setup) (draft : scene.Draft) → StandsFor setup self.old draft →
            IsTested setup draft c.now self.old self.new result }
    {
        match c {
            Call::CreateView { .. } => may_create_view(self.view),
            Call::CreateViewport { c, w, h, .. } => self.contents.ready_viewport(*c, *w, *h),
            _ => unreachable!(),
        }
    }

    /// Does what a call does to an open draft.
    fn apply(&mut self, c: &Call) -> Result<(), GraphFault>
        ensures applied { (setup : Setup) (draft : scene.Draft) → StandsFor setup self.old draft →
            IsApplied setup draft c.now self.old self.new result }
        ensures room { has_room_for c.now self.old ≡ true → result ≢ Err GraphFault.Memory }
    {
        match c {
            Call::CreateView { pair } => create_view(&mut self.view, *pair),
            Call::ReleaseView => release_view(&mut self.view),
            Call::SetContent { t, c } => set_content(&mut self.graph, &self.contents, *t, *c),
            Call::ReleaseViewport { c } => release_viewport(
                &mut self.graph,
                &mut self.contents,
                *c,
            ),
            Call::Clear => {
                self.clear();
                Ok(())
            }
            _ => self.apply_to_part(c),
        }
    }

    /// The same for a call on transforms alone or on contents alone.
    fn apply_to_part(&mut self, c: &Call) -> Result<(), GraphFault>
        requires { is_of_one_part c.now ≡ true }
        ensures applied { (setup : Setup) (draft : scene.Draft) → StandsFor setup self.old draft →
            IsApplied setup draft c.now self.old self.new result }
        ensures room { has_room_for c.now self.old ≡ true → result ≢ Err GraphFault.Memory }
    {
        match c {
            Call::CreateTransform { t } => create_transform(&mut self.graph, *t),
            Call::ReleaseTransform { t } => self.graph.release(*t),
            Call::SetTranslation { t, x, y } => self.graph.set_translation(*t, *x, *y),
            Call::SetOrientation { t, o } => self.graph.set_orientation(*t, *o),
            Call::SetScale { t, sx, sy } => self.graph.set_scale(*t, *sx, *sy),
            Call::SetOpacity { t, v } => self.graph.set_opacity(*t, *v),
            Call::SetClipBoundary { t, rect } => self.graph.set_clip(*t, *rect),
            Call::AddChild { p, k } => self.graph.add_child(*p, *k),
            Call::RemoveChild { p, k } => self.graph.remove_child(*p, *k),
            Call::ReplaceChildren { p, children } => {
                self.graph.replace_children(*p, children.as_slice())
            }
            Call::SetRootTransform { t } => self.graph.set_root(*t),
            Call::SetHitRegions { t, regions } => {
                set_hits(self.alloc, &mut self.graph, *t, regions.as_slice())
            }
            Call::SetInfiniteHitRegion { t, i } => {
                let region = HitRegion {
                    area: None,
                    interaction: *i,
                };
                set_hits(self.alloc, &mut self.graph, *t, &[region])
            }
            _ => self.apply_to_contents(c),
        }
    }

    /// The same for a call on contents alone.
    fn apply_to_contents(&mut self, c: &Call) -> Result<(), GraphFault>
        requires { is_of_contents_alone c.now ≡ true }
        ensures applied { (setup : Setup) (draft : scene.Draft) → StandsFor setup self.old draft →
            IsApplied setup draft c.now self.old self.new result }
        ensures room { has_room_for c.now self.old ≡ true → result ≢ Err GraphFault.Memory }
    {
        match c {
            Call::CreateViewport {
                c,
                pair,
                w,
                h,
                inset,
            } => {
                let props = ViewportProps {
                    w: *w,
                    h: *h,
                    inset: *inset,
                };
                made(self.contents.create_viewport(*c, *pair, props))
            }
            Call::SetViewportProperties { c, w, h, inset } => {
                done(self.contents.set_viewport_properties(*c, *w, *h, *inset))
            }
            Call::CreateFilledRect { c } => made(self.contents.create_fill(*c)),
            Call::SetSolidFill {
                c,
                r,
                g,
                b,
                a,
                w,
                h,
            } => done(self.contents.set_solid_fill(*c, [*r, *g, *b, *a], *w, *h)),
            Call::ReleaseFilledRect { c } => done(self.contents.release_filled_rect(*c)),
            _ => self.apply_to_images(c),
        }
    }

    /// The same for a call on an image.
    fn apply_to_images(&mut self, c: &Call) -> Result<(), GraphFault>
        requires { is_of_images c.now ≡ true }
        ensures applied { (setup : Setup) (draft : scene.Draft) → StandsFor setup self.old draft →
            IsApplied setup draft c.now self.old self.new result }
        ensures room { has_room_for c.now self.old ≡ true → result ≢ Err GraphFault.Memory }
    {
        match c {
            Call::CreateImage {
                c,
                buffers,
                i,
                w,
                h,
            } => made(self.contents.create_image(*c, *buffers, *i, *w, *h)),
            Call::SetImageSampleRegion { c, rect } => {
                done(self.contents.set_image_sample_region(*c, *rect))
            }
            Call::SetImageDestinationSize { c, w, h } => {
                done(self.contents.set_image_destination_size(*c, *w, *h))
            }
            Call::SetImageBlendingFunction { c, m } => {
                done(self.contents.set_image_blending_function(*c, *m))
            }
            Call::SetImageFlip { c, f } => done(self.contents.set_image_flip(*c, *f)),
            Call::SetImageOpacity { c, v } => done(self.contents.set_image_opacity(*c, *v)),
            Call::ReleaseImage { c } => done(self.contents.release_image(*c)),
            _ => unreachable!(),
        }
    }

    /// Ends the view, all names and the root.
    fn clear(&mut self)
        ensures { self.new ≡ emptied self.old }
    {
        self.graph.clear();
        self.contents.clear();
        self.view = None;
    }
}
