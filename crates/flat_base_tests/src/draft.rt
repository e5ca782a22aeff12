ghost use Rattle.std.specs.Prelude.{IsTrue};
ghost use Rattle.flat_draft.specs.Answers.{uses_an_end};

use flat_base::{ContentId, Items, PairNo, Reason, TransformId};
use flat_draft::{Draft, DraftFault};
use flat_scene::{Call, Inset, PresentArgs, Watch};
use flat_snap::Snapshot;
use std::alloc::Global;
use std::sync::Arc;

const PAIR: PairNo = PairNo(3);

const NO_INSET: Inset = Inset {
    top: 0,
    right: 0,
    bottom: 0,
    left: 0,
};

const CREATE_VIEW: Call = Call::CreateView { pair: PAIR };

const CREATE_VIEWPORT: Call = Call::CreateViewport {
    c: ContentId(2),
    pair: PAIR,
    w: 1,
    h: 1,
    inset: NO_INSET,
};

/// The reason of a refusal by a misuse.
fn reason(answer: Result<(), DraftFault>) -> Option<Reason> {
    match answer {
        Err(DraftFault::Bad(reason)) => Some(reason),
        _ => None,
    }
}

/// Why a second view and a second viewport are refused, whether the draft is open in
/// between, and the pair of the first viewport.
type Used = (Option<Reason>, bool, Option<Reason>, PairNo);

fn use_ends(draft: &mut Draft, view: &Call, viewport: &Call) -> Result<Used, DraftFault>
    requires { IsTrue (uses_an_end view.now) × IsTrue (uses_an_end viewport.now) }
{
    draft.call(view)?;
    let second_view = reason(draft.ready(view));
    let is_open = !draft.is_closed();
    draft.ready(viewport)?;
    draft.call(viewport)?;
    let second_viewport = reason(draft.ready(viewport));
    let watched = draft.get(Watch::Child(ContentId(2)))?;
    Ok((second_view, is_open, second_viewport, watched))
}

fn use_ends_anew(alloc: Global) -> Result<Used, DraftFault> {
    let mut draft = Draft::new(alloc, Items::new(alloc));
    use_ends(&mut draft, &CREATE_VIEW, &CREATE_VIEWPORT)
}

#[test]
fn readies_what_uses_an_end(rt: HostRuntime) {
    let used = use_ends_anew(rt.alloc()).ok();
    let (has_view, in_use) = (Some(Reason::HasView), Some(Reason::IdInUse));
    assert_eq!(rt; used, Some((has_view, true, in_use, PAIR)));
}

fn call(draft: &mut Draft, c: Call) -> Result<(), DraftFault> {
    draft.call(&c)
}

/// Makes three transforms. The first is the root, and the second its child.
fn make_three(draft: &mut Draft) -> Result<(), DraftFault> {
    for id in 1..=3 {
        call(draft, Call::CreateTransform { t: TransformId(id) })?;
    }
    let (p, k) = (TransformId(1), TransformId(2));
    call(draft, Call::SetRootTransform { t: p })?;
    call(draft, Call::AddChild { p, k })
}

/// Replaces the children of the first transform.
fn replace(alloc: Global, draft: &mut Draft, ids: &[TransformId]) -> Result<(), DraftFault> {
    let p = TransformId(1);
    let mut children = Items::new(alloc);
    if children.extend_from_slice(ids).is_err() {
        return Err(DraftFault::Memory);
    }
    call(draft, Call::ReplaceChildren { p, children })
}

fn present(alloc: Global, draft: &mut Draft) -> Result<Arc<Snapshot>, DraftFault> {
    draft.present(&PresentArgs {
        time: 0,
        acquire: Items::new(alloc),
        release: Items::new(alloc),
        unsquashable: false,
    })
}

/// Whether the nodes of a snapshot have these serial numbers, in their order.
fn are_serials(snapshot: &Snapshot, serials: &[u32]) -> bool {
    if snapshot.nodes() as usize != serials.len() {
        return false;
    }
    for place in 0..snapshot.nodes() {
        if snapshot.node(place).serial != serials[place as usize] {
            return false;
        }
    }
    true
}

/// Whether a present of the draft shows nodes of these serial numbers, in their order.
fn shows(alloc: Global, draft: &mut Draft, serials: &[u32]) -> Result<bool, DraftFault> {
    let snapshot = present(alloc, draft)?;
    Ok(are_serials(&snapshot, serials))
}

/// Whether presents of a new draft show the two children that replace the first one, and
/// then none.
fn replace_twice(alloc: Global, draft: &mut Draft) -> Result<[bool; 2], DraftFault> {
    make_three(draft)?;
    replace(alloc, draft, &[TransformId(3), TransformId(2)])?;
    let both = shows(alloc, draft, &[1, 3, 2])?;
    replace(alloc, draft, &[])?;
    let none = shows(alloc, draft, &[1])?;
    Ok([both, none])
}

fn replaced(alloc: Global) -> Result<[bool; 2], DraftFault> {
    let mut draft = Draft::new(alloc, Items::new(alloc));
    replace_twice(alloc, &mut draft)
}

#[test]
fn replaces_children(rt: HostRuntime) {
    assert_eq!(rt; replaced(rt.alloc()).ok(), Some([true, true]));
}

/// Why children of whom one is listed twice are refused, and whether the draft, which is
/// new, is closed then.
fn list_twice(alloc: Global, draft: &mut Draft) -> Result<(Option<Reason>, bool), DraftFault> {
    make_three(draft)?;
    let refused = reason(replace(alloc, draft, &[TransformId(2), TransformId(2)]));
    Ok((refused, draft.is_closed()))
}

fn refused(alloc: Global) -> Result<(Option<Reason>, bool), DraftFault> {
    let mut draft = Draft::new(alloc, Items::new(alloc));
    list_twice(alloc, &mut draft)
}

#[test]
fn children_listed_twice_close_the_draft(rt: HostRuntime) {
    let expected = (Some(Reason::AlreadyChild), true);
    assert_eq!(rt; refused(rt.alloc()).ok(), Some(expected));
}
