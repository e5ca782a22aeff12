ghost use Rattle.std.specs.Prelude.{◌≡◌, ◌+◌, Some, None, is_some, is_none, OnOk, OnErr, IfOk};
ghost use Rattle.std.specs.Prelude.{IfErr};
ghost use Rattle.flat_scene.specs.Misuse.{first_reason};
ghost use Rattle.flat_graph.specs.Reasons.{IsFault, IsMisuse, create_tests, hits_tests};
ghost use Rattle.flat_graph.specs.State.{Creates, change_named};
ghost use Rattle.flat_content.specs.Reasons.{sort_tests};
ghost use Rattle.flat_content.specs.Table.{held_of, viewport_released};
ghost use Rattle.flat_scene.specs.Misuse.{is_viewport};
ghost use Rattle.flat_graph.specs.Names.{key_named};
ghost use Rattle.flat_draft.specs.Parts as parts;
ghost use Rattle.flat_draft.specs.Parts.{content_tests, no_view_tests, view_tests, watch_tests};
ghost use Rattle.flat_draft.specs.Parts.{without_named};

use flat_base::{ContentId, Items, PairNo, Reason, TransformId};
use flat_content::ContentTable;
use flat_graph::Graph;
use flat_scene::{GraphFault, HitRegion, Watch};
use std::alloc::Global;

/// Whether a view may be made.
pub fn may_create_view(view: Option<PairNo>) -> Result<(), GraphFault>
    ensures allowed { OnOk result (first_reason (view_tests view) ≡ None) }
    ensures fault { IfErr result (IsMisuse (view_tests view)) }
{
    if view.is_some() {
        return Err(GraphFault::Bad(Reason::HasView));
    }
    Ok(())
}

/// Makes the view.
pub fn create_view(view: &mut Option<PairNo>, pair: PairNo) -> Result<(), GraphFault>
    ensures created { OnOk result (view.new ≡ Some pair) }
    ensures allowed { OnOk result (first_reason (view_tests view.old) ≡ None) }
    ensures fault { IfErr result (IsMisuse (view_tests view.old)) }
    ensures kept { OnErr result (view.new ≡ view.old) }
{
    may_create_view(*view)?;
    *view = Some(pair);
    Ok(())
}

/// Ends the view.
pub fn release_view(view: &mut Option<PairNo>) -> Result<(), GraphFault>
    ensures released { OnOk result (view.new ≡ None) }
    ensures allowed { OnOk result (first_reason (no_view_tests view.old) ≡ None) }
    ensures fault { IfErr result (IsMisuse (no_view_tests view.old)) }
    ensures kept { OnErr result (view.new ≡ view.old) }
{
    if view.is_none() {
        return Err(GraphFault::Bad(Reason::NoView));
    }
    *view = None;
    Ok(())
}

/// The pair whose watcher a get means.
pub fn watched(view: Option<PairNo>, contents: &ContentTable, w: Watch) -> Result<PairNo, Reason>
    ensures pair { IfOk result (λ pair. parts.watched view contents.now w ≡ Some pair) }
    ensures allowed { OnOk result (first_reason (watch_tests view contents.now w) ≡ None) }
    ensures fault { IfErr result (λ reason. first_reason (watch_tests view contents.now w)
        ≡ Some reason) }
{
    match w {
        Watch::Child(c) => contents.pair(c),
        Watch::Layout | Watch::Status => view.ok_or(Reason::NoView),
    }
}

/// Makes a transform, and names it.
pub fn create_transform(graph: &mut Graph, t: TransformId) -> Result<(), GraphFault>
    ensures created { OnOk result (Creates graph.old graph.new t.0 (graph.old.made + 1)) }
    ensures allowed { OnOk result (first_reason (create_tests graph.old t.0) ≡ None) }
    ensures fault { IfErr result (IsFault (create_tests graph.old t.0)) }
    ensures kept { OnErr result (graph.new ≡ graph.old) }
{
    graph.create(t)?;
    Ok(())
}

/// Replaces a transform's hit regions by a copy of these.
pub fn set_hits(
    alloc: Global,
    graph: &mut Graph,
    t: TransformId,
    regions: &[HitRegion],
) -> Result<(), GraphFault>
    ensures set { OnOk result (graph.new
        ≡ change_named graph.old t.0 (λ node. record node { hits = Some regions.now })) }
    ensures allowed { OnOk result (first_reason (hits_tests graph.old t.0 regions.now) ≡ None) }
    ensures fault { IfErr result (IsFault (hits_tests graph.old t.0 regions.now)) }
    ensures kept { OnErr result (graph.new ≡ graph.old) }
{
    graph.hits_key(t, regions)?;
    let Ok(copied) = Vec::from_slice(alloc, regions) else {
        return Err(GraphFault::Memory);
    };
    graph.set_hits(t, Items::from_vec(copied))
}

/// Gives a transform the content that an id names, or none.
pub fn set_content(
    graph: &mut Graph,
    contents: &ContentTable,
    t: TransformId,
    c: ContentId,
) -> Result<(), GraphFault>
    ensures set { OnOk result (graph.new
        ≡ change_named graph.old t.0 (λ node. record node { content = held_of contents.now c.0 })) }
    ensures allowed { OnOk result (first_reason (content_tests graph.old contents.now t.0 c.0)
        ≡ None) }
    ensures fault { IfErr result (IsMisuse (content_tests graph.old contents.now t.0 c.0)) }
    ensures kept { OnErr result (graph.new ≡ graph.old) }
{
    graph.key(t)?;
    match contents.given(c) {
        Ok(held) => graph.set_content(t, held),
        Err(reason) => Err(GraphFault::Bad(reason)),
    }
}

/// Ends a viewport's name and its use, and takes it from each transform.
pub fn release_viewport(
    graph: &mut Graph,
    contents: &mut ContentTable,
    c: ContentId,
) -> Result<(), GraphFault>
    ensures dropped { OnOk result (graph.new
        ≡ without_named graph.old (key_named contents.old.names c.0)) }
    ensures released { OnOk result (contents.new ≡ viewport_released contents.old c.0) }
    ensures allowed { OnOk result (first_reason (sort_tests contents.old is_viewport c.0) ≡ None) }
    ensures fault { IfErr result (IsMisuse (sort_tests contents.old is_viewport c.0)) }
    ensures kept { OnErr result (graph.new ≡ graph.old) }
    ensures still { OnErr result (contents.new ≡ contents.old) }
{
    match contents.release_viewport(c) {
        Ok(serial) => {
            graph.drop_content(serial);
            Ok(())
        }
        Err(reason) => Err(GraphFault::Bad(reason)),
    }
}

/// The answer of a creation, without the serial number.
pub fn made(answer: Result<u32, GraphFault>) -> Result<(), GraphFault>
    ensures { result ≡ parts.made answer }
{
    match answer {
        Ok(_) => Ok(()),
        Err(fault) => Err(fault),
    }
}

/// The answer of a call that takes no memory.
pub fn done(answer: Result<(), Reason>) -> Result<(), GraphFault>
    ensures { result ≡ parts.done answer }
{
    match answer {
        Ok(()) => Ok(()),
        Err(reason) => Err(GraphFault::Bad(reason)),
    }
}
