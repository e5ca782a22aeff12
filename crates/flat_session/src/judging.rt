ghost use Rattle.std.specs.Prelude.{◌≡◌, true, false, OnErr, IfOk, Some};
ghost use Rattle.flat_base.specs.declared.ids.SessionNo.{SessionNo};
ghost use Rattle.flat_scene.specs.declared.calls.Call.TheVariants as calls;
ghost use Rattle.flat_scene.specs.declared.script.SessionLine.TheVariants as line;
ghost use Rattle.flat_scene.specs.declared.setup.Setup.{Setup};
ghost use Rattle.flat_scene.specs.Draft as scene;
ghost use Rattle.flat_draft.specs.Stands.{StandsFor};
ghost use Rattle.flat_rules.specs.Owned.{is_played_line};
ghost use Rattle.flat_session.specs.Reads.{HasDraft, Tells, view_made, makes_viewport};

use crate::requested_entry::RequestedEntry;
use flat_base::{ContentId, NoMemory, PairNo};
use flat_draft::{Draft, DraftFault};
use flat_scene::{Call, PresentArgs, ViewportProps, Watch};

/// What a draft makes of a call: its entry, or none. A viewport's call is only
/// tested, and its room taken. If memory runs out, the draft is as it was.
pub fn called(draft: &mut Draft, call: &Call) -> Result<Option<RequestedEntry>, NoMemory>
    requires stands { HasDraft draft.old }
    requires opened { draft.old.closed ≡ false }
    ensures tells { (setup : Setup) (s : SessionNo) (before : scene.Draft) →
        StandsFor setup draft.old before → is_played_line setup s (line.Call call.now) ≡ true →
        IfOk result (Tells setup s before (line.Call call.now) draft.new) }
    ensures same { OnErr result (draft.new ≡ draft.old) }
{
    match call {
        Call::CreateViewport {
            c,
            pair,
            w,
            h,
            inset,
        } => {
            let props = ViewportProps {
                w: *w,
                h: *h,
                inset: *inset,
            };
            tested(draft, call, *c, *pair, props)
        }
        _ => done(draft, call),
    }
}

/// The view that a call makes, if it makes one.
fn view_made(call: &Call) -> Option<RequestedEntry>
    ensures { result ≡ view_made call.now }
{
    match call {
        Call::CreateView { pair } => Some(RequestedEntry::View(*pair)),
        _ => None,
    }
}

/// The same for a call that makes no viewport: it is made.
fn done(draft: &mut Draft, call: &Call) -> Result<Option<RequestedEntry>, NoMemory>
    requires stands { HasDraft draft.old }
    requires opened { draft.old.closed ≡ false }
    requires other { makes_viewport call.now ≡ false }
    ensures tells { (setup : Setup) (s : SessionNo) (before : scene.Draft) →
        StandsFor setup draft.old before → is_played_line setup s (line.Call call.now) ≡ true →
        IfOk result (Tells setup s before (line.Call call.now) draft.new) }
    ensures same { OnErr result (draft.new ≡ draft.old) }
{
    match draft.call(call) {
        Ok(()) => {
            let made = view_made(call);
            Ok(made)
        }
        Err(DraftFault::Bad(reason)) => Ok(Some(RequestedEntry::Close(Some(reason)))),
        Err(DraftFault::Memory) => Err(NoMemory),
        Err(DraftFault::Closed) => unreachable!(),
    }
}

/// The same for a call that makes a viewport: it is tested, with the room for it.
fn tested(
    draft: &mut Draft,
    call: &Call,
    c: ContentId,
    pair: PairNo,
    props: ViewportProps,
) -> Result<Option<RequestedEntry>, NoMemory>
    requires stands { HasDraft draft.old }
    requires opened { draft.old.closed ≡ false }
    requires own { call.now ≡ calls.CreateViewport c pair props.w props.h props.inset }
    ensures tells { (setup : Setup) (s : SessionNo) (before : scene.Draft) →
        StandsFor setup draft.old before → is_played_line setup s (line.Call call.now) ≡ true →
        IfOk result (Tells setup s before (line.Call call.now) draft.new) }
    ensures same { OnErr result (draft.new ≡ draft.old) }
{
    match draft.ready(call) {
        Ok(()) => Ok(Some(RequestedEntry::Viewport(c, pair, props))),
        Err(DraftFault::Bad(reason)) => Ok(Some(RequestedEntry::Close(Some(reason)))),
        Err(DraftFault::Memory) => Err(NoMemory),
        Err(DraftFault::Closed) => unreachable!(),
    }
}

/// What a draft makes of a present: its entry.
pub fn presented(draft: &mut Draft, args: PresentArgs) -> Result<Option<RequestedEntry>, NoMemory>
    requires stands { HasDraft draft.old }
    requires opened { draft.old.closed ≡ false }
    ensures tells { (setup : Setup) (s : SessionNo) (before : scene.Draft) →
        StandsFor setup draft.old before → is_played_line setup s (line.Present args) ≡ true →
        IfOk result (Tells setup s before (line.Present args) draft.new) }
    ensures same { OnErr result (draft.new ≡ draft.old) }
{
    match draft.present(&args) {
        Ok(snapshot) => Ok(Some(RequestedEntry::Present(args, snapshot))),
        Err(DraftFault::Bad(reason)) => Ok(Some(RequestedEntry::Close(Some(reason)))),
        Err(DraftFault::Memory) => Err(NoMemory),
        Err(DraftFault::Closed) => unreachable!(),
    }
}

/// What a draft makes of a get: its entry. It takes no memory.
pub fn asked(draft: &mut Draft, get: Watch) -> RequestedEntry
    requires stands { HasDraft draft.old }
    requires opened { draft.old.closed ≡ false }
    ensures { (setup : Setup) (s : SessionNo) (before : scene.Draft) →
        StandsFor setup draft.old before → Tells setup s before (line.Get get) draft.new
        (Some result) }
{
    match draft.get(get) {
        Ok(pair) => RequestedEntry::Get(get, pair),
        Err(DraftFault::Bad(reason)) => RequestedEntry::Close(Some(reason)),
        Err(DraftFault::Memory) => unreachable!(),
        Err(DraftFault::Closed) => unreachable!(),
    }
}
