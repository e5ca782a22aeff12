ghost use Rattle.std.specs.Prelude.{◌≡◌, IfOk, true};
ghost use Rattle.flat_base.specs.declared.ids.SessionNo.{SessionNo};
ghost use Rattle.flat_text.specs.Pieces.{is_space};
ghost use Rattle.flat_text.specs.Left.{pieces_left};
ghost use Rattle.flat_places.specs.declared.script.Script.{Script};
ghost use Rattle.flat_forms.specs.declared.calls.CallName.TheVariants.{SetTranslation, SetOrientation, SetScale};
ghost use Rattle.flat_forms.specs.declared.calls.CallName.TheVariants.{SetOpacity, SetClipBoundary};
ghost use Rattle.flat_forms.specs.declared.calls.CallName.TheVariants.{AddChild, RemoveChild};
ghost use Rattle.flat_forms.specs.declared.calls.CallName.TheVariants.{SetInfiniteHitRegion, SetContent};
ghost use Rattle.flat_forms.specs.declared.calls.CallName.TheVariants.{CreateViewport};
ghost use Rattle.flat_forms.specs.declared.calls.CallName.TheVariants.{SetViewportProperties, CreateImage};
ghost use Rattle.flat_forms.specs.declared.calls.CallName.TheVariants.{SetImageDestinationSize, SetSolidFill};
ghost use Rattle.flat_places.specs.Forms.{whole};
ghost use Rattle.flat_forms.specs.Calls.{call_form, inset_or_none};
ghost use Rattle.flat_forms.specs.Contents.{is_of_contents};
ghost use Rattle.flat_places.specs.Index.{IsIndexed};
ghost use Rattle.flat_places.specs.Reads.{Reads};
ghost use Rattle.flat_forms.specs.Steps.{Reaches};

use crate::calls::CallName;
use crate::lines::LineError;
use flat_base::{NoMemory, SessionNo};
use flat_places::{IndexedScript, WordCursor};
use flat_scene::{Call, Inset};
use std::alloc::Global;

/// The call of that name that the words behind its name write.
pub fn call(
    alloc: Global,
    script: &IndexedScript,
    session: SessionNo,
    name: CallName,
    words: Option<&[u8]>,
) -> Result<Call, LineError>
    requires { IsIndexed script.now }
    ensures { Reaches result (whole (call_form script.now.script session name)
        (pieces_left is_space words.entry)) }
{
    let mut places = WordCursor::new(words);
    let found = fields(&mut places, alloc, script, session, name)?;
    match places.finish(found) {
        Ok(call) => Ok(call),
        Err(kind) => Err(LineError::Kind(kind)),
    }
}

/// The fields of a call.
fn fields(
    places: &mut WordCursor,
    alloc: Global,
    script: &IndexedScript,
    session: SessionNo,
    name: CallName,
) -> Result<Call, NoMemory>
    requires { IsIndexed script.now }
    ensures { IfOk result (λ v. Reads (call_form script.now.script session name) places.old
        places.new v) }
{
    match name {
        CallName::CreateView => Ok(Call::CreateView {
            pair: places.view_end(script, session),
        }),
        CallName::ReleaseView => Ok(Call::ReleaseView),
        CallName::CreateTransform => Ok(Call::CreateTransform {
            t: places.transform(),
        }),
        CallName::ReleaseTransform => Ok(Call::ReleaseTransform {
            t: places.transform(),
        }),
        CallName::SetTranslation => Ok(set_translation(places)),
        CallName::SetOrientation => Ok(set_orientation(places)),
        CallName::SetScale => Ok(set_scale(places)),
        CallName::SetOpacity => Ok(set_opacity(places)),
        CallName::SetClipBoundary => Ok(set_clip_boundary(places)),
        CallName::AddChild => Ok(add_child(places)),
        CallName::RemoveChild => Ok(remove_child(places)),
        CallName::ReplaceChildren => Ok(Call::ReplaceChildren {
            p: places.transform(),
            children: places.transforms(alloc)?,
        }),
        CallName::SetRootTransform => Ok(Call::SetRootTransform {
            t: places.transform(),
        }),
        CallName::SetHitRegions => Ok(Call::SetHitRegions {
            t: places.transform(),
            regions: places.regions(alloc)?,
        }),
        CallName::SetInfiniteHitRegion => Ok(set_infinite_hit_region(places)),
        CallName::SetContent => Ok(set_content(places)),
        CallName::Clear => Ok(Call::Clear),
        _ => Ok(content_fields(places, script, session, name)),
    }
}

/// The fields of a call that makes, changes or releases a content.
fn content_fields(
    places: &mut WordCursor,
    script: &IndexedScript,
    session: SessionNo,
    name: CallName,
) -> Call
    requires indexed { IsIndexed script.now }
    requires contents { is_of_contents name ≡ true }
    ensures { Reads (call_form script.now.script session name) places.old places.new result }
{
    match name {
        CallName::CreateViewport => create_viewport(places, script, session),
        CallName::SetViewportProperties => set_viewport_properties(places),
        CallName::ReleaseViewport => Call::ReleaseViewport {
            c: places.content(),
        },
        CallName::CreateImage => create_image(places, script, session),
        CallName::SetImageSampleRegion => Call::SetImageSampleRegion {
            c: places.content(),
            rect: places.int_rect(),
        },
        CallName::SetImageDestinationSize => set_image_destination_size(places),
        CallName::SetImageBlendingFunction => Call::SetImageBlendingFunction {
            c: places.content(),
            m: places.blend(),
        },
        CallName::SetImageFlip => Call::SetImageFlip {
            c: places.content(),
            f: places.flip(),
        },
        CallName::SetImageOpacity => Call::SetImageOpacity {
            c: places.content(),
            v: places.u32(),
        },
        CallName::ReleaseImage => Call::ReleaseImage {
            c: places.content(),
        },
        CallName::CreateFilledRect => Call::CreateFilledRect {
            c: places.content(),
        },
        CallName::SetSolidFill => set_solid_fill(places),
        CallName::ReleaseFilledRect => Call::ReleaseFilledRect {
            c: places.content(),
        },
        _ => unreachable!(),
    }
}

fn set_translation(places: &mut WordCursor) -> Call
    ensures { (s : Script) (a : SessionNo) → Reads (call_form s a SetTranslation) places.old
        places.new result }
{
    let t = places.transform();
    let x = places.i32();
    let y = places.i32();
    Call::SetTranslation { t, x, y }
}

fn set_orientation(places: &mut WordCursor) -> Call
    ensures { (s : Script) (a : SessionNo) → Reads (call_form s a SetOrientation) places.old
        places.new result }
{
    let t = places.transform();
    let o = places.orientation();
    Call::SetOrientation { t, o }
}

fn set_scale(places: &mut WordCursor) -> Call
    ensures { (s : Script) (a : SessionNo) → Reads (call_form s a SetScale) places.old places.new
        result }
{
    let t = places.transform();
    let sx = places.u32();
    let sy = places.u32();
    Call::SetScale { t, sx, sy }
}

fn set_opacity(places: &mut WordCursor) -> Call
    ensures { (s : Script) (a : SessionNo) → Reads (call_form s a SetOpacity) places.old places.new
        result }
{
    let t = places.transform();
    let v = places.u32();
    Call::SetOpacity { t, v }
}

fn set_clip_boundary(places: &mut WordCursor) -> Call
    ensures { (s : Script) (a : SessionNo) → Reads (call_form s a SetClipBoundary) places.old
        places.new result }
{
    let t = places.transform();
    let rect = places.clip();
    Call::SetClipBoundary { t, rect }
}

fn add_child(places: &mut WordCursor) -> Call
    ensures { (s : Script) (a : SessionNo) → Reads (call_form s a AddChild) places.old places.new
        result }
{
    let p = places.transform();
    let k = places.transform();
    Call::AddChild { p, k }
}

fn remove_child(places: &mut WordCursor) -> Call
    ensures { (s : Script) (a : SessionNo) → Reads (call_form s a RemoveChild) places.old places.new
        result }
{
    let p = places.transform();
    let k = places.transform();
    Call::RemoveChild { p, k }
}

fn set_infinite_hit_region(places: &mut WordCursor) -> Call
    ensures { (s : Script) (a : SessionNo) → Reads (call_form s a SetInfiniteHitRegion) places.old
        places.new result }
{
    let t = places.transform();
    let i = places.interaction();
    Call::SetInfiniteHitRegion { t, i }
}

fn set_content(places: &mut WordCursor) -> Call
    ensures { (s : Script) (a : SessionNo) → Reads (call_form s a SetContent) places.old places.new
        result }
{
    let t = places.transform();
    let c = places.content();
    Call::SetContent { t, c }
}

fn create_viewport(places: &mut WordCursor, script: &IndexedScript, session: SessionNo) -> Call
    requires { IsIndexed script.now }
    ensures { Reads (call_form script.now.script session CreateViewport) places.old places.new
        result }
{
    let c = places.content();
    let pair = places.viewport_end(script, session);
    let w = places.u32();
    let h = places.u32();
    let given = places.inset_if_any();
    Call::CreateViewport {
        c,
        pair,
        w,
        h,
        inset: inset_or_none(given),
    }
}

fn set_viewport_properties(places: &mut WordCursor) -> Call
    ensures { (s : Script) (a : SessionNo) → Reads (call_form s a SetViewportProperties) places.old
        places.new result }
{
    let c = places.content();
    let w = places.u32();
    let h = places.u32();
    let inset = places.inset_if_any();
    Call::SetViewportProperties { c, w, h, inset }
}

fn create_image(places: &mut WordCursor, script: &IndexedScript, session: SessionNo) -> Call
    requires { IsIndexed script.now }
    ensures { Reads (call_form script.now.script session CreateImage) places.old places.new result }
{
    let c = places.content();
    let buffers = places.collection(script, session);
    let i = places.u32();
    let w = places.u32();
    let h = places.u32();
    Call::CreateImage {
        c,
        buffers,
        i,
        w,
        h,
    }
}

fn set_image_destination_size(places: &mut WordCursor) -> Call
    ensures { (s : Script) (a : SessionNo) → Reads (call_form s a SetImageDestinationSize)
        places.old places.new result }
{
    let c = places.content();
    let w = places.u32();
    let h = places.u32();
    Call::SetImageDestinationSize { c, w, h }
}

fn set_solid_fill(places: &mut WordCursor) -> Call
    ensures { (s : Script) (a : SessionNo) → Reads (call_form s a SetSolidFill) places.old
        places.new result }
{
    let c = places.content();
    let r = places.colour();
    let g = places.colour();
    let b = places.colour();
    let a = places.colour();
    let w = places.u32();
    let h = places.u32();
    Call::SetSolidFill {
        c,
        r,
        g,
        b,
        a,
        w,
        h,
    }
}

fn inset_or_none(given: Option<Inset>) -> Inset
    ensures { result ≡ inset_or_none given }
{
    given.unwrap_or(Inset {
        top: 0,
        right: 0,
        bottom: 0,
        left: 0,
    })
}
