ghost use Rattle.std.specs.Prelude.{◌≡◌, ◌++◌, ◌∷◌, [], OnOk, map, true};
ghost use Rattle.std.specs.Fmt.{decimal, signed_decimal};
ghost use Rattle.std.specs.List.{flat_map};
ghost use Rattle.std.specs.Option.{option_map_or};
ghost use Rattle.flat_print.specs.Print.{numbers, pair_word, buffers_word};
ghost use Rattle.flat_print.specs.Print.{rect_words, inset_words, inset_unless_none, region_words};
ghost use Rattle.flat_page.specs.Pages.{Writes};
ghost use Rattle.flat_print.specs.Print.{call_name, call_fields, call_words};
ghost use Rattle.flat_print.specs.Print.{IsFew, is_longer};

use crate::print_words::{
    blend_number, flip_number, interaction_number, orientation_number, push_inset_if_any,
    push_inset_unless_none, push_numbers, push_rect, push_rect_if_any, push_regions,
    push_transforms,
};
use flat_base::{BufferNo, IntRect, NoMemory, PairNo, TransformId};
use flat_forms::CallName;
use flat_page::{Page, name_at};
use flat_places::Script;
use flat_scene::{Call, HitRegion, Inset};

fn call_name(call: &Call) -> CallName
    ensures { result ≡ call_name call.now }
{
    match call {
        Call::CreateView { .. } => CallName::CreateView,
        Call::ReleaseView => CallName::ReleaseView,
        Call::CreateTransform { .. } => CallName::CreateTransform,
        Call::ReleaseTransform { .. } => CallName::ReleaseTransform,
        Call::SetTranslation { .. } => CallName::SetTranslation,
        Call::SetOrientation { .. } => CallName::SetOrientation,
        Call::SetScale { .. } => CallName::SetScale,
        Call::SetOpacity { .. } => CallName::SetOpacity,
        Call::SetClipBoundary { .. } => CallName::SetClipBoundary,
        Call::AddChild { .. } => CallName::AddChild,
        Call::RemoveChild { .. } => CallName::RemoveChild,
        Call::ReplaceChildren { .. } => CallName::ReplaceChildren,
        Call::SetRootTransform { .. } => CallName::SetRootTransform,
        Call::CreateViewport { .. } => CallName::CreateViewport,
        Call::SetViewportProperties { .. } => CallName::SetViewportProperties,
        Call::ReleaseViewport { .. } => CallName::ReleaseViewport,
        Call::CreateImage { .. } => CallName::CreateImage,
        Call::SetImageSampleRegion { .. } => CallName::SetImageSampleRegion,
        Call::SetImageDestinationSize { .. } => CallName::SetImageDestinationSize,
        Call::SetImageBlendingFunction { .. } => CallName::SetImageBlendingFunction,
        Call::SetImageFlip { .. } => CallName::SetImageFlip,
        Call::SetImageOpacity { .. } => CallName::SetImageOpacity,
        Call::ReleaseImage { .. } => CallName::ReleaseImage,
        Call::CreateFilledRect { .. } => CallName::CreateFilledRect,
        Call::SetSolidFill { .. } => CallName::SetSolidFill,
        Call::ReleaseFilledRect { .. } => CallName::ReleaseFilledRect,
        Call::SetHitRegions { .. } => CallName::SetHitRegions,
        Call::SetInfiniteHitRegion { .. } => CallName::SetInfiniteHitRegion,
        Call::SetContent { .. } => CallName::SetContent,
        Call::Clear => CallName::Clear,
    }
}

pub fn push_call(page: &mut Page, script: &Script, call: &Call) -> Result<(), NoMemory>
    ensures { OnOk result (Writes (call_words script.now call.now) page.old page.new) }
{
    page.word(call_name(call).text().as_bytes())?;
    push_fields(page, script, call)?;
    Ok(())
}

fn push_fields(page: &mut Page, script: &Script, call: &Call) -> Result<(), NoMemory>
    ensures { OnOk result (Writes (call_fields script.now call.now) page.old page.new) }
{
    match few_of(call) {
        Some((count, a, b, c)) => {
            let values = [a, b, c];
            push_numbers(page, &values[..count])
        }
        None => push_longer(page, script, call),
    }
}

/// The fields of a call that has up to three numbers and no other: so many of these three.
fn few_of(call: &Call) -> Option<(usize, u64, u64, u64)>
    ensures { IsFew result call.now }
{
    match call {
        Call::ReleaseView => Some((0, 0, 0, 0)),
        Call::CreateTransform { t } => Some((1, t.0, 0, 0)),
        Call::ReleaseTransform { t } => Some((1, t.0, 0, 0)),
        Call::SetOrientation { t, o } => Some((2, t.0, orientation_number(*o), 0)),
        Call::SetScale { t, sx, sy } => Some((3, t.0, *sx as u64, *sy as u64)),
        Call::SetOpacity { t, v } => Some((2, t.0, *v as u64, 0)),
        Call::AddChild { p, k } => Some((2, p.0, k.0, 0)),
        Call::RemoveChild { p, k } => Some((2, p.0, k.0, 0)),
        Call::SetRootTransform { t } => Some((1, t.0, 0, 0)),
        Call::ReleaseViewport { c } => Some((1, c.0, 0, 0)),
        Call::SetImageDestinationSize { c, w, h } => Some((3, c.0, *w as u64, *h as u64)),
        Call::SetImageBlendingFunction { c, m } => Some((2, c.0, blend_number(*m), 0)),
        Call::SetImageFlip { c, f } => Some((2, c.0, flip_number(*f), 0)),
        Call::SetImageOpacity { c, v } => Some((2, c.0, *v as u64, 0)),
        Call::ReleaseImage { c } => Some((1, c.0, 0, 0)),
        Call::CreateFilledRect { c } => Some((1, c.0, 0, 0)),
        Call::ReleaseFilledRect { c } => Some((1, c.0, 0, 0)),
        Call::SetInfiniteHitRegion { t, i } => Some((2, t.0, interaction_number(*i), 0)),
        Call::SetContent { t, c } => Some((2, t.0, c.0, 0)),
        Call::Clear => Some((0, 0, 0, 0)),
        Call::CreateView { .. } => None,
        Call::SetTranslation { .. } => None,
        Call::SetClipBoundary { .. } => None,
        Call::ReplaceChildren { .. } => None,
        Call::CreateViewport { .. } => None,
        Call::SetViewportProperties { .. } => None,
        Call::CreateImage { .. } => None,
        Call::SetImageSampleRegion { .. } => None,
        Call::SetSolidFill { .. } => None,
        Call::SetHitRegions { .. } => None,
    }
}

/// The fields of a call that has others than up to three numbers.
fn push_longer(page: &mut Page, script: &Script, call: &Call) -> Result<(), NoMemory>
    requires { is_longer call.now ≡ true }
    ensures { OnOk result (Writes (call_fields script.now call.now) page.old page.new) }
{
    match call {
        Call::CreateView { pair } => page.word(name_at(&script.pairs, pair.0 as usize)),
        Call::SetTranslation { t, x, y } => push_translation(page, t.0, *x, *y),
        Call::SetClipBoundary { t, rect } => push_clip(page, t.0, *rect),
        Call::ReplaceChildren { p, children } => push_children(page, p.0, children.as_slice()),
        Call::CreateViewport {
            c,
            pair,
            w,
            h,
            inset,
        } => push_viewport(page, script, c.0, *pair, (*w, *h), *inset),
        Call::SetViewportProperties { c, w, h, inset } => push_properties(
            page, c.0, *w, *h, *inset,
        ),
        Call::CreateImage {
            c,
            buffers,
            i,
            w,
            h,
        } => push_image(page, script, c.0, *buffers, *i, (*w, *h)),
        Call::SetImageSampleRegion { c, rect } => push_sample(page, c.0, *rect),
        Call::SetSolidFill {
            c,
            r,
            g,
            b,
            a,
            w,
            h,
        } => push_numbers(
            page,
            &[
                c.0, *r as u64, *g as u64, *b as u64, *a as u64, *w as u64, *h as u64,
            ],
        ),
        Call::SetHitRegions { t, regions } => push_hit_regions(page, t.0, regions.as_slice()),
        _ => unreachable!(),
    }
}

fn push_translation(page: &mut Page, t: u64, x: i32, y: i32) -> Result<(), NoMemory>
    ensures { OnOk result (Writes (decimal t ∷ signed_decimal x ∷ signed_decimal y
        ∷ []) page.old page.new) }
{
    page.count(t)?;
    page.point(x, y)?;
    Ok(())
}

fn push_clip(page: &mut Page, t: u64, rect: Option<IntRect>) -> Result<(), NoMemory>
    ensures { OnOk result (Writes (decimal t ∷ option_map_or rect_words rect []) page.old
        page.new) }
{
    page.count(t)?;
    push_rect_if_any(page, rect)?;
    Ok(())
}

/// The fields of CreateViewport, whose `size` is its width and its height.
fn push_viewport(
    page: &mut Page,
    script: &Script,
    c: u64,
    pair: PairNo,
    size: (u32, u32),
    inset: Inset,
) -> Result<(), NoMemory>
    ensures { OnOk result (Writes (decimal c ∷ pair_word script.now pair
        ∷ numbers (size.0 ∷ size.1 ∷ []) ++ inset_unless_none inset) page.old page.new) }
{
    page.count(c)?;
    page.word(name_at(&script.pairs, pair.0 as usize))?;
    push_numbers(page, &[size.0 as u64, size.1 as u64])?;
    push_inset_unless_none(page, inset)?;
    Ok(())
}

fn push_properties(
    page: &mut Page,
    c: u64,
    w: u32,
    h: u32,
    inset: Option<Inset>,
) -> Result<(), NoMemory>
    ensures { OnOk result (Writes (numbers (c ∷ w ∷ h ∷ []) ++ option_map_or inset_words inset [])
        page.old page.new) }
{
    push_numbers(page, &[c, w as u64, h as u64])?;
    push_inset_if_any(page, inset)?;
    Ok(())
}

/// The fields of CreateImage; `i` is the index of its buffer, and `size` its width and its height.
fn push_image(
    page: &mut Page,
    script: &Script,
    c: u64,
    buffers: BufferNo,
    i: u32,
    size: (u32, u32),
) -> Result<(), NoMemory>
    ensures { OnOk result (Writes (decimal c ∷ buffers_word script.now buffers
        ∷ numbers (i ∷ size.0 ∷ size.1 ∷ [])) page.old page.new) }
{
    page.count(c)?;
    page.word(name_at(&script.buffers, buffers.0 as usize))?;
    push_numbers(page, &[i as u64, size.0 as u64, size.1 as u64])?;
    Ok(())
}

fn push_sample(page: &mut Page, c: u64, rect: IntRect) -> Result<(), NoMemory>
    ensures { OnOk result (Writes (decimal c ∷ rect_words rect) page.old page.new) }
{
    page.count(c)?;
    push_rect(page, rect)?;
    Ok(())
}

fn push_hit_regions(page: &mut Page, t: u64, regions: &[HitRegion]) -> Result<(), NoMemory>
    ensures { OnOk result (Writes (decimal t ∷ flat_map region_words regions.now) page.old
        page.new) }
{
    page.count(t)?;
    push_regions(page, regions)?;
    Ok(())
}

fn push_children(page: &mut Page, p: u64, children: &[TransformId]) -> Result<(), NoMemory>
    ensures { OnOk result (Writes (decimal p ∷ map (λ k. decimal k.0) children.now) page.old
        page.new) }
{
    page.count(p)?;
    push_transforms(page, children)?;
    Ok(())
}
