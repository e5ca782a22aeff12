ghost use Rattle.flat_page.specs.Pages.{Writes};
ghost use Rattle.flat_page.specs.Words.{actor_name};
ghost use Rattle.std.specs.Prelude.{◌≡◌, ◌++◌, ◌∷◌, [], OnOk, map, cond};
ghost use Rattle.std.specs.Fmt.{decimal};
ghost use Rattle.std.specs.Option.{option_map_or};
ghost use Rattle.std.specs.List.{flat_map};
ghost use Rattle.flat_print.specs.Print.{numbers, session_word, fence_word, rect_words, inset_words};
ghost use Rattle.flat_print.specs.Print.{inset_unless_none, region_words, list_words, orientation_number, blend_number};
ghost use Rattle.flat_print.specs.Choices.{flip_number, interaction_number};

use flat_base::{Actor, FenceNo, IntRect, NoMemory, Orientation, SessionNo, TransformId};
use flat_page::{Page, actor_name, name_at, session_name};
use flat_places::Script;
use flat_scene::{BlendMode, HitRegion, ImageFlip, Inset, Interaction};

pub fn session_word(script: &Script, session: SessionNo) -> &[u8]
    ensures { result.now ≡ session_word script.now session }
{
    session_name(&script.sessions, session)
}

pub fn fence_word(script: &Script, fence: FenceNo) -> &[u8]
    ensures { result.now ≡ fence_word script.now fence }
{
    name_at(&script.fences, fence.0 as usize)
}

/// Each of the numbers behind a space.
pub fn push_numbers(page: &mut Page, values: &[u64]) -> Result<(), NoMemory>
    ensures { OnOk result (Writes (numbers values.now) page.old page.new) }
{
    for value in values {
        page.count(*value)?;
    }
    Ok(())
}

pub fn push_rect(page: &mut Page, rect: IntRect) -> Result<(), NoMemory>
    ensures { OnOk result (Writes (rect_words rect) page.old page.new) }
{
    page.units(rect.x, rect.y, rect.w, rect.h)
}

pub fn push_rect_if_any(page: &mut Page, rect: Option<IntRect>) -> Result<(), NoMemory>
    ensures { OnOk result (Writes (option_map_or rect_words rect []) page.old page.new) }
{
    match rect {
        Some(rect) => push_rect(page, rect),
        None => Ok(()),
    }
}

fn push_inset(page: &mut Page, inset: Inset) -> Result<(), NoMemory>
    ensures { OnOk result (Writes (inset_words inset) page.old page.new) }
{
    push_numbers(
        page,
        &[
            inset.top as u64,
            inset.right as u64,
            inset.bottom as u64,
            inset.left as u64,
        ],
    )
}

pub fn push_inset_if_any(page: &mut Page, inset: Option<Inset>) -> Result<(), NoMemory>
    ensures { OnOk result (Writes (option_map_or inset_words inset []) page.old
        page.new) }
{
    match inset {
        Some(inset) => push_inset(page, inset),
        None => Ok(()),
    }
}

/// Nothing for an inset of 0 on all sides.
pub fn push_inset_unless_none(page: &mut Page, inset: Inset) -> Result<(), NoMemory>
    ensures { OnOk result (Writes (inset_unless_none inset) page.old page.new) }
{
    if inset.top == 0 && inset.right == 0 && inset.bottom == 0 && inset.left == 0 {
        return Ok(());
    }
    push_inset(page, inset)
}

pub fn orientation_number(orientation: Orientation) -> u64
    ensures { result ≡ orientation_number orientation }
{
    match orientation {
        Orientation::Ccw0 => 1,
        Orientation::Ccw90 => 2,
        Orientation::Ccw180 => 3,
        Orientation::Ccw270 => 4,
    }
}

pub fn blend_number(blend: BlendMode) -> u64
    ensures { result ≡ blend_number blend }
{
    match blend {
        BlendMode::Src => 1,
        BlendMode::SrcOver => 2,
    }
}

/// The number of a flip in a text.
pub fn flip_number(flip: ImageFlip) -> u64
    ensures { result ≡ flip_number flip }
{
    match flip {
        ImageFlip::Plain => 1,
        ImageFlip::LeftRight => 2,
        ImageFlip::UpDown => 3,
    }
}

/// The number of an interaction in a text.
pub fn interaction_number(interaction: Interaction) -> u64
    ensures { result ≡ interaction_number interaction }
{
    match interaction {
        Interaction::Default => 0,
        Interaction::SemanticallyInvisible => 1,
    }
}

fn push_region(page: &mut Page, region: &HitRegion) -> Result<(), NoMemory>
    ensures { OnOk result (Writes (region_words region.now) page.old page.new) }
{
    push_rect_if_any(page, region.area)?;
    push_numbers(page, &[interaction_number(region.interaction)])?;
    Ok(())
}

pub fn push_regions(page: &mut Page, regions: &[HitRegion]) -> Result<(), NoMemory>
    ensures { OnOk result (Writes (flat_map region_words regions.now) page.old page.new) }
{
    for region in regions {
        push_region(page, region)?;
    }
    Ok(())
}

pub fn push_transforms(page: &mut Page, transforms: &[TransformId]) -> Result<(), NoMemory>
    ensures { OnOk result (Writes (map (λ t. decimal t.0) transforms.now) page.old
        page.new) }
{
    for transform in transforms {
        page.count(transform.0)?;
    }
    Ok(())
}

fn push_fences(page: &mut Page, script: &Script, fences: &[FenceNo]) -> Result<(), NoMemory>
    ensures { OnOk result (Writes (map (fence_word script.now) fences.now) page.old
        page.new) }
{
    for fence in fences {
        page.word(fence_word(script, *fence))?;
    }
    Ok(())
}

/// A list of fences behind its keyword, or nothing for an empty one.
pub fn push_list(
    page: &mut Page,
    script: &Script,
    keyword: &str,
    fences: &[FenceNo],
) -> Result<(), NoMemory>
    ensures { OnOk result (Writes (list_words script.now keyword.now fences.now) page.old
        page.new) }
{
    if fences.is_empty() {
        return Ok(());
    }
    page.word(keyword.as_bytes())?;
    push_fences(page, script, fences)?;
    Ok(())
}

pub fn push_owners(page: &mut Page, script: &Script, owners: &[Actor]) -> Result<(), NoMemory>
    ensures { OnOk result (Writes (map (actor_name script.now) owners.now) page.old
        page.new) }
{
    for owner in owners {
        page.word(actor_name(script, *owner))?;
    }
    Ok(())
}
