ghost use Rattle.std.specs.Prelude.{◌≡◌, ◌*◌, ◌<◌, ◌≤◌, ◌++◌, [], All, IfOk, OnOk};
ghost use Rattle.std.specs.Arc.{arc_value};
ghost use Rattle.std.specs.List.{flat_map};
ghost use Rattle.std.specs.Option.{option_copied};
ghost use Rattle.flat_drawable.specs.Drawable.{IsDrawable};
ghost use Rattle.flat_render.specs.declared.tile_grid.TheConstants.{PIXELS_MAX};
ghost use Rattle.flat_render.specs.Pictures.{Shows};
ghost use Rattle.flat_ink.specs.Pixels.{pixel};
ghost use Rattle.flat_render.specs.Ppm.{ppm_bytes};
ghost use Rattle.flat_texts.specs.Pictures.{list_of, picture_of};

use flat_base::NoMemory;
use flat_render::{Picture, render, render_strips};
use flat_report::{Run, TextPieces};
use flat_scene::{FrameOut, ItemList, Setup};
use std::alloc::Global;
use std::sync::Arc;
use std::thread::Threads;

/// The black picture of the display.
pub(crate) fn black_picture(
    rt: &(impl Threads + Sync),
    alloc: Global,
    setup: &Setup,
) -> Result<Picture, NoMemory>
    requires width { 0 < setup.now.width }
    requires height { 0 < setup.now.height }
    requires size { setup.now.width * setup.now.height ≤ PIXELS_MAX }
    ensures { IfOk result (λ picture. Shows picture setup.now.width setup.now.height (pixel [])) }
{
    let nothing = ItemList::new(alloc);
    render(rt, alloc, &nothing, setup.width, setup.height)
}

/// Puts runs behind a text, which shares them.
fn push_runs(text: &mut TextPieces, runs: &[Run]) -> Result<(), NoMemory>
    ensures { OnOk result (text.new ≡ text.old ++ flat_map arc_value runs.now) }
{
    for run in runs {
        text.push(Arc::try_clone(run)?)?;
    }
    Ok(())
}

/// The bytes of the picture of a draw list on the display.
fn picture_of_list(
    rt: &(impl Threads + Sync),
    alloc: Global,
    items: &ItemList,
    setup: &Setup,
) -> Result<TextPieces, NoMemory>
    requires items { All IsDrawable items.now }
    requires width { 0 < setup.now.width }
    requires height { 0 < setup.now.height }
    requires size { setup.now.width * setup.now.height ≤ PIXELS_MAX }
    ensures { IfOk result (λ text. text ≡ ppm_bytes setup.now.width setup.now.height
        (pixel items.now)) }
{
    let strips = render_strips(rt, alloc, items, setup.width, setup.height)?;
    let mut text = TextPieces::new(alloc);
    push_runs(&mut text, strips.as_slice())?;
    Ok(text)
}

/// The bytes of the black picture of the display.
fn black_text(
    rt: &(impl Threads + Sync),
    alloc: Global,
    setup: &Setup,
) -> Result<TextPieces, NoMemory>
    requires width { 0 < setup.now.width }
    requires height { 0 < setup.now.height }
    requires size { setup.now.width * setup.now.height ≤ PIXELS_MAX }
    ensures { IfOk result (λ text. text ≡ ppm_bytes setup.now.width setup.now.height (pixel [])) }
{
    let nothing = ItemList::new(alloc);
    picture_of_list(rt, alloc, &nothing, setup)
}

/// The bytes of the picture of the frame that was finished last, or where there is none
/// of a black one, as `P6`: a header with the display's sides, and three bytes for each
/// pixel, by rows from the top. It is drawn in as many threads as serve. Rows that look like those
/// above them share their bytes.
pub fn picture_of(
    rt: &(impl Threads + Sync),
    alloc: Global,
    setup: &Setup,
    last: Option<&FrameOut>,
) -> Result<TextPieces, NoMemory>
    requires items { All IsDrawable (list_of (option_copied last)) }
    requires width { 0 < setup.now.width }
    requires height { 0 < setup.now.height }
    requires size { setup.now.width * setup.now.height ≤ PIXELS_MAX }
    ensures { IfOk result (λ text. text ≡ picture_of setup.now (option_copied last.entry)) }
{
    match last {
        Some(frame) => picture_of_list(rt, alloc, &frame.items, setup),
        None => black_text(rt, alloc, setup),
    }
}
