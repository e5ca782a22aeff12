//! The two clients, each on a thread of its own.
ghost use Rattle.std.specs.Prelude.{◌≡◌};

use crate::cast::{Cast, HEIGHT, WIDTH};
use flat_base::{ContentId, PairNo, TransformId};
use flat_client::{CallError, Client, NO_INSET, present_at};
use flat_scene::{Interaction, ViewportProps, WaitCondition};
use std::alloc::Global;
use std::sync::Wait;
use std::time::Clock;

/// How many frames are shown.
pub(crate) const FRAMES: u32 = 10;

/// How often a wait looks at most.
pub(crate) const LOOKS: u32 = 20_000;

const ROOT: TransformId = TransformId(1);

const INNER: TransformId = TransformId(2);

const FILL: ContentId = ContentId(1);

const CHILD: ContentId = ContentId(2);

/// The height of a client's bar, where it stands before the first frame, and of the window that
/// the home session gives the application.
const BAR: u32 = 20;

const TOP: i32 = 20;

const WINDOW: u32 = HEIGHT - 40;

/// A root that can be hit everywhere, a transform below it, and a fill.
fn draw<R: Wait + Clock>(
    rt: &R,
    client: &mut Client,
    pair: PairNo,
    colour: [u8; 4],
) -> Result<(), CallError>
    ensures { client.new.seat.stage ≡ client.old.seat.stage }
{
    client.create_view(rt, pair)?;
    client.create_transform(ROOT)?;
    client.set_root_transform(ROOT)?;
    client.set_infinite_hit_region(ROOT, Interaction::Default)?;
    client.create_transform(INNER)?;
    client.add_child(ROOT, INNER)?;
    client.create_filled_rect(FILL)?;
    client.set_solid_fill(FILL, colour, WIDTH, BAR)
}

/// Presents once a frame, one row lower each time, and waits until a frame took it.
fn present_each<R: Wait + Clock>(
    rt: &R,
    alloc: Global,
    client: &mut Client,
) -> Result<(), CallError>
    ensures { client.new.seat.stage ≡ client.old.seat.stage }
{
    for frame in 1..FRAMES + 1 {
        client.set_translation(INNER, 0, TOP + frame as i32)?;
        client.wait(rt, WaitCondition::Credits(1), LOOKS)?;
        client.present(rt, present_at(alloc, 0))?;
        client.wait(rt, WaitCondition::Taken(frame), LOOKS)?;
    }
    Ok(())
}

/// The home session: a bar of its own, and the application's view in a window below it.
fn show_home<R: Wait + Clock>(
    rt: &R,
    alloc: Global,
    client: &mut Client,
    cast: Cast,
) -> Result<(), CallError>
    ensures { client.new.seat.stage ≡ client.old.seat.stage }
{
    draw(rt, client, cast.home_pair, [0, 0, 0, 128])?;
    client.set_content(ROOT, FILL)?;
    let props = ViewportProps {
        w: WIDTH,
        h: WINDOW,
        inset: NO_INSET,
    };
    client.create_viewport(rt, CHILD, cast.app_pair, props)?;
    client.set_content(INNER, CHILD)?;
    present_each(rt, alloc, client)
}

/// The application: a bar.
fn show_app<R: Wait + Clock>(
    rt: &R,
    alloc: Global,
    client: &mut Client,
    cast: Cast,
) -> Result<(), CallError>
    ensures { client.new.seat.stage ≡ client.old.seat.stage }
{
    draw(rt, client, cast.app_pair, [200, 40, 40, 255])?;
    client.set_content(INNER, FILL)?;
    present_each(rt, alloc, client)
}

/// Runs the home session. The client comes back however its run went.
pub(crate) fn run_home<R: Wait + Clock>(
    rt: &R,
    alloc: Global,
    mut client: Client,
    cast: Cast,
) -> (Client, Result<(), CallError>)
    ensures { result.0.seat.stage ≡ client.seat.stage }
{
    let ran = show_home(rt, alloc, &mut client, cast);
    (client, ran)
}

/// Runs the application. The client comes back however its run went.
pub(crate) fn run_app<R: Wait + Clock>(
    rt: &R,
    alloc: Global,
    mut client: Client,
    cast: Cast,
) -> (Client, Result<(), CallError>)
    ensures { result.0.seat.stage ≡ client.seat.stage }
{
    let ran = show_app(rt, alloc, &mut client, cast);
    (client, ran)
}
