//! What a frame shows, composed whole, is what its pieces give.
ghost use Rattle.std.specs.Prelude.{◌≡◌, ◌+◌, ◌≤◌, true, false, length, IfOk};
ghost use Rattle.flat_base.specs.declared.limits.TheConstants.{SESSIONS_MAX};
ghost use Rattle.flat_scene.specs.declared.calls.Call.TheVariants as fill;
ghost use Rattle.flat_rules.specs.Owned.{is_played_line};
ghost use Rattle.flat_stage.specs.Seats.{setup_of};
ghost use Rattle.flat_topology.specs.Fit.{FitsSetup};
ghost use Rattle.flat_stage_tests.specs.Room.{MayBegin, MayRead, two_sessions};

use crate::cast::{Cast, new_cast, two_sessions};
use crate::seats::no_fences;
use flat_base::{ContentId, NoMemory, PairNo, SessionNo, TransformId};
use flat_compose::compose;
use flat_core::{FrameStart, shown_states_fit};
use flat_drawable::is_same;
use flat_join::join;
use flat_reuse::Reuse;
use flat_scene::{Call, ItemList, SessionLine, Setup, ViewNode, ViewTree, WaitCondition};
use flat_stage::{Compositor, SessionSeat, Stage};
use flat_tree::{tree_of, view_tree};
use std::alloc::Global;
use std::sync::Wait;
use std::test::Fail;

/// One line of session 1, after which so many more may be read.
fn read<R: Wait>(
    rt: &R,
    stage: &Stage,
    seat: &mut SessionSeat,
    text: SessionLine,
    left: u32,
) -> Result<(), NoMemory>
    requires own { seat.old.stage ≡ stage.now }
    requires owned { is_played_line (setup_of stage.now) seat.old.session text ≡ true }
    requires may { MayRead (left + 1) seat.old }
    ensures own { seat.new.stage ≡ seat.old.stage }
    ensures session { seat.new.session ≡ seat.old.session }
    ensures may { IfOk result (λ _. MayRead left seat.new) }
{
    seat.call(rt, stage, 1, text)?;
    Ok(())
}

/// Session 1 presents a filled rectangle.
fn present_fill<R: Wait>(
    rt: &R,
    alloc: Global,
    stage: &Stage,
    seat: &mut SessionSeat,
) -> Result<(), NoMemory>
    requires own { seat.old.stage ≡ stage.now }
    requires setup { setup_of stage.now ≡ two_sessions }
    requires session { seat.old.session ≡ record { 0 = 1 } }
    requires may { MayRead 101 seat.old }
    ensures { seat.new.stage ≡ stage.now }
{
    let (t, c) = (TransformId(1), ContentId(2));
    read(
        rt,
        stage,
        seat,
        SessionLine::Call(Call::CreateView { pair: PairNo(0) }),
        100,
    )?;
    read(
        rt,
        stage,
        seat,
        SessionLine::Call(Call::CreateTransform { t }),
        99,
    )?;
    read(
        rt,
        stage,
        seat,
        SessionLine::Call(Call::SetRootTransform { t }),
        98,
    )?;
    read(
        rt,
        stage,
        seat,
        SessionLine::Call(Call::CreateFilledRect { c }),
        97,
    )?;
    read(rt, stage, seat, SessionLine::Call(solid_fill(c)), 96)?;
    read(
        rt,
        stage,
        seat,
        SessionLine::Call(Call::SetContent { t, c }),
        95,
    )?;
    read(rt, stage, seat, SessionLine::Present(no_fences(alloc)), 94)
}

/// Orange, half as large as the display.
fn solid_fill(c: ContentId) -> Call
    ensures { result ≡ fill.SetSolidFill c 255 128 0 255 50 25 }
{
    Call::SetSolidFill {
        c,
        r: 255,
        g: 128,
        b: 0,
        a: 255,
        w: 50,
        h: 25,
    }
}

/// What is drawn, and the view tree.
type Composed = (ItemList, ViewTree);

/// What a frame shows, composed piece by piece: a session that didn't change would be taken from
/// the frame before.
fn compose_pieces(alloc: Global, setup: &Setup, start: &FrameStart) -> Result<Composed, NoMemory>
    requires made { length start.now.shown ≡ setup.now.sessions }
    requires few { setup.now.sessions ≤ SESSIONS_MAX }
    requires fit { FitsSetup setup.now start.now.shown }
{
    let mut reuse = Reuse::new(alloc)?;
    let drawing = reuse.draw_next(alloc, &start.shown, setup, start.ratio)?;
    let tree = tree_of(alloc, drawing.views, start.with_view)?;
    Ok((drawing.items, tree))
}

/// What a frame shows, composed whole: the trees of all sessions are joined to one.
fn compose_whole(alloc: Global, setup: &Setup, start: &FrameStart) -> Result<Composed, NoMemory>
    requires made { length start.now.shown ≡ setup.now.sessions }
    requires few { setup.now.sessions ≤ SESSIONS_MAX }
    requires fit { FitsSetup setup.now start.now.shown }
{
    let joined = join(alloc, &start.shown, setup, start.ratio)?;
    let items = compose(alloc, &joined)?;
    let tree = view_tree(alloc, &joined, start.with_view)?;
    Ok((items, tree))
}

fn are_same_nodes(a: &ViewNode, b: &ViewNode) -> bool {
    a.session == b.session && a.parent == b.parent && a.bounds == b.bounds
}

/// How many items and how many views both have, if they are the same.
fn agreed(pieces: &Composed, whole: &Composed) -> Option<(usize, usize)> {
    let items = pieces.0.as_slice();
    let others = whole.0.as_slice();
    let nodes = pieces.1.nodes.as_slice();
    let other_nodes = whole.1.nodes.as_slice();
    let are_same = items.len() == others.len()
        && nodes.len() == other_nodes.len()
        && pieces.1.apart.as_slice() == whole.1.apart.as_slice()
        && items.iter().zip(others).all(|(a, b)| is_same(a, b))
        && nodes
            .iter()
            .zip(other_nodes)
            .all(|(a, b)| are_same_nodes(a, b));
    if are_same {
        Some((items.len(), nodes.len()))
    } else {
        None
    }
}

/// What both ways agree on in the next frame.
fn compare<R: Wait>(
    rt: &R,
    alloc: Global,
    setup: &Setup,
    stage: &Stage,
    compositor: &mut Compositor,
) -> Result<Option<(usize, usize)>, NoMemory>
    requires own { compositor.old.display.stage ≡ stage.now }
    requires closed { compositor.old.is_open ≡ false }
    requires setup { setup_of stage.now ≡ setup.now }
    requires is { setup.now ≡ two_sessions }
    requires may { MayBegin 10 0 compositor.old.display }
{
    shown_states_fit();
    compositor.begin(rt, stage, 1, 0);
    compositor.look(rt, stage, WaitCondition::Presents(SessionNo(1), 1));
    let start = compositor.start();
    let pieces = compose_pieces(alloc, setup, start)?;
    let whole = compose_whole(alloc, setup, start)?;
    Ok(agreed(&pieces, &whole))
}

/// The same of a new stage, on which session 1 has presented.
fn agreed_on<R: Wait>(
    rt: &R,
    alloc: Global,
    cast: &mut Cast,
) -> Result<Option<(usize, usize)>, Fail>
    requires setup { setup_of cast.old.stage ≡ two_sessions }
    requires compositor { (cast.old.compositor.display.stage ≡ cast.old.stage)
        × (cast.old.compositor.is_open ≡ false) × MayBegin 10 0 cast.old.compositor.display }
    requires first { (cast.old.first.stage ≡ cast.old.stage) × MayRead 101 cast.old.first
        × (cast.old.first.session ≡ record { 0 = 1 }) }
{
    let setup = two_sessions(alloc)?;
    present_fill(rt, alloc, &cast.stage, &mut cast.first)?;
    Ok(compare(rt, alloc, &setup, &cast.stage, &mut cast.compositor)?)
}

#[test]
fn pieces_give_the_whole(rt: HostRuntime) -> Result<(), Fail> {
    let mut cast = new_cast(rt.alloc())?;
    let agreed = agreed_on(&rt, rt.alloc(), &mut cast)?;
    assert_eq!(rt; agreed, Some((1, 1)));
    Ok(())
}
