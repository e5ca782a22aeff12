ghost use Rattle.std.specs.Prelude.{◌≡◌, ◌<◌, OnOk};

use flat_base::{FrameNo, IntRect, Items, NoMemory, ONE, Rect, SessionNo};
use flat_geom::scaling;
use flat_hit::HitIndex;
use flat_publish::{Probe, ProbeSeats, Published};
use flat_scene::{HitRegion, Interaction};
use flat_topology::{GlobalTopology, PlacedNode};
use std::alloc::Global;
use std::sync::{Arc, Wait};
use std::thread;
use std::thread::Threads;

/// How many frames are published.
const FRAMES: u32 = 50;

/// How often each probe looks beside them.
const LOOKS: u32 = 20_000;

/// A display of 100 by 100, in places.
const DISPLAY: Rect = Rect {
    x0: 0,
    y0: 0,
    x1: 100 * 65_536,
    y1: 100 * 65_536,
};

/// A frame of some nodes.
fn touchable(alloc: Global, nodes: Items<PlacedNode>) -> Result<Arc<HitIndex>, NoMemory> {
    let joined = GlobalTopology {
        display: DISPLAY,
        nodes,
        connected: Items::new(alloc),
    };
    Ok(Arc::new(alloc, HitIndex::new(alloc, joined)?)?)
}

/// A node of a session that takes hits in a square of 10 by 10.
fn square(alloc: Global, session: SessionNo) -> Result<PlacedNode, NoMemory> {
    let mut hits = Items::new(alloc);
    hits.push(HitRegion {
        area: Some(IntRect {
            x: 0,
            y: 0,
            w: 10,
            h: 10,
        }),
        interaction: Interaction::Default,
    })?;
    Ok(PlacedNode {
        session,
        serial: 1,
        matrix: scaling(ONE),
        clip: DISPLAY,
        opacity: 65_536,
        content: None,
        hits,
    })
}

/// A frame with one node, which takes hits.
fn one_square(alloc: Global, session: SessionNo) -> Result<Arc<HitIndex>, NoMemory> {
    let mut nodes = Items::new(alloc);
    nodes.push(square(alloc, session)?)?;
    touchable(alloc, nodes)
}

/// How often the frames of a probe went back while it looked.
fn watch_on(probe: &mut Probe) -> Result<u32, NoMemory> {
    let mut backwards = 0;
    let mut last = FrameNo(0);
    for _ in 0..LOOKS {
        let frame = probe.frame()?;
        if frame.0 < last.0 {
            backwards = 1;
        }
        last = frame;
        thread::yield_now();
    }
    Ok(backwards)
}

fn watch(mut probe: Probe) -> Result<u32, NoMemory> {
    watch_on(&mut probe)
}

/// Publishes all frames.
fn publish_all<R: Wait>(rt: &R, alloc: Global, published: &mut Published) -> Result<(), NoMemory>
    requires { published.old.given ≡ 0 }
{
    for before in 0..FRAMES {
        published.publish(
            rt,
            FrameNo(before + 1),
            touchable(alloc, Items::new(alloc))?,
        )?;
        thread::yield_now();
    }
    Ok(())
}

/// Two probes look beside each other.
fn watch_two<R: Threads + Wait + Sync>(
    rt: &R,
    first: Probe,
    second: Probe,
) -> (Result<u32, NoMemory>, Result<u32, NoMemory>) {
    thread::join(
        rt,
        move || -> Result<u32, NoMemory> { watch(first) },
        move || -> Result<u32, NoMemory> { watch(second) },
    )
}

/// What two probes saw while all frames were published, and whether they were.
type Watched = (
    (Result<u32, NoMemory>, Result<u32, NoMemory>),
    Result<(), NoMemory>,
);

/// Two probes look while all frames are published.
fn watch_beside<R: Threads + Wait + Sync>(
    rt: &R,
    alloc: Global,
    published: &mut Published,
    first: Probe,
    second: Probe,
) -> Watched
    requires { published.old.given ≡ 0 }
{
    thread::join(
        rt,
        move || -> (Result<u32, NoMemory>, Result<u32, NoMemory>) { watch_two(rt, first, second) },
        move || -> Result<(), NoMemory>
            requires { published.now.given ≡ 0 }
        { publish_all(rt, alloc, published) },
    )
}

/// The same by the first two probes. None where there are no two.
fn watch_by_two<R: Threads + Wait + Sync>(
    rt: &R,
    alloc: Global,
    published: &mut Published,
    probes: &mut ProbeSeats,
) -> Option<Watched>
    requires { published.old.given ≡ 0 }
{
    let first = probes.take(0)?;
    let second = probes.take(1)?;
    Some(watch_beside(rt, alloc, published, first, second))
}

/// The frame that a probe tells.
fn frame_of(probes: &mut ProbeSeats, place: u32) -> Option<Result<FrameNo, NoMemory>> {
    let mut probe = probes.take(place)?;
    Some(probe.frame())
}

fn watch_anew<R: Threads + Wait + Sync>(
    rt: &R,
    alloc: Global,
) -> Result<(Option<Watched>, Option<Result<FrameNo, NoMemory>>), NoMemory> {
    let (mut published, mut probes) = Published::new(rt, alloc, 3)?;
    let watched = watch_by_two(rt, alloc, &mut published, &mut probes);
    let last = frame_of(&mut probes, 2);
    published.close(rt);
    Ok((watched, last))
}

#[test]
fn probes_beside_fifty_frames_never_go_back(rt: HostRuntime) {
    let watched = ((Ok(0), Ok(0)), Ok(()));
    let expected = (Some(watched), Some(Ok(FrameNo(FRAMES))));
    assert_eq!(rt; watch_anew(&rt, rt.alloc()), Ok(expected));
}

/// What a probe answers: the frame, and the sessions of the first two hits.
type Answer = (FrameNo, [Option<SessionNo>; 2]);

/// Asks a probe for a point.
fn ask(alloc: Global, probe: &mut Probe, x: i32) -> Result<Answer, NoMemory>
    ensures { probe.new.home ≡ probe.old.home }
{
    let (frame, hits) = probe.hit(alloc, x, 5)?;
    let hits = hits.as_slice();
    let sessions = [
        hits.get(0).map(|hit| hit.session),
        hits.get(1).map(|hit| hit.session),
    ];
    Ok((frame, sessions))
}

/// Publishes a square of the session of the frame's number.
fn publish_square<R: Wait>(
    rt: &R,
    alloc: Global,
    published: &mut Published,
    number: u32,
) -> Result<(), NoMemory>
    requires { published.old.given < number }
    ensures home { published.new.home ≡ published.old.home }
    ensures given { OnOk result (published.new.given ≡ number) }
{
    let square = one_square(alloc, SessionNo(number))?;
    published.publish(rt, FrameNo(number), square)
}

/// Asks a probe before any frame, after the first, beside the second's square, and after
/// it has met it.
fn ask_each<R: Wait>(
    rt: &R,
    alloc: Global,
    published: &mut Published,
    probe: &mut Probe,
) -> Result<[Answer; 4], NoMemory>
    requires given { published.old.given ≡ 0 }
    requires home { probe.old.home ≡ published.old.home }
{
    let before = ask(alloc, probe, 5)?;
    publish_square(rt, alloc, published, 1)?;
    let first = ask(alloc, probe, 5)?;
    publish_square(rt, alloc, published, 2)?;
    let beside = ask(alloc, probe, 15)?;
    published.meet(probe)?;
    let second = ask(alloc, probe, 5)?;
    Ok([before, first, beside, second])
}

fn ask_anew<R: Wait>(rt: &R, alloc: Global) -> Result<[Answer; 4], NoMemory> {
    let (mut published, mut probes) = Published::new(rt, alloc, 1)?;
    let asked = match probes.take(0) {
        Some(mut probe) => ask_each(rt, alloc, &mut published, &mut probe),
        None => Err(NoMemory),
    };
    published.close(rt);
    asked
}

#[test]
fn a_probe_answers_by_the_last_frame(rt: HostRuntime) {
    let expected = [
        (FrameNo(0), [None, None]),
        (FrameNo(1), [Some(SessionNo(1)), None]),
        (FrameNo(2), [None, None]),
        (FrameNo(2), [Some(SessionNo(2)), None]),
    ];
    assert_eq!(rt; ask_anew(&rt, rt.alloc()), Ok(expected));
}
