ghost use Rattle.std.specs.Prelude.{◌≡◌, slice_get, unwrap_or, option_map};
ghost use Rattle.std.specs.List.{list_any, list_all};
ghost use Rattle.flat_scene.specs.History.{is_display, is_session};
ghost use Rattle.flat_scene.specs.declared.script.DisplayLine.TheVariants as display;
ghost use Rattle.flat_rules.specs.Legal.{owns_view, owns_viewport, owns_fence, owns_buffers, display_owns};
ghost use Rattle.flat_rules.specs.Owned.{is_played_call, is_played_condition, is_played_line, is_played_display};

use crate::parts::{is_declared, is_display, is_ratio};
use flat_base::{Actor, BufferNo, FenceNo, PairNo, SessionNo};
use flat_scene::{Call, DisplayLine, SessionLine, Setup, WaitCondition};

/// Whether session `s` may send this line: the line names only what the session owns.
/// The test takes no memory, and `setup` may be any setup.
pub fn may_use(setup: &Setup, s: SessionNo, line: &SessionLine) -> bool
    ensures { result ≡ is_played_line setup.now s line.now }
{
    match line {
        SessionLine::Call(call) => may_call(setup, s, call),
        SessionLine::Present(args) => {
            owns_fences(setup, s, args.acquire.as_slice())
                && owns_fences(setup, s, args.release.as_slice())
        }
        SessionLine::Get(_) => true,
        SessionLine::Signal(f) => owns_fence(setup, s, *f),
        SessionLine::Poll => true,
        SessionLine::Wait(cond) => may_wait(setup, s, *cond),
        SessionLine::Disconnect => true,
    }
}

/// Whether session `s` may make this call: it owns the view end of a view's pair, the viewport
/// end of a viewport's pair, or the buffers of an image. Every other call is allowed.
pub fn may_call(setup: &Setup, s: SessionNo, call: &Call) -> bool
    ensures { result ≡ is_played_call setup.now s call.now }
{
    match call {
        Call::CreateView { pair } => owns_view(setup, s, *pair),
        Call::CreateViewport { pair, .. } => owns_viewport(setup, s, *pair),
        Call::CreateImage { buffers, .. } => owns_buffers(setup, s, *buffers),
        _ => true,
    }
}

/// Whether session `s` may wait for this condition: a fence must be its own, and only the
/// compositor waits for a session's presents.
pub fn may_wait(setup: &Setup, s: SessionNo, cond: WaitCondition) -> bool
    ensures { result ≡ is_played_condition setup.now s cond }
{
    match cond {
        WaitCondition::Frames(_) => true,
        WaitCondition::Credits(_) => true,
        WaitCondition::Taken(_) => true,
        WaitCondition::Answers(_) => true,
        WaitCondition::Fence(f) => owns_fence(setup, s, f),
        WaitCondition::Presents(_, _) => false,
    }
}

/// Whether the compositor may send this line: it names only fences of the display, declared
/// sessions, and a pixel ratio from `RATIO_MIN` to `RATIO_MAX`.
pub fn may_direct(setup: &Setup, line: DisplayLine) -> bool
    ensures { result ≡ is_played_display setup.now line }
{
    match line {
        DisplayLine::Begin(_) => true,
        DisplayLine::Done => true,
        DisplayLine::Signal(f) => display_owns(setup, f),
        DisplayLine::Wait(cond) => may_await(setup, cond),
        DisplayLine::Hit(_, _) => true,
        DisplayLine::Dpr(ratio) => is_ratio(ratio),
    }
}

/// Whether the compositor may wait for this condition.
fn may_await(setup: &Setup, cond: WaitCondition) -> bool
    ensures { result ≡ is_played_display setup.now (display.Wait cond) }
{
    match cond {
        WaitCondition::Presents(s, _) => is_declared(setup, s),
        WaitCondition::Fence(f) => display_owns(setup, f),
        _ => false,
    }
}

/// Whether the actor is this session.
fn is_session(s: SessionNo, actor: Actor) -> bool
    ensures { result ≡ is_session s actor }
{
    match actor {
        Actor::Session(t) => t.0 == s.0,
        Actor::Display => false,
        Actor::Probe(_) => false,
    }
}

fn owns_view(setup: &Setup, s: SessionNo, p: PairNo) -> bool
    ensures { result ≡ owns_view setup.now s p }
{
    match setup.pairs.get(p.0 as usize) {
        Some(pair) => pair.view.0 == s.0,
        None => false,
    }
}

fn owns_viewport(setup: &Setup, s: SessionNo, p: PairNo) -> bool
    ensures { result ≡ owns_viewport setup.now s p }
{
    match setup.pairs.get(p.0 as usize) {
        Some(pair) => is_session(s, pair.viewport),
        None => false,
    }
}

fn owns_fence(setup: &Setup, s: SessionNo, f: FenceNo) -> bool
    ensures { result ≡ owns_fence setup.now s f }
{
    match setup.fences.get(f.0 as usize) {
        Some(fence) => has_session(fence.owners.as_slice(), s),
        None => false,
    }
}

/// Whether the session owns each of these fences.
fn owns_fences(setup: &Setup, s: SessionNo, fences: &[FenceNo]) -> bool
    ensures { result ≡ list_all (owns_fence setup.now s) fences.now }
{
    fences.iter().all(|f| owns_fence(setup, s, *f))
}

fn display_owns(setup: &Setup, f: FenceNo) -> bool
    ensures { result ≡ display_owns setup.now f }
{
    match setup.fences.get(f.0 as usize) {
        Some(fence) => has_display(fence.owners.as_slice()),
        None => false,
    }
}

fn owns_buffers(setup: &Setup, s: SessionNo, b: BufferNo) -> bool
    ensures { result ≡ owns_buffers setup.now s b }
{
    match setup.buffers.get(b.0 as usize) {
        Some(buffers) => buffers.owner.0 == s.0,
        None => false,
    }
}

/// Whether one of the actors is this session.
fn has_session(actors: &[Actor], s: SessionNo) -> bool
    ensures { result ≡ list_any (is_session s) actors.now }
{
    actors.iter().any(|actor| is_session(s, *actor))
}

/// Whether one of the actors is the compositor.
fn has_display(actors: &[Actor]) -> bool
    ensures { result ≡ list_any is_display actors.now }
{
    actors.iter().any(|actor| is_display(*actor))
}
