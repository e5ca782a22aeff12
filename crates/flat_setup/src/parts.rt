ghost use Rattle.std.specs.Prelude.{◌≡◌};
ghost use Rattle.std.specs.List.{list_all};
ghost use Rattle.flat_scene.specs.History.{is_display};
ghost use Rattle.flat_scene.specs.Setups.{is_declared, is_ratio, is_within};
ghost use Rattle.flat_scene.specs.Heads.{may_own};
ghost use Rattle.flat_setup.specs.Faults.{is_size};

use flat_base::{Actor, RATIO_MAX, RATIO_MIN, SIDE_MAX, SessionNo};
use flat_scene::Setup;

/// Whether a number is from 1 to a limit.
pub fn is_within(limit: u32, n: u32) -> bool
    ensures { result ≡ is_within limit n }
{
    0 < n && n <= limit
}

/// Whether a display or a buffer may have this size.
pub fn is_size(w: u32, h: u32) -> bool
    ensures { result ≡ is_size w h }
{
    is_within(SIDE_MAX, w) && is_within(SIDE_MAX, h)
}

/// Whether a display may have this pixel ratio.
pub fn is_ratio(ratio: u32) -> bool
    ensures { result ≡ is_ratio ratio }
{
    RATIO_MIN <= ratio && ratio <= RATIO_MAX
}

/// Whether the setup declares this session.
pub fn is_declared(setup: &Setup, s: SessionNo) -> bool
    ensures { result ≡ is_declared setup.now s }
{
    is_within(setup.sessions, s.0)
}

/// Whether the actor is the compositor.
pub fn is_display(actor: Actor) -> bool
    ensures { result ≡ is_display actor }
{
    match actor {
        Actor::Display => true,
        Actor::Session(_) => false,
        Actor::Probe(_) => false,
    }
}

/// Whether the actor may own something: the display or a declared session.
pub fn may_own(setup: &Setup, actor: Actor) -> bool
    ensures { result ≡ may_own setup.now actor }
{
    match actor {
        Actor::Display => true,
        Actor::Session(s) => is_declared(setup, s),
        Actor::Probe(_) => false,
    }
}

/// Whether each of the actors may own something.
pub fn may_all_own(setup: &Setup, actors: &[Actor]) -> bool
    ensures { result ≡ list_all (may_own setup.now) actors.now }
{
    actors.iter().all(|actor| may_own(setup, *actor))
}
