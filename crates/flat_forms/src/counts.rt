ghost use Rattle.std.specs.Prelude.{◌≡◌, ◌<◌, Err, max, cond, ◌||◌};
ghost use Rattle.std.specs.Option.{option_map_or};
ghost use Rattle.flat_base.specs.declared.ids.Actor.TheVariants.{Display};
ghost use Rattle.flat_places.specs.declared.kinds.FaultKind.TheVariants.{Limit};
ghost use Rattle.flat_places.specs.Forms.{unless_kind};
ghost use Rattle.flat_places.specs.Names.{is_actor};
ghost use Rattle.flat_places.specs.Slots.{slot, IsCounted};
ghost use Rattle.flat_forms.specs.Body.{time_begun, ends_frame};

use flat_base::{Actor, PROBES_MAX, SESSIONS_MAX};
use flat_places::FaultKind;
use flat_scene::{DisplayLine, LineBody};

// The display's count stands first, then those of the sessions, numbered from 1, and
// those of the probes.
const FIRST_PROBE: usize = SESSIONS_MAX as usize + 1;

/// Actors of a script.
pub const ACTORS_MAX: usize = FIRST_PROBE + PROBES_MAX as usize;

/// The place of the actor's count.
pub fn slot(actor: Actor) -> usize
    requires { IsCounted actor }
    ensures slot { result ≡ slot actor }
    ensures within { result < ACTORS_MAX }
{
    match actor {
        Actor::Display => 0,
        Actor::Session(s) => s.0 as usize,
        Actor::Probe(p) => p as usize + FIRST_PROBE,
    }
}

/// The kind, or Limit where that is lower and there is no room.
pub fn limited(room: bool, kind: FaultKind) -> FaultKind
    ensures { unless_kind {A = Unit {0}} Limit room (Err kind) ≡ Err result }
{
    if room {
        kind
    } else {
        kind.lower(FaultKind::Limit)
    }
}

/// The time of a begin, where the line is one.
pub fn time_begun(body: &LineBody) -> Option<u64>
    ensures { result ≡ time_begun body.now }
{
    match body {
        LineBody::Display(DisplayLine::Begin(time)) => Some(*time),
        _ => None,
    }
}

/// Whether the line is a done.
pub fn ends_frame(body: &LineBody) -> bool
    ensures { result ≡ ends_frame body.now }
{
    match body {
        LineBody::Display(DisplayLine::Done) => true,
        _ => false,
    }
}

/// One, where the test passes.
pub fn one_if(test: bool) -> u32
    ensures { result ≡ cond test 1 0 }
{
    if test { 1 } else { 0 }
}

/// The greatest time of a begin, with one that the line may be.
pub fn last_after(last: u64, begun: Option<u64>) -> u64
    ensures { result ≡ option_map_or (λ t. max last t) begun last }
{
    match begun {
        Some(time) => if last < time { time } else { last },
        None => last,
    }
}

/// Whether the display has a pair, with one more viewport end.
pub fn or_display(paired: bool, end: Actor) -> bool
    ensures { result ≡ (paired || is_actor Display end) }
{
    paired || matches!(end, Actor::Display)
}
