ghost use Rattle.std.specs.Prelude.{◌≡◌};
ghost use Rattle.flat_page.specs.Words.{name_at, session_name, actor_name};

use flat_base::{Actor, SessionNo};
use flat_places::{NameList, Script};

/// The name at a place, from 0, or nothing where there is none.
pub fn name_at(names: &NameList, place: usize) -> &[u8]
    ensures { result.now ≡ name_at names.now place }
{
    match names.as_slice().get(place) {
        Some(name) => name.as_slice(),
        None => &[],
    }
}

/// The name of a session, or nothing where it has none.
pub fn session_name(names: &NameList, session: SessionNo) -> &[u8]
    ensures { result.now ≡ session_name names.now session }
{
    name_at(names, session.0.saturating_sub(1) as usize)
}

/// The name of an actor, or nothing where it has none.
pub fn actor_name(script: &Script, actor: Actor) -> &[u8]
    ensures { result.now ≡ actor_name script.now actor }
{
    match actor {
        Actor::Display => b"display",
        Actor::Session(session) => session_name(&script.sessions, session),
        Actor::Probe(probe) => name_at(&script.probes, probe as usize),
    }
}
