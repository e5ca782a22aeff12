//! The places of each session's lines, listed in one pass before any thread is started: so
//! a session's thread goes through its own lines alone.
ghost use Rattle.std.specs.Prelude.{◌≡◌, ◌<◌, ◌≤◌, true, length, IfOk, OnOk};
ghost use Rattle.flat_base.specs.declared.ids.Actor.TheVariants.{Session};
ghost use Rattle.flat_base.specs.declared.ids.SessionNo.{SessionNo};
ghost use Rattle.flat_playable.specs.Playable.{is_playable};
ghost use Rattle.flat_race.specs.PlaceLists.{ArePlaces, noted};

use flat_base::{Actor, Items, NoMemory};
use flat_places::Script;
use std::alloc::Global;

/// Places of lines in a script, in order.
pub(crate) type PlaceList = Items<usize>;

/// Adds the place of an actor's line to those of its session, where it is one.
fn note(places: &mut Vec<PlaceList>, actor: Actor, place: usize) -> Result<(), NoMemory>
    requires { (s : SessionNo) → actor ≡ Session s → (0 < s.0) × (s.0 ≤ length places.old.items) }
    ensures { OnOk result (places.new.items ≡ noted actor place places.old.items) }
{
    match actor {
        Actor::Session(s) => places[s.0 as usize - 1].push(place),
        _ => Ok(()),
    }
}

/// The places of each session's lines, those of session 1 first. The lines are gone
/// through once.
pub(crate) fn places_by_session(alloc: Global, script: &Script) -> Result<Vec<PlaceList>, NoMemory>
    requires { is_playable script.now ≡ true }
    ensures count { IfOk result (λ places. length places.items ≡ script.now.setup.sessions) }
    ensures each { IfOk result (λ places. ArePlaces script.now.lines 0 places.items) }
{
    let mut places = Vec::new(alloc);
    for _ in 0..script.setup.sessions {
        places.push(PlaceList::new(alloc))?;
    }
    for place in 0..script.lines.len() {
        note(&mut places, script.lines.at(place).actor, place)?;
    }
    Ok(places)
}
