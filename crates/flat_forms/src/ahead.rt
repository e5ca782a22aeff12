//! What is read of a line of the body before the lines before it are read: of sessions and
//! probes all, since what they say hangs on the head alone; of the display nothing.
ghost use Rattle.std.specs.Prelude.{◌≡◌, ◌<◌, ◌≤◌, ◌+◌, ◌^◌, IfSome, OnOk};
ghost use Rattle.flat_text.specs.Pieces.{is_space, words_of};
ghost use Rattle.flat_text.specs.Left.{pieces_left};
ghost use Rattle.flat_places.specs.Index.{IsIndexed};
ghost use Rattle.flat_places.specs.Slots.{IsCounted};
ghost use Rattle.flat_forms.specs.Ahead.{IsSaid, SaysAhead, taken_line};
ghost use Rattle.flat_forms.specs.Progress.{Kept};
ghost use Rattle.flat_forms.specs.Steps.{Steps};

use crate::forms;
use crate::lines::LineError;
use crate::parser::Parser;
use crate::session_forms::session_line;
use flat_base::Actor;
use flat_places::{FaultKind, IndexedScript};
use flat_scene::{LineBody, SessionLine};
use flat_text::next_piece;
use std::alloc::Global;

/// The actor of a line of the body and what it says, whatever lines stand before it. None
/// for a line of the display, for one with a fault, and where memory ran out: of such a
/// line nothing is known.
pub fn said_ahead(alloc: Global, script: &IndexedScript, words: &[u8]) -> Option<(Actor, LineBody)>
    requires { IsIndexed script.now }
    ensures { IfSome result (λ said. IsSaid script.now.script (words_of words.now) said.0 said.1) }
{
    let (word, rest) = next_piece(words, b' ');
    let actor = script.actor(word)?;
    let body = body_ahead(alloc, script, actor, rest)?;
    Some((actor, body))
}

/// What an actor's line says behind the actor, whatever lines stand before it.
fn body_ahead(
    alloc: Global,
    script: &IndexedScript,
    actor: Actor,
    words: Option<&[u8]>,
) -> Option<LineBody>
    requires { IsIndexed script.now }
    ensures { IfSome result
        (SaysAhead script.now.script actor (pieces_left is_space words.entry)) }
{
    match actor {
        Actor::Display => None,
        Actor::Session(session) => match session_line(alloc, script, session, words) {
            Ok(line) => Some(LineBody::Session(line)),
            Err(_) => None,
        },
        Actor::Probe(_) => match forms::probe_line(words) {
            Ok(line) => Some(LineBody::Probe(line)),
            Err(_) => None,
        },
    }
}

impl Parser {
    /// Puts a line that was read ahead at the script's end, where its actor may have one
    /// more. At a fault, or out of memory, nothing is known of the parser.
    pub fn take_said(&mut self, number: u32, actor: Actor, body: LineBody) -> Result<(), LineError>
        requires kept { Kept self.old }
        requires counted { IsCounted actor }
        requires begins { self.old.begins + 1 < 2 ^ 32 }
        requires dones { self.old.dones + 1 < 2 ^ 32 }
        ensures steps { Steps result (taken_line self.old.text.script number actor body)
            self.new.text.script }
        ensures kept { OnOk result (Kept self.new) }
        ensures part { self.new.part ≡ self.old.part }
        ensures few { (self.new.begins ≤ self.old.begins + 1)
            × (self.new.dones ≤ self.old.dones + 1) }
    {
        if self.has_room(actor) {
            self.take(number, actor, body)
        } else {
            Err(LineError::Kind(FaultKind::Limit))
        }
    }
}
