//! Fences and conditions, of sessions and of the display.
ghost use Rattle.std.specs.Prelude.{◌≡◌};
ghost use Rattle.flat_states.specs.Machines.{MayCall, MayLook, entered};
ghost use Rattle.flat_rules.specs.Legal.{asked_of, reply_to, value_of, waited};

use crate::board::{Board, number_if};
use crate::entries::enter;
use flat_base::{Actor, FenceNo};
use flat_scene::{CallList, Entry, EntryKind, Reply, WaitCondition};

impl Board {
    ghost use Rattle.flat_scene.specs.declared.journal.EntryKind.TheVariants.{Signal, Wait};
    ghost use Rattle.flat_scene.specs.declared.journal.Reply.TheVariants.{Done};

    /// Signals a fence. It takes no memory.
    pub fn signal(&mut self, who: Actor, line: u32, calls: CallList, f: FenceNo) -> Reply
        requires { MayCall self.old who calls (Signal f) }
        ensures reply { result ≡ Done }
        ensures entry { self.new ≡ entered self.old who line calls (Signal f) result }
    {
        self.fences.signal(f);
        enter(
            &mut self.sessions,
            &mut self.viewports,
            &mut self.links,
            &mut self.log,
            Entry {
                actor: who,
                line,
                calls,
                kind: EntryKind::Signal(f),
                reply: Reply::Done,
            },
        );
        Reply::Done
    }

    /// Looks once whether a condition is met, and answers the value looked at. It
    /// takes no memory.
    pub fn wait(&mut self, who: Actor, line: u32, calls: CallList, c: WaitCondition) -> Reply
        requires { MayCall self.old who calls (Wait c) }
        ensures reply { result ≡ reply_to self.old.setup self.old.history who calls (Wait c) }
        ensures entry { self.new ≡ entered self.old who line calls (Wait c) result }
    {
        let value = self.value(who, c);
        let reply = wait_reply(asked_of(c), value);
        enter(
            &mut self.sessions,
            &mut self.viewports,
            &mut self.links,
            &mut self.log,
            Entry {
                actor: who,
                line,
                calls,
                kind: EntryKind::Wait(c),
                reply,
            },
        );
        reply
    }

    /// The value of a condition for an actor. It makes no entry.
    pub fn value(&self, who: Actor, c: WaitCondition) -> u32
        requires { MayLook self.now.setup who c }
        ensures { result ≡ value_of self.now.setup self.now.history who c }
    {
        match c {
            WaitCondition::Frames(_) => self.clock.frames,
            WaitCondition::Fence(f) => number_if(self.fences.is_signalled(f)),
            WaitCondition::Presents(s, _) => self.sessions[s.0 as usize - 1].account.presents,
            WaitCondition::Credits(_) => match who {
                Actor::Session(s) => self.sessions[s.0 as usize - 1].credits(),
                _ => 0,
            },
            WaitCondition::Taken(_) => match who {
                Actor::Session(s) => self.sessions[s.0 as usize - 1].taken(),
                _ => 0,
            },
            WaitCondition::Answers(_) => match who {
                Actor::Session(s) => self.watchers.answers(s),
                _ => 0,
            },
        }
    }
}

/// The number that a condition asks for: it is met by a value that isn't below it.
pub fn asked_of(c: WaitCondition) -> u32
    ensures { result ≡ asked_of c }
{
    match c {
        WaitCondition::Frames(n) => n,
        WaitCondition::Credits(n) => n,
        WaitCondition::Taken(n) => n,
        WaitCondition::Answers(n) => n,
        WaitCondition::Fence(_) => 1,
        WaitCondition::Presents(_, n) => n,
    }
}

fn wait_reply(wanted: u32, value: u32) -> Reply
    ensures { result ≡ waited wanted value }
{
    if wanted <= value {
        Reply::Met(value)
    } else {
        Reply::Unmet(value)
    }
}
