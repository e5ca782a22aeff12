ghost use Rattle.std.specs.Prelude.{◌≡◌, [], ◌∷◌, ◌++◌, OnErr, OnOk};

use flat_base::NoMemory;
use flat_lock::HasHistory;
use std::alloc::Global;

/// One more entry of an actor.
#[derive(Clone, Copy, Debug, PartialEq, Eq)]
pub struct Line {
    pub actor: u32,
    pub number: u32,
}

/// A journal that several actors write, with a name that never changes.
#[derive(Drop)]
pub struct Journal {
    pub name: u32,
    pub lines: Vec<Line>,
}

impl HasHistory for Journal {
    type Entry = Line;

    type Fixed = u32;

    ghost history = { λ j. j.lines.items };

    ghost actor = { λ line. line.actor };

    ghost fixed = { λ j. j.name };
}

impl Journal {
    pub fn add(&mut self, line: Line) -> Result<(), NoMemory>
        ensures name { self.new.name ≡ self.old.name }
        ensures ok { OnOk result (self.new.lines.items ≡ self.old.lines.items ++ line ∷ []) }
        ensures err { OnErr result (self.new.lines.items ≡ self.old.lines.items) }
    {
        self.lines.push(line)?;
        Ok(())
    }
}

/// A journal with no lines.
pub fn new_journal(alloc: Global) -> Journal
    ensures { result.lines.items ≡ [] }
{
    Journal {
        name: 7,
        lines: Vec::new(alloc),
    }
}

/// How often the actor changes from one line to the next; None where an actor's
/// own lines aren't its numbers from 0 on, in order.
pub fn changes(lines: &[Line]) -> Option<u32> {
    let mut next = [0; 4];
    let mut changes = 0u32;
    let mut last = 0;
    for line in lines {
        let number = next.get_mut(line.actor as usize)?;
        if line.number != *number {
            return None;
        }
        *number = line.number.checked_add(1)?;
        if line.actor != last {
            changes = changes.checked_add(1)?;
        }
        last = line.actor;
    }
    Some(changes)
}
