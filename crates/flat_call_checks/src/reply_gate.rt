use crate::flags::{SharedCount, SharedFlag, answered};
use flat_race::Gate;
use flat_scene::Reply;

/// Opens entries in one order, and looks whether it is told of each with its reply.
#[derive(Drop)]
pub struct ReplyGate {
    told: &'static [(u32, u32, Reply)],
    next: SharedCount,
    is_mistold: SharedFlag,
}

impl ReplyGate {
    /// What it is to be told: the numbers of actor and line, with the reply.
    pub fn new(told: &'static [(u32, u32, Reply)]) -> ReplyGate {
        ReplyGate {
            told,
            next: SharedCount::new(),
            is_mistold: SharedFlag::new(),
        }
    }

    /// How many entries it was told of.
    pub fn heard(&self) -> usize {
        self.next.number() as usize
    }

    /// Whether it was told of something else than it is to be told.
    pub fn was_mistold(&self) -> bool {
        self.is_mistold.is_set()
    }
}

impl Gate for ReplyGate {
    fn open(&self, actor: u32, line: u32) -> bool {
        let is_next = match self.told.get(self.next.number() as usize) {
            Some((who, number, _)) => *who == actor && *number == line,
            None => true,
        };
        answered(is_next)
    }

    fn passed(&self, actor: u32, line: u32, reply: &Reply) {
        let is_told = match self.told.get(self.next.add() as usize) {
            Some((who, number, told)) => *who == actor && *number == line && *told == *reply,
            None => false,
        };
        if !is_told {
            self.is_mistold.set();
        }
    }
}

/// Lets the second present of `FILL` in while it hears of the begin.
#[derive(Drop)]
pub struct BeginGate {
    first_presented: SharedFlag,
    begun: SharedFlag,
    presented: SharedFlag,
    done: SharedFlag,
    is_missed: SharedFlag,
}

impl BeginGate {
    /// It has heard of nothing yet.
    pub fn new() -> BeginGate {
        BeginGate {
            first_presented: SharedFlag::new(),
            begun: SharedFlag::new(),
            presented: SharedFlag::new(),
            done: SharedFlag::new(),
            is_missed: SharedFlag::new(),
        }
    }

    /// Whether the present wasn't made while it heard of the begin.
    pub fn was_missed(&self) -> bool {
        self.is_missed.is_set()
    }
}

impl Gate for BeginGate {
    fn open(&self, _actor: u32, line: u32) -> bool {
        answered(match line {
            13 => self.first_presented.is_set(),
            15 => self.begun.is_set(),
            16 => self.done.is_set(),
            _ => true,
        })
    }

    fn passed(&self, _actor: u32, line: u32, _reply: &Reply) {
        match line {
            12 => self.first_presented.set(),
            13 => {
                self.begun.set();
                if !self.presented.is_set_in_time() {
                    self.is_missed.set();
                }
            }
            14 => self.done.set(),
            15 => self.presented.set(),
            _ => {}
        }
    }
}
