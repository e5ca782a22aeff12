use crate::flags::SharedCount;
use crate::order_gate::OrderGate;
use flat_race::Gate;
use flat_scene::Reply;

/// Opens entries and probes' lines in one order, but for one line that looks once before
/// all of them that could show it enough, and again only in its turn.
#[derive(Drop)]
pub struct LookGate {
    turns: OrderGate,
    /// The line that waits.
    waits: u32,
    /// The line that is held until the one that waits has looked.
    held: u32,
    asked: SharedCount,
    opened: SharedCount,
}

impl LookGate {
    /// The order by numbers of actor and line, the line that waits, and the line that is
    /// held until it has looked.
    pub fn new(order: &'static [(u32, u32)], waits: u32, held: u32) -> LookGate {
        LookGate {
            turns: OrderGate::new(order),
            waits,
            held,
            asked: SharedCount::new(),
            opened: SharedCount::new(),
        }
    }

    /// How often the line that waits was let look.
    pub fn looks(&self) -> u32 {
        self.opened.number()
    }
}

impl Gate for LookGate {
    fn open(&self, actor: u32, line: u32) -> bool {
        let is_its_turn = self.turns.open(actor, line);
        if line != self.waits {
            return is_its_turn && (line != self.held || self.asked.number() > 1);
        }
        let is_open = self.asked.add() == 0 || is_its_turn;
        if is_open {
            self.opened.add();
        }
        is_open
    }

    fn passed(&self, actor: u32, line: u32, reply: &Reply) {
        self.turns.passed(actor, line, reply);
    }
}
