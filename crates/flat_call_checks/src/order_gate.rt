use crate::flags::{SharedCount, answered};
use flat_race::Gate;
use flat_scene::Reply;

/// Whether the entry or line of an actor stands at a place of an order, or all that have an
/// order stand before it.
pub fn is_at(order: &[(u32, u32)], place: u32, actor: u32, line: u32) -> bool {
    match order.get(place as usize) {
        Some(entry) => *entry == (actor, line),
        None => true,
    }
}

/// Opens entries and probes' lines in one order, given by the numbers of actor and line.
#[derive(Drop)]
pub struct OrderGate {
    order: &'static [(u32, u32)],
    next: SharedCount,
}

impl OrderGate {
    /// None of them was made yet.
    pub fn new(order: &'static [(u32, u32)]) -> OrderGate {
        OrderGate {
            order,
            next: SharedCount::new(),
        }
    }
}

impl Gate for OrderGate {
    fn open(&self, actor: u32, line: u32) -> bool {
        answered(is_at(self.order, self.next.number(), actor, line))
    }

    fn passed(&self, _actor: u32, _line: u32, _reply: &Reply) {
        self.next.add();
    }
}
