use crate::flags::{SharedFlag, answered};
use flat_race::Gate;
use flat_scene::Reply;

/// The two sessions of `TWO` meet at the gate; then the second makes its entry first.
#[derive(Drop)]
pub struct MeetingGate {
    first: SharedFlag,
    second: SharedFlag,
    missed: SharedFlag,
    second_passed: SharedFlag,
    first_passed: SharedFlag,
    first_ended: SharedFlag,
}

impl MeetingGate {
    /// Nobody has come yet.
    pub fn new() -> MeetingGate {
        MeetingGate {
            first: SharedFlag::new(),
            second: SharedFlag::new(),
            missed: SharedFlag::new(),
            second_passed: SharedFlag::new(),
            first_passed: SharedFlag::new(),
            first_ended: SharedFlag::new(),
        }
    }

    /// Whether one of them came, and the other didn't in time.
    pub fn was_missed(&self) -> bool {
        self.missed.is_set()
    }

    /// One comes, and waits for the other.
    fn meet(&self, mine: &SharedFlag, other: &SharedFlag) {
        mine.set();
        if !other.is_set_in_time() {
            self.missed.set();
        }
    }
}

impl Gate for MeetingGate {
    fn open(&self, actor: u32, line: u32) -> bool {
        answered(match (actor, line) {
            (1, 8) => {
                self.meet(&self.first, &self.second);
                self.second_passed.is_set()
            }
            (2, 9) => {
                self.meet(&self.second, &self.first);
                true
            }
            (1, _) => self.first_passed.is_set(),
            _ => self.first_ended.is_set(),
        })
    }

    fn passed(&self, actor: u32, line: u32, _reply: &Reply) {
        match (actor, line) {
            (1, 8) => self.first_passed.set(),
            (1, _) => self.first_ended.set(),
            _ => self.second_passed.set(),
        }
    }
}
