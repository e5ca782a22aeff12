//! What pairs tell, by what the board keeps.
ghost use Rattle.std.specs.Prelude.{◌≡◌, ◌&&◌, length, nat_lt};
ghost use Rattle.flat_core.specs.PairValues.{TellsPairs};

use flat_base::PairNo;
use flat_gets::watcher_values::WatcherValues;
use flat_links::link_table::LinkTable;
use flat_scene::{Setup, WatcherValue};
use flat_states::port::DisplayPort;
use flat_states::used_view_ends::UsedViewEnds;

/// What pairs tell, by what is kept.
#[derive(Clone, Copy)]
pub struct PairValues<'a> {
    pub setup: &'a Setup,
    /// What is told of the display.
    pub port: DisplayPort,
    pub links: &'a LinkTable,
    /// The view ends that were used.
    pub views: &'a UsedViewEnds,
}

impl PairValues<'_> {
    /// Whether a pair is one of those that are declared.
    fn knows(&self, p: PairNo) -> bool
        ensures { result ≡ (nat_lt p.0 (length self.now.setup.now.pairs) && nat_lt p.0
            (length self.now.links.now.pairs.items)) }
    {
        let place = p.0 as usize;
        place < self.setup.pairs.len() && place < self.links.pairs.len()
    }
}

impl WatcherValues for PairValues<'_> {
    ghost stands = { λ telling setup history. TellsPairs telling.setup.now telling.port
        telling.links.now telling.views.now setup history };

    fn layout(&self, p: PairNo) -> Option<WatcherValue> {
        if self.knows(p) {
            self.links
                .layout(self.setup, self.port, p, self.views.is_used(p))
        } else {
            None
        }
    }

    fn status(&self, p: PairNo) -> Option<WatcherValue> {
        if self.knows(p) {
            self.links.status(self.setup, p, self.views.is_used(p))
        } else {
            None
        }
    }

    fn child(&self, p: PairNo) -> Option<WatcherValue> {
        if self.knows(p) {
            self.links.child(self.setup, p)
        } else {
            None
        }
    }
}
