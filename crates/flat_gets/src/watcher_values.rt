//! What pairs tell.
ghost use Rattle.std.specs.Prelude.{◌≡◌, ℕ, List};
ghost use Rattle.flat_scene.specs.declared.journal.Entry.{Entry};
ghost use Rattle.flat_scene.specs.declared.setup.Setup.{Setup};
ghost use Rattle.flat_rules.specs.Watch.{layout_of, status_of, child_of, told};
ghost use Rattle.flat_gets.specs.Pairs.{watcher_at};

use crate::pair::WatchedPart;
use flat_base::PairNo;
use flat_scene::WatcherValue;

/// What tells the values of watchers, as they are after one history.
pub trait WatcherValues {
    // It tells what is told after this history.
    ghost stands: { Self → Setup → List Entry → Type 0 };

    /// The layout of a pair's view.
    fn layout(&self, p: PairNo) -> Option<WatcherValue>
        ensures { (setup : Setup) (history : List Entry) → stands self.now setup history → result
            ≡ told setup history (layout_of p) };

    /// The status of a pair's view.
    fn status(&self, p: PairNo) -> Option<WatcherValue>
        ensures { (setup : Setup) (history : List Entry) → stands self.now setup history → result
            ≡ told setup history (status_of p) };

    /// Whether the child of a pair has presented.
    fn child(&self, p: PairNo) -> Option<WatcherValue>
        ensures { (setup : Setup) (history : List Entry) (n : ℕ) → stands self.now setup history →
            result ≡ told setup history (child_of p n) };
}

/// What is told of a part of a pair.
pub fn told_of<T: WatcherValues>(tells: &T, part: WatchedPart, p: PairNo) -> Option<WatcherValue>
    ensures { (setup : Setup) (history : List Entry) → T.stands tells.now setup history → result
        ≡ told setup history (watcher_at part p 0) }
{
    match part {
        WatchedPart::Layout => tells.layout(p),
        WatchedPart::Status => tells.status(p),
        WatchedPart::Child => tells.child(p),
    }
}
