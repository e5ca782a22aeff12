use crate::wait_tally::{ActorUpdate, WaitTally};
use std::sync::atomic::Ordering::SeqCst;
use std::sync::atomic::{AtomicBool, AtomicU64};

/// What the actors of a race tell each other of their Waits. It takes no memory, and none of
/// its calls waits.
///
/// Whoever may make entries is counted from the start, and says when it has made one
/// ([`enter`](Waits::enter)) and when it makes no more ([`leave`](Waits::leave)). Whoever
/// waits does so by a [`Waiter`](crate::Waiter).
///
/// Nothing is proved of the threads' counting together, but what their steps come to:
/// [`over_means_stuck`](crate::over_means_stuck).
#[derive(Drop)]
pub struct SharedWaits {
    tally: AtomicU64,
    /// The news at which waiting was over last, and one more.
    over: AtomicU64,
    frames_ended: AtomicBool,
}

impl SharedWaits {
    /// Of so many actors, all of whom may make entries.
    pub fn new(actors: u32) -> SharedWaits {
        let tally = WaitTally {
            news: 0,
            waiting: 0,
            acting: actors.min(u16::MAX as u32) as u16,
        };
        SharedWaits {
            tally: AtomicU64::new(tally.into_word()),
            over: AtomicU64::new(0),
            frames_ended: AtomicBool::new(false),
        }
    }

    /// Counts a change, and answers the tally after it.
    fn count(&self, change: ActorUpdate) -> WaitTally {
        let counted = self.tally.fetch_update(SeqCst, SeqCst, |word| {
            Some(WaitTally::from_word(word).after(change).into_word())
        });
        match counted {
            Ok(word) => WaitTally::from_word(word).after(change),
            Err(word) => WaitTally::from_word(word),
        }
    }

    /// A number that is another one whenever something changed that a Wait may ask for. Read
    /// it before you look.
    pub(crate) fn news(&self) -> u32 {
        WaitTally::from_word(self.tally.load(SeqCst)).news
    }

    /// An actor looked after it had read this news, and found too little. It says so once.
    pub(crate) fn wait_at(&self, news: u32) {
        let tally = self.count(ActorUpdate::Waits(news));
        if tally.news == news && tally.is_over() {
            self.over.store(news as u64 + 1, SeqCst);
        }
    }

    /// An actor that found too little at this news waits no more.
    pub(crate) fn stop_at(&self, news: u32) {
        self.count(ActorUpdate::Stops(news));
    }

    /// Whether all who could have changed anything found too little at this news.
    pub(crate) fn is_over(&self, news: u32) -> bool {
        self.over.load(SeqCst) == news as u64 + 1
    }

    /// An actor made an entry.
    pub fn enter(&self) {
        self.count(ActorUpdate::Enters);
    }

    /// An actor makes no more entries.
    pub fn leave(&self) {
        self.count(ActorUpdate::Leaves);
    }

    /// So many actors can make no entry until they [sit in](Waits::sit_in) again.
    pub fn sit_out(&self, actors: u32) {
        for _ in 0..actors {
            self.count(ActorUpdate::Leaves);
        }
    }

    /// So many actors may make entries again.
    pub fn sit_in(&self, actors: u32) {
        for _ in 0..actors {
            self.count(ActorUpdate::Returns);
        }
    }

    /// The compositor makes no more entries, so no frame comes any more.
    pub fn end_frames(&self) {
        self.frames_ended.store(true, SeqCst);
        self.leave();
    }

    /// Whether no frame comes any more. Ask before you look at the last one.
    pub fn have_frames_ended(&self) -> bool {
        self.frames_ended.load(SeqCst)
    }
}
