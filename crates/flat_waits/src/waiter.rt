use crate::shared_waits::SharedWaits;

/// An actor in a Wait: it looks, and looks again once there is news, until waiting is over.
#[derive(Drop)]
pub struct Waiter<'a> {
    waits: &'a SharedWaits,
    /// The news that it read last.
    news: u32,
    has_looked: bool,
}

impl<'a> Waiter<'a> {
    /// An actor that hasn't looked yet.
    pub fn new(waits: &'a SharedWaits) -> Waiter<'a> {
        Waiter {
            waits,
            news: 0,
            has_looked: false,
        }
    }

    /// Whether it is to look: for the first time, or since something changed.
    pub fn has_news(&mut self) -> bool {
        let news = self.waits.news();
        if self.has_looked && news == self.news {
            return false;
        }
        self.news = news;
        true
    }

    /// It looked, since there was news, and found too little.
    pub fn found_too_little(&mut self) {
        self.has_looked = true;
        self.waits.wait_at(self.news);
    }

    /// Whether no actor can change any more what it looks at.
    pub fn is_over(&self) -> bool {
        self.has_looked && self.waits.is_over(self.news)
    }

    /// It stops, though it found too little.
    pub fn stop(self) {
        if self.has_looked {
            self.waits.stop_at(self.news);
        }
    }
}
