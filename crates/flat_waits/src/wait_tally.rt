ghost use Rattle.std.specs.Prelude.{◌≡◌, ◌+◌, ◌<◌, ◌^◌};
ghost use Rattle.flat_waits.specs.Tallies.{HasRoom, after, is_over, tally_of, with_news};

/// How many values the number of those who wait, or act, has in a word.
const COUNTS: u64 = 1 << 16;

/// What one more of the news adds to a word.
const NEWS: u64 = 1 << 32;

/// What a race counts of its actors, which are its sessions and the compositor. A probe
/// enters nothing, and isn't counted.
#[derive(Clone, Copy)]
pub struct WaitTally {
    /// How often something changed that a Wait may ask for.
    pub news: u32,
    /// How many actors have looked since the last change, and found too little.
    pub waiting: u16,
    /// How many actors may still enter something.
    pub acting: u16,
}

/// What an actor says of itself.
#[derive(Clone, Copy)]
pub enum ActorUpdate {
    /// It looked at this news, and found too little.
    Waits(u32),
    /// It waits no more, though it had found too little at this news.
    Stops(u32),
    /// It made an entry.
    Enters,
    /// It enters nothing, for now or for good.
    Leaves,
    /// It is back.
    Returns,
}

impl WaitTally {
    /// The tally that a word holds.
    pub fn from_word(word: u64) -> WaitTally
        ensures { result ≡ tally_of word }
    {
        WaitTally {
            news: (word / NEWS) as u32,
            waiting: (word / COUNTS % COUNTS) as u16,
            acting: (word % COUNTS) as u16,
        }
    }

    /// The word that holds the tally.
    pub fn into_word(self) -> u64
        ensures { tally_of result ≡ self }
    {
        self.news as u64 * NEWS + (self.waiting as u64 * COUNTS + self.acting as u64)
    }

    /// So many act, and nobody has looked since something changed.
    fn with_news(self, acting: u16) -> WaitTally
        ensures { self.news + 1 < 2 ^ 32 → result ≡ with_news self acting }
    {
        WaitTally {
            news: self.news.wrapping_add(1),
            waiting: 0,
            acting,
        }
    }

    /// The tally after a change. A count that is full is not told.
    pub fn after(self, change: ActorUpdate) -> WaitTally
        ensures { HasRoom (after change self) → result ≡ after change self }
    {
        match change {
            ActorUpdate::Waits(news) if news == self.news => WaitTally {
                waiting: self.waiting.wrapping_add(1),
                ..self
            },
            ActorUpdate::Stops(news) if news == self.news => WaitTally {
                waiting: self.waiting.saturating_sub(1),
                ..self
            },
            ActorUpdate::Waits(_) | ActorUpdate::Stops(_) => self,
            ActorUpdate::Enters => self.with_news(self.acting),
            ActorUpdate::Leaves => self.with_news(self.acting.saturating_sub(1)),
            ActorUpdate::Returns => self.with_news(self.acting.wrapping_add(1)),
        }
    }

    /// Whether all who may still enter something have found too little since the last
    /// change.
    pub fn is_over(self) -> bool
        ensures { result ≡ is_over self }
    {
        self.acting <= self.waiting
    }
}
