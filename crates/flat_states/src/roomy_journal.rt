ghost use Rattle.std.specs.Prelude.{◌≡◌, ◌+◌, ◌<◌, ◌≤◌, ◌^◌, [], ◌∷◌, ◌++◌, length, IfOk, OnOk, OnErr};
ghost use Rattle.flat_scene.specs.History.{◌▹◌};
ghost use Rattle.flat_scene.specs.Journals.{history_of};

use flat_base::NoMemory;
use flat_scene::{Entry, Journal, PostedEvent};
use std::alloc::Global;
use std::marker::Model;

/// The journal, with room that is taken ahead. Contracts see its history, the
/// newest entry first, its posts, and how many more fit without memory.
#[derive(Drop)]
pub struct RoomyJournal {
    journal: Journal,
}

impl Model for RoomyJournal {
    ghost use Rattle.std.specs.Prelude.{◌-◌, length, vec_capacity};
    ghost use Rattle.flat_scene.specs.Journals.{history_of};
    ghost use Rattle.flat_states.specs.Logs.{Logged};

    ghost Value = { Logged };

    ghost view = { λ log. record {
      history = history_of log.journal.entries.items;
      posts = log.journal.posts.items;
      room = vec_capacity log.journal.entries
          - length log.journal.entries.items;
      post_room = vec_capacity log.journal.posts
          - length log.journal.posts.items;
    } };
}

impl RoomyJournal {
    /// An empty journal with room for that many entries.
    pub fn new(alloc: Global, entries: u32) -> Result<RoomyJournal, NoMemory>
        ensures history { IfOk result (λ log. log.history ≡ []) }
        ensures posts { IfOk result (λ log. log.posts ≡ []) }
        ensures room { IfOk result (λ log. entries ≤ log.room) }
    {
        let entries = Vec::with_capacity(alloc, entries as usize)?;
        Ok(RoomyJournal {
            journal: Journal {
                entries,
                posts: Vec::new(alloc),
            },
        })
    }

    /// How many entries there are.
    pub fn len(&self) -> u32
        requires { length self.now.history < 2 ^ 32 }
        ensures { result ≡ length self.now.history }
    {
        self.journal.entries.len() as u32
    }

    /// Enters an entry, within the room.
    pub fn enter(&mut self, entry: Entry)
        requires { 0 < self.old.room }
        ensures history { self.new.history ≡ (self.old.history ▹ entry) }
        ensures posts { self.new.posts ≡ self.old.posts }
        ensures room { self.new.room + 1 ≡ self.old.room }
        ensures post_room { self.new.post_room ≡ self.old.post_room }
    {
        self.journal.entries.push_reserved(entry);
    }

    /// Posts an event, within the room.
    pub fn post(&mut self, post: PostedEvent)
        requires { 0 < self.old.post_room }
        ensures posts { self.new.posts ≡ self.old.posts ++ post ∷ [] }
        ensures history { self.new.history ≡ self.old.history }
        ensures room { self.new.room ≡ self.old.room }
        ensures post_room { self.new.post_room + 1 ≡ self.old.post_room }
    {
        self.journal.posts.push_reserved(post);
    }

    /// Makes the room for posts at least that many. It never shrinks.
    pub fn reserve(&mut self, posts: usize) -> Result<(), NoMemory>
        ensures history { self.new.history ≡ self.old.history }
        ensures posts { self.new.posts ≡ self.old.posts }
        ensures room { self.new.room ≡ self.old.room }
        ensures post_room { self.old.post_room ≤ self.new.post_room }
        ensures ok { OnOk result (posts ≤ self.new.post_room) }
        ensures err { OnErr result (self.new ≡ self.old) }
    {
        self.journal.posts.reserve(posts)?;
        Ok(())
    }

    pub fn posts(&self) -> &[PostedEvent]
        ensures { result.now ≡ self.now.posts }
    {
        self.journal.posts.as_slice()
    }

    pub fn journal(&self) -> &Journal
        ensures entries { history_of result.now.entries.items ≡ self.now.history }
        ensures posts { result.now.posts.items ≡ self.now.posts }
    {
        &self.journal
    }
}
