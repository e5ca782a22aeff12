ghost use Rattle.std.specs.Prelude.{◌≡◌, ◌+◌, ◌-◌, ◌<◌, ◌≤◌, [], ◌∷◌, ◌++◌, length, take, remove};
ghost use Rattle.std.specs.Prelude.{slice_get, Some, IfOk, OnOk, OnErr};
ghost use Rattle.flat_base.specs.Room.{ItemsAndRoom};
ghost use Rattle.flat_base.specs.Last.{last_item};

use crate::errors::NoMemory;
use crate::items::Items;
use std::alloc::Global;
use std::marker::Model;

/// A list whose contracts see its items and its room: how many items more it
/// takes without asking for memory. Within the room a `push` can't be refused.
#[derive(Drop)]
pub struct Roomy<T> {
    inner: Vec<T>,
}

impl<T> Model for Roomy<T> {
    ghost use Rattle.std.specs.Prelude.{◌-◌, length, vec_capacity};
    ghost use Rattle.flat_base.specs.Room.{ItemsAndRoom};

    ghost Value = { ItemsAndRoom T };

    ghost view = { λ r. record {
      items = r.inner.items;
      room = vec_capacity r.inner
          - length r.inner.items;
    } };
}

impl<T> Roomy<T> {
    /// An empty list without room. It takes no memory.
    pub fn new(alloc: Global) -> Roomy<T>
        ensures { result ≡ record { items = []; room = 0 } }
    {
        Roomy {
            inner: Vec::new(alloc),
        }
    }

    /// An empty list with room for that many items.
    pub fn with_capacity(alloc: Global, capacity: usize) -> Result<Roomy<T>, NoMemory>
        ensures { IfOk result (λ made. made ≡ record { items = []; room = capacity }) }
    {
        let inner = Vec::with_capacity(alloc, capacity)?;
        Ok(Roomy { inner })
    }

    /// Makes the room at least that many items. The room never shrinks.
    pub fn reserve(&mut self, additional: usize) -> Result<(), NoMemory>
        ensures items { self.new.items ≡ self.old.items }
        ensures room { self.old.room ≤ self.new.room }
        ensures ok { OnOk result (additional ≤ self.new.room) }
        ensures err { OnErr result (self.new ≡ self.old) }
        ensures only { OnErr result (self.old.room < additional) }
    {
        self.inner.reserve(additional)?;
        Ok(())
    }

    pub fn len(&self) -> usize
        ensures { result ≡ length self.now.items }
    {
        self.inner.len()
    }

    /// How many items more fit without memory.
    pub fn room(&self) -> usize
        ensures { result ≡ self.now.room }
    {
        self.inner.capacity() - self.inner.len()
    }

    pub fn as_slice(&self) -> &[T]
        ensures { result.now ≡ self.now.items }
    {
        self.inner.as_slice()
    }

    /// Appends an item, within the room.
    pub fn push(&mut self, item: T)
        requires { 0 < self.old.room }
        ensures items { self.new.items ≡ self.old.items ++ item ∷ [] }
        ensures room { self.new.room + 1 ≡ self.old.room }
    {
        self.inner.push_reserved(item);
    }

    /// The last item, taken off the list; None where the list is empty.
    pub fn pop(&mut self) -> Option<T>
        ensures last { result ≡ last_item self.old.items }
        ensures rest { self.new.items ≡ take (length self.old.items - 1) self.old.items }
        ensures room { self.new.room + length self.new.items
            ≡ self.old.room + length self.old.items }
    {
        self.inner.pop()
    }

    /// The item at a place, taken out, which makes room. Those after it move up.
    pub fn remove(&mut self, place: usize) -> T
        requires { place < length self.old.items }
        ensures item { slice_get self.old.items place ≡ Some result }
        ensures rest { self.new.items ≡ remove self.old.items place }
        ensures room { self.new.room ≡ self.old.room + 1 }
    {
        self.inner.remove(place)
    }

    /// The items, as a list whose room isn't seen. It takes no memory.
    pub fn into_items(self) -> Items<T>
        ensures { result ≡ self.items }
    {
        let Roomy { inner } = self;
        Items::from_vec(inner)
    }
}

impl<T: Drop> Roomy<T> {
    /// Drops all items from a length on, which makes room.
    pub fn truncate(&mut self, len: usize)
        ensures items { self.new.items ≡ take len self.old.items }
        ensures room { self.new.room + length self.new.items
            ≡ self.old.room + length self.old.items }
    {
        self.inner.truncate(len);
    }

    /// Drops all items, which makes room.
    pub fn clear(&mut self)
        ensures { self.new ≡ record { items = []; room = self.old.room + length self.old.items } }
    {
        self.inner.clear();
    }
}
