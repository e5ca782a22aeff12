ghost use Rattle.std.specs.Prelude.{◌≡◌, ◌<◌, ◌-◌, [], ◌∷◌, ◌++◌, length, take, remove, IfOk};
ghost use Rattle.std.specs.Prelude.{IsTrue, OnOk, OnErr, Some, ◌↔◌, slice_get, slice_set};
ghost use Rattle.std.specs.Option.{option_copied};
ghost use Rattle.flat_base.specs.Last.{last_item};

use crate::errors::NoMemory;
use crate::ids::{Actor, FenceNo, SessionNo};
use std::alloc::Global;
use std::marker::Model;

/// A list of items, which contracts see as just that: where it lies and how
/// much room it has is not seen. So two values that hold lists are equal in a
/// contract where the lists have the same items.
///
/// It keeps the allocator of its constructor. Where room is to be taken ahead,
/// [`Roomy`](crate::Roomy) is the list whose room contracts see; it becomes an
/// `Items` without memory.
#[derive(Drop)]
pub struct Items<T> {
    inner: Vec<T>,
}

/// Owners of a fence.
pub type ActorList = Items<Actor>;

/// Fences that a present waits for, or releases.
pub type FenceList = Items<FenceNo>;

/// Sessions, in the order that its user says.
pub type SessionList = Items<SessionNo>;

/// How many entries each actor may make: the display first, then the sessions.
pub type ShareList = Items<u32>;

impl<T> Model for Items<T> {
    ghost use Rattle.std.specs.Prelude.{List};
    ghost use Rattle.std.specs.Coded.{coded_list};

    ghost Value = { List T };

    ghost coded = { coded_list T.code };

    ghost view = { λ it. it.inner.items };
}

impl<T> Items<T> {
    /// An empty list. It takes no memory.
    pub fn new(alloc: Global) -> Items<T>
        ensures { result ≡ [] }
    {
        Items {
            inner: Vec::new(alloc),
        }
    }

    /// The list of a vector's items. It takes no memory.
    pub fn from_vec(inner: Vec<T>) -> Items<T>
        ensures { result ≡ inner.items }
    {
        Items { inner }
    }

    /// The vector of the list's items. It takes no memory.
    pub fn into_vec(self) -> Vec<T>
        ensures { result.items ≡ self }
    {
        let Items { inner } = self;
        inner
    }

    pub fn len(&self) -> usize
        ensures { result ≡ length self.now }
    {
        self.inner.len()
    }

    pub fn is_empty(&self) -> bool
        ensures { IsTrue result ↔ (self.now ≡ []) }
    {
        self.inner.is_empty()
    }

    pub fn as_slice(&self) -> &[T]
        ensures { result.now ≡ self.now }
    {
        self.inner.as_slice()
    }

    /// The item at a place, from 0, or None where the list ends before it.
    pub fn get(&self, place: usize) -> Option<&T>
        ensures { option_copied result ≡ slice_get self.now place }
    {
        self.inner.get(place)
    }

    /// The item at a place, from 0.
    pub fn at(&self, place: usize) -> &T
        requires { place < length self.now }
        ensures { slice_get self.now place ≡ Some result.now }
    {
        &self.inner[place]
    }

    /// The last item, taken off the list; None where the list is empty.
    pub fn pop(&mut self) -> Option<T>
        ensures last { result ≡ last_item self.old }
        ensures rest { self.new ≡ take (length self.old - 1) self.old }
    {
        self.inner.pop()
    }

    /// The item at a place, taken out. Those after it move up.
    pub fn remove(&mut self, place: usize) -> T
        requires { place < length self.old }
        ensures item { slice_get self.old place ≡ Some result }
        ensures rest { self.new ≡ remove self.old place }
    {
        self.inner.remove(place)
    }
}

impl<T: Drop> Items<T> {
    /// Appends an item. If memory runs out, the item is dropped.
    pub fn push(&mut self, item: T) -> Result<(), NoMemory>
        ensures ok { OnOk result (self.new ≡ self.old ++ item ∷ []) }
        ensures err { OnErr result (self.new ≡ self.old) }
    {
        self.inner.push(item)?;
        Ok(())
    }

    /// Puts an item in the place of another.
    pub fn set(&mut self, place: usize, item: T)
        requires { place < length self.old }
        ensures { self.new ≡ slice_set self.old place item }
    {
        self.inner[place] = item;
    }

    /// Drops all items from a length on; nothing where there are no more.
    pub fn truncate(&mut self, len: usize)
        ensures { self.new ≡ take len self.old }
    {
        self.inner.truncate(len);
    }

    /// Drops all items. The room stays.
    pub fn clear(&mut self)
        ensures { self.new ≡ [] }
    {
        self.inner.clear();
    }
}

impl<T: Copy> Items<T> {
    /// The same list with room of its own.
    pub fn copy(&self, alloc: Global) -> Result<Items<T>, NoMemory>
        ensures { IfOk result (λ copied. copied ≡ self.now) }
    {
        let inner = Vec::from_slice(alloc, self.inner.as_slice())?;
        Ok(Items { inner })
    }

    /// Appends all items of a slice.
    pub fn extend_from_slice(&mut self, items: &[T]) -> Result<(), NoMemory>
        ensures ok { OnOk result (self.new ≡ self.old ++ items.now) }
        ensures err { OnErr result (self.new ≡ self.old) }
    {
        self.inner.extend_from_slice(items)?;
        Ok(())
    }
}
