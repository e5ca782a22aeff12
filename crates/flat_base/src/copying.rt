ghost use Rattle.std.specs.Prelude.{◌≡◌, IfOk};

use crate::errors::NoMemory;
use crate::items::Items;
use crate::roomy::Roomy;
use std::alloc::Global;

/// A value whose copy takes memory, since it holds a list.
pub trait TryCopy: Sized {
    /// The same value, with memory of its own.
    fn copy(&self, alloc: Global) -> Result<Self, NoMemory>
        ensures { IfOk result (λ copied. copied ≡ self.now) };
}

impl<T: TryCopy + Drop> Items<T> {
    /// The same list, each item of it copied.
    pub fn copy_each(&self, alloc: Global) -> Result<Items<T>, NoMemory>
        ensures { IfOk result (λ copied. copied ≡ self.now) }
    {
        let items = self.as_slice();
        let mut copied = Roomy::with_capacity(alloc, items.len())?;
        for item in items {
            copied.push(item.copy(alloc)?);
        }
        Ok(copied.into_items())
    }
}
