ghost use Rattle.std.specs.Prelude.{◌≡◌, ◌<◌, ℕ, length, map, [], ◌∷◌, option_to_list, IfOk, OnOk};
ghost use Rattle.std.specs.List.{Contains};
ghost use Rattle.flat_graph.specs.State.{IsSound};
ghost use Rattle.flat_collect.specs.Marking.{Adds, AreReached, IsFinding, IsListed};

use crate::walk::children;
use flat_base::NoMemory;
use flat_graph::{Graph, NamedNode};
use std::alloc::Global;

/// The keys that were found to be reached: a mark at each, and the list of them, in
/// the order in which they were found.
#[derive(Drop)]
pub struct ReachedNodes {
    pub marks: Vec<bool>,
    pub keys: Vec<usize>,
}

impl ReachedNodes {
    /// The keys that are reached from the root or from one that has a name.
    pub fn find(alloc: Global, graph: &Graph) -> Result<ReachedNodes, NoMemory>
        ensures { IfOk result (AreReached graph.now) }
    {
        // Tells the proof that each link leads to a node.
        let _ = graph.root();
        let mut found = ReachedNodes::starts(alloc, graph)?;
        let mut done = 0;
        while done < found.keys.len() {
            let key = found.keys[done];
            found.add_all(children(graph, key))?;
            done += 1;
        }
        Ok(found)
    }

    /// The root, and the keys that have a name.
    fn starts(alloc: Global, graph: &Graph) -> Result<ReachedNodes, NoMemory>
        requires { IsSound graph.now }
        ensures { IfOk result (λ found. IsFinding graph.now found 0) }
    {
        let mut found = ReachedNodes::none(alloc, graph.places())?;
        found.add_some(graph.root())?;
        found.add_names(graph.names())?;
        Ok(found)
    }

    /// No key, of those below a number of places.
    fn none(alloc: Global, places: usize) -> Result<ReachedNodes, NoMemory>
        ensures places { IfOk result (λ found. length found.marks.items ≡ places) }
        ensures listed { IfOk result IsListed }
        ensures empty { IfOk result (λ found. found.keys.items ≡ []) }
    {
        Ok(ReachedNodes {
            marks: Vec::from_elem(alloc, false, places)?,
            keys: Vec::new(alloc),
        })
    }

    /// Adds a key, where it isn't found yet.
    fn add(&mut self, key: usize) -> Result<(), NoMemory>
        requires listed { IsListed self.old }
        requires within { key < length self.old.marks.items }
        ensures { OnOk result (Adds (key ∷ []) self.old self.new) }
    {
        if !self.marks[key] {
            self.keys.push(key)?;
            self.marks[key] = true;
        }
        Ok(())
    }

    /// Adds a key, if there is one.
    fn add_some(&mut self, key: Option<usize>) -> Result<(), NoMemory>
        requires listed { IsListed self.old }
        requires within { (k : ℕ) → Contains (option_to_list key) k →
            k < length self.old.marks.items }
        ensures { OnOk result (Adds (option_to_list key) self.old self.new) }
    {
        match key {
            Some(key) => self.add(key),
            None => Ok(()),
        }
    }

    /// Adds keys.
    fn add_all(&mut self, keys: &[usize]) -> Result<(), NoMemory>
        requires listed { IsListed self.old }
        requires within { (k : ℕ) → Contains keys.now k → k < length self.old.marks.items }
        ensures { OnOk result (Adds keys.now self.old self.new) }
    {
        for &key in keys {
            self.add(key)?;
        }
        Ok(())
    }

    /// Adds the keys that have a name.
    fn add_names(&mut self, names: &[NamedNode]) -> Result<(), NoMemory>
        requires listed { IsListed self.old }
        requires within { (k : ℕ) → Contains (map (λ name. name.key) names.now) k →
            k < length self.old.marks.items }
        ensures { OnOk result (Adds (map (λ name. name.key) names.now) self.old self.new) }
    {
        for name in names {
            self.add(name.key)?;
        }
        Ok(())
    }
}
