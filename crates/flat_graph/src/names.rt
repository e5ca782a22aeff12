ghost use Rattle.std.specs.Prelude.{◌≡◌, ◌<◌, length, map, vec_capacity, IsSome, None};
ghost use Rattle.std.specs.Prelude.{◌==◌, is_none, IfOk, OnOk, OnErr};
ghost use Rattle.std.specs.List.{list_any, slice_get};
ghost use Rattle.flat_scene.specs.Misuse as misuse;
ghost use Rattle.flat_graph.specs.Names.{key_if, key_named, keys_named, names_but, names_with};
ghost use Rattle.flat_graph.specs.Names.{IsPlace, IsRising};

use crate::nodes::KeyList;
use flat_base::{Items, NoMemory, TransformId};
use std::alloc::Global;

/// An id, and the key of the node that it names.
#[derive(Clone, Copy)]
pub struct NamedNode {
    pub id: u64,
    pub key: usize,
}

/// The place of an id among names by rising id: those before it have lower ids.
fn place_of(names: &[NamedNode], id: u64) -> usize
    requires { IsRising names.now }
    ensures { IsPlace id names.now result }
{
    names.partition_point(|name| name.id < id)
}

/// The key of the name at a place, if it is the name of that id.
fn key_at(names: &[NamedNode], place: usize, id: u64) -> Option<usize>
    ensures { result ≡ key_if id (slice_get names.now place) }
{
    let name = names.get(place)?;
    if name.id == id { Some(name.key) } else { None }
}

/// The key that an id names.
pub fn key_of(names: &[NamedNode], id: u64) -> Option<usize>
    requires { IsRising names.now }
    ensures { result ≡ key_named names.now id }
{
    key_at(names, place_of(names, id), id)
}

/// Whether one of the ids is 0.
pub fn has_zero(ids: &[TransformId]) -> bool
    ensures { result ≡ list_any (λ id. id.0 == 0) ids.now }
{
    ids.iter().any(|id| id.0 == 0)
}

/// Whether one of the ids names nothing.
pub fn has_unknown(names: &[NamedNode], ids: &[TransformId]) -> bool
    requires { IsRising names.now }
    ensures { result ≡ list_any (λ id. is_none (key_named names.now id.0)) ids.now }
{
    ids.iter().any(|id| key_of(names, id.0).is_none())
}

/// Whether an id stands twice in a list. It takes no memory, and compares each id with
/// those behind it: a line has room for some hundred ids at most.
pub fn has_twice(ids: &[TransformId]) -> bool
    ensures { result ≡ misuse.has_twice (map (λ id. id.0) ids.now) }
{
    for place in 0..ids.len() {
        let id = ids[place].0;
        if ids[place + 1..].iter().any(|other| id == other.0) {
            return true;
        }
    }
    false
}

/// The keys that ids name, in the order of the ids, without those that name nothing.
pub fn keys_of(alloc: Global, names: &[NamedNode], ids: &[TransformId]) -> Result<KeyList, NoMemory>
    requires { IsRising names.now }
    ensures { IfOk result (λ keys. keys ≡ keys_named names.now ids.now) }
{
    let keys = ids
        .iter()
        .filter_map(|id| key_of(names, id.0))
        .collect(alloc)?;
    Ok(Items::from_vec(keys))
}

/// Puts a name among the others.
pub fn add_name(names: &mut Vec<NamedNode>, name: NamedNode) -> Result<(), NoMemory>
    requires rising { IsRising names.old.items }
    requires absent { key_named names.old.items name.id ≡ None }
    ensures ok { OnOk result (names.new.items ≡ names_with name names.old.items) }
    ensures err { OnErr result (names.new.items ≡ names.old.items) }
{
    let place = place_of(names, name.id);
    names.insert(place, name)?;
    Ok(())
}

/// Puts a name among the others, where there is room for it.
pub fn put_name(names: &mut Vec<NamedNode>, name: NamedNode)
    requires rising { IsRising names.old.items }
    requires absent { key_named names.old.items name.id ≡ None }
    requires room { length names.old.items < vec_capacity names.old }
    ensures { names.new.items ≡ names_with name names.old.items }
{
    let place = place_of(names, name.id);
    if names.insert(place, name).is_err() {
        unreachable!()
    }
}

/// Takes the name of an id away. The room stays.
pub fn remove_name(names: &mut Vec<NamedNode>, id: u64)
    requires rising { IsRising names.old.items }
    requires there { IsSome (key_named names.old.items id) }
    ensures items { names.new.items ≡ names_but id names.old.items }
    ensures capacity { vec_capacity names.new ≡ vec_capacity names.old }
{
    let place = place_of(names, id);
    names.remove(place);
}
