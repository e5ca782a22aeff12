ghost use Rattle.std.specs.Prelude.{◌≡◌, ◌++◌, ◌∷◌, [], OnOk, Some, List, ℕ, cond, true};
ghost use Rattle.std.specs.Str.{bytes_eq};
ghost use Rattle.flat_places.specs.Index.{IsCache, meaning_at};
ghost use Rattle.flat_places.specs.Names.{is_name};
ghost use Rattle.flat_forms.specs.Head.{empty};

use flat_base::{Items, NoMemory, ONE};
use flat_places::{Name, NameList, NameMeaning, Names, Script};
use flat_scene::Setup;
use std::alloc::Global;

/// Nothing declared yet. It takes no memory.
pub fn empty(alloc: Global) -> Script
    ensures { result ≡ empty }
{
    Script {
        version: 0,
        setup: Setup {
            width: 0,
            height: 0,
            sessions: 0,
            probes: 0,
            pairs: Items::new(alloc),
            buffers: Items::new(alloc),
            fences: Items::new(alloc),
            ratio: ONE,
        },
        sessions: Items::new(alloc),
        probes: Items::new(alloc),
        buffers: Items::new(alloc),
        pairs: Items::new(alloc),
        fences: Items::new(alloc),
        lines: Items::new(alloc),
        count: 0,
    }
}

/// Puts the name at the end of its list, and gives it its meaning.
pub fn add_name(
    list: &mut NameList,
    names: &mut Names,
    name: &[u8],
    meaning: NameMeaning,
) -> Result<(), NoMemory>
    requires cache { IsCache names.old }
    requires name { is_name name.now ≡ true }
    ensures list { OnOk result (list.new ≡ list.old ++ name.now ∷ []) }
    ensures found { OnOk result ((w : List ℕ) → meaning_at names.new w
        ≡ cond (bytes_eq w name.now) (Some meaning) (meaning_at names.old w)) }
    ensures cache { OnOk result (IsCache names.new) }
{
    list.push(Name::new(name))?;
    names.declare(name, meaning)
}
