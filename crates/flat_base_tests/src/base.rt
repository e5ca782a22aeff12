use flat_base::{ENTRY_MAX, Items, NoMemory, PLACE_MAX, TryCopy, clamp_entry, clamp_place, mul};
use std::alloc::Global;

#[derive(Drop)]
struct Word(Items<u8>);

impl TryCopy for Word {
    fn copy(&self, alloc: Global) -> Result<Word, NoMemory> {
        Ok(Word(self.0.copy(alloc)?))
    }
}

// Two numbers and their product in fixed point.
const PRODUCTS: [(i64, i64, i128); 7] = [
    (65_536, 65_536, 65_536),
    (3, 32_768, 1),
    (-3, 32_768, -1),
    (3, -32_768, -1),
    (-3, -32_768, 1),
    (1, 65_535, 0),
    (
        i64::MIN,
        i64::MIN,
        1_298_074_214_633_706_907_132_624_082_305_024,
    ),
];

/// The first numbers that have another product, and which.
fn first_wrong() -> Option<(i64, i64, i128)> {
    for (a, b, product) in PRODUCTS {
        let found = mul(a, b);
        if found != product {
            return Some((a, b, found));
        }
    }
    None
}

#[test]
fn products_are_rounded_towards_nothing(rt: HostRuntime) {
    assert_eq!(rt; first_wrong(), None);
}

#[test]
fn entries_and_places_saturate(rt: HostRuntime) {
    let clamped = [
        clamp_entry(7),
        clamp_entry(2_147_483_649),
        clamp_entry(-2_147_483_649),
        clamp_place(-7),
        clamp_place(70_368_744_177_665),
        clamp_place(-70_368_744_177_665),
    ];
    assert_eq!(rt;
        clamped,
        [7, ENTRY_MAX, -ENTRY_MAX, -7, PLACE_MAX, -PLACE_MAX]
    );
}

fn word_of(alloc: Global, byte: u8) -> Result<Word, NoMemory> {
    let mut word = Items::new(alloc);
    word.push(byte)?;
    Ok(Word(word))
}

/// Adds a word of a byte, and copies all words.
fn add_and_copy(alloc: Global, words: &mut Items<Word>, byte: u8) -> Result<Items<Word>, NoMemory> {
    words.push(word_of(alloc, byte)?)?;
    words.copy_each(alloc)
}

/// Whether the only word is a byte.
fn are_byte(words: &[Word], byte: u8) -> bool {
    match words {
        [word] => word.0.as_slice() == [byte].as_slice(),
        _ => false,
    }
}

fn copies(alloc: Global, byte: u8) -> Result<bool, NoMemory> {
    let mut words = Items::new(alloc);
    let copied = add_and_copy(alloc, &mut words, byte)?;
    Ok(are_byte(copied.as_slice(), byte))
}

#[test]
fn a_list_of_lists_is_copied(rt: HostRuntime) {
    assert_eq!(rt; copies(rt.alloc(), 7), Ok(true));
}
