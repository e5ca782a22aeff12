ghost use Rattle.std.specs.Prelude.{◌≡◌, [], ◌∷◌};
ghost use Rattle.flat_places.specs.Places.{choice, number_from, version};

use crate::kinds::FaultKind;
use flat_base::VERSION_MAX;
use flat_text::read_natural;

/// The value of that number, of values that are numbered from `first` on.
pub fn chosen<T: Copy>(word: &[u8], first: u128, values: &[T]) -> Result<T, FaultKind>
    ensures { result ≡ (choice first values.now (word.now ∷ [])).0 }
{
    let Some(number) = read_natural(word) else {
        return Err(FaultKind::BadNumber);
    };
    if number < first {
        return Err(FaultKind::BadNumber);
    }
    let place = number - first;
    if place < values.len() as u128 {
        return Ok(values[place as usize]);
    }
    Err(FaultKind::BadNumber)
}

/// A number of the range, both ends in it.
pub fn number_in(word: &[u8], least: u32, most: u32) -> Result<u32, FaultKind>
    ensures { result ≡ (number_from least most (word.now ∷ [])).0 }
{
    let Some(number) = read_natural(word) else {
        return Err(FaultKind::BadNumber);
    };
    if least as u128 <= number && number <= most as u128 {
        return Ok(number as u32);
    }
    Err(FaultKind::BadNumber)
}

/// The number of a version.
pub fn version_in(word: &[u8]) -> Result<u32, FaultKind>
    ensures { result ≡ (version (word.now ∷ [])).0 }
{
    let Some(number) = read_natural(word) else {
        return Err(FaultKind::BadNumber);
    };
    if number > u32::MAX as u128 {
        return Err(FaultKind::BadNumber);
    }
    if 1 <= number && number <= VERSION_MAX as u128 {
        return Ok(number as u32);
    }
    Err(FaultKind::UnknownVersion)
}
