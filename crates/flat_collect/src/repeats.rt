ghost use Rattle.std.specs.Prelude.{◌≡◌};
ghost use Rattle.flat_scene.specs.Misuse as misuse;

/// Whether a number stands twice in a list. Those that do are neighbours once the
/// numbers are sorted.
pub fn has_twice(numbers: Vec<u32>) -> bool
    ensures { result ≡ misuse.has_twice numbers.items }
{
    let mut sorted = numbers;
    sorted.sort_unstable();
    !sorted.is_sorted_by(|a, b| *a < *b)
}
