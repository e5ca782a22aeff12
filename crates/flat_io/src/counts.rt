ghost use Rattle.std.specs.Prelude.{◌≡◌};
ghost use Rattle.flat_io.specs.Kept.{counted, is_next_among};

/// One more, but for a count that stands at the end of its type.
pub fn counted(count: u64) -> u64
    ensures { result ≡ counted count }
{
    if count < u64::MAX { count + 1 } else { count }
}

/// Whether the call after so many is one of those listed.
pub fn is_next_among(numbers: &[u32], calls: u64) -> bool
    ensures { result ≡ is_next_among numbers.now calls }
{
    let next = counted(calls);
    numbers.iter().any(|n| u64::from(*n) == next)
}
