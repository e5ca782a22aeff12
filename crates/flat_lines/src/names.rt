//! The names of a script by their numbers (specs/Names).
ghost use Rattle.std.specs.Prelude.{◌≡◌};
ghost use Rattle.flat_lines.specs.Names.{pair_name, buffers_name};

use flat_base::{BufferNo, PairNo};
use flat_page::name_at;
use flat_places::Script;

/// The name of a pair, or nothing where it has none.
pub fn pair_name(script: &Script, pair: PairNo) -> &[u8]
    ensures { result.now ≡ pair_name script.now pair }
{
    name_at(&script.pairs, pair.0 as usize)
}

/// The name of a buffer collection, or nothing where it has none.
pub fn buffers_name(script: &Script, buffers: BufferNo) -> &[u8]
    ensures { result.now ≡ buffers_name script.now buffers }
{
    name_at(&script.buffers, buffers.0 as usize)
}
