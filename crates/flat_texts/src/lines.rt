ghost use Rattle.std.specs.Prelude.{◌≡◌, IfOk};
ghost use Rattle.flat_scene.specs.History.{is_finish};
ghost use Rattle.flat_texts.specs.Lines.{finish_lines};

use flat_base::NoMemory;
use flat_scene::{Entry, EntryKind};
use std::alloc::Global;

fn is_finish(kind: &EntryKind) -> bool
    ensures { result ≡ is_finish kind.now }
{
    matches!(kind, EntryKind::Finish)
}

/// The numbers of the lines that finished the frames of some entries, which are the
/// oldest first.
pub fn finish_lines(alloc: Global, entries: &[Entry]) -> Result<Vec<u32>, NoMemory>
    ensures { IfOk result (λ lines. lines.items ≡ finish_lines entries.now) }
{
    let mut lines = Vec::new(alloc);
    for entry in entries {
        if is_finish(&entry.kind) {
            lines.push(entry.line)?;
        }
    }
    Ok(lines)
}
