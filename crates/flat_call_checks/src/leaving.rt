ghost use Rattle.std.specs.Prelude.{◌≡◌, ◌<◌, ◌≤◌, ◌+◌, ◌^◌};

use crate::reports::has_line;
use crate::shell::SHELL;
use flat_base::NoMemory;
use std::alloc::Global;

/// The shell's script in which the mail leaves before a line.
pub fn mail_leaves_before(alloc: Global, before: u32) -> Result<Vec<u8>, NoMemory> {
    let mut text = Vec::new(alloc);
    for (place, line) in SHELL.split_inclusive(|b| *b == b'\n').enumerate() {
        if place + 1 == before as usize {
            text.extend_from_slice(b"mail Disconnect\n")?;
        }
        text.extend_from_slice(line)?;
    }
    Ok(text)
}

/// The number that a line has once another one stands before it, or stays where that one
/// stands behind it.
pub fn moved(line: u32, before: u32) -> u32
    ensures stays { line < before → result ≡ line }
    ensures moves { before ≤ line → line + 1 < 2 ^ 32 → result ≡ line + 1 }
{
    if line < before {
        line
    } else {
        line.saturating_add(1)
    }
}

/// Whether a report answers the shell's line so, once.
pub fn has_answer(alloc: Global, report: &[u8], line: u32, answer: &str) -> Result<bool, NoMemory> {
    let wanted = format!(in alloc; "shell {line} {answer}")?;
    Ok(has_line(report, wanted.as_bytes()))
}
