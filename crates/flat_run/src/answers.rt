//! What is to be written, and the statuses that say so.
ghost use Rattle.std.specs.Prelude.{◌≡◌, IfOk};
ghost use Rattle.flat_run.specs.Judging.{fault_line};
ghost use Rattle.flat_run.specs.Promise.{large_line};

use flat_base::NoMemory;
use flat_page::Page;
use flat_report::TextPieces;
use flat_script::ScriptFault;
use std::alloc::Global;

/// The status where a script or a load was run.
pub const DONE: u8 = 0;

/// The status where the text is no script.
pub const REFUSED: u8 = 3;

/// The status where a picture would have too many pixels.
pub const TOO_LARGE: u8 = 7;

/// The status where a report is wrong.
pub const WRONG: u8 = 8;

/// The status where the words call for no form.
pub const USED_WRONGLY: u8 = 2;

/// The status where a read failed.
pub const READ_FAULT: u8 = 4;

/// The status where a write failed or took nothing.
pub const WRITE_FAULT: u8 = 5;

/// The status where memory ran out.
pub const NO_MEMORY: u8 = 6;

/// What is written where a picture would have too many pixels.
const LARGE: &[u8] = b"picture too large\n";

/// What is to be written, and the status of a call that wrote it.
#[derive(Drop)]
pub struct ServiceAnswer {
    pub status: u8,
    pub text: TextPieces,
}

/// Why there is nothing to be written.
#[derive(Drop)]
pub enum NoAnswer {
    /// A read failed.
    Fault,
    /// Memory ran out.
    Memory,
}

impl From<NoMemory> for NoAnswer {
    ghost use Rattle.std.specs.Prelude.{◌≡◌};
    ghost use Rattle.flat_run.specs.declared.answers.NoAnswer.TheVariants.{Memory};

    ghost from_gives = { λ _ why. why ≡ Memory };

    fn from(_e: NoMemory) -> NoAnswer {
        NoAnswer::Memory
    }
}

/// The line that tells a fault of a script.
fn fault_text(alloc: Global, fault: ScriptFault) -> Result<Vec<u8>, NoMemory>
    ensures { IfOk result (λ text. text.items ≡ fault_line fault) }
{
    let mut page = Page::new(alloc);
    page.numbered(b"script line ", fault.line as u64)?;
    page.numbered(b" kind ", fault.kind.number() as u64)?;
    page.put(b"\n")?;
    Ok(page.into_text())
}

/// The answer to a text that is no script.
pub(crate) fn refusal(alloc: Global, fault: ScriptFault) -> Result<ServiceAnswer, NoMemory>
    ensures status { IfOk result (λ answer. answer.status ≡ REFUSED) }
    ensures text { IfOk result (λ answer. answer.text ≡ fault_line fault) }
{
    let text = fault_text(alloc, fault)?;
    Ok(ServiceAnswer {
        status: REFUSED,
        text: TextPieces::one(alloc, text)?,
    })
}

/// The answer where a picture would have too many pixels.
pub(crate) fn large(alloc: Global) -> Result<ServiceAnswer, NoMemory>
    ensures status { IfOk result (λ answer. answer.status ≡ TOO_LARGE) }
    ensures text { IfOk result (λ answer. answer.text ≡ large_line) }
{
    let text = Vec::from_slice(alloc, LARGE)?;
    Ok(ServiceAnswer {
        status: TOO_LARGE,
        text: TextPieces::one(alloc, text)?,
    })
}
