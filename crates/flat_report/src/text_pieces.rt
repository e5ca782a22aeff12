//! A text in runs, which texts share: so a frame has the lines of the frame before it
//! without a copy, and the report has those of its frames. A room for the whole report
//! beside the texts would double the memory.
ghost use Rattle.std.specs.Prelude.{◌≡◌, ◌++◌, [], map, IfOk, OnOk};
ghost use Rattle.std.specs.List.{concat};
ghost use Rattle.std.specs.Arc.{arc_value};

use flat_base::{Items, NoMemory};
use std::alloc::Global;
use std::marker::Model;
use std::sync::Arc;

/// A run of a text. Texts that have it share its bytes.
pub type Run = Arc<Items<u8>>;

/// A text in runs, one behind another, which contracts see as the whole text.
#[derive(Drop)]
pub struct TextPieces {
    runs: Vec<Arc<Items<u8>>>,
}

impl Model for TextPieces {
    ghost use Rattle.std.specs.Prelude.{List, ℕ, map};
    ghost use Rattle.std.specs.List.{concat};
    ghost use Rattle.std.specs.Arc.{arc_value};

    ghost Value = { List ℕ };

    ghost view = { λ p. concat (map arc_value p.runs.items) };
}

impl TextPieces {
    /// A text without bytes. It takes no memory.
    pub fn new(alloc: Global) -> TextPieces
        ensures { result ≡ [] }
    {
        TextPieces {
            runs: Vec::new(alloc),
        }
    }

    /// A text in one run.
    pub fn one(alloc: Global, text: Vec<u8>) -> Result<TextPieces, NoMemory>
        ensures { IfOk result (λ pieces. pieces ≡ text.items) }
    {
        let run = Arc::new(alloc, Items::from_vec(text))?;
        let mut pieces = TextPieces::new(alloc);
        pieces.push(run)?;
        Ok(pieces)
    }

    /// Puts a run behind the others.
    pub fn push(&mut self, run: Run) -> Result<(), NoMemory>
        ensures { OnOk result (self.new ≡ self.old ++ arc_value run) }
    {
        self.runs.push(run)?;
        Ok(())
    }

    /// The runs, in order.
    pub fn as_slice(&self) -> &[Run]
        ensures { concat (map arc_value result.now) ≡ self.now }
    {
        self.runs.as_slice()
    }
}
