use flat_base::ShareList;
use flat_core::Board;
use flat_lock::HasHistory;
use flat_scene::{Entry, Setup};

/// A board that lies in a lock.
#[derive(Drop)]
pub struct SharedBoard {
    pub board: Board,
}

impl HasHistory for SharedBoard {
    ghost use Rattle.std.specs.Prelude.{reverse};
    ghost use Rattle.flat_scene.specs.Journals.{seat_number};

    type Entry = Entry;

    type Fixed = (Setup, ShareList);

    ghost history = { λ s. reverse s.board.history };

    ghost actor = { λ e. seat_number e.actor };

    ghost fixed = { λ s. (s.board.setup, s.board.shares) };
}
