//! What a guided run begins with: sessions that have read no line, and probes that have passed
//! none.
ghost use Rattle.std.specs.Prelude.{◌≡◌, [], true, replicate, IfOk};
ghost use Rattle.flat_playable.specs.Playable.{is_playable};
ghost use Rattle.flat_judge.specs.GuidedRuns.{SeatsStand};

use crate::session_cursor::SessionCursor;
use flat_base::{Items, NoMemory, SessionNo};
use flat_places::Script;
use flat_session::{SessionReader, lines_are_read};
use std::alloc::Global;

/// Sessions that have read no line.
pub(crate) fn new_seats(alloc: Global, script: &Script) -> Result<Vec<SessionCursor>, NoMemory>
    requires { is_playable script.now ≡ true }
    ensures { IfOk result (λ seats. SeatsStand script.now [] seats.items) }
{
    lines_are_read();
    let mut seats = Vec::new(alloc);
    for before in 0..script.setup.sessions {
        let reader = SessionReader::new(alloc, SessionNo(before + 1), &script.setup.buffers)?;
        seats.push(SessionCursor {
            reader,
            place: 0,
            has_ended: false,
        })?;
    }
    Ok(seats)
}

/// So many places, each before the first line.
pub(crate) fn first_places(alloc: Global, probes: u32) -> Result<Items<usize>, NoMemory>
    ensures { IfOk result (λ places. places ≡ replicate probes 0) }
{
    let mut places = Items::new(alloc);
    for _ in 0..probes {
        places.push(0)?;
    }
    Ok(places)
}
