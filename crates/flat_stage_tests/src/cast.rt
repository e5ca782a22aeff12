//! A new stage of two sessions, with all its seats handed out.
ghost use Rattle.std.specs.Prelude.{◌≡◌, [], ◌∷◌, false, IfOk, IfSome, Some};
ghost use Rattle.flat_stage.specs.Seats.{setup_of};
ghost use Rattle.flat_stage_tests.specs.Room.{MayBegin, MayRead, two_sessions};

use flat_base::{Actor, Items, NoMemory, ONE, SessionNo, ShareList};
use flat_core::Board;
use flat_scene::{PairDecl, Setup};
use flat_stage::{Compositor, SessionSeat, SessionSeats, Stage};
use std::alloc::Global;
use std::test::Fail;

/// A display that shows session 1, beside session 2.
pub(crate) fn two_sessions(alloc: Global) -> Result<Setup, NoMemory>
    ensures { IfOk result (λ setup. setup ≡ two_sessions) }
{
    let mut pairs = Items::new(alloc);
    pairs.push(PairDecl {
        viewport: Actor::Display,
        view: SessionNo(1),
    })?;
    Ok(Setup {
        width: 100,
        height: 50,
        sessions: 2,
        probes: 0,
        pairs,
        buffers: Items::new(alloc),
        fences: Items::new(alloc),
        ratio: ONE,
    })
}

fn opened(alloc: Global) -> Result<Board, NoMemory>
    ensures { IfOk result (λ board. board
        ≡ record {
          setup = two_sessions;
          shares = 20 ∷ 101 ∷ 101 ∷ [];
          history = [];
        }) }
{
    let mut shares = ShareList::new(alloc);
    shares.push(20)?;
    shares.push(101)?;
    shares.push(101)?;
    Board::open(alloc, two_sessions(alloc)?, shares)
}

/// The seats of a new stage.
#[derive(Drop)]
pub(crate) struct Cast {
    pub(crate) stage: Stage,
    pub(crate) compositor: Compositor,
    pub(crate) seats: SessionSeats,
    pub(crate) first: SessionSeat,
    pub(crate) second: SessionSeat,
}

/// Two seats, where both are there.
fn both_of(
    first: Option<SessionSeat>,
    second: Option<SessionSeat>,
) -> Option<(SessionSeat, SessionSeat)>
    ensures { IfSome result (λ r. (first ≡ Some r.0) × (second ≡ Some r.1)) }
{
    let Some(first) = first else {
        drop(second);
        return None;
    };
    let Some(second) = second else {
        drop(first);
        return None;
    };
    Some((first, second))
}

/// A stage, and its seats handed out.
pub(crate) fn new_cast(alloc: Global) -> Result<Cast, Fail>
    ensures setup { IfOk result (λ c. setup_of c.stage ≡ two_sessions) }
    ensures seats { IfOk result (λ c. c.seats.stage ≡ c.stage) }
    ensures compositor { IfOk result (λ c. (c.compositor.display.stage ≡ c.stage)
        × (c.compositor.is_open ≡ false) × MayBegin 10 0 c.compositor.display) }
    ensures first { IfOk result (λ c. (c.first.stage ≡ c.stage) × MayRead 101 c.first
        × (c.first.session ≡ record { 0 = 1 })) }
    ensures second { IfOk result (λ c. (c.second.stage ≡ c.stage) × MayRead 101 c.second) }
{
    let (stage, compositor, mut seats) = Stage::new(alloc, opened(alloc)?)?;
    let first = seats.take(SessionNo(1));
    let second = seats.take(SessionNo(2));
    let Some((first, second)) = both_of(first, second) else {
        drop(stage);
        drop(compositor);
        drop(seats);
        return Err("no seat".into());
    };
    Ok(Cast {
        stage,
        compositor,
        seats,
        first,
        second,
    })
}
