//! All seats of a lock are made when it is made, and put together when it ends.
ghost use Rattle.std.specs.Prelude.{◌≡◌, ◌<◌, [], map, drop, IsTrue, IfOk};
ghost use Rattle.flat_lock.specs.Seats.{AreNew, all_home};
ghost use Rattle.flat_lock.specs.Places.{left_by};
ghost use Rattle.flat_lock.specs.Steps.{first_view, IsResting, IsSameSeat};

use crate::has_history::HasHistory;
use crate::lock::TicketLock;
use crate::rule::{SeatJoined, SeatSplit, TableSeat};
use crate::seat::LockSeat;
use crate::seats::LockSeats;
use flat_base::NoMemory;
use std::alloc::Global;

/// The seats of a new lock. The first one hands out the others.
pub(crate) fn deal<T: HasHistory>(
    lock: &TicketLock<T>,
    alloc: Global,
    mut first: TableSeat<T>,
    count: u32,
) -> Result<Vec<Option<LockSeat<T>>>, NoMemory>
    requires own { first.table_id ≡ lock.now.table }
    requires count { count ≡ lock.now.seats }
    requires some_seat { 0 < count }
    requires new { first.me ≡ (first_view lock.now.fixed count, []) }
    ensures { IfOk result (λ v. AreNew lock.now v.items) }
{
    let table = &lock.table;
    let mut seats = Vec::with_capacity(alloc, count as usize)?;
    seats.push(None)?;
    for place in 1..count {
        let seat = table.shared.split_seat::<SeatSplit>(&mut first);
        seats.push(Some(LockSeat { place, seat }))?;
    }
    seats[0] = Some(LockSeat {
        place: 0,
        seat: first,
    });
    Ok(seats)
}

/// Joins each seat but the first, which is away, into the keeper: the last one first.
pub(crate) fn gather<T: HasHistory>(
    lock: &TicketLock<T>,
    keeper: &mut TableSeat<T>,
    others: LockSeats<T>,
)
    requires own { others.lock ≡ lock.now }
    requires home { IsTrue (all_home (drop 1 others.seats)) }
    requires keeper { keeper.old.table_id ≡ lock.now.table }
    requires resting { IsResting keeper.old.me }
    requires first { keeper.old.me.0.ended ≡ [] }
    ensures same { IsSameSeat keeper.old keeper.new }
    ensures joined { keeper.new.me
        ≡ (record keeper.old.me.0 { ended = map left_by (drop 1 others.seats) }, []) }
{
    let table = &lock.table;
    let LockSeats { mut seats, of: _ } = others;
    while seats.len() > 1 {
        let Some(home) = seats.pop() else {
            unreachable!()
        };
        let Some(last) = home else { unreachable!() };
        let LockSeat { place: _, seat } = last;
        table.shared.join_seat::<SeatJoined>(keeper, seat);
    }
}
