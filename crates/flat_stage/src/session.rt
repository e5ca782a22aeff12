ghost use Rattle.std.specs.Prelude.{◌≡◌, ◌+◌, ◌<◌, ◌^◌, [], true, false, IfOk, OnErr, ℕ, List, ◌∷◌, ◌++◌};
ghost use Rattle.flat_scene.specs.declared.journal.Reply.TheVariants.{Done};
ghost use Rattle.flat_base.specs.declared.ids.Actor.TheVariants.{Session};
ghost use Rattle.flat_core.specs.Machines.{MayLook};
ghost use Rattle.flat_rules.specs.Legal.{value_of, Legal};
ghost use Rattle.flat_stage.specs.Homes.{lock_seat};
ghost use Rattle.flat_scene.specs.declared.script.SessionLine.{SessionLine};
ghost use Rattle.flat_stage.specs.Readings.{SeatEdits, SeatHasRead};
ghost use Rattle.flat_session.specs.Readings.{Rise};
ghost use Rattle.flat_rules.specs.Owned.{is_played_line};
ghost use Rattle.flat_session.specs.Made.{kind_of, takes_memory};
ghost use Rattle.flat_session.specs.Reads.{kept_calls, viewport_call, IsReady};
ghost use Rattle.flat_scene.specs.Journals.{history_of};
ghost use Rattle.flat_scene.specs.Interleave.{IsReading};
ghost use Rattle.flat_scene.specs.Setups.{is_declared};
ghost use Rattle.flat_stage.specs.Seats.{is_ended, entries_of_seat, session_view, setup_of, AreAtOne, AreOne, GoesOn};
ghost use Rattle.flat_stage.specs.Seats.{HasRoom, SeatSeesMore, SessionEnds, SessionEnters, SessionReads, SeesMore};

use crate::shared_board::SharedBoard;
use crate::stage::Stage;
use flat_base::{Actor, NoMemory, SessionNo};
use flat_core::EventList;
use flat_lock::LockSeat;
use flat_scene::{Reply, SessionLine, WaitCondition};
use flat_session::{EditOutcome, PreparedLine, RequestedEntry, SessionReader};
use std::marker::Model;
use std::sync::Wait;

/// The seat of a session. Each call that takes it with a stage needs that it is of
/// it.
#[derive(Drop)]
pub struct SessionSeat {
    pub(crate) seat: LockSeat<SharedBoard>,
    pub(crate) reader: SessionReader,
}

impl Model for SessionSeat {
    ghost use Rattle.flat_session.specs.Made.{kind_of, takes_memory};
    ghost use Rattle.flat_session.specs.Reads.{kept_calls, viewport_call, IsReady};
    ghost use Rattle.flat_scene.specs.Journals.{history_of};
    ghost use Rattle.flat_scene.specs.Interleave.{IsReading};
    ghost use Rattle.flat_scene.specs.Setups.{is_declared};
    ghost use Rattle.flat_stage.specs.Seats.{SessionView, session_view, AreOne};

    ghost Value = { SessionView };

    ghost view = { λ s. session_view s.seat s.reader };

    ghost invariant = { λ s. AreOne s.seat s.reader };
}

impl SessionSeat {
    pub fn session(&self) -> SessionNo
        ensures session { result ≡ self.now.session }
        ensures declared { is_declared (setup_of self.now.stage) result ≡ true }
    {
        self.reader.session
    }

    /// Whether the session was closed. Each line after that is answered so, and makes
    /// no entry.
    pub fn is_closed(&self) -> bool
        ensures { result ≡ self.now.closed }
    {
        self.reader.closed
    }

    /// The lock's seat.
    pub(crate) fn into_seat(self) -> LockSeat<SharedBoard>
        ensures { result ≡ lock_seat self }
    {
        let SessionSeat { seat, reader } = self;
        drop(reader);
        seat
    }

    /// Reads a line. A private call waits for the session's next entry, and each
    /// other line makes its entry, for which it may wait. A misuse closes the
    /// session, and each line after that is answered so.
    ///
    /// If memory runs out, the line is dropped and makes no entry.
    pub fn call<R: Wait>(
        &mut self,
        rt: &R,
        stage: &Stage,
        number: u32,
        text: SessionLine,
    ) -> Result<Reply, NoMemory>
        requires own { self.old.stage ≡ stage.now }
        requires unended { is_ended self.old.mine ≡ false }
        requires owned { is_played_line (setup_of self.old.stage) self.old.session text ≡ true }
        requires room { HasRoom self.old }
        requires few { self.old.refused + 1 < 2 ^ 32 }
        ensures reads { IfOk result (λ reply. SessionReads number text reply self.old self.new
            self.old.closed) }
        ensures kept { OnErr result (SeesMore self.old self.new) }
        ensures goes_on { GoesOn self.old self.new }
        ensures follows { (given : List (ℕ × SessionLine)) → SeatHasRead given self.old →
            IfOk result (λ _. SeatHasRead (given ++ (number, text) ∷ []) self.new) }
    {
        match self.reader.prepare(text)? {
            PreparedLine::Refused(reply) => Ok(reply),
            PreparedLine::Waits(reply) => Ok(reply),
            PreparedLine::Enters(made) => {
                enter(rt, stage, &mut self.seat, &mut self.reader, number, made)
            }
        }
    }

    /// Reads a line that makes no entry, without waiting: a private call that is no
    /// misuse, or any line of a closed session. Any other line comes back unread, for
    /// `call`.
    ///
    /// If memory runs out, the line is dropped.
    pub fn edit(&mut self, text: SessionLine) -> Result<EditOutcome, NoMemory>
        requires unended { is_ended self.old.mine ≡ false }
        requires owned { is_played_line (setup_of self.old.stage) self.old.session text ≡ true }
        requires few { self.old.refused + 1 < 2 ^ 32 }
        ensures edits { IfOk result (SeatEdits text self.old self.new) }
        ensures kept { OnErr result (self.new ≡ self.old) }
        ensures goes_on { GoesOn self.old self.new }
    {
        if self.reader.closed {
            drop(text);
            return Ok(EditOutcome::Read(self.reader.refuse()));
        }
        self.reader.edit(text)
    }

    /// Ends the session's entries; after that it reads no line. It may wait, and takes
    /// no memory.
    pub fn end<R: Wait>(&mut self, rt: &R, stage: &Stage, number: u32) -> Reply
        requires own { self.old.stage ≡ stage.now }
        requires unended { is_ended self.old.mine ≡ false }
        requires room { HasRoom self.old }
        ensures reply { result ≡ Done }
        ensures ends { SessionEnds number self.old self.new }
        ensures reading { (given : List (ℕ × SessionLine)) (count : ℕ) → number ≡ count + 1 →
            Rise 0 given → SeatHasRead given self.old → IsReading (setup_of self.old.stage) count
            given (history_of self.new.mine) }
    {
        end(rt, stage, &mut self.seat, &mut self.reader, number)
    }

    /// The events that the session's polls handed over since they were last asked
    /// for, in order. It takes no memory.
    pub fn events(&mut self) -> EventList
        ensures events { result ≡ self.old.events }
        ensures rest { self.new ≡ record self.old { events = [] } }
    {
        self.reader.take_events()
    }

    /// The value of a condition, at a point of the history that begins with all that
    /// the seat had seen. It makes no entry. It may wait, and takes no memory.
    pub fn look<R: Wait>(&mut self, rt: &R, stage: &Stage, c: WaitCondition) -> u32
        requires own { self.old.stage ≡ stage.now }
        requires may { MayLook (setup_of self.old.stage) (Session self.old.session) c }
        ensures value { result ≡ value_of (setup_of self.old.stage) (history_of self.new.seen)
            (Session self.old.session) c }
        ensures legal { Legal (setup_of self.old.stage) (history_of self.new.seen) }
        ensures sees { SeesMore self.old self.new }
        ensures whole { self.new.mine ≡ entries_of_seat self.new.session.0 self.new.seen }
    {
        let who = Actor::Session(self.reader.session);
        look(rt, stage, &mut self.seat, who, c)
    }
}

/// The value of a condition, in a turn of a seat that makes no entry.
pub(crate) fn look<R: Wait>(
    rt: &R,
    stage: &Stage,
    seat: &mut LockSeat<SharedBoard>,
    who: Actor,
    c: WaitCondition,
) -> u32
    requires own { seat.old.lock ≡ stage.now }
    requires resting { seat.old.has_turn ≡ false }
    requires may { MayLook (setup_of seat.old.lock) who c }
    ensures value { result ≡ value_of (setup_of seat.old.lock) (history_of seat.new.seen) who c }
    ensures legal { Legal (setup_of seat.old.lock) (history_of seat.new.seen) }
    ensures sees { SeatSeesMore seat.old seat.new }
    ensures mine { seat.new.mine ≡ entries_of_seat seat.new.actor seat.new.seen }
{
    let shared = stage.lock.turn(rt, seat);
    let value = shared.board.value(who, c);
    // proof: the entries so far are legal.
    let _ = shared.board.journal();
    stage.lock.give(seat, shared);
    value
}

/// Makes the entry that a session is about to make, in a turn of its seat.
fn enter<R: Wait>(
    rt: &R,
    stage: &Stage,
    seat: &mut LockSeat<SharedBoard>,
    reader: &mut SessionReader,
    number: u32,
    made: RequestedEntry,
) -> Result<Reply, NoMemory>
    requires own { seat.old.lock ≡ stage.now }
    requires one { AreAtOne seat.old reader.old }
    requires room { HasRoom (session_view seat.old reader.old) }
    requires ready { IsReady (setup_of seat.old.lock) (history_of seat.old.mine) reader.old made }
    ensures enters { IfOk result (λ reply. SessionEnters number reader.old.pending (kind_of made)
        reply (session_view seat.old reader.old) (session_view seat.new reader.new)) }
    ensures one { AreOne seat.new reader.new }
    ensures sees { OnErr result (SeatSeesMore seat.old seat.new) }
    ensures only { OnErr result (takes_memory made ≡ true) }
    ensures kept { OnErr result (reader.new
        ≡ record reader.old { pending = kept_calls (viewport_call made) reader.old.pending }) }
{
    let mut shared = stage.lock.turn(rt, seat);
    match reader.enter(&mut shared.board, number, made) {
        Ok(reply) => {
            // proof: the entries so far are legal.
            let _ = shared.board.journal();
            stage.lock.give(seat, shared);
            Ok(reply)
        }
        Err(NoMemory) => {
            stage.lock.give(seat, shared);
            Err(NoMemory)
        }
    }
}

/// Makes a session's End, in a turn of its seat.
fn end<R: Wait>(
    rt: &R,
    stage: &Stage,
    seat: &mut LockSeat<SharedBoard>,
    reader: &mut SessionReader,
    number: u32,
) -> Reply
    requires own { seat.old.lock ≡ stage.now }
    requires one { AreOne seat.old reader.old }
    requires unended { is_ended seat.old.mine ≡ false }
    requires room { HasRoom (session_view seat.old reader.old) }
    ensures reply { result ≡ Done }
    ensures ends { SessionEnds number (session_view seat.old reader.old)
        (session_view seat.new reader.new) }
    ensures one { AreOne seat.new reader.new }
{
    let mut shared = stage.lock.turn(rt, seat);
    let reply = reader.end(&mut shared.board, number);
    // proof: the entries so far are legal.
    let _ = shared.board.journal();
    stage.lock.give(seat, shared);
    reply
}
