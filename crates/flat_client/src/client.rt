ghost use Rattle.std.specs.Prelude.{◌≡◌, ◌+◌, ◌≤◌, true, false, Some, None, IfOk, IsTrue, OnErr, length, not};
ghost use Rattle.std.specs.Arc.{arc_value};
ghost use Rattle.std.specs.Option.{is_some, option_map};
ghost use Rattle.flat_scene.specs.declared.script.SessionLine.TheVariants as line;
ghost use Rattle.flat_scene.specs.Interleave.{entry_of_call};
ghost use Rattle.flat_stage.specs.Homes.{fresh_view};
ghost use Rattle.flat_stage.specs.Readings.{entry_by};
ghost use Rattle.flat_stage.specs.Seats.{setup_of};
ghost use Rattle.flat_client.specs.Clients.{new_client, share_of, room_of, may_say, Stays, Answers, Settles, Enters};
ghost use Rattle.flat_client.specs.Clients.{HasRoomFor, LooksOn, MakesEntry, makes_entry, is_answer, is_farewell};
ghost use Rattle.flat_client.specs.Clients.{IsFree, Owes, call_of, kept_back};

use crate::error::CallError;
use flat_base::{FlatlandError, NoMemory, Reason, SessionNo, TryCopy};
use flat_scene::{Call, Reply, SessionLine, Setup};
use flat_session::EditOutcome;
use flat_setup::{may_call, may_use};
use flat_stage::{SessionSeat, Stage};
use std::alloc::Global;
use std::marker::Model;
use std::sync::{Arc, Wait};

/// How many entries an open session keeps back: a close and its End.
const KEPT_BACK: u32 = 2;

/// A client of one session. It may go to any thread.
///
/// A misuse is found at once, and answered [`CallError::Misused`], but it shows to others
/// only at the next entry or wait, which closes the session.
#[derive(Drop)]
pub struct Client {
    pub(crate) alloc: Global,
    pub(crate) stage: Arc<Stage>,
    pub(crate) setup: Arc<Setup>,
    pub(crate) seat: SessionSeat,
    /// How many entries the session may make in all.
    pub(crate) share: u32,
    /// How many it made.
    pub(crate) made: u32,
    /// The misuse that the next entry has to say.
    pub(crate) owed: Option<Call>,
    /// With what the session was closed.
    pub(crate) error: Option<FlatlandError>,
    pub(crate) reason: Option<Reason>,
}

impl Model for Client {
    ghost use Rattle.std.specs.Arc.{arc_value};
    ghost use Rattle.flat_client.specs.Clients.{ClientView, IsClient};

    ghost Value = { ClientView };

    ghost view = { λ c. record { seat = c.seat; owed = c.owed; cause = (c.error, c.reason) } };

    ghost invariant = { λ c. IsClient (arc_value c.stage) (arc_value c.setup) c.share c.made
        (record { seat = c.seat; owed = c.owed; cause = (c.error, c.reason) }) };
}

impl Client {
    /// The client of a session's seat that read no line, which may make so many entries.
    pub fn new(
        alloc: Global,
        stage: Arc<Stage>,
        setup: Arc<Setup>,
        seat: SessionSeat,
        share: u32,
    ) -> Client
        requires own { seat.stage ≡ arc_value stage }
        requires setup { arc_value setup ≡ setup_of seat.stage }
        requires fresh { seat ≡ fresh_view seat.stage seat.session }
        requires share { share ≡ share_of seat }
        requires room { 2 ≤ share }
        ensures { result ≡ new_client seat }
    {
        Client {
            alloc,
            stage,
            setup,
            seat,
            share,
            made: 0,
            owed: None,
            error: None,
            reason: None,
        }
    }

    pub fn session(&self) -> SessionNo
        ensures { result ≡ self.now.seat.session }
    {
        self.seat.session()
    }

    /// Whether the session is open. A misuse that is owed closes it only at the next entry.
    pub fn is_open(&self) -> bool
        ensures { result ≡ not self.now.seat.closed }
    {
        !self.seat.is_closed()
    }

    /// Whether a line names only what the session owns.
    pub fn may_use(&self, text: &SessionLine) -> bool
        ensures { result ≡ may_say self.now text.now }
    {
        may_use(&self.setup, self.seat.session(), text)
    }

    /// Whether the session is open and owes no misuse.
    pub(crate) fn is_free(&self) -> bool
        ensures { IsTrue result → IsFree self.now }
    {
        !self.seat.is_closed() && self.owed.is_none()
    }

    /// How many entries the session may still make, beside a close and its End.
    pub fn room(&self) -> u32
        ensures room { result ≡ room_of self.now }
        ensures kept { length self.now.seat.mine + kept_back self.now.seat.closed
            ≤ share_of self.now.seat }
    {
        if self.seat.is_closed() {
            0
        } else {
            self.share - self.made - KEPT_BACK
        }
    }

    /// Makes a private call.
    pub(crate) fn edit(&mut self, call: Call) -> Result<(), CallError>
        requires { entry_of_call call ≡ None }
        ensures answers { Answers call self.old self.new result }
        ensures stays { Stays self.old self.new }
    {
        if self.seat.is_closed() {
            drop(call);
            return Err(CallError::Closed(self.error, self.reason));
        }
        if self.owed.is_some() {
            drop(call);
            return Err(CallError::Misused);
        }
        if !may_call(&self.setup, self.seat.session(), &call) {
            drop(call);
            return Err(CallError::NotOwned);
        }
        match self.seat.edit(SessionLine::Call(call)) {
            Ok(EditOutcome::Read(_)) => Ok(()),
            Ok(EditOutcome::Unread(text)) => {
                self.owed = call_of(text);
                Err(CallError::Misused)
            }
            Err(NoMemory) => Err(CallError::NoMemory),
        }
    }

    /// Makes the entry of a line of the open session, for which there is room.
    fn make<R: Wait>(&mut self, rt: &R, text: SessionLine) -> Result<Reply, NoMemory>
        requires opened { self.old.seat.closed ≡ false }
        requires own { may_say self.old text ≡ true }
        requires enters { is_some (entry_by self.old.seat text) ≡ true }
        requires room { HasRoomFor text self.old }
        ensures makes { IfOk result (λ reply. MakesEntry text reply self.old self.new) }
        ensures kept { OnErr result (LooksOn self.old self.new) }
    {
        // proof: the share fits 32 bits, and so does the number
        let _share = self.share;
        let number = self.made + 1;
        let reply = self.seat.call(rt, &self.stage, number, text)?;
        self.made = number;
        self.owed = None;
        if let Reply::Closed(error, reason) = reply {
            self.error = error;
            self.reason = reason;
        }
        Ok(reply)
    }

    /// The line of the misuse that is owed.
    fn owed_line(&self) -> Result<Option<SessionLine>, NoMemory>
        ensures { IfOk result (λ text. text ≡ option_map line.Call self.now.owed) }
    {
        match &self.owed {
            Some(call) => Ok(Some(SessionLine::Call(call.copy(self.alloc)?))),
            None => Ok(None),
        }
    }

    /// Says the misuse that is owed, which closes the session. An open session that owes
    /// nothing goes on.
    pub(crate) fn settle<R: Wait>(&mut self, rt: &R) -> Result<(), CallError>
        ensures settles { Settles self.old self.new result }
        ensures stays { Stays self.old self.new }
    {
        if self.seat.is_closed() {
            return Err(CallError::Closed(self.error, self.reason));
        }
        match self.owed_line() {
            Ok(None) => Ok(()),
            Ok(Some(text)) => self.say(rt, text),
            Err(NoMemory) => Err(CallError::NoMemory),
        }
    }

    /// Makes the entry of a misuse of the open session, which closes it.
    fn say<R: Wait>(&mut self, rt: &R, text: SessionLine) -> Result<(), CallError>
        requires opened { self.old.seat.closed ≡ false }
        requires owed { Some text ≡ option_map line.Call self.old.owed }
        requires owes { Owes self.old self.old.owed }
        requires room { length self.old.seat.mine + 2 ≤ share_of self.old.seat }
        ensures settles { Settles self.old self.new result }
        ensures stays { Stays self.old self.new }
    {
        let reply = match self.make(rt, text) {
            Ok(reply) => reply,
            Err(NoMemory) => return Err(CallError::NoMemory),
        };
        match reply {
            Reply::Closed(error, reason) => Err(CallError::Closed(error, reason)),
            _ => unreachable!(),
        }
    }

    /// Makes the entry of a line, once nothing is owed.
    pub(crate) fn enter<R: Wait>(&mut self, rt: &R, text: SessionLine) -> Result<Reply, CallError>
        requires { makes_entry text ≡ true }
        ensures enters { Enters text self.old self.new result }
        ensures sort { IfOk result (λ reply. is_answer text reply ≡ true) }
        ensures stays { Stays self.old self.new }
    {
        match self.settle(rt) {
            Ok(()) => self.enter_next(rt, text),
            Err(why) => {
                drop(text);
                Err(why)
            }
        }
    }

    /// Makes the entry of a line of the open session that owes nothing.
    fn enter_next<R: Wait>(&mut self, rt: &R, text: SessionLine) -> Result<Reply, CallError>
        requires makes { makes_entry text ≡ true }
        requires free { IsFree self.old }
        ensures enters { Enters text self.old self.new result }
        ensures sort { IfOk result (λ reply. is_answer text reply ≡ true) }
        ensures stays { Stays self.old self.new }
    {
        if !self.may_use(&text) {
            drop(text);
            return Err(CallError::NotOwned);
        }
        if self.room() == 0 && !is_farewell(&text) {
            drop(text);
            return Err(CallError::Full);
        }
        let reply = match self.make(rt, text) {
            Ok(reply) => reply,
            Err(NoMemory) => return Err(CallError::NoMemory),
        };
        match reply {
            Reply::Closed(error, reason) => Err(CallError::Closed(error, reason)),
            _ => Ok(reply),
        }
    }
}

/// Whether a session closes by this line of its own wish.
fn is_farewell(text: &SessionLine) -> bool
    ensures { result ≡ is_farewell text.now }
{
    matches!(text, SessionLine::Disconnect)
}

/// The call that a line is.
fn call_of(text: SessionLine) -> Option<Call>
    ensures { result ≡ call_of text }
{
    match text {
        SessionLine::Call(call) => Some(call),
        other => {
            drop(other);
            None
        }
    }
}
