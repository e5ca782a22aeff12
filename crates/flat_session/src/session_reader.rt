ghost use Rattle.std.specs.Prelude.{◌≡◌, ◌+◌, ◌-◌, ◌<◌, ◌≢◌, ◌^◌, List, [], ◌∷◌, ◌++◌, true, false};
ghost use Rattle.std.specs.Prelude.{length, slice_get, take};
ghost use Rattle.std.specs.Prelude.{Some, None, IfOk, IfErr, OnErr, IsTrue, IfSome};
ghost use Rattle.flat_base.specs.Last.{last_item};
ghost use Rattle.flat_base.specs.declared.ids.Actor.TheVariants.{Session};
ghost use Rattle.flat_scene.specs.declared.script.SessionLine.TheVariants as line;
ghost use Rattle.flat_scene.specs.declared.setup.Setup.{Setup};
ghost use Rattle.flat_scene.specs.Draft as scene;
ghost use Rattle.flat_scene.specs.Effect.{effect};
ghost use Rattle.flat_scene.specs.History.{closes, own};
ghost use Rattle.flat_scene.specs.Misuse.{misuse};
ghost use Rattle.flat_core.specs.Machines.{HasShare, entered};
ghost use Rattle.flat_scene.specs.declared.journal.EntryKind.TheVariants.{End};
ghost use Rattle.flat_scene.specs.declared.journal.Reply.TheVariants.{Done, Closed};
ghost use Rattle.flat_scene.specs.declared.journal.Entry.{Entry};
ghost use Rattle.flat_draft.specs.Answers.{has_room_for, uses_an_end};
ghost use Rattle.flat_draft.specs.Stands.{StandsFor};
ghost use Rattle.flat_scene.specs.Setups.{is_declared};
ghost use Rattle.flat_scene.specs.Heads.{is_setup};
ghost use Rattle.flat_rules.specs.Owned.{is_played_line};
ghost use Rattle.flat_session.specs.Made.{kind_of, takes_memory};
ghost use Rattle.flat_session.specs.Reads.{HasDraft, IsNew, Stands, IsReady, Tells, Enters, Reads};
ghost use Rattle.flat_session.specs.Reads.{kept_calls, viewport_call, with_line, CanMake, Edits, IsMade};
ghost use Rattle.flat_session.specs.Prepared.{HasStood, Prepares};

use crate::judging::{asked, called, presented};
use crate::requested_entry::RequestedEntry;
use flat_base::{NoMemory, SessionNo};
use flat_content::content_laws;
use flat_core::{Board, EventList};
use flat_draft::{Draft, DraftFault, draft_laws};
use flat_scene::{BufferList, Call, CallList, Reply, SessionLine};
use flat_states::replies::closes;
use std::alloc::Global;
use std::mem;

/// What came of a line that may make no entry.
#[derive(Drop)]
pub enum EditOutcome {
    /// It was read, with this reply.
    Read(Reply),
    /// It makes an entry, so it comes back unread.
    Unread(SessionLine),
}

/// What came of a line, before an entry is made.
#[derive(Drop)]
pub enum PreparedLine {
    /// The session is closed: the line is answered so, and counted.
    Refused(Reply),
    /// The line makes no entry, and has this reply: its call waits for the next one.
    Waits(Reply),
    /// The session is ready to make this entry.
    Enters(RequestedEntry),
}

/// A session that reads its lines: what it has beside its entries.
#[derive(Drop)]
pub struct SessionReader {
    pub alloc: Global,
    pub session: SessionNo,
    /// What its calls made, those that wait among them.
    pub draft: Draft,
    /// The calls that its next entry carries.
    pub pending: CallList,
    /// What its polls handed over.
    pub events: EventList,
    /// How many lines came after the one that closed it.
    pub refused: u32,
    pub closed: bool,
}

impl SessionReader {
    /// A session of a setup with these buffers, which has read no line.
    pub fn new(
        alloc: Global,
        session: SessionNo,
        buffers: &BufferList,
    ) -> Result<SessionReader, NoMemory>
        requires { (setup : Setup) × (is_setup setup ≡ true) × (buffers.now ≡ setup.buffers) }
        ensures { (setup : Setup) → buffers.now ≡ setup.buffers → is_declared setup session ≡ true →
            IfOk result (IsNew setup session) }
    {
        draft_laws();
        content_laws();
        let buffers = buffers.copy(alloc)?;
        Ok(SessionReader {
            alloc,
            session,
            draft: Draft::new(alloc, buffers),
            pending: CallList::new(alloc),
            events: EventList::new(alloc),
            refused: 0,
            closed: false,
        })
    }

    /// Reads a line: it makes its entry, or its call waits for the next one. A misuse
    /// closes the session, and each line after that is answered so and counted.
    ///
    /// If memory runs out, the line is dropped and makes no entry.
    pub fn call(
        &mut self,
        board: &mut Board,
        number: u32,
        text: SessionLine,
    ) -> Result<Reply, NoMemory>
        requires owned { is_played_line board.old.setup self.old.session text ≡ true }
        requires share { HasShare board.old (Session self.old.session) }
        requires few { self.old.refused + 1 < 2 ^ 32 }
        requires stands { Stands board.old.setup (own self.old.session board.old.history) self.old }
        ensures reads { IfOk result (λ reply. Reads number text reply board.old board.new self.old
            self.new self.old.closed) }
        ensures stands { Stands board.new.setup (own self.old.session board.new.history) self.new }
        ensures same { OnErr result (board.new ≡ board.old) }
        ensures kept { OnErr result (self.new ≡ record self.old { draft = self.new.draft }) }
    {
        match self.prepare(text)? {
            PreparedLine::Refused(reply) => Ok(reply),
            PreparedLine::Waits(reply) => Ok(reply),
            PreparedLine::Enters(made) => self.enter(board, number, made),
        }
    }

    /// Reads a line up to its entry, which [`SessionReader::enter`] makes. It needs no board,
    /// so a session may prepare its entry while others make theirs.
    ///
    /// If memory runs out, the line is dropped.
    pub fn prepare(&mut self, text: SessionLine) -> Result<PreparedLine, NoMemory>
        requires stands { HasStood self.old }
        requires few { self.old.refused + 1 < 2 ^ 32 }
        ensures prepares { (setup : Setup) (mine : List Entry) → Stands setup mine self.old →
            is_played_line setup self.old.session text ≡ true →
            IfOk result (Prepares setup mine text self.old self.new) }
        ensures same { OnErr result (self.new ≡ self.old) }
    {
        if self.closed {
            drop(text);
            return Ok(PreparedLine::Refused(self.refuse()));
        }
        match self.judge(text)? {
            None => Ok(PreparedLine::Waits(Reply::Done)),
            Some(made) => Ok(PreparedLine::Enters(made)),
        }
    }

    /// Answers a line that came after the one that closed the session, and counts it.
    pub fn refuse(&mut self) -> Reply
        requires few { self.old.refused + 1 < 2 ^ 32 }
        ensures reply { result ≡ Closed None None }
        ensures rest { self.new ≡ record self.old { refused = self.old.refused + 1 } }
    {
        self.refused += 1;
        Reply::Closed(None, None)
    }

    /// Ends the session's entries. It takes no memory.
    pub fn end(&mut self, board: &mut Board, number: u32) -> Reply
        requires share { HasShare board.old (Session self.old.session) }
        requires stands { Stands board.old.setup (own self.old.session board.old.history) self.old }
        ensures reply { result ≡ Done }
        ensures entry { board.new ≡ entered board.old (Session self.old.session) number
            self.old.pending (End self.old.refused) Done }
        ensures rest { self.new ≡ record self.old { pending = [] } }
    {
        let calls = mem::replace(&mut self.pending, CallList::new(self.alloc));
        board.end(self.session, number, calls, self.refused)
    }

    /// What the polls handed over since they were last asked for.
    pub fn take_events(&mut self) -> EventList
        ensures events { result ≡ self.old.events }
        ensures rest { self.new ≡ record self.old { events = [] } }
    {
        mem::replace(&mut self.events, EventList::new(self.alloc))
    }

    /// What a line makes, if the session isn't closed: its entry, or none. Its call
    /// waits for the next entry.
    fn judge(&mut self, text: SessionLine) -> Result<Option<RequestedEntry>, NoMemory>
        requires stands { HasDraft self.old.draft }
        requires opened { self.old.draft.closed ≡ false }
        ensures rest { IfOk result (λ _. self.new ≡ with_line text self.old self.new.draft) }
        ensures tells { (setup : Setup) (draft : scene.Draft) →
            StandsFor setup self.old.draft draft → is_played_line setup self.old.session text
            ≡ true → IfOk result (Tells setup self.old.session draft text self.new.draft) }
        ensures same { OnErr result (self.new ≡ self.old) }
    {
        match text {
            SessionLine::Call(call) => self.judge_call(call),
            SessionLine::Present(args) => presented(&mut self.draft, args),
            SessionLine::Get(get) => Ok(Some(asked(&mut self.draft, get))),
            SessionLine::Signal(f) => Ok(Some(RequestedEntry::Signal(f))),
            SessionLine::Poll => Ok(Some(RequestedEntry::Poll)),
            SessionLine::Wait(c) => Ok(Some(RequestedEntry::Wait(c))),
            SessionLine::Disconnect => Ok(Some(RequestedEntry::Close(None))),
        }
    }

    fn judge_call(&mut self, call: Call) -> Result<Option<RequestedEntry>, NoMemory>
        requires stands { HasDraft self.old.draft }
        requires opened { self.old.draft.closed ≡ false }
        ensures rest { IfOk result (λ _. self.new
            ≡ with_line (line.Call call) self.old self.new.draft) }
        ensures tells { (setup : Setup) (draft : scene.Draft) →
            StandsFor setup self.old.draft draft →
            is_played_line setup self.old.session (line.Call call) ≡ true →
            IfOk result (Tells setup self.old.session draft (line.Call call) self.new.draft) }
        ensures same { OnErr result (self.new ≡ self.old) }
    {
        self.pending.push(call)?;
        let place = self.pending.len() - 1;
        match called(&mut self.draft, self.pending.at(place)) {
            Ok(made) => Ok(made),
            Err(NoMemory) => {
                let _ = self.pending.pop();
                Err(NoMemory)
            }
        }
    }

    /// Reads a line that makes no entry: its call waits for the next entry. Any other
    /// line comes back, and nothing changed.
    pub fn edit(&mut self, text: SessionLine) -> Result<EditOutcome, NoMemory>
        requires stands { HasDraft self.old.draft }
        requires opened { self.old.draft.closed ≡ false }
        ensures edits { (setup : Setup) (draft : scene.Draft) →
            StandsFor setup self.old.draft draft → is_played_line setup self.old.session text
            ≡ true → IfOk result (Edits setup draft text self.old self.new) }
        ensures same { OnErr result (self.new ≡ self.old) }
    {
        match text {
            SessionLine::Call(call) => self.edit_call(call),
            other => Ok(EditOutcome::Unread(other)),
        }
    }

    fn edit_call(&mut self, call: Call) -> Result<EditOutcome, NoMemory>
        requires stands { HasDraft self.old.draft }
        requires opened { self.old.draft.closed ≡ false }
        ensures edits { (setup : Setup) (draft : scene.Draft) →
            StandsFor setup self.old.draft draft →
            is_played_line setup self.old.session (line.Call call) ≡ true →
            IfOk result (Edits setup draft (line.Call call) self.old self.new) }
        ensures same { OnErr result (self.new ≡ self.old) }
    {
        if uses_an_end(&call) {
            return Ok(EditOutcome::Unread(SessionLine::Call(call)));
        }
        self.pending.push(call)?;
        let place = self.pending.len() - 1;
        match self.draft.try_call(self.pending.at(place)) {
            Ok(()) => Ok(EditOutcome::Read(Reply::Done)),
            Err(DraftFault::Bad(_)) => Ok(EditOutcome::Unread(SessionLine::Call(take_last(
                &mut self.pending,
            )))),
            Err(DraftFault::Memory) => {
                let _ = self.pending.pop();
                Err(NoMemory)
            }
            Err(DraftFault::Closed) => unreachable!(),
        }
    }

    /// Makes the entry that the session is about to make. If memory runs out, it can
    /// still be made, but for the call of a viewport, which doesn't wait any more.
    pub fn enter(
        &mut self,
        board: &mut Board,
        number: u32,
        made: RequestedEntry,
    ) -> Result<Reply, NoMemory>
        requires ready { IsReady board.old.setup (own self.old.session board.old.history) self.old
            made }
        requires share { HasShare board.old (Session self.old.session) }
        ensures enters { IfOk result (λ reply. Enters number (kind_of made) reply board.old
            board.new self.old self.new) }
        ensures stands { Stands board.new.setup (own self.old.session board.new.history) self.new }
        ensures same { OnErr result (board.new ≡ board.old) }
        ensures only { OnErr result (takes_memory made ≡ true) }
        ensures kept { OnErr result (self.new
            ≡ record self.old { pending = kept_calls (viewport_call made) self.old.pending }) }
    {
        let calls = mem::replace(&mut self.pending, CallList::new(self.alloc));
        let link = viewport_call(&made);
        match made.enter(board, self.session, number, calls, &mut self.events) {
            Ok(reply) => {
                make(&mut self.draft, link);
                self.closed = closes(reply);
                Ok(reply)
            }
            Err(calls) => {
                self.pending = calls;
                drop_last(&mut self.pending, link);
                Err(NoMemory)
            }
        }
    }
}

/// Whether a call uses an end of a pair, so that it makes an entry.
fn uses_an_end(call: &Call) -> bool
    ensures { result ≡ uses_an_end call.now }
{
    matches!(call, Call::CreateView { .. } | Call::CreateViewport { .. })
}

/// Takes the last of the calls that wait.
fn take_last(pending: &mut CallList) -> Call
    requires { [] ≢ pending.old }
    ensures last { last_item pending.old ≡ Some result }
    ensures rest { pending.new ≡ take (length pending.old - 1) pending.old }
{
    match pending.pop() {
        Some(call) => call,
        None => unreachable!(),
    }
}

/// The call of a viewport's entry, which is still to be made of the draft.
fn viewport_call(made: &RequestedEntry) -> Option<Call>
    ensures { result ≡ viewport_call made.now }
{
    match made {
        RequestedEntry::Viewport(c, pair, props) => Some(Call::CreateViewport {
            c: *c,
            pair: *pair,
            w: props.w,
            h: props.h,
            inset: props.inset,
        }),
        _ => None,
    }
}

/// Makes a viewport's call of a draft that has the room for it.
fn make(draft: &mut Draft, link: Option<Call>)
    requires { CanMake draft.old link }
    ensures { (setup : Setup) (before : scene.Draft) → StandsFor setup draft.old before →
        IsMade setup before draft.old draft.new link }
{
    if let Some(call) = link {
        match draft.call(&call) {
            Ok(()) => {}
            Err(_) => unreachable!(),
        }
    }
}

/// Takes a viewport's call off those that wait.
fn drop_last(pending: &mut CallList, link: Option<Call>)
    ensures { pending.new ≡ kept_calls link pending.old }
{
    if link.is_some() {
        let _ = pending.pop();
    }
}
