use crate::calls::{Call, Inset, PresentArgs, ViewportProps, Watch};
use crate::script::WaitCondition;
use flat_base::{Actor, FenceNo, FlatlandError, Items, PairNo, Reason, SessionNo};

/// The layout that a parent gives to a view.
#[derive(Clone, Copy, PartialEq, Eq)]
pub struct Layout {
    /// The logical size, in units.
    pub w: u32,
    pub h: u32,
    pub inset: Inset,
    /// The device pixel ratio, in fixed point.
    pub ratio: u32,
}

/// What a watcher tells.
#[derive(Clone, Copy, PartialEq, Eq)]
pub enum WatcherValue {
    Layout(Layout),
    /// The view is shown on the display.
    Connected,
    /// It isn't.
    Disconnected,
    /// The child shows a state in which its view is that of the viewport's pair.
    HasPresented,
    /// The other end is lost, for good.
    Gone,
}

/// What the service tells a session without being asked.
#[derive(Clone, Copy)]
pub enum Event {
    /// A held get of that pair's watcher is answered.
    Told(PairNo, Watch, WatcherValue),
    /// A frame ended that took so many presents of the session.
    FramePresented(u32),
    /// The viewport end of a pair may be used again.
    TokenBack(PairNo),
    /// So many credits were gained.
    Credits(u32),
}

/// The answer to a line.
#[derive(Clone, Copy, PartialEq, Eq)]
pub enum Reply {
    /// It was done.
    Done,
    /// The present's number, from 1, and the credits left.
    Presented { number: u32, credits: u32 },
    /// The get waits for a value.
    Held,
    /// The get is answered at once.
    Now(WatcherValue),
    /// So many events were handed over.
    Polled(u32),
    /// The value looked at is at least what was asked.
    Met(u32),
    /// It isn't.
    Unmet(u32),
    /// The session is closed: by an error, which BAD_OPERATION says with a reason,
    /// or with neither by its own wish or before.
    Closed(Option<FlatlandError>, Option<Reason>),
}

/// The kind of an entry.
#[derive(Drop)]
pub enum EntryKind {
    /// CreateView.
    View(PairNo),
    /// CreateViewport.
    Viewport(PairNo, ViewportProps),
    Present(PresentArgs),
    Get(Watch),
    Signal(FenceNo),
    Poll,
    Wait(WaitCondition),
    /// The session closes: with the reason of a misuse, or by its own wish.
    Close(Option<Reason>),
    /// The session's lines are at their end; so many of them came after the one
    /// that closed it.
    End(u32),
    /// A frame begins at that time.
    Begin(u64),
    /// The open frame is done.
    Finish,
    /// A point of the display, in units.
    Hit(i32, i32),
    /// The display's pixel ratio, in fixed point, from the next begin on.
    Dpr(u32),
}

/// Calls, in the order in which they were made.
pub type CallList = Items<Call>;

/// One event of the service: a call that touches what is shared, a present, or an
/// event of a frame.
#[derive(Drop)]
pub struct Entry {
    pub actor: Actor,
    /// The number of the script's line that made it, from 1.
    pub line: u32,
    /// The calls of its session since the session's entry before, in order.
    pub calls: CallList,
    pub kind: EntryKind,
    pub reply: Reply,
}

/// An event, with the place in the journal, from 0, of the entry that posts it.
#[derive(Clone, Copy)]
pub struct PostedEvent {
    pub entry: u32,
    pub session: SessionNo,
    pub event: Event,
}

/// All entries and all events posted, oldest first. Contracts see the room.
#[derive(Drop)]
pub struct Journal {
    pub entries: Vec<Entry>,
    pub posts: Vec<PostedEvent>,
}
