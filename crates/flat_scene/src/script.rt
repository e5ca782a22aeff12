use crate::calls::{Call, PresentArgs, Watch};
use flat_base::{Actor, FenceNo, Items, SessionNo};

/// What a Wait asks for: at least so many of them.
#[derive(Clone, Copy)]
pub enum WaitCondition {
    /// Finished frames.
    Frames(u32),
    /// Credits of the session.
    Credits(u32),
    /// Presents of the session that frames took.
    Taken(u32),
    /// Answers that the session's gets had.
    Answers(u32),
    /// The fence is signalled.
    Fence(FenceNo),
    /// Presents that a session made. The compositor's alone.
    Presents(SessionNo, u32),
}

/// A line of a session.
#[derive(Drop)]
pub enum SessionLine {
    Call(Call),
    Present(PresentArgs),
    Get(Watch),
    Signal(FenceNo),
    Poll,
    Wait(WaitCondition),
    /// Closes the session without an error.
    Disconnect,
}

/// A line of the compositor.
#[derive(Clone, Copy)]
pub enum DisplayLine {
    /// Begins a frame at that time.
    Begin(u64),
    /// Ends the open frame.
    Done,
    Signal(FenceNo),
    Wait(WaitCondition),
    /// Asks who is hit at a point of the display, in units.
    Hit(i32, i32),
    /// Sets the display's pixel ratio, in fixed point, from the next begin on. Only
    /// scripts of version 3 and above can say so.
    Dpr(u32),
}

/// A line of a probe.
#[derive(Clone, Copy)]
pub enum ProbeLine {
    /// Asks who is hit at a point of the display, in units.
    Hit(i32, i32),
    /// Looks until a frame of that number or a later one is published.
    Await(u32),
}

/// What a line says, by the sort of its actor.
#[derive(Drop)]
pub enum LineBody {
    Session(SessionLine),
    Display(DisplayLine),
    Probe(ProbeLine),
}

/// A body line of a script.
#[derive(Drop)]
pub struct ScriptLine {
    /// Its place among all lines of the text, from 1.
    pub number: u32,
    pub actor: Actor,
    pub body: LineBody,
}

/// Body lines, in the order of the text.
pub type LineList = Items<ScriptLine>;
