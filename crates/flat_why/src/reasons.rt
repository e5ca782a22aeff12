//! What is said of a session that is not on the display, and of presents that wait
//! (specs/Reasons).
use flat_base::{FenceList, FenceNo, FlatlandError, PairNo, Reason, Rect, SessionNo};

/// How a session was closed.
#[derive(Clone, Copy)]
pub struct CloseReason {
    /// The number of the line that closed it.
    pub line: u32,
    pub error: Option<FlatlandError>,
    pub reason: Option<Reason>,
}

/// A present that was made: what it may have to wait for.
#[derive(Drop)]
pub struct MadePresent {
    pub session: SessionNo,
    /// Its number among the presents of its session, from 1.
    pub number: u32,
    pub time: u64,
    pub acquire: FenceList,
}

/// What holds a present back.
#[derive(Clone, Copy)]
pub enum HoldReason {
    /// Its time, which is still to come.
    Time(u64),
    /// The first of its acquire fences that isn't signalled.
    Fence(FenceNo),
    /// Nothing but presents before it, which wait too.
    Behind,
    /// Nothing but the present before it, which this frame has to show.
    Unsquashable,
}

/// A present that a frame left waiting.
#[derive(Clone, Copy)]
pub struct PendingPresent {
    pub session: SessionNo,
    pub number: u32,
    pub hold: HoldReason,
}

/// Why a viewport is on no node that its owner shows.
#[derive(Clone, Copy)]
pub enum UnplacedReason {
    /// It was never made.
    Unmade,
    /// No frame has taken a present made after it.
    Unshown,
    /// It was released or cleared, and a frame has seen that.
    Ended,
    /// It is there, but hangs on no node that the root reaches.
    Loose,
}

/// Why a session hangs nowhere.
#[derive(Clone, Copy)]
pub enum DetachedReason {
    /// It is closed.
    Closed(CloseReason),
    /// It has made no present.
    Unpresented,
    /// Its first present waits.
    Held(HoldReason),
    /// What it shows has no view.
    Viewless,
    /// The viewport of its view's pair is on no node that the pair's owner shows.
    Parted {
        parent: SessionNo,
        pair: PairNo,
        why: UnplacedReason,
    },
}

/// Where a session hangs.
#[derive(Clone, Copy)]
pub enum AttachPoint {
    /// On the display itself.
    OnDisplay,
    /// Below a viewport that another session shows.
    Below(SessionNo),
    /// Nowhere.
    Nowhere(DetachedReason),
}

/// Why a session is not on the display.
#[derive(Clone, Copy)]
pub enum HiddenReason {
    /// It hangs nowhere.
    Unhung(DetachedReason),
    /// The session below which it hangs isn't on the display.
    Parent(SessionNo),
    /// It hangs below itself, directly or through others.
    Cycle,
}

/// Why a session that is on the display draws nothing.
#[derive(Clone, Copy)]
pub enum BlankReason {
    /// It shows no node.
    Rootless,
    /// None of its nodes has an image, or a rectangle with a colour.
    Contentless,
    /// All that have one are seen through with an opacity of 0.
    Transparent,
    /// All others have no size on the display.
    Sizeless,
    /// All others are cut away, or lie outside of the display.
    Clipped,
}

/// What is said of a session that is on the display.
#[derive(Clone, Copy)]
pub struct DisplayedSession {
    /// Its view's rectangle, in places.
    pub bounds: Rect,
    /// How many draw items are its own.
    pub items: usize,
    /// Why there is none, if there is none.
    pub blank: BlankReason,
}
