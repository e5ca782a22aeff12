//! The words that every crate of the scene service shares: numbers that name
//! things, errors and reasons, rectangles, fixed point, limits, and the two
//! containers that contracts see as their content.
//!
//! `fixed` rounds and saturates by specs/Fixed, `limits` has each limit of a script, and
//! `ids` and `errors` the numbers that reports write (specs/Number).
//!
//! Other crates may cite the lemmas of proofs/lemmas/: tests that hold together
//! (Tests).
#![tactic(auto)]

mod boxed;
mod copying;
mod errors;
mod fixed;
mod ids;
mod items;
mod limits;
mod roomy;
mod shapes;

pub use boxed::Boxed;
pub use copying::TryCopy;
pub use errors::{FlatlandError, NoMemory, Reason};
pub use fixed::{clamp_entry, clamp_place, mul};
pub use ids::{Actor, BufferNo, ContentId, FenceNo, FrameNo, PairNo, SessionNo, TransformId};
pub use items::{ActorList, FenceList, Items, SessionList, ShareList};
pub use limits::{
    BUFFER_COLLECTIONS_MAX, BUFFERS_PER_COLLECTION_MAX, CHILDREN_MAX, COLOUR_MAX, ENTRY_MAX,
    FENCES_MAX, FENCES_PER_LIST_MAX, FIRST_CREDITS, FRAMES_MAX, FULL_CREDITS, HIT_REGIONS_MAX,
    INSET_MAX, LINE_BYTES_MAX, LINES_PER_ACTOR_MAX, LOAD_FRAMES_MAX, NAME_BYTES_MAX, NAMED_MAX,
    ONE, OPACITY_MAX, PAIRS_MAX, PATH_NODES_MAX, PLACE_MAX, PROBES_MAX, RATIO_MAX, RATIO_MIN,
    RATIO_SINCE, SCALE_MAX, SCRIPT_BYTES_MAX, SESSIONS_MAX, SIDE_MAX, TIME_MAX, TREE_NODES_MAX,
    UNSQUASHABLE_SINCE, VERSION_MAX,
};
pub use roomy::Roomy;
pub use shapes::{IntRect, Orientation, Rect};
