//! The plain data of the scene service: calls, script lines, trees, entries,
//! events and frames, with the definitions of what they mean.
//!
//! The types stand in the files of src/ by what they are of; what they mean in specs/:
//! History, Draft (with Effect and Misuse), Tree, Frames, Family, Interleave.
//!
//! Other crates may cite the lemmas of proofs/lemmas/: steps of a history (Steps), members
//! of a family (Members, FamilyLeast), what presents show (Presented) and take
//! (TakingLemmas), ways that come back (CycleLemmas), the first reason of several tests
//! (FirstReasons).
#![tactic(auto)]

mod calls;
mod copies;
mod frames;
mod journal;
mod laws;
mod script;
mod setup;
mod trees;

pub use calls::{
    BlendMode, Call, HitRegion, ImageFlip, Inset, Interaction, PresentArgs, RegionList,
    TransformList, ViewportProps, Watch,
};
pub use frames::{
    DrawItem, FrameOut, Hit, HitList, ItemList, LostDisplay, NodeList, Paint, RectList,
    SceneMatrix, SessionSet, ViewNode, ViewTree, is_node,
};
pub use journal::{
    CallList, Entry, EntryKind, Event, Journal, Layout, PostedEvent, Reply, WatcherValue,
};
pub use laws::{draft_laws, history_laws};
pub use script::{
    DisplayLine, LineBody, LineList, ProbeLine, ScriptLine, SessionLine, WaitCondition,
};
pub use setup::{BufferDecl, BufferList, FenceDecl, FenceDeclList, PairDecl, PairList, Setup};
pub use trees::{Children, Content, GraphFault, HeldContent, Node, Tree, UseList, ViewportUse};
