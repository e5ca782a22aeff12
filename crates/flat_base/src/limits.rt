// What a limit says of "beyond it" is what the service answers there: a script
// fault by its kind, or a misuse by its reason.

/// Bytes of a script, 16 MiB. Beyond it: script fault 1.
pub const SCRIPT_BYTES_MAX: usize = 16_777_216;

/// The latest version of scripts; the first is 1. Beyond it: script fault 13.
pub const VERSION_MAX: u32 = 3;

/// The first version that has unsquashable presents and `ReplaceChildren`.
pub const UNSQUASHABLE_SINCE: u32 = 2;

/// The first version in which a script gives the display's pixel ratio.
pub const RATIO_SINCE: u32 = 3;

/// The least pixel ratio of the display, in fixed point: a quarter. Below it: script
/// fault 7.
pub const RATIO_MIN: u32 = 16_384;

/// The greatest pixel ratio of the display, in fixed point: 16. Beyond it: script
/// fault 7.
pub const RATIO_MAX: u32 = 1_048_576;

/// Bytes of one line of a script. Beyond it: script fault 3.
pub const LINE_BYTES_MAX: usize = 1_024;

/// Bytes of a declared name. Beyond it: script fault 4.
pub const NAME_BYTES_MAX: usize = 16;

/// Sessions of a script, of which there is at least one. Beyond it: script fault 11.
pub const SESSIONS_MAX: u32 = 16;

/// Probes of a script. Beyond it: script fault 11.
pub const PROBES_MAX: u32 = 8;

/// Body lines of one actor. Beyond it: script fault 11.
pub const LINES_PER_ACTOR_MAX: u32 = 65_536;

/// Frames of a script. Beyond it: script fault 11.
pub const FRAMES_MAX: u32 = 512;

/// Frames of the built-in load, from 1 on. Beyond it the command words are faulty.
pub const LOAD_FRAMES_MAX: u32 = 500;

/// Pairs of a script. Beyond it: script fault 11.
pub const PAIRS_MAX: u32 = 4_096;

/// Fences of a script. Beyond it: script fault 11.
pub const FENCES_MAX: u32 = 4_096;

/// Buffer collections of a script. Beyond it: script fault 11.
pub const BUFFER_COLLECTIONS_MAX: u32 = 256;

/// Buffers of one collection, from 1 on. Beyond it: script fault 7.
pub const BUFFERS_PER_COLLECTION_MAX: u32 = 64;

/// Transforms of a session that have a name at one time, and contents likewise.
/// Beyond it: `TooManyNamed`.
pub const NAMED_MAX: u32 = 1_024;

/// Children of one transform. Beyond it: `TooManyChildren`.
pub const CHILDREN_MAX: u32 = 64;

/// Hit regions of one transform. Beyond it: `TooManyRegions`.
pub const HIT_REGIONS_MAX: u32 = 16;

/// Nodes of a presented tree, one for each path from the root. Beyond it:
/// `TreeTooLarge`.
pub const TREE_NODES_MAX: u32 = 1_024;

/// Nodes on one path from the root of a presented tree. Beyond it:
/// `TreeTooLarge`.
pub const PATH_NODES_MAX: u32 = 64;

/// Fences in one list of a present. Beyond it: `TooManyFences`.
pub const FENCES_PER_LIST_MAX: u32 = 16;

/// A side in units: of the display, an image, a fill, a viewport. Sides begin
/// at 1. Beyond it: `BadSize`, or script fault 7 in the head of a script.
pub const SIDE_MAX: u32 = 65_536;

/// An inset in units. Beyond it: script fault 7.
pub const INSET_MAX: u32 = 65_536;

/// A channel of a colour. Beyond it: script fault 7.
pub const COLOUR_MAX: u32 = 255;

/// A time of a present or of a frame's begin, 2^63 - 1. Beyond it: script fault 7.
pub const TIME_MAX: u64 = 9_223_372_036_854_775_807;

/// One, in fixed point with 16 bits below the point.
pub const ONE: u32 = 65_536;

/// A scale, in fixed point: 256 times the size. Scales begin at 1. Beyond it:
/// `BadScale`.
pub const SCALE_MAX: u32 = 16_777_216;

/// A full opacity, in fixed point. Beyond it: `BadOpacity`.
pub const OPACITY_MAX: u32 = 65_536;

/// The greatest entry of a matrix, 2^31. The least is its negative. Entries
/// beyond it saturate.
pub const ENTRY_MAX: i64 = 2_147_483_648;

/// The greatest place, 2^46. The least is its negative. Places beyond it
/// saturate.
pub const PLACE_MAX: i64 = 70_368_744_177_664;

/// Presents that may wait before a frame took one of the session. Beyond it:
/// `NoPresentsRemaining`.
pub const FIRST_CREDITS: u32 = 1;

/// Presents that may wait from then on. Beyond it: `NoPresentsRemaining`.
pub const FULL_CREDITS: u32 = 5;
