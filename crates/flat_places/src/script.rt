use crate::name::NameList;
use flat_scene::{LineList, Setup};

/// What a text declares and says: the setup of its head, the names that the head
/// gives, and the lines of its body.
#[derive(Drop)]
pub struct Script {
    /// Of the grammar, from 1 to [`VERSION_MAX`](flat_base::VERSION_MAX). No rule of the service
    /// asks for it.
    pub version: u32,
    pub setup: Setup,
    /// Names in order of declaration. The numbers of sessions begin at 1, all
    /// others at 0.
    pub sessions: NameList,
    pub probes: NameList,
    pub buffers: NameList,
    pub pairs: NameList,
    pub fences: NameList,
    /// The lines of the body, in the order of the text.
    pub lines: LineList,
    /// How many lines the text has, with those that are skipped.
    pub count: u32,
}
