//! What probes are answered.
use flat_base::{Actor, FrameNo, Items};
use flat_scene::{HitList, ProbeLine};

/// The answer to a line of a probe.
#[derive(Drop)]
pub struct ProbeAnswer {
    pub actor: Actor,
    /// The number of the line.
    pub line: u32,
    /// What the line asks.
    pub asked: ProbeLine,
    /// The frame that it saw; 0 where there was none.
    pub frame: FrameNo,
    /// Who is hit in it; nobody by an await.
    pub hits: HitList,
}

/// Answers of one probe, in the order of its lines.
pub type ProbeAnswers = Items<ProbeAnswer>;
