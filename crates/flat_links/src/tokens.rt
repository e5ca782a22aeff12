use flat_base::PairNo;

/// The token of a viewport end that was used, and hasn't come back since.
#[derive(Clone, Copy, PartialEq, Eq)]
pub struct OutToken {
    pub pair: PairNo,
    /// How many presents its owner had made when the viewport of the last use was
    /// released; None where it wasn't.
    pub released: Option<u32>,
}
