use flat_base::Reason;

/// Why a draft refuses a call or a present.
#[derive(Drop)]
pub enum DraftFault {
    /// It is a misuse, which closes the draft. Of several reasons it is the first.
    Bad(Reason),
    /// A misuse closed the draft before.
    Closed,
    /// Memory ran out. The draft is as before, and the call may be made again.
    Memory,
}
