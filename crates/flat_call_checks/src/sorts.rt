use flat_base::{FlatlandError, Reason};
use flat_scene::Reply;

/// A line of each sort that makes an entry, and a misuse that closes.
pub const SORTS: &[u8] = b"flatland 1
display 100 100
session A
pair t0 display A
fence f1 display A
run
A CreateView t0
A Present 0
display Wait presents A 1
display Signal f1
A Wait fence f1
display begin 1
display done
display hit 5 5
A Poll
A CreateTransform 0
A Poll
";

/// The report of it in written order.
pub const SORTS_REPORTED: &[u8] = b"report flatland 1
A 7 CreateView ok
A 8 Present 1 credits 0
display 9 Wait met 1
display 10 Signal ok
A 11 Wait met 1
display 12 begin 1 frame 1
> A credits 5
display 13 done frame 1
view A - 0 0 6553600 6553600
> A framepresented 1
display 14 hit 5 5 frame 1
A 15 Poll 2
A 16 closed BAD_OPERATION B1
A end 1
report ends entries 11 frames 1
";

/// The entries of `SORTS` in written order: actor, line and reply.
pub const SORTS_TOLD: [(u32, u32, Reply); 11] = [
    (1, 7, Reply::Done),
    (
        1,
        8,
        Reply::Presented {
            number: 1,
            credits: 0,
        },
    ),
    (0, 9, Reply::Met(1)),
    (0, 10, Reply::Done),
    (1, 11, Reply::Met(1)),
    (0, 12, Reply::Done),
    (0, 13, Reply::Done),
    (0, 14, Reply::Done),
    (1, 15, Reply::Polled(2)),
    (
        1,
        16,
        Reply::Closed(Some(FlatlandError::BadOperation), Some(Reason::ZeroId)),
    ),
    (1, 18, Reply::Done),
];
