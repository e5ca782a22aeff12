/// Three frames of one state, each at another pixel ratio: inside the first two the next
/// one is set.
pub const RATIOS: &[u8] = b"flatland 3
display 100 100
session A
pair t0 display A
probe P
run
A CreateView t0
A CreateTransform 1
A SetRootTransform 1
A CreateFilledRect 2
A SetSolidFill 2 255 0 0 255 10 10
A SetContent 1 2
A SetHitRegions 1 0 0 10 10 0
A Present 0
display begin 1000
display dpr 131072
display done
display hit 15 15
display begin 2000
display dpr 16384
display done
display hit 15 15
P hit 15 15
A GetLayout
display begin 3000
display done
display hit 15 15
";

/// Its entries and the probe's line in written order: the numbers of actor and line.
pub const RATIOS_ORDER: [(u32, u32); 16] = [
    (1, 7),
    (1, 14),
    (0, 15),
    (0, 16),
    (0, 17),
    (0, 18),
    (0, 19),
    (0, 20),
    (0, 21),
    (0, 22),
    (2, 23),
    (1, 24),
    (0, 25),
    (0, 26),
    (0, 27),
    (1, 28),
];

/// The report of it in this order: a frame is of the ratio at its begin, and so are its
/// hits, and the layout that is told behind it.
pub const RATIOS_REPORTED: &[u8] = b"report flatland 3
A 7 CreateView ok
A 14 Present 1 credits 0
display 15 begin 1000 frame 1
> A credits 5
display 16 dpr ok
display 17 done frame 1
item A 1 fill 255 0 0 255 10 10 m 0 65536 65536 0 0 v 0 0 655360 655360 o 65536 src
view A - 0 0 6553600 6553600
> A framepresented 1
display 18 hit 15 15 frame 1
display 19 begin 2000 frame 2
display 20 dpr ok
display 21 done frame 2
item A 1 fill 255 0 0 255 10 10 m 0 131072 131072 0 0 v 0 0 1310720 1310720 o 65536 src
view A - 0 0 6553600 6553600
display 22 hit 15 15 frame 2 A 0
A 24 GetLayout now 50 50 inset 0 0 0 0 ratio 131072
display 25 begin 3000 frame 3
display 26 done frame 3
item A 1 fill 255 0 0 255 10 10 m 0 16384 16384 0 0 v 0 0 163840 163840 o 65536 src
view A - 0 0 6553600 6553600
display 27 hit 15 15 frame 3
A end 0
P 23 hit 15 15 frame 2 A 0
report ends entries 15 frames 3
";
