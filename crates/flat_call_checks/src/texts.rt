/// Two sessions that use an end each.
pub const TWO: &[u8] = b"flatland 1
display 100 100
session A
session B
pair t0 display A
pair t1 A B
run
A CreateView t0
B CreateView t1
";

/// The report of it where the second session comes first.
pub const TWO_REPORTED: &[u8] = b"report flatland 1
B 9 CreateView ok
A 8 CreateView ok
A end 0
B end 0
report ends entries 4 frames 0
";

/// One fill, one frame, and a present that comes while the frame is open.
pub const FILL: &[u8] = b"flatland 1
display 100 100
session A
pair t0 display A
run
A CreateView t0
A CreateTransform 1
A SetRootTransform 1
A CreateFilledRect 2
A SetSolidFill 2 255 0 0 255 10 10
A SetContent 1 2
A Present 0
display begin 1000
display done
A Present 0
";

/// The report of it where the present comes before the frame is done.
pub const FILL_REPORTED: &[u8] = b"report flatland 1
A 6 CreateView ok
A 12 Present 1 credits 0
display 13 begin 1000 frame 1
> A credits 5
A 15 Present 2 credits 4
display 14 done frame 1
item A 1 fill 255 0 0 255 10 10 m 0 65536 65536 0 0 v 0 0 655360 655360 o 65536 src
view A - 0 0 6553600 6553600
> A framepresented 1
A end 0
report ends entries 6 frames 1
";

/// A session that waits for the frame behind it.
pub const WAIT: &[u8] = b"flatland 1
display 100 100
session A
pair t0 display A
run
A Wait frames 1
display begin 1
display done
";

/// The report of it where the session looks again.
pub const WAIT_REPORTED: &[u8] = b"report flatland 1
display 7 begin 1 frame 1
display 8 done frame 1
A 6 Wait met 1
A end 0
report ends entries 4 frames 1
";

/// The order in which the session looks again behind the frame: numbers of actor and line.
pub const WAIT_ORDER: [(u32, u32); 4] = [(0, 7), (0, 8), (1, 6), (1, 9)];

/// A display that waits for the present behind it.
pub const DISPLAY_WAIT: &[u8] = b"flatland 1
display 100 100
session A
pair t0 display A
run
A CreateView t0
display Wait presents A 1
A Present 0
";

/// The order in which the display looks again behind the present.
pub const DISPLAY_WAIT_ORDER: [(u32, u32); 4] = [(1, 6), (1, 8), (0, 7), (1, 9)];

/// The report of it where the display looks again.
pub const DISPLAY_WAIT_REPORTED: &[u8] = b"report flatland 1
A 6 CreateView ok
A 8 Present 1 credits 0
display 7 Wait met 1
A end 0
report ends entries 4 frames 0
";

/// A session and the display that wait for what never comes.
pub const NEVER: &[u8] = b"flatland 1
display 100 100
session A
pair t0 display A
run
A Wait frames 1
display Wait presents A 1
";

/// Two frames, and a probe that asks for a point behind the first.
pub const PROBED: &[u8] = b"flatland 1
display 100 100
session A
pair t0 display A
probe P
run
A CreateView t0
A CreateTransform 1
A SetRootTransform 1
A CreateFilledRect 2
A SetSolidFill 2 255 0 0 255 10 10
A SetContent 1 2
A Present 0
display begin 1000
display done
P hit 5 5
display begin 2000
display done
";

/// The order in which the probe is answered inside the second frame.
pub const PROBED_ORDER: [(u32, u32); 8] = [
    (1, 7),
    (1, 13),
    (0, 14),
    (0, 15),
    (0, 17),
    (2, 16),
    (0, 18),
    (1, 19),
];

/// The report of it in this order: the probe sees the first frame.
pub const PROBED_REPORTED: &[u8] = b"report flatland 1
A 7 CreateView ok
A 13 Present 1 credits 0
display 14 begin 1000 frame 1
> A credits 5
display 15 done frame 1
item A 1 fill 255 0 0 255 10 10 m 0 65536 65536 0 0 v 0 0 655360 655360 o 65536 src
view A - 0 0 6553600 6553600
> A framepresented 1
display 17 begin 2000 frame 2
display 18 done frame 2
item A 1 fill 255 0 0 255 10 10 m 0 65536 65536 0 0 v 0 0 655360 655360 o 65536 src
view A - 0 0 6553600 6553600
A end 0
P 16 hit 5 5 frame 1 A 0
report ends entries 7 frames 2
";

/// The order in which the probe is answered right behind the first frame: it sees that one.
pub const PROBED_AT_ONCE: [(u32, u32); 8] = [
    (1, 7),
    (1, 13),
    (0, 14),
    (0, 15),
    (2, 16),
    (0, 17),
    (0, 18),
    (1, 19),
];

/// The report where the probe is answered before any frame is published.
pub const PROBED_EARLY: &[u8] = b"report flatland 1
A 7 CreateView ok
A 13 Present 1 credits 0
display 14 begin 1000 frame 1
> A credits 5
display 15 done frame 1
item A 1 fill 255 0 0 255 10 10 m 0 65536 65536 0 0 v 0 0 655360 655360 o 65536 src
view A - 0 0 6553600 6553600
> A framepresented 1
display 17 begin 2000 frame 2
display 18 done frame 2
item A 1 fill 255 0 0 255 10 10 m 0 65536 65536 0 0 v 0 0 655360 655360 o 65536 src
view A - 0 0 6553600 6553600
A end 0
P 16 hit 5 5 frame 0
report ends entries 7 frames 2
";

/// The same frames, and a probe that awaits the first.
pub const AWAIT: &[u8] = b"flatland 1
display 100 100
session A
pair t0 display A
probe P
run
A CreateView t0
A CreateTransform 1
A SetRootTransform 1
A CreateFilledRect 2
A SetSolidFill 2 255 0 0 255 10 10
A SetContent 1 2
A Present 0
display begin 1000
display done
P await 1
display begin 2000
display done
";

/// The report of it in the same order: the await looks again inside the second frame.
pub const AWAIT_REPORTED: &[u8] = b"report flatland 1
A 7 CreateView ok
A 13 Present 1 credits 0
display 14 begin 1000 frame 1
> A credits 5
display 15 done frame 1
item A 1 fill 255 0 0 255 10 10 m 0 65536 65536 0 0 v 0 0 655360 655360 o 65536 src
view A - 0 0 6553600 6553600
> A framepresented 1
display 17 begin 2000 frame 2
display 18 done frame 2
item A 1 fill 255 0 0 255 10 10 m 0 65536 65536 0 0 v 0 0 655360 655360 o 65536 src
view A - 0 0 6553600 6553600
A end 0
P 16 await frame 1
report ends entries 7 frames 2
";
