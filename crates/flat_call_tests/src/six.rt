/// Six frames of one state.
pub const SIX_FRAMES: &[u8] = b"flatland 1
display 100 100
session A
pair t0 display A
run
A CreateView t0
A Present 0
display begin 5
display done
display begin 5
display done
display begin 5
display done
display begin 5
display done
display begin 5
display done
display begin 5
display done
A Poll
";

/// What they are reported as, where no display fails.
pub const SIX_REPORTED: &[u8] = b"report flatland 1
A 6 CreateView ok
A 7 Present 1 credits 0
display 8 begin 5 frame 1
> A credits 5
display 9 done frame 1
view A - 0 0 6553600 6553600
> A framepresented 1
display 10 begin 5 frame 2
display 11 done frame 2
view A - 0 0 6553600 6553600
display 12 begin 5 frame 3
display 13 done frame 3
view A - 0 0 6553600 6553600
display 14 begin 5 frame 4
display 15 done frame 4
view A - 0 0 6553600 6553600
display 16 begin 5 frame 5
display 17 done frame 5
view A - 0 0 6553600 6553600
display 18 begin 5 frame 6
display 19 done frame 6
view A - 0 0 6553600 6553600
A 20 Poll 2
A end 0
report ends entries 16 frames 6
";
