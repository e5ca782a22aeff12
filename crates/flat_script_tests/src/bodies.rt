use crate::outcome::Case;

// What follows HEAD, and the line and the kind of its fault, or 0 and the number of lines.
pub const BODIES: &[Case] = &[
    // bad number
    (
        "A CreateView t0\nA CreateTransform 1\nA SetRootTransform 1\nA CreateFilledRect x\nA SetSolidFill 2 255 0 0 255 10 10\nA SetContent 1 2\nA Present 0\ndisplay begin 1000\ndisplay done\n",
        9,
        7,
    ),
    // dpr in version one
    ("display dpr 65536\n", 6, 6),
    // first bad line decides
    ("A Fly\nZ Fly\n", 6, 6),
    // a point
    ("display hit 5 5\n", 0, 6),
    // kind 12 begin inside a frame
    ("display begin 1\ndisplay begin 1\ndisplay done\n", 7, 12),
    // kind 12 done without begin
    ("display done\n", 6, 12),
    // kind 12 text ends in a frame
    ("display begin 2\n", 7, 12),
    // kind 12 time falls
    (
        "display begin 2\ndisplay done\ndisplay begin 1\ndisplay done\n",
        8,
        12,
    ),
    // kind 5 before 6
    ("Z Fly\n", 6, 5),
    // kind 6 actor alone
    ("A\n", 6, 6),
    // kind 6 before 7
    ("A Wait colours x\n", 6, 6),
    // kind 6 two spaces
    ("A  Clear\n", 6, 6),
    // kind 7 before 8
    ("A CreateTransform 01 2\n", 6, 7),
    // kind 7 minus zero
    ("A SetTranslation 1 -0 0\n", 6, 7),
    // kind 7 time too great
    ("A Present 9223372036854775808\n", 6, 7),
    // kind 8 before 9
    ("A CreateView t9 t0\n", 6, 8),
    // kind 8 missing number
    ("A CreateTransform\n", 6, 8),
    // kind 8 space at the end
    ("A Clear \n", 6, 8),
    // replace children in version one
    ("A CreateTransform 1\nA ReplaceChildren 1\n", 7, 6),
    ("A ReplaceChildren x\n", 6, 6),
    // unsquashable in version one
    ("A Present 0 unsquashable\n", 6, 8),
    ("A Present 0 unsquashable acquire t0\n", 6, 8),
    ("A Present x unsquashable\n", 6, 7),
    // limit: 16 hit regions
    (
        "A CreateTransform 1\nA SetHitRegions 1 0 0 1 1 0 0 0 1 1 0 0 0 1 1 0 0 0 1 1 0 0 0 1 1 0 0 0 1 1 0 0 0 1 1 0 0 0 1 1 0 0 0 1 1 0 0 0 1 1 0 0 0 1 1 0 0 0 1 1 0 0 0 1 1 0 0 0 1 1 0 0 0 1 1 0 0 0 1 1 0\n",
        0,
        7,
    ),
    // limit: fill of 65536
    (
        "A CreateFilledRect 1\nA SetSolidFill 1 1 1 1 1 65536 65536\n",
        0,
        7,
    ),
    // a line without its feed
    ("A Clear", 0, 6),
    // a line of spaces
    ("  \n", 6, 5),
    // doubled spaces
    ("A SetRootTransform  1\n", 6, 7),
    // a space at the end of a number
    ("A SetRootTransform 1 \n", 6, 8),
    // a number of 20 digits
    ("A SetRootTransform 18446744073709551615\n", 0, 6),
    // beyond 64 bits
    ("A SetRootTransform 18446744073709551616\n", 6, 7),
    // a number of 21 digits
    ("A SetRootTransform 100000000000000000000\n", 6, 7),
    // a sign on an id
    ("A SetRootTransform -1\n", 6, 7),
    // a plus
    ("A SetTranslation 1 +5 5\n", 6, 7),
    // the least translation
    ("A SetTranslation 1 -2147483648 2147483647\n", 0, 6),
    // below it
    ("A SetTranslation 1 -2147483649 0\n", 6, 7),
    // a colour of 256
    ("A SetSolidFill 1 256 0 0 0 1 1\n", 6, 7),
    // regions
    (
        "A SetHitRegions 1 0 0 1 1 0 -5 0 1 1 1\nA SetHitRegions 1\n",
        0,
        7,
    ),
    // a region of four numbers
    ("A SetHitRegions 1 0 0 1 1\n", 6, 8),
    // an interaction of 2
    ("A SetInfiniteHitRegion 1 2\n", 6, 7),
    // an owner that is a pair
    ("t0 Clear\n", 6, 5),
    // a call of the display
    ("display Clear\n", 6, 6),
    // begin in a frame with a bad time
    ("display begin 1\ndisplay begin x\n", 7, 7),
    // the greatest time
    ("display begin 9223372036854775807\ndisplay done\n", 0, 7),
    // a time beyond it
    ("A Present 9223372036854775808\n", 6, 7),
];
