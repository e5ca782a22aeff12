use crate::outcome::Case;

// The head of the texts of LATER.
pub const SECOND: &str =
    "flatland 2\ndisplay 100 100\nsession A\nsession B\npair t0 display A\nfence f A\nfence g B\nrun\n";

// What follows SECOND, and the line and the kind of its fault, or 0 and the number of lines.
pub const LATER: &[Case] = &[
    // presents that have to be shown
    ("A Present 0 unsquashable\n", 0, 9),
    ("A Present 0 unsquashable acquire f\n", 0, 9),
    ("A Present 0 unsquashable release f f\n", 0, 9),
    ("A Present 0 unsquashable acquire f release f\n", 0, 9),
    // presents as before
    ("A Present 0\n", 0, 9),
    ("A Present 0 acquire f release f\n", 0, 9),
    ("A Present 0 5\n", 9, 8),
    ("A Present\n", 9, 8),
    // another word behind it
    ("A Present 0 unsquashable 5\n", 9, 8),
    ("A Present 0 unsquashable unsquashable\n", 9, 8),
    ("A Present 0 unsquashable \n", 9, 8),
    // it stands for the time
    ("A Present unsquashable\n", 9, 7),
    // a bad time before a wrong word
    ("A Present x unsquashable 5\n", 9, 7),
    // an empty list behind it
    ("A Present 0 unsquashable acquire\n", 9, 8),
    ("A Present 0 unsquashable acquire release f\n", 9, 8),
    // it stands in a list
    ("A Present 0 acquire f unsquashable\n", 9, 9),
    // fences behind it that are none, or another's
    ("A Present 0 unsquashable acquire h\n", 9, 9),
    ("A Present 0 unsquashable acquire g\n", 9, 10),
    // no children, and some
    ("A ReplaceChildren 1\n", 0, 9),
    ("A ReplaceChildren 1 2 3 2 18446744073709551615 0\n", 0, 9),
    // no parent
    ("A ReplaceChildren\n", 9, 8),
    ("A ReplaceChildren x\n", 9, 7),
    // children that are no numbers of 64 bits
    ("A ReplaceChildren 1 2 18446744073709551616\n", 9, 7),
    ("A ReplaceChildren 1 2 -1\n", 9, 7),
    ("A ReplaceChildren 1 \n", 9, 7),
    // other words
    ("A replacechildren 1\n", 9, 6),
    ("A ReplaceChild 1\n", 9, 6),
    ("A unsquashable\n", 9, 6),
    ("A Wait unsquashable 1\n", 9, 6),
    // lines of the display
    ("display ReplaceChildren 1\n", 9, 6),
    ("display Present 0 unsquashable\n", 9, 6),
    ("display dpr 65536\n", 9, 6),
];

// The head of the texts of LATEST.
pub const THIRD: &str = "flatland 3\ndisplay 100 100 131072\nsession A\npair t0 display A\nrun\n";

// What follows THIRD, and the line and the kind of its fault, or 0 and the number of lines.
pub const LATEST: &[Case] = &[
    ("display dpr 16384\n", 0, 6),
    ("display dpr 1048576\n", 0, 6),
    ("A Present 0 unsquashable\n", 0, 6),
    // no ratio, one that is none, and one too many
    ("display dpr\n", 6, 8),
    ("display dpr x\n", 6, 7),
    ("display dpr 65536 1\n", 6, 8),
    // beyond its range
    ("display dpr 16383\n", 6, 7),
    ("display dpr 1048577\n", 6, 7),
    // only the display's
    ("A dpr 65536\n", 6, 6),
    ("display begin 1\ndisplay dpr 65536\ndisplay done\n", 0, 8),
];
