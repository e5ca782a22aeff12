use crate::outcome::Case;

// The head of the texts of PROBES.
pub const PROBED: &str =
    "flatland 1\ndisplay 100 100\nsession A\npair t0 display A\nprobe P\nrun\n";

// What follows PROBED, and the line and the kind of its fault, or 0 and the number of lines.
pub const PROBES: &[Case] = &[
    // a line of each kind
    (
        "P hit -2147483648 2147483647\nP await 0\nP await 4294967295\n",
        0,
        9,
    ),
    // the actor alone
    ("P\n", 7, 6),
    // a word that is none
    ("P Foo\n", 7, 6),
    // a line of a session
    ("P Poll\n", 7, 6),
    // a line of the display
    ("P begin 1\n", 7, 6),
    // an await without a number
    ("P await\n", 7, 8),
    // an await of two numbers
    ("P await 1 2\n", 7, 8),
    // beyond 32 bits
    ("P await 4294967296\n", 7, 7),
    // a point of one number
    ("P hit 5\n", 7, 8),
    // a number before too many words
    ("P hit x 5 5\n", 7, 7),
    // an await of a session
    ("A await 1\n", 7, 6),
    // of the display
    ("display await 1\n", 7, 6),
    // a probe that isn't declared
    ("Q await 1\n", 7, 5),
];
