use crate::outcome::Case;

// The head of the texts of VIEWPORTS.
pub const PAIRED: &str =
    "flatland 1\ndisplay 100 100\nsession A\nsession B\npair t0 display A\npair t1 A B\nrun\n";

// What follows PAIRED, and the line and the kind of its fault, or 0 and the number of lines.
pub const VIEWPORTS: &[Case] = &[
    // a viewport
    ("A CreateViewport 1 t1 9 9\n", 0, 8),
    // with an inset
    ("A CreateViewport 1 t1 9 9 1 2 3 65536\n", 0, 8),
    // the greatest numbers
    (
        "A CreateViewport 18446744073709551615 t1 4294967295 0\n",
        0,
        8,
    ),
    // without a height
    ("A CreateViewport 1 t1 9\n", 8, 8),
    // an inset of three
    ("A CreateViewport 1 t1 9 9 1 2 3\n", 8, 8),
    // an inset of five
    ("A CreateViewport 1 t1 9 9 1 2 3 4 5\n", 8, 8),
    // a word for the content
    ("A CreateViewport x t1 9 9\n", 8, 7),
    // a width below 0
    ("A CreateViewport 1 t1 -9 9\n", 8, 7),
    // a width beyond 32 bits
    ("A CreateViewport 1 t1 4294967296 9\n", 8, 7),
    // an inset beyond 65536
    ("A CreateViewport 1 t1 9 9 0 0 0 65537\n", 8, 7),
    // an inset of one bad number
    ("A CreateViewport 1 t1 9 9 x\n", 8, 7),
    // a pair that is none
    ("A CreateViewport 1 t2 9 9\n", 8, 9),
    // a session for the pair
    ("A CreateViewport 1 B 9 9\n", 8, 9),
    // the viewport end of another
    ("B CreateViewport 1 t1 9 9\n", 8, 10),
    // the viewport end of the display
    ("A CreateViewport 1 t0 9 9\n", 8, 10),
    // a number before missing words
    ("A CreateViewport x t2\n", 8, 7),
    // missing words before a name
    ("A CreateViewport 1 t2\n", 8, 8),
    // missing words before an owner
    ("B CreateViewport 1 t1 9\n", 8, 8),
    // properties
    (
        "A SetViewportProperties 1 9 9\nA SetViewportProperties 1 9 9 0 0 0 0\n",
        0,
        9,
    ),
    // without a height
    ("A SetViewportProperties 1 9\n", 8, 8),
    // an inset of one
    ("A SetViewportProperties 1 9 9 1\n", 8, 8),
    // an inset of five
    ("A SetViewportProperties 1 9 9 1 2 3 4 5\n", 8, 8),
    // a pair for the height
    ("A SetViewportProperties 1 9 t1\n", 8, 7),
    // an inset beyond 65536, of three
    ("A SetViewportProperties 1 9 9 65537 0 0\n", 8, 7),
    // a release
    ("A ReleaseViewport 1\n", 0, 8),
    // of nothing
    ("A ReleaseViewport\n", 8, 8),
    // of a pair
    ("A ReleaseViewport t1\n", 8, 7),
    // of two
    ("A ReleaseViewport 1 2\n", 8, 8),
    // gets
    ("B GetLayout\nB GetStatus\nA GetChildStatus 1\n", 0, 10),
    // a layout of a content
    ("B GetLayout 1\n", 8, 8),
    // a status of a pair
    ("B GetStatus t1\n", 8, 8),
    // a child of nothing
    ("A GetChildStatus\n", 8, 8),
    // a child of a pair
    ("A GetChildStatus t1\n", 8, 7),
    // a child of two
    ("A GetChildStatus 1 2\n", 8, 8),
    // a get of the display
    ("display GetLayout\n", 8, 6),
    // answers
    ("B Wait answers 4294967295\n", 0, 8),
    // without a number
    ("B Wait answers\n", 8, 8),
    // beyond 32 bits
    ("B Wait answers 4294967296\n", 8, 7),
    // of two numbers
    ("B Wait answers 1 2\n", 8, 8),
    // of the display
    ("display Wait answers 1\n", 8, 6),
    // points
    (
        "display hit -2147483648 2147483647\ndisplay hit 0 -1\n",
        0,
        9,
    ),
    // a point of one number
    ("display hit -5\n", 8, 8),
    // a point of three
    ("display hit 5 5 5\n", 8, 8),
    // minus zero
    ("display hit 5 -0\n", 8, 7),
    // beyond 32 bits
    ("display hit 2147483648 0\n", 8, 7),
    // a number before too many words
    ("display hit t0 5 5\n", 8, 7),
    // a point of a session
    ("A hit 5 5\n", 8, 6),
];
