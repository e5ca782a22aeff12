/// A rectangle of places: it holds the points with `x0 <= x < x1` and
/// `y0 <= y < y1`. It is empty where `x0 >= x1` or `y0 >= y1`.
///
/// A place is signed fixed point: 65,536 stands for one unit.
#[derive(Clone, Copy, Debug, PartialEq, Eq)]
pub struct Rect {
    pub x0: i64,
    pub y0: i64,
    pub x1: i64,
    pub y1: i64,
}

/// A rectangle in whole units: its least corner, its width and its height.
#[derive(Clone, Copy, PartialEq, Eq)]
pub struct IntRect {
    pub x: i32,
    pub y: i32,
    pub w: i32,
    pub h: i32,
}

/// A turn against the clock, about the transform's origin. With x to the right
/// and y downwards, a point (u, v) goes to the place that each turn names.
#[derive(Clone, Copy, Debug, PartialEq, Eq)]
pub enum Orientation {
    /// (u, v), number 1 in a script.
    Ccw0,
    /// (v, -u), number 2.
    Ccw90,
    /// (-u, -v), number 3.
    Ccw180,
    /// (-v, u), number 4.
    Ccw270,
}
