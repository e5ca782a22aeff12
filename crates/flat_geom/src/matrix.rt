ghost use Rattle.std.specs.Prelude.{◌≡◌};
ghost use Rattle.flat_geom.specs.Matrices.{scaling_matrix, scaled_and_moved, mapped_point};
ghost use Rattle.flat_geom.specs.Matrices.{scaled_entry, composed, place_of_units, moving_matrix};
ghost use Rattle.flat_geom.specs.Matrices.{local_matrix};

use flat_base::{ONE, Orientation, clamp_entry, clamp_place, mul};

/// Where a transform puts the points of its own space: (px, py) goes to
/// `(mul(a, px) + x, mul(b, py) + y)`, or where `swap` is true to
/// `(mul(a, py) + x, mul(b, px) + y)`.
#[derive(Clone, Copy, Debug, PartialEq, Eq)]
pub struct Matrix {
    pub swap: bool,
    pub a: i64,
    pub b: i64,
    pub x: i64,
    pub y: i64,
}

/// The matrix of a display of this pixel ratio, in fixed point: it scales both axes
/// alike. At [`ONE`](flat_base::ONE) it takes each place to itself.
pub fn scaling(ratio: u32) -> Matrix
    ensures { result ≡ scaling_matrix ratio }
{
    Matrix {
        swap: false,
        a: ratio as i64,
        b: ratio as i64,
        x: 0,
        y: 0,
    }
}

/// The matrix of a transform: it scales by `sx` and `sy`, in fixed point, then
/// turns, then moves by `tx` and `ty` units.
///
/// Scales up to [`SCALE_MAX`](flat_base::SCALE_MAX) are kept; a scale above 2^31
/// saturates.
pub fn local(sx: u32, sy: u32, turn: Orientation, tx: i32, ty: i32) -> Matrix
    ensures { result ≡ local_matrix sx sy turn tx ty }
{
    let (x, y) = (sx as i128, sy as i128);
    match turn {
        Orientation::Ccw0 => moving(false, x, y, tx, ty),
        Orientation::Ccw90 => moving(true, y, -x, tx, ty),
        Orientation::Ccw180 => moving(false, -x, -y, tx, ty),
        Orientation::Ccw270 => moving(true, -y, x, tx, ty),
    }
}

/// The matrix of what lies in `inner`'s space, as it is seen through `outer`: the
/// matrix of a child is that of its parent composed with its own local one.
///
/// Its entries are the products of the two matrices' entries, rounded and
/// saturated, so mapping by it may differ in the last bit from mapping twice.
pub fn compose(outer: Matrix, inner: Matrix) -> Matrix
    ensures { result ≡ composed outer inner }
{
    if outer.swap {
        Matrix {
            swap: !inner.swap,
            a: entry(outer.a, inner.b),
            b: entry(outer.b, inner.a),
            x: along(outer.a, inner.y, outer.x),
            y: along(outer.b, inner.x, outer.y),
        }
    } else {
        Matrix {
            swap: inner.swap,
            a: entry(outer.a, inner.a),
            b: entry(outer.b, inner.b),
            x: along(outer.a, inner.x, outer.x),
            y: along(outer.b, inner.y, outer.y),
        }
    }
}

/// Where a matrix takes a point.
pub fn map_point(m: Matrix, px: i64, py: i64) -> (i64, i64)
    ensures { result ≡ mapped_point m px py }
{
    if m.swap {
        (along(m.a, py, m.x), along(m.b, px, m.y))
    } else {
        (along(m.a, px, m.x), along(m.b, py, m.y))
    }
}

fn along(scale: i64, number: i64, offset: i64) -> i64
    ensures { result ≡ scaled_and_moved scale number offset }
{
    clamp_place(mul(scale, number) + offset as i128)
}

fn entry(outer: i64, inner: i64) -> i64
    ensures { result ≡ scaled_entry outer inner }
{
    clamp_entry(mul(outer, inner))
}

fn place(units: i32) -> i64
    ensures { result ≡ place_of_units units }
{
    clamp_place(units as i128 * ONE as i128)
}

fn moving(swap: bool, a: i128, b: i128, tx: i32, ty: i32) -> Matrix
    ensures { result ≡ moving_matrix swap a b tx ty }
{
    Matrix {
        swap,
        a: clamp_entry(a),
        b: clamp_entry(b),
        x: place(tx),
        y: place(ty),
    }
}
