use flat_base::{IntRect, ONE, Orientation, Rect};
use flat_geom::*;

// Scaled by 2 and by a half, turned, then moved by 20 and 50.
fn outer(turn: Orientation) -> Matrix {
    local(131_072, 32_768, turn, 20, 50)
}

// Scaled by 3 and by 1, turned, then moved by 4 and 8.
fn inner(turn: Orientation) -> Matrix {
    local(196_608, 65_536, turn, 4, 8)
}

fn matrix(swap: bool, a: i64, b: i64, x: i64, y: i64) -> Matrix {
    Matrix { swap, a, b, x, y }
}

fn rect(x0: i64, y0: i64, x1: i64, y1: i64) -> Rect {
    Rect { x0, y0, x1, y1 }
}

#[test]
fn rectangles_turn(rt: HostRuntime) {
    let ten_by_twenty = rect(0, 0, 655_360, 1_310_720);
    let cases = [
        (
            Orientation::Ccw0,
            matrix(false, 131_072, 32_768, 1_310_720, 3_276_800),
            rect(1_310_720, 3_276_800, 2_621_440, 3_932_160),
        ),
        (
            Orientation::Ccw90,
            matrix(true, 32_768, -131_072, 1_310_720, 3_276_800),
            rect(1_310_720, 1_966_080, 1_966_080, 3_276_800),
        ),
        (
            Orientation::Ccw180,
            matrix(false, -131_072, -32_768, 1_310_720, 3_276_800),
            rect(0, 2_621_440, 1_310_720, 3_276_800),
        ),
        (
            Orientation::Ccw270,
            matrix(true, -32_768, 131_072, 1_310_720, 3_276_800),
            rect(655_360, 3_276_800, 1_310_720, 4_587_520),
        ),
    ];
    for (turn, placed, mapped) in cases {
        let found = (
            outer(turn),
            map_rect(placed, ten_by_twenty),
            compose(scaling(ONE), placed),
        );
        assert_eq!(rt; found, (placed, mapped, placed));
    }
}

#[test]
fn matrices_compose(rt: HostRuntime) {
    let cases = [
        (
            Orientation::Ccw0,
            Orientation::Ccw90,
            matrix(true, 131_072, -98_304, 1_835_008, 3_538_944),
        ),
        (
            Orientation::Ccw90,
            Orientation::Ccw90,
            matrix(false, -98_304, -131_072, 1_572_864, 2_752_512),
        ),
        (
            Orientation::Ccw180,
            Orientation::Ccw90,
            matrix(true, -131_072, 98_304, 786_432, 3_014_656),
        ),
        (
            Orientation::Ccw270,
            Orientation::Ccw90,
            matrix(false, 98_304, 131_072, 1_048_576, 3_801_088),
        ),
        (
            Orientation::Ccw90,
            Orientation::Ccw0,
            matrix(true, 32_768, -393_216, 1_572_864, 2_752_512),
        ),
        (
            Orientation::Ccw90,
            Orientation::Ccw180,
            matrix(true, -32_768, 393_216, 1_572_864, 2_752_512),
        ),
        (
            Orientation::Ccw90,
            Orientation::Ccw270,
            matrix(false, 98_304, 131_072, 1_572_864, 2_752_512),
        ),
    ];
    for (outer_turn, inner_turn, composed) in cases {
        assert_eq!(rt; compose(outer(outer_turn), inner(inner_turn)), composed);
    }
}

#[test]
fn products_round_towards_zero(rt: HostRuntime) {
    let halves = matrix(false, 32_768, -32_768, 0, 0);
    let found = (map_rect(halves, rect(1, 1, 3, 3)), map_point(halves, 3, 3));
    assert_eq!(rt; found, (rect(0, -1, 1, 0), (1, -1)));
}

#[test]
fn places_and_entries_saturate(rt: HostRuntime) {
    let large = matrix(false, 16_777_216, 16_777_216, 0, 0);
    let found = [
        local(65_536, 65_536, Orientation::Ccw0, i32::MAX, i32::MIN),
        compose(large, large),
        local(u32::MAX, u32::MAX, Orientation::Ccw180, 0, 0),
    ];
    let expected = [
        matrix(
            false,
            65_536,
            65_536,
            70_368_744_177_664,
            -70_368_744_177_664,
        ),
        matrix(false, 2_147_483_648, 2_147_483_648, 0, 0),
        matrix(false, -2_147_483_648, -2_147_483_648, 0, 0),
    ];
    assert_eq!(rt; found, expected);
}

#[test]
fn rectangles_hold_their_lower_bounds(rt: HostRuntime) {
    let square = rect(0, 0, 10, 10);
    let touching = intersect(square, rect(10, -5, 20, 5));
    let empty = [
        is_empty(square),
        is_empty(touching),
        is_empty(rect(3, 1, 2, 5)),
        is_empty(rect(1, 3, 5, 3)),
    ];
    let held = [
        contains(square, 0, 0),
        contains(square, 9, 9),
        contains(square, 10, 5),
        contains(square, 5, 10),
        contains(square, -1, 5),
        contains(square, 5, -1),
    ];
    assert_eq!(rt;
        (touching, empty, held),
        (
            rect(10, 0, 10, 5),
            [false, true, true, true],
            [true, true, false, false, false, false]
        )
    );
}

#[test]
fn units_are_exact(rt: HostRuntime) {
    let small = IntRect {
        x: -1,
        y: 2,
        w: 3,
        h: 4,
    };
    let far = IntRect {
        x: i32::MAX,
        y: i32::MIN,
        w: i32::MAX,
        h: i32::MIN,
    };
    let expected = [
        rect(-65_536, 131_072, 131_072, 393_216),
        rect(
            140_737_488_289_792,
            -140_737_488_355_328,
            281_474_976_579_584,
            -281_474_976_710_656,
        ),
    ];
    assert_eq!(rt; [units(small), units(far)], expected);
}
