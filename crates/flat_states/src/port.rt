//! The display as a viewport.
ghost use Rattle.std.specs.Prelude.{◌≡◌, ◌≤◌};
ghost use Rattle.flat_rules.specs.Watch.{display_props, logical_side};
ghost use Rattle.flat_states.specs.Ports.{port_of};

use flat_base::{ONE, RATIO_MIN, SIDE_MAX};
use flat_scene::{Inset, Setup, ViewportProps};

/// What layouts tell of the display: its pixel ratio, and itself as a viewport.
#[derive(Clone, Copy, PartialEq, Eq)]
pub struct DisplayPort {
    pub ratio: u32,
    pub props: ViewportProps,
}

/// A side of the display in logical units, of which there is one at least.
fn logical_side(ratio: u32, side: u32) -> u32
    requires ratio { RATIO_MIN ≤ ratio }
    requires side { side ≤ SIDE_MAX }
    ensures { result ≡ logical_side ratio side }
{
    let units = u64::from(side) * u64::from(ONE) / u64::from(ratio);
    (units as u32).max(1)
}

/// The display as a viewport, at a pixel ratio.
fn display_props(ratio: u32, setup: &Setup) -> ViewportProps
    requires ratio { RATIO_MIN ≤ ratio }
    requires width { setup.now.width ≤ SIDE_MAX }
    requires height { setup.now.height ≤ SIDE_MAX }
    ensures { result ≡ display_props ratio setup.now }
{
    ViewportProps {
        w: logical_side(ratio, setup.width),
        h: logical_side(ratio, setup.height),
        inset: Inset {
            top: 0,
            right: 0,
            bottom: 0,
            left: 0,
        },
    }
}

/// What layouts tell of the display at a pixel ratio.
pub fn port_of(ratio: u32, setup: &Setup) -> DisplayPort
    requires ratio { RATIO_MIN ≤ ratio }
    requires width { setup.now.width ≤ SIDE_MAX }
    requires height { setup.now.height ≤ SIDE_MAX }
    ensures { result ≡ port_of ratio setup.now }
{
    DisplayPort {
        ratio,
        props: display_props(ratio, setup),
    }
}
