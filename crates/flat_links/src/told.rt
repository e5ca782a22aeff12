//! What is told of the ends of a pair, by what was seen of them.
ghost use Rattle.std.specs.Prelude.{◌≡◌};
ghost use Rattle.flat_links.specs.Views.{layout_by, status_by, child_by};
ghost use Rattle.flat_rules.specs.Watch.{layout_in};

use flat_scene::{Layout, ViewportProps, WatcherValue};

/// The layout that the properties of a viewport give at a pixel ratio.
fn layout_in(ratio: u32, props: ViewportProps) -> WatcherValue
    ensures { result ≡ layout_in ratio props }
{
    WatcherValue::Layout(Layout {
        w: props.w,
        h: props.h,
        inset: props.inset,
        ratio,
    })
}

/// What is told of a view's layout: that the viewport end is lost, or the layout
/// where both ends are used, at the display's pixel ratio.
pub fn layout_by(
    ratio: u32,
    lost: bool,
    joined: bool,
    props: Option<ViewportProps>,
) -> Option<WatcherValue>
    ensures { result ≡ layout_by ratio lost joined props }
{
    if lost {
        return Some(WatcherValue::Gone);
    }
    match props {
        Some(props) if joined => Some(layout_in(ratio, props)),
        _ => None,
    }
}

/// What is told of a view's status.
pub fn status_by(lost: bool, joined: bool, connected: bool) -> Option<WatcherValue>
    ensures { result ≡ status_by lost joined connected }
{
    if lost {
        return Some(WatcherValue::Gone);
    }
    if !joined {
        return None;
    }
    if connected {
        Some(WatcherValue::Connected)
    } else {
        Some(WatcherValue::Disconnected)
    }
}

/// What is told of a viewport's child.
pub fn child_by(lost: bool, shown: bool) -> Option<WatcherValue>
    ensures { result ≡ child_by lost shown }
{
    if lost {
        return Some(WatcherValue::Gone);
    }
    if shown {
        Some(WatcherValue::HasPresented)
    } else {
        None
    }
}
