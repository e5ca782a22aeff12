use flat_scene::{Inset, Layout, Watch, WatcherValue};
use flat_watch::{GetAnswer, HangingGet, HeldAnswer};

fn sized(w: u32) -> WatcherValue {
    let inset = Inset {
        top: 0,
        right: 0,
        bottom: 0,
        left: 7,
    };
    WatcherValue::Layout(Layout {
        w,
        h: 9,
        inset,
        ratio: 65_536,
    })
}

#[test]
fn a_get_is_answered_by_news(rt: HostRuntime) {
    let mut cell = HangingGet::new();
    let unasked = cell.tell(Some(sized(5)));
    let now = Some(sized(5));
    let gets = [
        cell.get(Watch::Layout, now),
        cell.get(Watch::Layout, now),
        cell.get(Watch::Layout, now),
    ];
    let same = cell.tell(now);
    let other = cell.tell(Some(sized(6)));
    let after = cell.tell(Some(sized(7)));
    let answer = HeldAnswer {
        get: Watch::Layout,
        value: sized(6),
    };
    let expected = [
        GetAnswer::Now(sized(5)),
        GetAnswer::Held,
        GetAnswer::BadHangingGet,
    ];
    assert!(rt;
        gets == expected
            && [unasked, same, other, after] == [None, None, Some(answer), None]
            && cell.waits().is_none()
            && cell.last() == Some(sized(6))
    );
}

#[test]
fn what_is_there_no_more_answers_nothing(rt: HostRuntime) {
    let mut cell = HangingGet::new();
    let unasked = cell.tell(Some(WatcherValue::HasPresented));
    let get = cell.get(Watch::Status, None);
    let gone = cell.tell(Some(WatcherValue::Gone));
    let answer = HeldAnswer {
        get: Watch::Status,
        value: WatcherValue::Gone,
    };
    assert!(rt; get == GetAnswer::Held && [unasked, gone] == [None, Some(answer)]);
}
