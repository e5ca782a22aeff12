use flat_waits::{SharedWaits, Waiter};

/// An actor that looks if there is news, finds too little, and says whether it is over then.
fn gives_up(waiter: &mut Waiter<'_>) -> bool {
    if waiter.has_news() {
        waiter.found_too_little();
    }
    waiter.is_over()
}

#[test]
fn waiting_is_over_once_all_wait(rt: HostRuntime) {
    let waits = SharedWaits::new(2);
    let (mut one, mut other) = (Waiter::new(&waits), Waiter::new(&waits));
    assert_eq!(rt;
        [gives_up(&mut one), gives_up(&mut other), gives_up(&mut one)],
        [false, true, true]
    );
    assert!(rt; !one.has_news());
    one.stop();
    other.stop();
}

#[test]
fn an_entry_is_news(rt: HostRuntime) {
    let waits = SharedWaits::new(2);
    let mut one = Waiter::new(&waits);
    let alone = gives_up(&mut one);
    waits.enter();
    let mut other = Waiter::new(&waits);
    assert_eq!(rt;
        [
            alone,
            gives_up(&mut other),
            one.is_over(),
            gives_up(&mut one)
        ],
        [false, false, false, true]
    );
    one.stop();
    other.stop();
}

#[test]
fn one_that_stopped_is_not_counted(rt: HostRuntime) {
    let waits = SharedWaits::new(2);
    let mut one = Waiter::new(&waits);
    let alone = gives_up(&mut one);
    one.stop();
    let mut other = Waiter::new(&waits);
    assert_eq!(rt; [alone, gives_up(&mut other)], [false, false]);
    other.stop();
}

#[test]
fn who_left_is_not_waited_for(rt: HostRuntime) {
    let waits = SharedWaits::new(3);
    let mut one = Waiter::new(&waits);
    let among_three = gives_up(&mut one);
    waits.end_frames();
    let among_two = gives_up(&mut one);
    waits.sit_out(1);
    let alone = gives_up(&mut one);
    waits.sit_in(1);
    let beside = gives_up(&mut one);
    assert_eq!(rt;
        [among_three, among_two, alone, beside],
        [false, false, true, false]
    );
    assert!(rt; waits.have_frames_ended());
    one.stop();
}
