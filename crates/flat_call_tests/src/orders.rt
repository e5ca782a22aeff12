use crate::asking::race_asked;
use crate::calls::race;
use flat_call_checks::{
    MeetingGate, OrderGate, PROBED, PROBED_AT_ONCE, PROBED_EARLY, PROBED_ORDER, PROBED_REPORTED,
    RATIOS, RATIOS_ORDER, RATIOS_REPORTED, SHELL, SHELL_ORDER, SHELL_REPORTED, TWO, TWO_REPORTED,
};
use std::test::Fail;

/// Scripts, an order of their lines that a gate keeps, and the report: of a shell in its
/// written order, of a probe that sees the frame of its time, also right behind its done, of
/// frames at their ratios.
const ORDERS: [(&[u8], &[(u32, u32)], &[u8]); 4] = [
    (SHELL, &SHELL_ORDER, SHELL_REPORTED),
    (PROBED, &PROBED_ORDER, PROBED_REPORTED),
    (PROBED, &PROBED_AT_ONCE, PROBED_REPORTED),
    (RATIOS, &RATIOS_ORDER, RATIOS_REPORTED),
];

#[test]
fn lines_are_raced_in_an_order(rt: HostRuntime) -> Result<(), Fail> {
    for (text, order, reported) in ORDERS.iter() {
        let gate = OrderGate::new(order);
        let called = race(&rt, rt.alloc(), text, &gate)?;
        assert_eq!(rt; called.answer(), (0, *reported));
    }
    Ok(())
}

#[test]
fn race_against_the_written_order(rt: HostRuntime) -> Result<(), Fail> {
    let gate = MeetingGate::new();
    let called = race(&rt, rt.alloc(), TWO, &gate)?;
    assert!(rt; !gate.was_missed());
    assert_eq!(rt; called.answer(), (0, TWO_REPORTED));
    Ok(())
}

#[test]
fn a_probe_sees_no_frame_that_is_still_shown(rt: HostRuntime) -> Result<(), Fail> {
    let called = race_asked(&rt, rt.alloc())?;
    assert_eq!(rt; called.answer(), (0, PROBED_EARLY));
    Ok(())
}
