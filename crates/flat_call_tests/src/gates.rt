use crate::calls::race;
use crate::composing::presents_while_composed;
use crate::counting::asked_for;
use crate::holding::race_held;
use flat_call_checks::{
    AWAIT, AWAIT_REPORTED, BeginGate, DISPLAY_WAIT, DISPLAY_WAIT_ORDER, DISPLAY_WAIT_REPORTED,
    FILL, FILL_REPORTED, LookGate, NEVER, PROBED_ORDER, ReplyGate, SORTS, SORTS_REPORTED,
    SORTS_TOLD, WAIT, WAIT_ORDER, WAIT_REPORTED,
};
use std::test::Fail;

/// How often a gate is asked for one line at most, and how many turns a Wait has at most.
const ASKS: u32 = 1_000_000;

const LOOKS: u32 = 100_000;

/// Scripts, a line, for how many asks the gate is shut, and how often it is asked, at least
/// and at most: all asks of a line are one budget, and a gate that is open is asked once for
/// each turn of a Wait. Two that wait for each other stop soon. Calls of a session's own
/// draft aren't asked for, nor are lines behind the one that closed it.
const ASKED: [(&[u8], u32, u32, (u32, u32)); 12] = [
    (NEVER, 6, ASKS, (ASKS, ASKS)),
    (NEVER, 7, ASKS, (ASKS, ASKS)),
    (NEVER, 8, ASKS, (ASKS, ASKS)),
    (FILL, 12, ASKS, (ASKS, ASKS)),
    (FILL, 13, ASKS, (ASKS, ASKS)),
    (FILL, 14, ASKS, (ASKS, ASKS)),
    (NEVER, 6, 0, (1, LOOKS)),
    (NEVER, 7, 0, (1, LOOKS)),
    (NEVER, 8, 0, (1, 1)),
    (FILL, 7, 0, (0, 0)),
    (FILL, 14, 0, (1, 1)),
    (SORTS, 17, 0, (0, 0)),
];

#[test]
fn a_gate_is_asked_so_often(rt: HostRuntime) -> Result<(), Fail> {
    for (text, line, shut, (least, most)) in ASKED.iter() {
        let found = asked_for(&rt, rt.alloc(), text, *line, *shut)?;
        assert!(rt;
            *least <= found && found <= *most,
            "line {line}, shut for {shut}: {found}"
        );
    }
    Ok(())
}

/// Entries and lines in an order.
type Order = &'static [(u32, u32)];

/// Scripts with a line that waits, the order of their lines, the line that waits, the line
/// that it waits for, and the report: the wait looks twice.
const WAITS: [(&[u8], Order, u32, u32, &[u8]); 3] = [
    (WAIT, &WAIT_ORDER, 6, 7, WAIT_REPORTED),
    (
        DISPLAY_WAIT,
        &DISPLAY_WAIT_ORDER,
        7,
        8,
        DISPLAY_WAIT_REPORTED,
    ),
    (AWAIT, &PROBED_ORDER, 16, 14, AWAIT_REPORTED),
];

#[test]
fn what_waits_looks_again(rt: HostRuntime) -> Result<(), Fail> {
    for (text, order, waits, held, reported) in WAITS.iter() {
        let gate = LookGate::new(order, *waits, *held);
        let called = race(&rt, rt.alloc(), text, &gate)?;
        assert_eq!(rt;
            (called.answer(), gate.looks()),
            ((0, *reported), 2),
            "line {waits}"
        );
    }
    Ok(())
}

#[test]
fn the_gate_hears_each_entry(rt: HostRuntime) -> Result<(), Fail> {
    let gate = ReplyGate::new(&SORTS_TOLD);
    let called = race(&rt, rt.alloc(), SORTS, &gate)?;
    assert_eq!(rt;
        (gate.heard(), gate.was_mistold()),
        (SORTS_TOLD.len(), false)
    );
    assert_eq!(rt; called.answer(), (0, SORTS_REPORTED));
    Ok(())
}

#[test]
fn a_begin_is_made_before_the_gate_hears_of_it(rt: HostRuntime) -> Result<(), Fail> {
    let gate = BeginGate::new();
    let called = race(&rt, rt.alloc(), FILL, &gate)?;
    assert!(rt; !gate.was_missed());
    assert_eq!(rt; called.answer(), (0, FILL_REPORTED));
    Ok(())
}

#[test]
fn present_while_a_display_shows(rt: HostRuntime) -> Result<(), Fail> {
    let (called, gate) = race_held(&rt, rt.alloc())?;
    assert_eq!(rt;
        (gate.presented_while_it_showed(), gate.was_asked_late()),
        (true, false)
    );
    assert_eq!(rt; called.answer(), (0, FILL_REPORTED));
    Ok(())
}

#[test]
fn present_while_a_frame_is_composed(rt: HostRuntime) -> Result<(), Fail> {
    assert!(rt; presents_while_composed(&rt, rt.alloc())?);
    Ok(())
}
