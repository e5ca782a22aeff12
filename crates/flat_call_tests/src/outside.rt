use crate::calls::play;
use crate::displays::{FRAMES, frames_before, play_six, report_with};
use crate::faults::{Fault, first_spared};
use flat_call_checks::{
    SHELL, SHELL_REPORTED, has_answer, has_line, is_fault, is_report, mail_leaves_before, moved,
};
use std::test::Fail;

/// Faults, the status where one comes, and what may then have been written of a report.
const FAULTS: [(Fault, u8, &[u8]); 3] = [
    (Fault::Read, 4, b""),
    (Fault::Write, 5, SHELL_REPORTED),
    (Fault::Stall, 5, SHELL_REPORTED),
];

#[test]
fn each_read_and_write_fails_in_turn(rt: HostRuntime) -> Result<(), Fail> {
    for (fault, status, written) in FAULTS.iter() {
        let (place, called) = first_spared(&rt, rt.alloc(), *fault, *status, written)?;
        assert_eq!(rt;
            called.answer(),
            (0, SHELL_REPORTED),
            "status {status} at {place}"
        );
        assert!(rt; place > 1);
    }
    Ok(())
}

#[test]
fn each_display_fails_at_each_show(rt: HostRuntime) -> Result<(), Fail> {
    let alloc = rt.alloc();
    for first in 0..=FRAMES {
        for second in 0..=FRAMES {
            let (called, had) = play_six(&rt, alloc, first, second)?;
            let wanted = report_with(alloc, first, second)?;
            assert_eq!(rt; called.answer(), (0, wanted.as_slice()));
            assert_eq!(rt;
                had,
                [Some(frames_before(first)), Some(frames_before(second))]
            );
        }
    }
    Ok(())
}

/// How many bytes are before the end of the line `run`: a text that ends before has no
/// head.
const HEAD: usize = 217;

#[test]
fn a_script_is_cut_after_each_byte(rt: HostRuntime) -> Result<(), Fail> {
    for end in 0..SHELL.len() {
        let called = play(&rt, rt.alloc(), &SHELL[..end])?;
        let text = called.report();
        match called.status() {
            0 => assert!(rt; is_report(text) && end >= HEAD),
            3 => assert!(rt; is_fault(text)),
            _ => assert!(rt; false),
        }
    }
    Ok(())
}

/// The first line of the shell's script behind its head, and the last one.
const FIRST: u32 = 15;

const LAST: u32 = 57;

/// The shell's lines whose answers stay what they are, with these answers.
const KEPT: [(u32, &str); 5] = [
    (19, "CreateView ok"),
    (27, "CreateViewport ok"),
    (29, "CreateViewport ok"),
    (31, "GetChildStatus held"),
    (32, "Present 1 credits 0"),
];

#[test]
fn the_mail_leaves_before_each_line(rt: HostRuntime) -> Result<(), Fail> {
    let alloc = rt.alloc();
    for before in FIRST..=LAST {
        let called = play(&rt, alloc, &mail_leaves_before(alloc, before)?)?;
        assert_eq!(rt; called.status(), 0);
        for (line, answer) in KEPT.iter() {
            let line = moved(*line, before);
            assert!(rt; has_answer(alloc, called.report(), line, answer)?);
        }
        assert!(rt; has_line(called.report(), b"shell end 0"));
    }
    Ok(())
}
