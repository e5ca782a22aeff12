use flat_call_checks::{FILL, FILL_REPORTED, RATIOS, RATIOS_REPORTED, SHELL, SHELL_REPORTED};
use flat_judge::{JudgedText, ReportVerdict, judge_text};
use std::alloc::{AllocError, Global};
use std::test::Fail;

/// Scripts without probes, and their reports as they are played.
const PLAYED: [(&[u8], &[u8]); 3] = [
    (FILL, FILL_REPORTED),
    (RATIOS, RATIOS_REPORTED),
    (SHELL, SHELL_REPORTED),
];

// A script, and its report as it is played.
const SCRIPT: &str = "flatland 1
display 100 100
session A
pair t0 display A
probe P
run
A CreateView t0
A CreateTransform 1
A SetRootTransform 1
A CreateFilledRect 2
A SetSolidFill 2 255 0 0 255 10 10
A SetContent 1 2
A Present 0
display begin 1000
display done
P await 1
";

const FIRST: &str = "report flatland 1
A 7 CreateView ok
A 13 Present 1 credits 0
display 14 begin 1000 frame 1
> A credits 5
display 15 done frame 1
item A 1 fill 255 0 0 255 10 10 m 0 65536 65536 0 0 v 0 0 655360 655360 o 65536 src
view A - 0 0 6553600 6553600
";

/// A report whose frame comes before the session's lines.
const EARLY: &str = "report flatland 1
display 14 begin 1000 frame 1
display 15 done frame 1
A 7 CreateView ok
A 13 Present 1 credits 0
";

const LOST: &str = "display 1 lost at frame 1\ndisplay 7 lost at frame 1\n";

const THEN: &str = "> A framepresented 1\n";

const LAST: &str = "A end 0\nP 16 await frame 1\nreport ends entries 5 frames 1\n";

/// What is said of a text.
#[derive(Clone, Copy, Debug, PartialEq, Eq)]
enum Said<'a> {
    /// It is the report of a run with so many entries and frames.
    Legal(usize, u32),
    /// It is wrong in this line, where this one is wanted.
    Wants(u64, &'a str),
    /// It is wrong in this line, behind the end of the report.
    Ends(u64),
    /// It has a fault in this line of the script.
    Fault(u32),
    /// Memory ran out.
    Memory,
}

/// Whether this is said of a text.
fn is_said(alloc: Global, text: &[u8], said: Said<'_>) -> bool {
    match (judge_text(alloc, text), said) {
        (
            Ok(JudgedText::Said(ReportVerdict::Legal(entries, frames))),
            Said::Legal(many, finished),
        ) => { entries == many && frames == finished }
        (Ok(JudgedText::Said(ReportVerdict::Wrong(line, Some(want)))), Said::Wants(number, text)) =>
            { line == number && want.as_slice() == text.as_bytes() }
        (Ok(JudgedText::Said(ReportVerdict::Wrong(line, None))), Said::Ends(number)) => line
            == number,
        (Ok(JudgedText::Refused(fault)), Said::Fault(number)) => fault.line == number,
        (Err(_), Said::Memory) => true,
        _ => false,
    }
}

/// A script with the parts of a report behind it.
fn joined(alloc: Global, parts: &[&str]) -> Result<Vec<u8>, AllocError> {
    let mut text = SCRIPT.as_bytes().to_vec(alloc)?;
    for part in parts {
        text.extend_from_slice(part.as_bytes())?;
    }
    Ok(text)
}

/// Whether this is said of the script with these parts behind it.
fn is_said_of(alloc: Global, parts: &[&str], said: Said<'_>) -> Result<bool, AllocError> {
    let text = joined(alloc, parts)?;
    Ok(is_said(alloc, text.as_slice(), said))
}

#[test]
fn reports_of_runs(rt: HostRuntime) {
    let alloc = rt.alloc();
    let played = is_said_of(alloc, &[FIRST, THEN, LAST], Said::Legal(5, 1));
    // displays were lost at the frame
    let lost = is_said_of(alloc, &[FIRST, LOST, THEN, LAST], Said::Legal(5, 1));
    // the frame comes before the session's lines
    let early = is_said_of(alloc, &[EARLY, LAST], Said::Legal(5, 1));
    // the probe asks before the frame
    let unseen = "A end 0\nP 16 await frame 0\nreport ends entries 5 frames 1\n";
    let unseen = is_said_of(alloc, &[FIRST, THEN, unseen], Said::Legal(5, 1));
    assert_eq!(rt;
        [played, lost, early, unseen],
        [Ok(true), Ok(true), Ok(true), Ok(true)]
    );
}

#[test]
fn reports_of_no_run(rt: HostRuntime) {
    let alloc = rt.alloc();
    let end = "report ends entries 5 frames 1";
    // a display is lost behind the events of its frame
    let late = is_said_of(
        alloc,
        &[FIRST, THEN, LOST, LAST],
        Said::Wants(10, "A end 0"),
    );
    // the last line is missing, or has no line feed, or isn't the last one
    let cut = "A end 0\nP 16 await frame 1\n";
    let cut = is_said_of(alloc, &[FIRST, THEN, cut], Said::Wants(12, end));
    let unfed = "A end 0\nP 16 await frame 1\nreport ends entries 5 frames 1";
    let unfed = is_said_of(alloc, &[FIRST, THEN, unfed], Said::Wants(12, end));
    let more = is_said_of(alloc, &[FIRST, THEN, LAST, "A end 0\n"], Said::Ends(13));
    // the session ends before its lines
    let ends = "report flatland 1\nA 7 CreateView ok\nA end 0\n";
    let ends = is_said_of(alloc, &[ends], Said::Wants(3, "A 13 Present 1 credits 0"));
    // the probe sees a frame that there isn't
    let seen = "A end 0\nP 16 await frame 2\nreport ends entries 5 frames 1\n";
    let seen = is_said_of(
        alloc,
        &[FIRST, THEN, seen],
        Said::Wants(11, "P 16 await frame 1"),
    );
    // no report, another version, and a faulty script
    let none = is_said_of(alloc, &[], Said::Wants(1, "report flatland 1"));
    let other = is_said_of(
        alloc,
        &["report flatland 2\n"],
        Said::Wants(1, "report flatland 1"),
    );
    let fault = is_said_of(alloc, &["A Fly\n", FIRST, THEN, LAST], Said::Fault(17));
    let lines = [late, cut, unfed, more, ends, seen];
    assert_eq!(rt;
        lines,
        [Ok(true), Ok(true), Ok(true), Ok(true), Ok(true), Ok(true)]
    );
    assert_eq!(rt; [none, other, fault], [Ok(true), Ok(true), Ok(true)]);
}

/// Whether a script with a text behind it is found legal.
fn is_legal(alloc: Global, text: &[u8]) -> bool {
    matches!(
        judge_text(alloc, text),
        Ok(JudgedText::Said(ReportVerdict::Legal(_, _)))
    )
}

/// A script with a report behind it, of which the byte at a place is another.
fn altered(alloc: Global, script: &[u8], report: &[u8], at: usize) -> Result<Vec<u8>, AllocError> {
    let mut text = script.to_vec(alloc)?;
    for (place, byte) in report.iter().enumerate() {
        text.push(if place == at { *byte ^ 1 } else { *byte })?;
    }
    Ok(text)
}

#[test]
fn each_byte_of_a_report_counts(rt: HostRuntime) -> Result<(), Fail> {
    let alloc = rt.alloc();
    for (script, report) in PLAYED.iter() {
        for at in 0..report.len() {
            let text = altered(alloc, script, report, at)?;
            assert!(rt; !is_legal(alloc, text.as_slice()), "byte {at}");
        }
        let text = altered(alloc, script, report, report.len())?;
        assert!(rt; is_legal(alloc, text.as_slice()));
    }
    Ok(())
}
