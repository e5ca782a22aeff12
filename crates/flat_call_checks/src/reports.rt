/// How many lines of a text begin so, or are just that.
fn lines_of(text: &[u8], start: &[u8], is_whole: bool) -> usize {
    text.split(|b| *b == b'\n')
        .filter(|line| line.starts_with(start) && (!is_whole || line.len() == start.len()))
        .count()
}

/// Whether a report has this line once.
pub fn has_line(report: &[u8], wanted: &[u8]) -> bool {
    lines_of(report, wanted, true) == 1
}

/// Whether a text is a whole report, of a script of the first version.
pub fn is_report(text: &[u8]) -> bool {
    text.starts_with(b"report flatland 1\n")
        && lines_of(text, b"report ends entries ", false) == 1
        && text.ends_with(b"\n")
}

/// Whether a text is the line of a fault, and nothing else.
pub fn is_fault(text: &[u8]) -> bool {
    // Behind the end of the line stands an empty one.
    text.starts_with(b"script line ") && text.ends_with(b"\n") && lines_of(text, b"", false) == 2
}
