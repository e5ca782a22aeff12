//! The program `flatland`: the service over standard input and standard output.
#![tactic(auto)]

mod status;

use crate::status::status;
use flat_io::{StdSink, StdSource};
use std::process::ExitCode;
use std::{env, io};

/// Answers the words after the program's name.
fn main(rt: HostRuntime) -> ExitCode {
    let mut source = StdSource::new(rt.reader());
    let mut sink = StdSink::new(io::writer(&rt));
    ExitCode::from(status(&rt, rt.alloc(), env::args(&rt), &mut source, &mut sink))
}
