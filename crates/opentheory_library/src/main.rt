//! The program once more, which the gate runs on a theory file and its packages, as files of the system.
#![tactic(auto)]

use ot_io::{DirFiles, StdSink, StdSource};
use ot_logic::Memory;
use ot_program::{Status, run};
use std::alloc::Global;
use std::process::ExitCode;

/// Runs `info library.thy`.
fn main(rt: HostRuntime) -> ExitCode {
    let mut files = DirFiles::new(&rt);
    let mut input = StdSource::new(rt.stdin());
    let mut out = StdSink::new(rt.stdout());
    let mut err = StdSink::new(rt.stderr());
    let status = match words(rt.alloc()) {
        Ok(words) => run(
            rt.alloc(),
            &words,
            &mut files,
            &mut input,
            &mut out,
            &mut err,
        ),
        Err(_) => Status::Memory,
    };
    ExitCode::from(status.code())
}

/// The command's words.
fn words(alloc: Global) -> Result<Vec<String>, Memory> {
    let mut words = Vec::new(alloc);
    words.push(String::from_str(alloc, "info")?)?;
    words.push(String::from_str(alloc, "library.thy")?)?;
    Ok(words)
}
