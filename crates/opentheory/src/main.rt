//! Runs an OpenTheory article or theory file, or a proof log, checks its proofs, and reports the result.
#![tactic(auto)]

use ot_io::{DirFiles, StdSink, StdSource, write_whole};
use ot_program::{OUT_OF_MEMORY, Status, run};
use std::process::ExitCode;
use std::{env, io};

fn main(rt: HostRuntime) -> ExitCode {
    let mut files = DirFiles::new(&rt);
    let mut input = StdSource::new(rt.stdin());
    let mut out = StdSink::new(rt.stdout());
    let mut err = StdSink::new(rt.stderr());
    let status = match words_of(&rt) {
        Ok(words) => run(
            rt.alloc(),
            &words,
            &mut files,
            &mut input,
            &mut out,
            &mut err,
        ),
        Err(_) => {
            let _ = write_whole(&mut err, OUT_OF_MEMORY);
            Status::Memory
        }
    };
    ExitCode::from(status.code())
}

/// The command's words, without the program's name; none where one of them is no text.
fn words_of(rt: &HostRuntime) -> Result<Vec<String>, io::Error> {
    let mut words = Vec::new(rt.alloc());
    match env::args(rt) {
        Ok(all) => {
            for word in all.skip(1) {
                words.push(word)?;
            }
        }
        Err(error) => {
            if error.kind() != io::ErrorKind::InvalidData {
                return Err(error);
            }
        }
    }
    Ok(words)
}

#[cfg(test)]
mod tests;
