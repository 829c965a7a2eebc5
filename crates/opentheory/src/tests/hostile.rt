//! Devices that fail at each of their calls in turn, and malformed input.
use super::OTHER_WORDS;
use super::devices::{
    Answer, FINE, Outside, answered, answered_over, answers, files_of, one_file, says,
};
use super::tables::{FIRST, NONE, ONE};
use super::theories::{Entry, IMPORTS, PACKAGE_CYCLE, SELF};
use ot_program::Status;
use std::alloc::Global;
use std::test::Fail;

/// Which call of an output that takes ten bytes a call fails, and how many bytes stand then. The seventh call is the
/// flush.
const FAILING_WRITES: &[(u64, usize)] = &[
    (1, 0),
    (2, 10),
    (3, 20),
    (4, 30),
    (5, 40),
    (6, 50),
    (7, 51),
];

/// Whether the write failed, and a front of the line of this length stands.
fn has_front(answer: &Answer, count: usize) -> bool {
    answer.status == Status::WriteFault && answer.out.len() == count && ONE.starts_with(&answer.out)
}

#[test]
fn failing_sinks(rt: HostRuntime) -> Result<(), Fail> {
    let alloc = rt.alloc();
    for &(call, count) in FAILING_WRITES {
        let outside = Outside {
            write: (10, call),
            ..FINE
        };
        let answer = answered(alloc, &["check", "-"], FIRST, outside)?;
        assert!(rt; has_front(&answer, count), "call {call}");
    }
    let last = Outside {
        write: (10, 8),
        ..FINE
    };
    let answer = answered(alloc, &["check", "-"], FIRST, last)?;
    assert!(rt; answer.is(Status::Accepted, ONE));
    for words in OTHER_WORDS {
        let outside = Outside {
            say: (1024, 1),
            ..FINE
        };
        let answer = answered(alloc, words, FIRST, outside)?;
        assert!(rt; answer.is(Status::Usage, b""), "{words:?}");
    }
    Ok(())
}

/// The article of 89 bytes by one byte a call; the ninetieth call finds its end.
#[test]
fn failing_sources(rt: HostRuntime) -> Result<(), Fail> {
    let alloc = rt.alloc();
    for call in 1..91 {
        let outside = Outside {
            read: (1, call),
            ..FINE
        };
        let answer = answered(alloc, &["check", "-"], FIRST, outside)?;
        assert!(rt;
            answer.is(Status::ReadFault, b"opentheory: -: read fault\n"),
            "call {call}"
        );
    }
    let last = Outside {
        read: (1, 91),
        ..FINE
    };
    let answer = answered(alloc, &["check", "-"], FIRST, last)?;
    assert!(rt; answer.is(Status::Accepted, ONE));
    Ok(())
}

/// The file in use at a call, where each is opened, read by sixteen bytes a call, and once more at its end.
fn in_use(entries: &[Entry], call: u64) -> Option<&'static str> {
    let mut left = call;
    for (path, start, end) in entries {
        let bytes = start.len().saturating_add(end.len());
        let calls = bytes.div_ceil(16).saturating_add(2) as u64;
        if left <= calls {
            return Some(path);
        }
        left = left.saturating_sub(calls);
    }
    None
}

/// What a run over a theory file and its articles answers where this call fails.
fn answers_failing(alloc: Global, call: u64) -> Result<bool, Fail> {
    let outside = Outside {
        read: (16, call),
        ..FINE
    };
    let files = files_of(alloc, &IMPORTS)?;
    let answer = answered_over(alloc, &["check", "t.thy"], files, b"", outside)?;
    match in_use(&IMPORTS, call) {
        Some(path) => {
            let line = format!(in alloc; "opentheory: {path}: read fault\n")?;
            Ok(answer.is(Status::ReadFault, line.as_bytes()))
        }
        None => Ok(answer.is(Status::Accepted, ONE)),
    }
}

#[test]
fn failing_files(rt: HostRuntime) -> Result<(), Fail> {
    for call in 1..1000 {
        assert!(rt; answers_failing(rt.alloc(), call)?, "call {call}");
        if in_use(&IMPORTS, call).is_none() {
            return Ok(());
        }
    }
    assert!(rt; false, "no run without a failing call");
    Ok(())
}

/// Words behind which a file of newlines is named, the file, how many newlines it has, and what is answered.
const NEWLINES: [(&[&str], &str, usize, Status, &[u8]); 4] = [
    (
        &["check", "b.thy"],
        "b.thy",
        1_048_576,
        Status::Refused,
        b"opentheory: b.thy:1048576: no block main\n",
    ),
    (
        &["check", "b.thy"],
        "b.thy",
        1_048_577,
        Status::Refused,
        b"opentheory: b.thy: theory longer than 1048576 bytes\n",
    ),
    (
        &["read", "-", "b.txt"],
        "b.txt",
        1_048_576,
        Status::Accepted,
        b"",
    ),
    (
        &["read", "-", "b.txt"],
        "b.txt",
        1_048_577,
        Status::Refused,
        b"opentheory: b.txt: text longer than 1048576 bytes\n",
    ),
];

/// What is answered over one file of so many newlines, and nothing on the input.
fn answered_on_newlines(
    alloc: Global,
    words: &[&str],
    path: &str,
    length: usize,
) -> Result<Answer, Fail> {
    let lines = vec![in alloc; b'\n'; length]?;
    let files = one_file(alloc, path, &lines)?;
    answered_over(alloc, words, files, b"", FINE)
}

#[test]
fn malformed(rt: HostRuntime) -> Result<(), Fail> {
    let alloc = rt.alloc();
    // How many bytes of the article stand, and what is answered.
    let cuts: [(usize, Status, &[u8]); 8] = [
        (0, Status::Accepted, NONE),
        (1, Status::Accepted, NONE),
        (3, Status::Refused, b"opentheory: -:2: unknown command\n"),
        (10, Status::Accepted, NONE),
        (40, Status::Refused, b"opentheory: -:8: unknown command\n"),
        (42, Status::Accepted, NONE),
        (85, Status::Accepted, NONE),
        (88, Status::Accepted, ONE),
    ];
    for (count, status, text) in cuts {
        assert!(rt;
            answers(alloc, &["check", "-"], &FIRST[..count], status, text)?,
            "{count} bytes"
        );
    }
    for (words, path, length, status, text) in NEWLINES {
        let answer = answered_on_newlines(alloc, words, path, length)?;
        assert!(rt; answer.is(status, text), "{words:?} {length} newlines");
    }
    assert!(rt;
        says(
            alloc,
            &["check", "u.thy"],
            &SELF,
            0,
            Status::Refused,
            PACKAGE_CYCLE
        )?
    );
    Ok(())
}
