//! What the program answers, over devices in memory.
mod deep;
mod devices;
mod finding;
mod hostile;
mod logs;
mod reading;
mod repetitions;
mod tables;
mod theories;
mod written;

use devices::{FINE, Outside, add_lines, answered, answered_in, answers, joined, says};
use ot_program::Status;
use repetitions::{DOUBLED, KEYED, KEYED_LAST, REPEATED, Repeated, TOO_LARGE};
use std::alloc::Global;
use std::process::Abort;
use std::test::Fail;
use tables::{ARTICLES, FAULTS, FIRST, NEEDED, NEW_TYPES_5, NONE, ONE, PARTS, SUMMARIES};
use theories::{
    ASSUMED_ONE, ASSUMES, BAD_LINE, CHAIN, CYCLE, DEFINED_TOP, DEFINES_TOP, FAR, GONE,
    IMPORT_CYCLE, IMPORTS, IMPORTS_LATE, IMPORTS_NONE, NO_ARTICLE, NO_THEORY, NOT_EQUATION,
    NOT_EQUATION_FAR, RENAMED, RENAMES, SHOWN, SHOWS, SYMMETRIC, THEORY_FAILED, TOO_DEEP,
    UNREADABLE, WEAKENED, WEAKENS, WEAKENS_NONE,
};
use written::{
    LEAN, LINKED, NEEDLESS, NEEDLESS_COUNTS, SAME_THEOREMS, SAMPLES, WRITTEN, WRITTEN_TOP,
};

#[test]
fn articles(rt: HostRuntime) -> Result<(), Fail> {
    for &(text, status, line) in ARTICLES {
        let mut article = Vec::new(rt.alloc());
        add_lines(&mut article, text)?;
        assert!(rt;
            answers(rt.alloc(), &["check", "-"], &article, status, line)?,
            "{text:?}"
        );
    }
    Ok(())
}

#[test]
fn articles_in_parts(rt: HostRuntime) -> Result<(), Fail> {
    for &(parts, status, line) in PARTS {
        let article = joined(rt.alloc(), parts)?;
        assert!(rt;
            answers(rt.alloc(), &["check", "-"], &article, status, line)?,
            "{parts:?}"
        );
    }
    Ok(())
}

#[test]
fn summaries(rt: HostRuntime) -> Result<(), Fail> {
    for &(parts, operands, summary) in SUMMARIES {
        let article = joined(rt.alloc(), parts)?;
        let mut words: Vec<&str> = vec![in rt.alloc(); "info"]?;
        words.extend_from_slice(operands)?;
        assert!(rt;
            answers(rt.alloc(), &words, &article, Status::Accepted, summary)?,
            "{parts:?}"
        );
    }
    Ok(())
}

/// Whether the commands of a text are refused so behind the version.
fn is_refused(alloc: Global, text: &[u8], fault: &[u8]) -> Result<bool, Fail> {
    let version: &[u8] = b"6 version";
    let article = joined(alloc, &[version, text])?;
    let mut line = Vec::from_slice(alloc, b"opentheory: a.art:")?;
    line.extend_from_slice(fault)?;
    line.push(b'\n')?;
    answers(alloc, &["check", "a.art"], &article, Status::Refused, &line)
}

#[test]
fn faults(rt: HostRuntime) -> Result<(), Fail> {
    for &(text, fault) in FAULTS {
        assert!(rt; is_refused(rt.alloc(), text, fault)?, "{text:?}");
    }
    Ok(())
}

/// Runs an article that says one part many times, and compares the status and what it says.
fn says_repeated(alloc: Global, row: &Repeated) -> Result<bool, Fail> {
    let (first, again, times, last, command, status, line) = *row;
    let mut article = joined(alloc, first)?;
    for _ in 0..times {
        add_lines(&mut article, again)?;
    }
    add_lines(&mut article, last)?;
    answers(alloc, &[command, "-"], &article, status, line)
}

#[test]
fn repeated(rt: HostRuntime) -> Result<(), Fail> {
    for row in &REPEATED {
        assert!(rt;
            says_repeated(rt.alloc(), row)?,
            "{} times {:?}",
            row.2,
            row.1
        );
    }
    Ok(())
}

/// Terms and types that are great as trees, and small as they are shared.
#[test]
fn doubled(rt: HostRuntime) -> Result<(), Fail> {
    for row in &DOUBLED {
        assert!(rt;
            says_repeated(rt.alloc(), row)?,
            "{} times {:?}",
            row.2,
            row.1
        );
    }
    Ok(())
}

/// The terms of the sample, each under a key of its own.
fn keyed(alloc: Global) -> Result<Vec<u8>, Fail> {
    let mut article = joined(alloc, &[KEYED])?;
    for key in 6..406 {
        let next: u64 = key + 2;
        let lines = format!(in alloc;
            "4\nref\n{key}\nref\nappTerm\n{key}\nref\nappTerm\n{next}\ndef\npop\n"
        )?;
        article.extend_from_slice(lines.as_bytes())?;
    }
    add_lines(&mut article, KEYED_LAST)?;
    Ok(article)
}

#[test]
fn doubled_under_keys(rt: HostRuntime) -> Result<(), Fail> {
    let article = keyed(rt.alloc())?;
    assert!(rt; answers(rt.alloc(), &["check", "-"], &article, Status::Accepted, ONE)?);
    Ok(())
}

#[test]
fn too_large(rt: HostRuntime) -> Result<(), Fail> {
    assert!(rt; says_repeated(rt.alloc(), &TOO_LARGE)?);
    Ok(())
}

/// Articles in contexts of others, in theory files and packages.
#[test]
fn theory_files(rt: HostRuntime) -> Result<(), Fail> {
    let alloc = rt.alloc();
    let check = &["check", "t.thy"];
    let info = &["info", "t.thy"];
    assert!(rt; says(alloc, check, &IMPORTS, 0, Status::Accepted, ONE)?);
    assert!(rt;
        says(
            alloc,
            check,
            &IMPORTS_NONE,
            0,
            Status::Accepted,
            ASSUMED_ONE
        )?
    );
    assert!(rt;
        says(
            alloc,
            check,
            &IMPORTS_LATE,
            0,
            Status::Accepted,
            ASSUMED_ONE
        )?
    );
    let theorems = &["info", "--theorems", "t.thy"];
    assert!(rt; says(alloc, check, &WEAKENS, 0, Status::Accepted, ONE)?);
    assert!(rt;
        says(
            alloc,
            check,
            &WEAKENS_NONE,
            0,
            Status::Accepted,
            ASSUMED_ONE
        )?
    );
    assert!(rt; says(alloc, theorems, &WEAKENS, 0, Status::Accepted, WEAKENED)?);
    assert!(rt; says(alloc, info, &ASSUMES, 0, Status::Accepted, SYMMETRIC)?);
    assert!(rt; says(alloc, info, &RENAMES, 0, Status::Accepted, RENAMED)?);
    let readable = &["info", "--readable", "t.thy"];
    assert!(rt; says(alloc, readable, &SHOWS, 0, Status::Accepted, SHOWN)?);
    Ok(())
}

/// Whether the article of these parts is written as this text.
fn is_written(alloc: Global, parts: &[&[u8]], text: &[u8]) -> Result<bool, Fail> {
    let article = joined(alloc, parts)?;
    let lines = joined(alloc, &[text])?;
    answers(
        alloc,
        &["minimise", "-"],
        &article,
        Status::Accepted,
        &lines,
    )
}

/// An article that is written has what its exports need and nothing else, and proves the same.
#[test]
fn minimised(rt: HostRuntime) -> Result<(), Fail> {
    for &(parts, text) in WRITTEN {
        assert!(rt; is_written(rt.alloc(), parts, text)?, "{parts:?}");
    }
    let needless = joined(rt.alloc(), &[NEEDLESS])?;
    let lean = joined(rt.alloc(), &[LEAN])?;
    assert!(rt; lean.len() == 97);
    check_lean(&rt, rt.alloc(), &needless, &lean)
}

fn check_lean(rt: &impl Abort, alloc: Global, needless: &[u8], lean: &[u8]) -> Result<(), Fail> {
    let check = &["check", "a.art"];
    let theorems = &["info", "--theorems", "a.art"];
    assert!(rt; answers(alloc, check, needless, Status::Accepted, NEEDLESS_COUNTS)?);
    assert!(rt; answers(alloc, check, lean, Status::Accepted, ONE)?);
    assert!(rt; answers(alloc, theorems, needless, Status::Accepted, SAME_THEOREMS)?);
    assert!(rt; answers(alloc, theorems, lean, Status::Accepted, SAME_THEOREMS)?);
    Ok(())
}

/// A theory file's is that of its last block.
#[test]
fn linked(rt: HostRuntime) -> Result<(), Fail> {
    let mut lines = Vec::new(rt.alloc());
    add_lines(&mut lines, LINKED)?;
    for command in ["link", "minimise"] {
        let words = &[command, "t.thy"];
        assert!(rt;
            says(rt.alloc(), words, &IMPORTS, 0, Status::Accepted, &lines)?,
            "{command}"
        );
    }
    Ok(())
}

/// A definition that a theory file renames is written under its new name.
#[test]
fn renamed_definitions(rt: HostRuntime) -> Result<(), Fail> {
    let info = &["info", "t.thy"];
    assert!(rt;
        says(
            rt.alloc(),
            info,
            &DEFINES_TOP,
            0,
            Status::Accepted,
            DEFINED_TOP
        )?
    );
    let mut lines = Vec::new(rt.alloc());
    add_lines(&mut lines, WRITTEN_TOP)?;
    for command in ["link", "minimise"] {
        let words = &[command, "t.thy"];
        assert!(rt;
            says(rt.alloc(), words, &DEFINES_TOP, 0, Status::Accepted, &lines)?,
            "{command}"
        );
    }
    Ok(())
}

/// Whether `info` prints this summary of the article that `minimise` writes of an article.
fn rewrites(alloc: Global, parts: &[&[u8]], summary: &[u8]) -> Result<bool, Fail> {
    let article = joined(alloc, parts)?;
    let lean = answered(alloc, &["minimise", "-"], &article, FINE)?;
    answers(alloc, &["info", "-"], &lean.out, Status::Accepted, summary)
}

/// An article that is written prints as what it was written of: also of version 5, and of a theory whose theorem has one
/// hypothesis more.
#[test]
fn rewritten(rt: HostRuntime) -> Result<(), Fail> {
    for place in NEEDED {
        match SUMMARIES.get(place) {
            Some((parts, _, summary)) => {
                assert!(rt; rewrites(rt.alloc(), parts, summary)?, "{parts:?}");
            }
            None => assert!(rt; false, "no summary {place}"),
        }
    }
    let linked = answered_in(rt.alloc(), &["link", "t.thy"], &WEAKENS, 0)?;
    let theorems = &["info", "--theorems", "-"];
    assert!(rt;
        answers(
            rt.alloc(),
            theorems,
            &linked.out,
            Status::Accepted,
            WEAKENED
        )?
    );
    Ok(())
}

/// Type operators of version 5 print, are written again and have a log, also where their predicate has binders.
#[test]
fn new_types(rt: HostRuntime) -> Result<(), Fail> {
    for &(parts, summary) in NEW_TYPES_5 {
        let article = joined(rt.alloc(), parts)?;
        let info = &["info", "-"];
        assert!(rt; answers(rt.alloc(), info, &article, Status::Accepted, summary)?);
        assert!(rt; rewrites(rt.alloc(), parts, summary)?, "{parts:?}");
        assert!(rt; logs::proves(rt.alloc(), parts, summary)?, "{parts:?}");
    }
    Ok(())
}

/// The sample article, and the line on it.
#[test]
fn samples(rt: HostRuntime) -> Result<(), Fail> {
    for &(size, line) in SAMPLES {
        assert!(rt;
            answers(rt.alloc(), &["sample", size], b"", Status::Accepted, line)?,
            "{size}"
        );
    }
    Ok(())
}

/// Whether the program answers these words so over the sample article of size 200, whose terms are doubled 200 times.
fn answers_on_doubled(
    alloc: Global,
    words: &[&str],
    status: Status,
    text: &[u8],
) -> Result<bool, Fail> {
    let made = answered(alloc, &["sample", "--article", "200"], b"", FINE)?;
    answers(alloc, words, &made.out, status, text)
}

/// What isn't printed of doubled terms takes no more than their shared parts.
#[test]
fn doubled_samples(rt: HostRuntime) -> Result<(), Fail> {
    let check = &["check", "-"];
    let alike = &["find", "((p : 'A) = (p : 'A))", "-"];
    assert!(rt; answers_on_doubled(rt.alloc(), check, Status::Accepted, ONE)?);
    assert!(rt; answers_on_doubled(rt.alloc(), alike, Status::Accepted, b"matches: 0\n")?);
    Ok(())
}

/// What is printed of them is too large, which is seen as soon as its page is full.
#[test]
fn large_summaries(rt: HostRuntime) -> Result<(), Fail> {
    let rows: [&[&str]; 2] = [&["info", "-"], &["info", "--readable", "-"]];
    for words in rows {
        assert!(rt; answers_on_doubled(rt.alloc(), words, Status::Refused, TOO_LARGE.6)?);
    }
    Ok(())
}

#[test]
fn large_lists(rt: HostRuntime) -> Result<(), Fail> {
    let rows: [&[&str]; 2] = [
        &["info", "--uses", "-"],
        &["find", "((p : 'A) = (q : 'A))", "-"],
    ];
    for words in rows {
        assert!(rt; answers_on_doubled(rt.alloc(), words, Status::Refused, TOO_LARGE.6)?);
    }
    Ok(())
}

/// Their log is small, and is checked; what it proves is too large to be printed.
#[test]
fn large_logs(rt: HostRuntime) -> Result<(), Fail> {
    assert!(rt; has_large_log(rt.alloc())?);
    Ok(())
}

fn has_large_log(alloc: Global) -> Result<bool, Fail> {
    let made = answered(alloc, &["sample", "--article", "200"], b"", FINE)?;
    let log = answered(alloc, &["prove", "-"], &made.out, FINE)?;
    let verify = &["verify", "-"];
    let is_large = answers(alloc, verify, &log.out, Status::Refused, TOO_LARGE.6)?;
    Ok(log.status == Status::Accepted && is_large)
}

/// The path of a line is that of the file at fault.
#[test]
fn theory_faults(rt: HostRuntime) -> Result<(), Fail> {
    let alloc = rt.alloc();
    let check = &["check", "t.thy"];
    let alone = &["check", "packages/eq-1.0/eq.art"];
    assert!(rt; says(alloc, alone, &RENAMES, 0, Status::Refused, NOT_EQUATION)?);
    assert!(rt; says(alloc, check, &FAR, 0, Status::Refused, NOT_EQUATION_FAR)?);
    assert!(rt; says(alloc, check, &CYCLE, 0, Status::Refused, IMPORT_CYCLE)?);
    assert!(rt; says(alloc, check, &UNREADABLE, 0, Status::Refused, BAD_LINE)?);
    assert!(rt; says(alloc, check, &GONE, 0, Status::NoFile, NO_ARTICLE)?);
    // The second call reads the theory file.
    assert!(rt; says(alloc, check, &GONE, 2, Status::ReadFault, THEORY_FAILED)?);
    let readable = &["info", "--readable", "t.thy"];
    let gone = &["info", "--readable", "gone.thy"];
    assert!(rt; says(alloc, readable, &CYCLE, 0, Status::Refused, IMPORT_CYCLE)?);
    assert!(rt; says(alloc, readable, &SHOWS, 2, Status::ReadFault, THEORY_FAILED)?);
    assert!(rt; says(alloc, gone, &SHOWS, 0, Status::NoFile, NO_THEORY)?);
    Ok(())
}

/// Sixteen packages inside each other, and seventeen.
#[test]
fn package_chains(rt: HostRuntime) -> Result<(), Fail> {
    let alloc = rt.alloc();
    let sixteen = &["check", "--packages", "p", "sixteen.thy"];
    let seventeen = &["check", "--packages", "p", "seventeen.thy"];
    assert!(rt; says(alloc, sixteen, &CHAIN, 0, Status::Accepted, NONE)?);
    assert!(rt; says(alloc, seventeen, &CHAIN, 0, Status::Refused, TOO_DEEP)?);
    Ok(())
}

#[test]
fn long_names(rt: HostRuntime) -> Result<(), Fail> {
    let rows: [(usize, Status, &[u8]); 2] = [
        (65533, Status::Accepted, NONE),
        (
            65534,
            Status::Refused,
            b"opentheory: -:3: line longer than 65535 bytes\n",
        ),
    ];
    for (letters, status, line) in rows {
        assert!(rt;
            has_long_name(rt.alloc(), letters, status, line)?,
            "{letters} letters"
        );
    }
    Ok(())
}

fn has_long_name(alloc: Global, letters: usize, status: Status, line: &[u8]) -> Result<bool, Fail> {
    let letters = vec![in alloc; b'x'; letters]?;
    let mut article = Vec::from_slice(alloc, b"6\nversion\n\"")?;
    article.extend_from_slice(&letters)?;
    article.push(b'"')?;
    answers(alloc, &["check", "-"], &article, status, line)
}

const USAGE: &[u8] =
    b"usage: opentheory check|info|link|minimise [--packages DIR] INPUT; info also takes --assumptions \
      --definitions --theorems; opentheory sample [--article] N; opentheory info --uses INPUT; opentheory info \
      --readable INPUT; opentheory read INPUT TEXT; opentheory prove INPUT; opentheory verify LOG; opentheory \
      find PATTERN INPUT\n";

/// Words that are no command.
const OTHER_WORDS: [&[&str]; 15] = [
    &[],
    &["check"],
    &["check", "a", "b"],
    &["info", "--theorems", "--theorems", "a"],
    &["info", "--readable", "--theorems", "a"],
    &["info", "--uses", "--readable", "a"],
    &["check", "-.thy"],
    &["find", "(p : bool)"],
    &["find", "", "a.art"],
    &["find", "-", "a.art"],
    &["link", "a.art"],
    &["sample", "0"],
    &["sample", "1001"],
    &["sample", "007"],
    &["--help"],
];

#[test]
fn other_words(rt: HostRuntime) -> Result<(), Fail> {
    for words in OTHER_WORDS {
        assert!(rt;
            answers(rt.alloc(), words, FIRST, Status::Usage, USAGE)?,
            "{words:?}"
        );
    }
    Ok(())
}

/// Words, how many bytes of the article of 19 lines are cut off, and what is answered over objects that take or give
/// few bytes a call, or fail: the status, the output and the error line.
const OUTSIDES: &[(&[&str], usize, Outside, Status, &[u8], &[u8])] = &[
    (&["check", "a.art"], 0, FINE, Status::Accepted, ONE, b""),
    (
        &["check", "-"],
        1,
        Outside {
            read: (1, 0),
            ..FINE
        },
        Status::Accepted,
        ONE,
        b"",
    ),
    (
        &["check", "-"],
        0,
        Outside {
            write: (10, 3),
            ..FINE
        },
        Status::WriteFault,
        b"accepted: 1 theorems",
        b"opentheory: write fault\n",
    ),
    (
        &["check", "-"],
        0,
        Outside {
            write: (1024, 2),
            ..FINE
        },
        Status::WriteFault,
        ONE,
        b"opentheory: write fault\n",
    ),
    (
        &["check", "-"],
        0,
        Outside {
            read: (1, 36),
            ..FINE
        },
        Status::ReadFault,
        b"",
        b"opentheory: -: read fault\n",
    ),
    (
        &["check", "-"],
        0,
        Outside {
            read: (1, 36),
            say: (10, 2),
            ..FINE
        },
        Status::ReadFault,
        b"",
        b"opentheory",
    ),
    (
        &["check", "a.art"],
        0,
        Outside {
            read: (1, 1),
            ..FINE
        },
        Status::ReadFault,
        b"",
        b"opentheory: a.art: read fault\n",
    ),
    (
        &["info", "a.art"],
        0,
        Outside {
            read: (1, 37),
            ..FINE
        },
        Status::ReadFault,
        b"",
        b"opentheory: a.art: read fault\n",
    ),
    (
        &["check", "b/gone.art"],
        0,
        FINE,
        Status::NoFile,
        b"",
        b"opentheory: b/gone.art: no such file\n",
    ),
    (
        &["info", "--packages", "p", "gone"],
        0,
        FINE,
        Status::NoFile,
        b"",
        b"opentheory: gone: no such file\n",
    ),
];

#[test]
fn outsides(rt: HostRuntime) -> Result<(), Fail> {
    for &(words, cut, outside, status, out, err) in OUTSIDES {
        assert!(rt; outside.read.0 > 0 && outside.write.0 > 0 && outside.say.0 > 0);
        let article = &FIRST[..FIRST.len() - cut.min(1)];
        let answer = answered(rt.alloc(), words, article, outside)?;
        assert!(rt; answer.stands(status, out, err), "{words:?}");
    }
    Ok(())
}
