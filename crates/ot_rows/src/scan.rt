//! The lines of articles, and their words.
ghost use Rattle.std.specs.Prelude.{[], Some, None};

use ot_io::{Failed, MemSource, Source};
use ot_logic::Cmd;
use ot_scan::{Line, Lines, ScanFault, Word, WordFault, command};
use std::alloc::Global;
use std::process::Abort;
use std::test::Fail;

const FIRST: &[u8] =
    b"6\nversion\n\"p\"\n\"bool\"\ntypeOp\nnil\nopType\nvar\nvarTerm\n0\ndef\nassume\n0\nref\nnil\ncons\n0\nref\nthm\n";

/// Articles with their limits, the lines that hold a command, and what comes then.
const ROWS: &[(&[u8], u64, &[(u64, &[u8])], Result<(), ScanFault>)] = &[
    (b"", 100, &[], Ok(())),
    (b"\n \t\r\n#\n", 100, &[], Ok(())),
    (b"6\nversion", 100, &[(1, b"6"), (2, b"version")], Ok(())),
    (
        b"6\r\n\t version\t \r\n\n  # no\nnil\r",
        100,
        &[(1, b"6"), (2, b"version"), (5, b"nil")],
        Ok(()),
    ),
    (
        b"a\r\r\nb \r \nc d",
        100,
        &[(1, b"a\r"), (2, b"b \r"), (3, b"c d")],
        Ok(()),
    ),
    (
        b"\x80\xff\n\"\xc3\xa9\"\n",
        100,
        &[(1, b"\x80\xff"), (2, b"\"\xc3\xa9\"")],
        Ok(()),
    ),
    (
        FIRST,
        10,
        &[(1, b"6"), (2, b"version")],
        Err(ScanFault::ArticleTooLong(3)),
    ),
    (b"6\nversion\n", 10, &[(1, b"6"), (2, b"version")], Ok(())),
    (
        b"6\nversion\n",
        9,
        &[(1, b"6")],
        Err(ScanFault::ArticleTooLong(2)),
    ),
    (
        b"6\nversion\n\n",
        10,
        &[(1, b"6"), (2, b"version")],
        Err(ScanFault::ArticleTooLong(3)),
    ),
    (b"#\n#\n", 3, &[], Err(ScanFault::ArticleTooLong(2))),
    (b"6", 0, &[], Err(ScanFault::ArticleTooLong(1))),
];

/// Reads on after the end too.
fn check_lines<S: Source>(
    rt: &impl Abort,
    source: &mut S,
    max_bytes: u64,
    wanted: &[(u64, &[u8])],
    end: Result<(), ScanFault>,
) {
    assert!(rt; max_bytes < 1000);
    let mut lines = Lines::new(max_bytes);
    for (number, text) in wanted {
        let line = Line {
            number: *number,
            text,
        };
        assert!(rt; lines.next(source) == Ok(Some(line)));
    }
    let end = end.map(|()| None);
    assert!(rt; lines.next(source) == end);
    assert!(rt; lines.next(source) == end);
}

#[test]
fn lines_in_pieces_of_any_size(rt: HostRuntime) -> Result<(), Fail> {
    for &(text, max_bytes, wanted, end) in ROWS {
        for piece in [1, 2, 7, 100_000] {
            let bytes = Vec::from_slice(rt.alloc(), text)?;
            let mut source = MemSource::new(bytes, piece, Vec::new(rt.alloc()));
            check_lines(&rt, &mut source, max_bytes, wanted, end);
        }
    }
    Ok(())
}

/// A terminal: an end is typed, and a line behind it. What will be typed isn't known.
#[derive(Drop)]
struct Terminal {
    reads: u8,
}

impl Source for Terminal {
    ghost left = { λ _. None };

    ghost faults = { λ _. 0 };

    ghost folder = { λ _. Some [] };

    ghost misses = { λ _. 0 };

    ghost at = { λ _. None };

    fn read(&mut self, buf: &mut [u8]) -> Result<usize, Failed> {
        let piece: &[u8] = match self.reads {
            0 => b"nil",
            2 => b"pop\n",
            _ => b"",
        };
        self.reads = self.reads.saturating_add(1);
        let count = piece.len().min(buf.len());
        buf[..count].copy_from_slice(&piece[..count]);
        Ok(count)
    }
}

#[test]
fn nothing_is_read_behind_an_end(rt: HostRuntime) -> Result<(), Fail> {
    let mut terminal = Terminal { reads: 0 };
    check_lines(&rt, &mut terminal, 100, &[(1, b"nil")], Ok(()));
    Ok(())
}

/// The number and the length of a line.
type Answer = Result<Option<(u64, usize)>, ScanFault>;

const LINE_1_TOO_LONG: Answer = Err(ScanFault::LineTooLong(1));

const LINE_2_TOO_LONG: Answer = Err(ScanFault::LineTooLong(2));

const ARTICLE_TOO_LONG: Answer = Err(ScanFault::ArticleTooLong(1));

/// What stands before a run of so many bytes in one line, and behind it; the limit; three answers.
const LONG_ROWS: [(&[u8], usize, &[u8], u64, [Answer; 3]); 10] = [
    (
        b"",
        65535,
        b"\n",
        65536,
        [Ok(Some((1, 65535))), Ok(None), Ok(None)],
    ),
    (
        b"",
        65535,
        b"",
        65535,
        [Ok(Some((1, 65535))), Ok(None), Ok(None)],
    ),
    (b"", 65536, b"\n", 70_000, [LINE_1_TOO_LONG; 3]),
    (b"", 65536, b"", 65536, [LINE_1_TOO_LONG; 3]),
    (b"", 65536, b"", 65535, [ARTICLE_TOO_LONG; 3]),
    (b"", 80_000, b"", 65534, [ARTICLE_TOO_LONG; 3]),
    (
        b"6\n",
        65533,
        b"\r\nnil",
        70_000,
        [Ok(Some((1, 1))), Ok(Some((2, 65533))), Ok(Some((3, 3)))],
    ),
    (
        b"6\n",
        65536,
        b"\n",
        70_000,
        [Ok(Some((1, 1))), LINE_2_TOO_LONG, LINE_2_TOO_LONG],
    ),
    (
        b"#",
        65534,
        b"\nnil\n",
        70_000,
        [Ok(Some((2, 3))), Ok(None), Ok(None)],
    ),
    (b"#", 65535, b"\n", 70_000, [LINE_1_TOO_LONG; 3]),
];

fn long_text(alloc: Global, front: &[u8], count: usize, back: &[u8]) -> Result<Vec<u8>, Fail> {
    let letters = vec![in alloc; b'x'; count]?;
    let mut text = Vec::from_slice(alloc, front)?;
    text.extend_from_slice(&letters)?;
    text.extend_from_slice(back)?;
    Ok(text)
}

fn answer_of(line: Result<Option<Line<'_>>, ScanFault>) -> Answer {
    Ok(line?.map(|line| (line.number, line.text.len())))
}

fn check_answers(rt: &impl Abort, source: &mut MemSource, max_bytes: u64, answers: [Answer; 3]) {
    assert!(rt; max_bytes < 100_000);
    let mut lines = Lines::new(max_bytes);
    for answer in answers {
        assert!(rt; answer_of(lines.next(source)) == answer);
    }
}

#[test]
fn long_lines(rt: HostRuntime) -> Result<(), Fail> {
    for (front, count, back, max_bytes, answers) in LONG_ROWS {
        for piece in [1, 1000, 65536, 100_000] {
            let text = long_text(rt.alloc(), front, count, back)?;
            let mut source = MemSource::new(text, piece, Vec::new(rt.alloc()));
            check_answers(&rt, &mut source, max_bytes, answers);
        }
    }
    Ok(())
}

fn check_faults(rt: &impl Abort, source: &mut MemSource) {
    let mut lines = Lines::new(100);
    let answers: [Result<Option<(u64, &[u8])>, ScanFault>; 6] = [
        Ok(Some((1, b"6"))),
        Err(ScanFault::ReadFault),
        Err(ScanFault::ReadFault),
        Err(ScanFault::ReadFault),
        Ok(Some((2, b"version"))),
        Ok(None),
    ];
    for answer in answers {
        let wanted = answer.map(|line| line.map(|(number, text)| Line { number, text }));
        assert!(rt; lines.next(source) == wanted);
    }
}

#[test]
fn goes_on_after_a_read_fault(rt: HostRuntime) -> Result<(), Fail> {
    let bytes = Vec::from_slice(rt.alloc(), b"6\nversion")?;
    let fail = Vec::from_slice(rt.alloc(), &[2, 3, 5])?;
    let mut source = MemSource::new(bytes, 4, fail);
    check_faults(&rt, &mut source);
    Ok(())
}

/// The number of the last line before a read fault, if there is one.
fn line_before_fault(source: &mut MemSource) -> Option<u64> {
    let mut lines = Lines::new(100);
    let mut last = 0;
    for _ in 0..20 {
        match lines.next(source) {
            Ok(Some(line)) => last = line.number,
            Ok(None) => return None,
            Err(_) => return Some(last),
        }
    }
    None
}

/// Two lines of ten bytes by one byte a call; the eleventh call finds their end.
#[test]
fn fails_at_each_call(rt: HostRuntime) -> Result<(), Fail> {
    for call in 1..13 {
        let wanted = if call < 3 {
            Some(0)
        } else if call < 11 {
            Some(1)
        } else if call < 12 {
            Some(2)
        } else {
            None
        };
        let bytes = Vec::from_slice(rt.alloc(), b"6\nversion\n")?;
        let mut source = MemSource::new(bytes, 1, Vec::from_slice(rt.alloc(), &[call])?);
        assert!(rt; line_before_fault(&mut source) == wanted, "call {call}");
    }
    Ok(())
}

#[test]
fn words(rt: HostRuntime) {
    let rows: [(&[u8], Result<Word<'_>, WordFault>); 27] = [
        (b"0", Ok(Word::Number(0))),
        (b"6", Ok(Word::Number(6))),
        (b"10", Ok(Word::Number(10))),
        (b"-7", Ok(Word::Number(-7))),
        (b"9223372036854775807", Ok(Word::Number(i64::MAX))),
        (b"9223372036854775808", Err(WordFault::NumberRange)),
        (b"-9223372036854775808", Ok(Word::Number(i64::MIN))),
        (b"-9223372036854775809", Err(WordFault::NumberRange)),
        (b"18446744073709551616", Err(WordFault::NumberRange)),
        (b"-18446744073709551617", Err(WordFault::NumberRange)),
        (b"99999999999999999999999999", Err(WordFault::NumberRange)),
        (b"-0", Err(WordFault::BadNumber)),
        (b"007", Err(WordFault::BadNumber)),
        (b"00", Err(WordFault::BadNumber)),
        (b"-01", Err(WordFault::BadNumber)),
        (b"-", Err(WordFault::BadNumber)),
        (b"--1", Err(WordFault::BadNumber)),
        (b"1a", Err(WordFault::BadNumber)),
        (b"1\x80", Err(WordFault::BadNumber)),
        (b"+1", Err(WordFault::UnknownCommand)),
        (b"\"a.b\\.c\"", Ok(Word::Name(b"\"a.b\\.c\""))),
        (b"\"\x80\"", Ok(Word::Name(b"\"\x80\""))),
        (b"\"abc", Err(WordFault::BadName)),
        (b"\"a\"b", Err(WordFault::BadName)),
        (b"version", Ok(Word::Command(Cmd::Version))),
        (b"th", Err(WordFault::UnknownCommand)),
        (b"\x80", Err(WordFault::UnknownCommand)),
    ];
    for (text, wanted) in rows {
        assert!(rt; !text.is_empty());
        assert!(rt; command(text) == wanted);
    }
}
