ghost use Rattle.std.specs.Prelude.{◌≡◌, ◌<◌, ◌≤◌, ◌+◌, ◌-◌, ◌^◌, [], true, false, take, drop, length, OnOk, IfOk, IfErr, IfSome};
ghost use Rattle.std.specs.Borrow.{sem};
ghost use Rattle.std.specs.Io.BufRead.{Rests};
ghost use Rattle.ot_io.specs.Causes.{HasCause};
ghost use Rattle.ot_io.specs.Keeping.{KeepsSource};
ghost use Rattle.ot_scan.specs.Lines.{TakesFrom, Counts, HasReadCause, IsLineText, limit_fault};
ghost use Rattle.ot_scan.specs.Reading.{Fills, IsFirstPiece, KeepsLines, GoesOn, FindsNextLine, ChecksLimits, behind_line};
ghost use Rattle.ot_scan.specs.contracts.lines.Lines.{the_row};

use crate::fault::ScanFault;
use crate::piece::{LINE_BYTES, check_limits};
use ot_io::{Failed, Source};
use ot_lines::{is_passed_over, near_len, piece_len, trimmed};
use std::marker::Model;

/// How many bytes are held at most: those of the longest line and its newline.
const CAPACITY: usize = 65536;

/// A line that holds a command.
#[derive(Clone, Copy, PartialEq, Eq)]
pub struct Line<'a> {
    /// Counted from 1.
    pub number: u64,
    /// Without its newline, a CR before it, and blanks at both ends; neither empty nor a comment.
    pub text: &'a [u8],
}

/// The lines of an article, in one pass over a source. It holds a fixed array and no source: the
/// bytes to come are those in the array that no line took yet, followed by those that the source
/// has left.
#[derive(Drop)]
pub struct Lines {
    buffer: [u8; CAPACITY],
    start: usize,
    end: usize,
    max_bytes: u64,
    /// Where in the array, or behind it, the last byte ends that the article may have.
    limit: u64,
    number: u64,
    /// Behind the end that was seen nothing is read, also where the source would give more.
    ended: bool,
}

impl Model for Lines {
    ghost use Rattle.std.specs.Prelude.{◌-◌, take, drop};
    ghost use Rattle.ot_scan.specs.Lines.{Scan};
    ghost use Rattle.ot_scan.specs.Reading.{IsScanner};

    ghost Value = { Scan };

    ghost view = { λ l. record {
      max = l.max_bytes;
      held = take (l.end - l.start) (drop l.start l.buffer);
      before = l.max_bytes - (l.limit - l.start);
      number = l.number;
      ended = l.ended;
    } };

    ghost invariant = { λ l. IsScanner l.start l.end l.limit l.number l.max_bytes };
}

impl Lines {
    /// The lines of an article that has at most `max_bytes` bytes, before the first.
    pub fn new(max_bytes: u64) -> Lines
        requires { max_bytes ≤ 2 ^ 32 }
        ensures { result ≡ record { max = max_bytes; held = []; before = 0; number = 0; ended = false } }
    {
        Lines {
            buffer: [0; CAPACITY],
            start: 0,
            end: 0,
            max_bytes,
            limit: max_bytes,
            number: 0,
            ended: false,
        }
    }

    /// The next line that holds a command, by the article format.
    ///
    /// Lines end at a newline, and the last one needs none. `None` comes exactly at the end of the
    /// input. `LineTooLong` comes exactly at the 65,536th byte of a line, its newline not counted, and
    /// `ArticleTooLong` exactly at byte `max_bytes + 1` of the article. The earlier of the two places
    /// counts, and at one place it is `ArticleTooLong`; a later call answers the same. `ReadFault`
    /// comes only where the source failed in this call. Then no byte is lost, and a later call goes
    /// on. No memory is taken.
    /// Once a line: each reader of lines is to have it inline, and what it calls.
    #[inline(always)]
    pub fn next<S: Source>(&mut self, source: &mut S) -> Result<Option<Line<'_>>, ScanFault>
        ensures* line { sem 𝓛 (Rests the_row self.entry (λ new.
            TakesFrom result self.old new (S.left source.old) (S.left source.new)
            × Counts result self.old new)) }
        ensures not_empty { IfOk result (λ o. IfSome o (λ line. 0 < length line.text.now)) }
        ensures fits { IfOk result (λ o. IfSome o (λ line. IsLineText line.text.now)) }

        ensures cause { IfErr result (λ fault.
            HasReadCause fault (S.faults source.old) (S.faults source.new)) }
        ensures kept { KeepsSource S.folder S.faults S.misses S.at source.old source.new }
    {
        let len = self.pass_skipped(source)?;
        if len == 0 {
            return Ok(None);
        }
        let number = self.number + 1;
        let text = trimmed(self.take_piece(len));
        Ok(Some(Line { number, text }))
    }

    /// Passes over the lines that hold no command, and answers how long the line after them is, its
    /// newline counted, or 0 at the end.
    #[inline(always)]
    fn pass_skipped<S: Source>(&mut self, source: &mut S) -> Result<usize, ScanFault>
        ensures same_lines { KeepsLines self.old self.new (S.left source.old) (S.left source.new) }
        ensures goes_on { GoesOn self.old self.new }
        ensures found { FindsNextLine result self.new }

        ensures cause { IfErr result (λ fault.
            HasReadCause fault (S.faults source.old) (S.faults source.new)) }
        ensures kept { KeepsSource S.folder S.faults S.misses S.at source.old source.new }
    {
        'lines: loop {
            let len = self.first_piece(source)?;
            if len == 0 {
                return Ok(0);
            }
            let piece = &self.held()[..len];
            self.check_limits(piece)?;
            if !is_passed_over(piece) {
                return Ok(len);
            }
            self.take_piece(len);
        }
    }

    /// Whether a piece of a line, as the first that is held, keeps the limits.
    #[inline(always)]
    fn check_limits(&self, piece: &[u8]) -> Result<(), ScanFault>
        ensures limits { ChecksLimits result (self.now.number + 1)
            (limit_fault self.now.max self.now.before piece.now) }
        ensures within { OnOk result (self.now.before + length piece.now ≤ self.now.max) }
    {
        let end = (self.start + piece.len()) as u64;
        if piece.len() <= LINE_BYTES && end <= self.limit {
            return Ok(());
        }
        let before = self.max_bytes - (self.limit - self.start as u64);
        check_limits(self.max_bytes, before, self.number + 1, piece)
    }

    /// Reads until the first piece is held, or its first 65,536 bytes where it is longer, and answers
    /// how many bytes that is: 0 exactly at the end. At a failure what was read before it is held.
    #[inline(always)]
    fn first_piece<S: Source>(&mut self, source: &mut S) -> Result<usize, Failed>
        ensures read { Fills self.old self.new (S.left source.old) (S.left source.new) }
        ensures first { IfOk result (λ len. IsFirstPiece len self.new.held self.new.ended) }

        ensures cause { HasCause (S.faults source.old) (S.faults source.new) result }
        ensures kept { KeepsSource S.folder S.faults S.misses S.at source.old source.new }
    {
        match near_len(self.held()) {
            Some(len) => Ok(len),
            None => self.read_piece(source),
        }
    }

    /// The same, where the first piece may be a long one, or isn't held yet.
    #[inline(never)]
    fn read_piece<S: Source>(&mut self, source: &mut S) -> Result<usize, Failed>
        ensures read { Fills self.old self.new (S.left source.old) (S.left source.new) }
        ensures first { IfOk result (λ len. IsFirstPiece len self.new.held self.new.ended) }

        ensures cause { HasCause (S.faults source.old) (S.faults source.new) result }
        ensures kept { KeepsSource S.folder S.faults S.misses S.at source.old source.new }
    {
        let mut searched = 0;
        'reads: loop {
            let held = self.held();
            if let Some(len) = piece_len(held, searched) {
                return Ok(len);
            }
            searched = held.len();
            if searched >= CAPACITY || self.read_more(source)? == 0 {
                return Ok(searched);
            }
        }
    }

    /// Reads more bytes, and answers how many: none at the end.
    fn read_more<S: Source>(&mut self, source: &mut S) -> Result<usize, Failed>
        requires { length self.old.held < 65536 }
        ensures read { Fills self.old self.new (S.left source.old) (S.left source.new) }
        ensures count { IfOk result (λ count.
            length self.new.held ≡ length self.old.held + count) }
        ensures end { IfOk result (λ count. count ≡ 0 → self.new.ended ≡ true) }

        ensures cause { HasCause (S.faults source.old) (S.faults source.new) result }
        ensures kept { KeepsSource S.folder S.faults S.misses S.at source.old source.new }
    {
        if self.ended {
            return Ok(0);
        }
        let len = self.end - self.start;
        move_to_front(&mut self.buffer, self.start, self.end);
        self.limit -= self.start as u64;
        self.start = 0;
        self.end = len;
        let count = source.read(&mut self.buffer[len..])?;
        self.end += count;
        self.ended = count == 0;
        Ok(count)
    }

    /// The bytes that no line took yet.
    fn held(&self) -> &[u8]
        ensures { result.now ≡ self.now.held }
    {
        &self.buffer[self.start..self.end]
    }

    /// Takes the first bytes that are held, as a line.
    fn take_piece(&mut self, len: usize) -> &[u8]
        requires some { 0 < len }
        requires within { len ≤ length self.old.held }
        requires limited { self.old.before + len ≤ self.old.max }
        ensures piece { result.now ≡ take len self.old.held }
        ensures* taken { sem 𝓛 (Rests the_row self.entry (λ new. new ≡ behind_line len self.old)) }
    {
        let start = self.start;
        self.start += len;
        self.number += 1;
        let buffer = &self.buffer;
        &buffer[start..start + len]
    }
}

/// Moves the bytes between two places to the front.
fn move_to_front(buffer: &mut [u8], start: usize, end: usize)
    requires ordered { start ≤ end }
    requires within { end ≤ length buffer.old }
    ensures { take (end - start) buffer.new ≡ take (end - start) (drop start buffer.old) }
{
    if start > 0 {
        buffer.copy_within(start..end, 0);
    }
}
