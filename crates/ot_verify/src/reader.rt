ghost use Rattle.std.specs.Prelude.{◌≡◌, ◌<◌, ◌≤◌, ◌^◌, ℕ, length, slice_index, [], false, Err, IfOk, IfSome};
ghost use Rattle.ot_io.specs.Causes.{CountRose};
ghost use Rattle.ot_io.specs.Keeping.{KeepsSource};
ghost use Rattle.ot_log_format.specs.State.{LogState};
ghost use Rattle.ot_log_format.specs.Records.{AskName, AskCount, AskType, AskTerm, AskSequent};
ghost use Rattle.ot_logic.specs.Names.{Name as NameValue};
ghost use Rattle.ot_verify.specs.Reading.{token};
ghost use Rattle.ot_verify.specs.Taking.{TakesFrom, TakesText, ReadsName, stopped};
ghost use Rattle.ot_verify.specs.Asking.{AnsweredFrom, IsValue, IsAt};
ghost use Rattle.ot_verify.specs.Going.{HeadsFrom, BeginsFrom, Advances, ReadsOn};

use crate::fault::{LogFault, VerifyFault};
use crate::token::{Token, read_token};
use ot_io::Source;
use ot_log_format::RecordWord;
use ot_logic::{Name, NameFault};
use ot_scan::{Lines, ScanFault};
use std::alloc::Global;

/// A token that was taken: its name was read, and its word was looked up.
#[derive(Drop)]
pub(crate) enum Taken {
    Number(u64),
    Name(Name),
    Word {
        is_header: bool,
        found: Option<RecordWord>,
    },
}

/// The tokens of a log, in one pass over a source.
#[derive(Drop)]
pub(crate) struct Reader {
    lines: Lines,
    // The line of the last token, or 0 before the first.
    last: u64,
}

impl Reader {
    /// The tokens of a log of at most so many bytes, before the first.
    pub(crate) fn new(max_bytes: u64) -> Reader
        requires { max_bytes ≤ 2 ^ 32 }
        ensures { result ≡ record {
          lines = record { max = max_bytes; held = []; before = 0; number = 0; ended = false };
          last = 0;
        } }
    {
        Reader {
            lines: Lines::new(max_bytes),
            last: 0,
        }
    }

    /// The next token, or `None` at the end of the log.
    pub(crate) fn take<S: Source>(
        &mut self,
        alloc: Global,
        source: &mut S,
    ) -> Result<Option<Taken>, VerifyFault>
        ensures taken { TakesFrom result self.old self.new (S.left source.old) (S.left source.new) }
        ensures advances { IfOk result (λ o. IfSome o (λ _. Advances self.old self.new)) }
        ensures cause { result ≡ Err VerifyFault.ReadFault → CountRose (S.faults source.old) (S.faults source.new) }
        ensures kept { KeepsSource S.folder S.faults S.misses S.at source.old source.new }
    {
        match self.lines.next(source) {
            Ok(None) => Ok(None),
            Ok(Some(line)) => {
                self.last = line.number;
                let taken = take_text(alloc, line.number, line.text)?;
                Ok(Some(taken))
            }
            Err(fault) => Err(stopping(fault)),
        }
    }

    /// A name.
    pub(crate) fn name<S: Source>(
        &mut self,
        alloc: Global,
        source: &mut S,
    ) -> Result<Name, VerifyFault>
        ensures answered { (st : LogState NameValue)
            → AnsweredFrom st AskName IsValue result self.old self.new (S.left source.old) (S.left source.new) }
        ensures reads { ReadsOn S.folder S.faults S.misses S.at result self.old self.new source.old source.new }
    {
        match self.take(alloc, source)? {
            Some(Taken::Name(name)) => Ok(name),
            Some(_) => Err(self.fault(LogFault::BadToken)),
            None => Err(self.fault(LogFault::LogEnds)),
        }
    }

    /// A count.
    pub(crate) fn count<S: Source>(
        &mut self,
        alloc: Global,
        source: &mut S,
    ) -> Result<u64, VerifyFault>
        ensures answered { (st : LogState NameValue)
            → AnsweredFrom st AskCount IsValue result self.old self.new (S.left source.old) (S.left source.new) }
        ensures reads { ReadsOn S.folder S.faults S.misses S.at result self.old self.new source.old source.new }
    {
        match self.take(alloc, source)? {
            Some(Taken::Number(number)) => Ok(number),
            Some(_) => Err(self.fault(LogFault::BadToken)),
            None => Err(self.fault(LogFault::LogEnds)),
        }
    }

    /// The number of an earlier one of so many nodes.
    pub(crate) fn earlier<S: Source>(
        &mut self,
        alloc: Global,
        source: &mut S,
        count: usize,
    ) -> Result<usize, VerifyFault>
        ensures types { (st : LogState NameValue) → count ≡ length st.types
            → AnsweredFrom st AskType (IsAt st.types) result
            self.old self.new (S.left source.old) (S.left source.new) }
        ensures terms { (st : LogState NameValue) → count ≡ length st.terms
            → AnsweredFrom st AskTerm (IsAt st.terms) result
            self.old self.new (S.left source.old) (S.left source.new) }
        ensures sequents { (st : LogState NameValue) → count ≡ length st.sequents
            → AnsweredFrom st AskSequent (IsAt st.sequents) result
            self.old self.new (S.left source.old) (S.left source.new) }
        ensures reads { ReadsOn S.folder S.faults S.misses S.at result self.old self.new source.old source.new }
    {
        match self.take(alloc, source)? {
            Some(Taken::Number(number)) => {
                if number < count as u64 {
                    Ok(number as usize)
                } else {
                    Err(self.fault(LogFault::BadReference))
                }
            }
            Some(_) => Err(self.fault(LogFault::BadToken)),
            None => Err(self.fault(LogFault::LogEnds)),
        }
    }

    /// The header of a log.
    pub(crate) fn header<S: Source>(
        &mut self,
        alloc: Global,
        source: &mut S,
    ) -> Result<(), VerifyFault>
        ensures heads { HeadsFrom result self.old self.new (S.left source.old) (S.left source.new) }
        ensures reads { ReadsOn S.folder S.faults S.misses S.at result self.old self.new source.old source.new }
    {
        match self.take(alloc, source)? {
            Some(
                Taken::Word {
                    is_header: true,
                    ..
                },
            ) => (),
            Some(_) => return Err(self.fault(LogFault::BadHeader)),
            None => return Err(self.fault(LogFault::LogEnds)),
        }
        match self.take(alloc, source)? {
            Some(Taken::Number(1)) => Ok(()),
            Some(_) => Err(self.fault(LogFault::BadHeader)),
            None => Err(self.fault(LogFault::LogEnds)),
        }
    }

    /// The word of the next record, or `None` at the end of the log.
    pub(crate) fn begin<S: Source>(
        &mut self,
        alloc: Global,
        source: &mut S,
    ) -> Result<Option<RecordWord>, VerifyFault>
        ensures begins { BeginsFrom result self.old self.new (S.left source.old) (S.left source.new) }
        ensures advances { IfOk result (λ o. IfSome o (λ _. Advances self.old self.new)) }
        ensures cause { result ≡ Err VerifyFault.ReadFault → CountRose (S.faults source.old) (S.faults source.new) }
        ensures kept { KeepsSource S.folder S.faults S.misses S.at source.old source.new }
    {
        match self.take(alloc, source)? {
            Some(
                Taken::Word {
                    found: Some(word),
                    ..
                },
            ) => Ok(Some(word)),
            Some(Taken::Word { found: None, .. }) => Err(self.fault(LogFault::UnknownRecord)),
            Some(_) => Err(self.fault(LogFault::BadToken)),
            None => Ok(None),
        }
    }

    /// The line of the last token, or 0 before the first.
    pub(crate) fn last(&self) -> u64
        ensures { result ≡ self.now.last }
    {
        self.last
    }

    /// A fault at the last token.
    fn fault(&self, fault: LogFault) -> VerifyFault
        ensures { result ≡ VerifyFault.At self.now.last fault }
    {
        VerifyFault::At {
            line: self.last,
            fault,
        }
    }
}

/// The token of a line's text.
fn take_text(alloc: Global, line: u64, text: &[u8]) -> Result<Taken, VerifyFault>
    requires { 0 < length text.now }
    ensures { TakesText line result (token text.now) }
{
    match read_token(text) {
        Some(Token::Number(number)) => Ok(Taken::Number(number)),
        Some(Token::Name(quoted)) => Ok(Taken::Name(named(alloc, line, quoted)?)),
        Some(Token::Word(word)) => Ok(Taken::Word {
            is_header: word == b"otlog".as_slice(),
            found: RecordWord::find(word),
        }),
        None => Err(VerifyFault::At {
            line,
            fault: LogFault::BadToken,
        }),
    }
}

/// The name that a quoted text spells.
fn named(alloc: Global, line: u64, quoted: &[u8]) -> Result<Name, VerifyFault>
    requires { (0 < length quoted.now) × (slice_index quoted.now 0 ≡ 34) }
    ensures { ReadsName line result quoted.now }
{
    match Name::read(alloc, quoted) {
        Ok(name) => Ok(name),
        Err(NameFault::Memory(memory)) => Err(VerifyFault::Memory(memory)),
        Err(_) => Err(VerifyFault::At {
            line,
            fault: LogFault::BadToken,
        }),
    }
}

/// What stops the lines of a log.
fn stopping(fault: ScanFault) -> VerifyFault
    ensures { result ≡ stopped fault }
{
    match fault {
        ScanFault::ReadFault => VerifyFault::ReadFault,
        ScanFault::LineTooLong(line) => VerifyFault::At {
            line,
            fault: LogFault::LineTooLong,
        },
        ScanFault::ArticleTooLong(line) => VerifyFault::At {
            line,
            fault: LogFault::LogTooLong,
        },
    }
}
