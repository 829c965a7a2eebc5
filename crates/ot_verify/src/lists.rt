//! Lists of what records ask for.
ghost use Rattle.std.specs.Prelude.{◌≡◌, Bool, true, false};
ghost use Rattle.ot_logic.specs.Names.{Name};
ghost use Rattle.ot_logic.specs.Naming.{names};
ghost use Rattle.ot_logic.specs.Trees.{Ty, Tm, Variable};
ghost use Rattle.ot_log_format.specs.Records.{RecordForm, AskName, AskType, AskTerm, ask_list};
ghost use Rattle.ot_log_format.specs.Records.{ask_type_pair, ask_term_pair, ask_constant_pair};
ghost use Rattle.ot_verify.specs.Asking.{AnsweredFrom, IsAt, AreEach};
ghost use Rattle.ot_verify.specs.Logged.{LogView, IsNamed, IsTypePair, IsTermPair, IsConstantPair, MeetsNames};
ghost use Rattle.ot_verify.specs.Later.{named-later, type-later, term-later};
ghost use Rattle.ot_verify.specs.Later.{type_pair-later, term_pair-later, constant_pair-later};
ghost use Rattle.ot_verify.specs.Going.{ReadsOn};

use crate::fault::VerifyFault;
use crate::log::Log;
use crate::operand::{ConstantPair, NamedType, TermPair};
use crate::operands::{name_number, named_type, term_number, type_number};
use crate::reader::Reader;
use ot_io::Source;
use ot_log_nodes::NameId;
use std::alloc::Global;

/// What a record may ask for in a list.
pub(crate) trait Operand {
    /// What is read for one.
    type Item: Drop;

    /// What an item stands for.
    ghost Meaning: { Type 0 };

    /// How a record asks for one.
    ghost ask: { (Self.Meaning → RecordForm names) → RecordForm names };

    /// In a log, the item stands for this.
    ghost stands_for: { LogView → Self.Item → Self.Meaning → Type 0 };

    /// Whether its names are added to the log.
    ghost adds_names: { Bool };

    /// Reads one: its item, or why the log isn't accepted.
    fn read<S: Source>(
        alloc: Global,
        log: &mut Log,
        reader: &mut Reader,
        source: &mut S,
    ) -> Result<Self::Item, VerifyFault>
        ensures answered { AnsweredFrom log.old.state Self.ask (Self.stands_for log.new) result
            reader.old reader.new (S.left source.old) (S.left source.new) }
        ensures meets { MeetsNames log.old log.new }
        ensures unchanged { Self.adds_names ≡ false → log.new ≡ log.old }
        ensures reads { ReadsOn S.folder S.faults S.misses S.at result reader.old reader.new source.old source.new };

    /// An item stands for the same in the log to which names were added.
    ghost later: { (old new : LogView) (x : Self.Item) (m : Self.Meaning) → MeetsNames old new
        → Self.stands_for old x m → Self.stands_for new x m };
}

impl Operand for NameId {
    type Item = NameId;

    ghost Meaning = { Name };

    ghost ask = { AskName };

    ghost stands_for = { IsNamed };

    ghost adds_names = { true };

    fn read<S: Source>(
        alloc: Global,
        log: &mut Log,
        reader: &mut Reader,
        source: &mut S,
    ) -> Result<NameId, VerifyFault> {
        name_number(alloc, log, reader, source)
    }

    ghost later = { named-later };
}

/// The number of an earlier type.
pub(crate) struct TypeNumber;

impl Operand for TypeNumber {
    type Item = usize;

    ghost Meaning = { Ty Name };

    ghost ask = { AskType };

    ghost stands_for = { λ l. IsAt l.state.types };

    ghost adds_names = { false };

    fn read<S: Source>(
        alloc: Global,
        log: &mut Log,
        reader: &mut Reader,
        source: &mut S,
    ) -> Result<usize, VerifyFault> {
        type_number(alloc, log, reader, source)
    }

    ghost later = { type-later };
}

/// The number of an earlier term.
pub(crate) struct TermNumber;

impl Operand for TermNumber {
    type Item = usize;

    ghost Meaning = { Tm Name };

    ghost ask = { AskTerm };

    ghost stands_for = { λ l. IsAt l.state.terms };

    ghost adds_names = { false };

    fn read<S: Source>(
        alloc: Global,
        log: &mut Log,
        reader: &mut Reader,
        source: &mut S,
    ) -> Result<usize, VerifyFault> {
        term_number(alloc, log, reader, source)
    }

    ghost later = { term-later };
}

impl Operand for NamedType {
    type Item = NamedType;

    ghost Meaning = { Name × Ty Name };

    ghost ask = { ask_type_pair };

    ghost stands_for = { IsTypePair };

    ghost adds_names = { true };

    fn read<S: Source>(
        alloc: Global,
        log: &mut Log,
        reader: &mut Reader,
        source: &mut S,
    ) -> Result<NamedType, VerifyFault> {
        named_type(alloc, log, reader, source)
    }

    ghost later = { type_pair-later };
}

impl Operand for TermPair {
    type Item = TermPair;

    ghost Meaning = { Variable Name × Tm Name };

    ghost ask = { ask_term_pair };

    ghost stands_for = { IsTermPair };

    ghost adds_names = { true };

    fn read<S: Source>(
        alloc: Global,
        log: &mut Log,
        reader: &mut Reader,
        source: &mut S,
    ) -> Result<TermPair, VerifyFault> {
        let variable = named_type(alloc, log, reader, source)?;
        let term = term_number(alloc, log, reader, source)?;
        Ok(TermPair { variable, term })
    }

    ghost later = { term_pair-later };
}

impl Operand for ConstantPair {
    type Item = ConstantPair;

    ghost Meaning = { Name × Variable Name };

    ghost ask = { ask_constant_pair };

    ghost stands_for = { IsConstantPair };

    ghost adds_names = { true };

    fn read<S: Source>(
        alloc: Global,
        log: &mut Log,
        reader: &mut Reader,
        source: &mut S,
    ) -> Result<ConstantPair, VerifyFault> {
        let constant = name_number(alloc, log, reader, source)?;
        let variable = named_type(alloc, log, reader, source)?;
        Ok(ConstantPair { constant, variable })
    }

    ghost later = { constant_pair-later };
}

/// A count, and so many operands of one kind: the items in their order, or why the log isn't accepted.
pub(crate) fn list<T: Operand, S: Source>(
    alloc: Global,
    log: &mut Log,
    reader: &mut Reader,
    source: &mut S,
) -> Result<Vec<T::Item>, VerifyFault>
    ensures answered { AnsweredFrom log.old.state (λ next. ask_list T.ask next)
        (λ v. AreEach (T.stands_for log.new) v.items) result
        reader.old reader.new (S.left source.old) (S.left source.new) }
    ensures meets { MeetsNames log.old log.new }
    ensures unchanged { T.adds_names ≡ false → log.new ≡ log.old }
    ensures reads { ReadsOn S.folder S.faults S.misses S.at result reader.old reader.new source.old source.new }
{
    let count = reader.count(alloc, source)?;
    let mut read = Vec::new(alloc);
    'each: for done in 0..count {
        let item = T::read(alloc, log, reader, source)?;
        read.push(item)?;
    }
    Ok(read)
}
