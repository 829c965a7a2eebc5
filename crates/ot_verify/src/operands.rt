//! What records ask for: names, the numbers of earlier types, terms and sequents, and names with types.
ghost use Rattle.ot_log_format.specs.Records.{AskName, AskType, AskTerm, AskSequent, ask_variable, ask_type_pair};
ghost use Rattle.ot_verify.specs.Asking.{AnsweredFrom, IsAt};
ghost use Rattle.ot_verify.specs.Logged.{IsNamed, IsVariable, IsTypePair, MeetsNames};
ghost use Rattle.ot_verify.specs.Going.{ReadsOn};

use crate::fault::VerifyFault;
use crate::log::Log;
use crate::operand::NamedType;
use crate::reader::Reader;
use ot_io::Source;
use ot_log_nodes::NameId;
use std::alloc::Global;

/// The number of a name.
pub(crate) fn name_number<S: Source>(
    alloc: Global,
    log: &mut Log,
    reader: &mut Reader,
    source: &mut S,
) -> Result<NameId, VerifyFault>
    ensures answered { AnsweredFrom log.old.state AskName (IsNamed log.new) result
        reader.old reader.new (S.left source.old) (S.left source.new) }
    ensures meets { MeetsNames log.old log.new }
    ensures reads { ReadsOn S.folder S.faults S.misses S.at result reader.old reader.new source.old source.new }
{
    let name = reader.name(alloc, source)?;
    Ok(log.intern(name)?)
}

/// The number of an earlier type.
pub(crate) fn type_number<S: Source>(
    alloc: Global,
    log: &Log,
    reader: &mut Reader,
    source: &mut S,
) -> Result<usize, VerifyFault>
    ensures answered { AnsweredFrom log.now.state AskType (IsAt log.now.state.types) result
        reader.old reader.new (S.left source.old) (S.left source.new) }
    ensures reads { ReadsOn S.folder S.faults S.misses S.at result reader.old reader.new source.old source.new }
{
    reader.earlier(alloc, source, log.type_count())
}

/// The number of an earlier term.
pub(crate) fn term_number<S: Source>(
    alloc: Global,
    log: &Log,
    reader: &mut Reader,
    source: &mut S,
) -> Result<usize, VerifyFault>
    ensures answered { AnsweredFrom log.now.state AskTerm (IsAt log.now.state.terms) result
        reader.old reader.new (S.left source.old) (S.left source.new) }
    ensures reads { ReadsOn S.folder S.faults S.misses S.at result reader.old reader.new source.old source.new }
{
    reader.earlier(alloc, source, log.term_count())
}

/// The number of an earlier sequent.
pub(crate) fn sequent_number<S: Source>(
    alloc: Global,
    log: &Log,
    reader: &mut Reader,
    source: &mut S,
) -> Result<usize, VerifyFault>
    ensures answered { AnsweredFrom log.now.state AskSequent (IsAt log.now.state.sequents) result
        reader.old reader.new (S.left source.old) (S.left source.new) }
    ensures reads { ReadsOn S.folder S.faults S.misses S.at result reader.old reader.new source.old source.new }
{
    reader.earlier(alloc, source, log.sequent_count())
}

/// A name and the number of a type.
pub(crate) fn named_type<S: Source>(
    alloc: Global,
    log: &mut Log,
    reader: &mut Reader,
    source: &mut S,
) -> Result<NamedType, VerifyFault>
    ensures pair { AnsweredFrom log.old.state ask_type_pair (IsTypePair log.new) result
        reader.old reader.new (S.left source.old) (S.left source.new) }
    ensures variable { AnsweredFrom log.old.state ask_variable (IsVariable log.new) result
        reader.old reader.new (S.left source.old) (S.left source.new) }
    ensures meets { MeetsNames log.old log.new }
    ensures reads { ReadsOn S.folder S.faults S.misses S.at result reader.old reader.new source.old source.new }
{
    let name = name_number(alloc, log, reader, source)?;
    let ty = type_number(alloc, log, reader, source)?;
    Ok(NamedType { name, ty })
}
