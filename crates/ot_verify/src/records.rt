//! The records of a log: what each asks for is read, and then it makes what it makes.
ghost use Rattle.std.specs.Prelude.{◌≡◌};
ghost use Rattle.ot_logic.specs.Naming.{names};
ghost use Rattle.ot_log_format.specs.Records.{form};
ghost use Rattle.ot_verify.specs.Logged.{RecordedFrom, refused, settled_at};
ghost use Rattle.ot_verify.specs.Going.{ReadsOn};

use crate::fault::{LogFault, VerifyFault};
use crate::lists::{TermNumber, TypeNumber, list};
use crate::log::{Log, Refusal};
use crate::operand::{ConstantPair, NamedType, TermPair};
use crate::operands::{name_number, named_type, sequent_number, term_number, type_number};
use crate::reader::Reader;
use ot_io::Source;
use ot_log_format::RecordWord;
use ot_log_nodes::NameId;
use std::alloc::Global;

/// The record that begins with a word, at this line.
pub(crate) fn take_record<S: Source>(
    alloc: Global,
    log: &mut Log,
    reader: &mut Reader,
    source: &mut S,
    word: RecordWord,
    first: u64,
) -> Result<(), VerifyFault>
    ensures recorded { RecordedFrom result (form names word) first log.old.state log.new.state
        reader.old reader.new (S.left source.old) (S.left source.new) }
    ensures reads { ReadsOn S.folder S.faults S.misses S.at result reader.old reader.new source.old source.new }
{
    match word {
        RecordWord::TyVar => type_var(alloc, log, reader, source, first),
        RecordWord::TyOp => type_op(alloc, log, reader, source, first),
        RecordWord::Free => free(alloc, log, reader, source, first),
        RecordWord::Con => constant_term(alloc, log, reader, source, first),
        RecordWord::Bound => bound(alloc, log, reader, source, first),
        RecordWord::App => app(alloc, log, reader, source, first),
        RecordWord::Lam => lam(alloc, log, reader, source, first),
        RecordWord::Refl => refl(alloc, log, reader, source, first),
        RecordWord::Assume => assume(alloc, log, reader, source, first),
        RecordWord::EqMp => eq_mp(alloc, log, reader, source, first),
        RecordWord::AbsThm => abs_thm(alloc, log, reader, source, first),
        RecordWord::AppThm => app_thm(alloc, log, reader, source, first),
        RecordWord::DeductAntisym => deduct_antisym(alloc, log, reader, source, first),
        RecordWord::BetaConv => beta_conv(alloc, log, reader, source, first),
        RecordWord::Subst => subst(alloc, log, reader, source, first),
        RecordWord::Assumption => assumption(alloc, log, reader, source, first),
        RecordWord::Constant => constant(alloc, log, reader, source, first),
        RecordWord::Constants => constants(alloc, log, reader, source, first),
        RecordWord::TypeOperator => type_operator(alloc, log, reader, source, first),
        RecordWord::Result => result_record(alloc, log, reader, source, first),
    }
}

/// The record of the place of an abstraction.
fn bound<S: Source>(
    alloc: Global,
    log: &mut Log,
    reader: &mut Reader,
    source: &mut S,
    first: u64,
) -> Result<(), VerifyFault>
    ensures recorded { RecordedFrom result (form names RecordWord.Bound) first log.old.state log.new.state
        reader.old reader.new (S.left source.old) (S.left source.new) }
    ensures reads { ReadsOn S.folder S.faults S.misses S.at result reader.old reader.new source.old source.new }
{
    let place = match reader.count(alloc, source) {
        Ok(place) => place,
        Err(fault) => return Err(fault),
    };
    let made = log.bound(place);
    settle(first, made)
}

/// The record of a type variable.
fn type_var<S: Source>(
    alloc: Global,
    log: &mut Log,
    reader: &mut Reader,
    source: &mut S,
    first: u64,
) -> Result<(), VerifyFault>
    ensures recorded { RecordedFrom result (form names RecordWord.TyVar) first log.old.state log.new.state
        reader.old reader.new (S.left source.old) (S.left source.new) }
    ensures reads { ReadsOn S.folder S.faults S.misses S.at result reader.old reader.new source.old source.new }
{
    let name = name_number(alloc, log, reader, source)?;
    let made = log.type_var(name);
    settle(first, made)
}

/// The record of a type operator with its arguments.
fn type_op<S: Source>(
    alloc: Global,
    log: &mut Log,
    reader: &mut Reader,
    source: &mut S,
    first: u64,
) -> Result<(), VerifyFault>
    ensures recorded { RecordedFrom result (form names RecordWord.TyOp) first log.old.state log.new.state
        reader.old reader.new (S.left source.old) (S.left source.new) }
    ensures reads { ReadsOn S.folder S.faults S.misses S.at result reader.old reader.new source.old source.new }
{
    let name = name_number(alloc, log, reader, source)?;
    let args = list::<TypeNumber, _>(alloc, log, reader, source)?;
    let made = log.type_op(name, args.as_slice());
    settle(first, made)
}

/// The record of a free variable.
fn free<S: Source>(
    alloc: Global,
    log: &mut Log,
    reader: &mut Reader,
    source: &mut S,
    first: u64,
) -> Result<(), VerifyFault>
    ensures recorded { RecordedFrom result (form names RecordWord.Free) first log.old.state log.new.state
        reader.old reader.new (S.left source.old) (S.left source.new) }
    ensures reads { ReadsOn S.folder S.faults S.misses S.at result reader.old reader.new source.old source.new }
{
    let variable = named_type(alloc, log, reader, source)?;
    let made = log.free(variable);
    settle(first, made)
}

/// The record of a constant at a type.
fn constant_term<S: Source>(
    alloc: Global,
    log: &mut Log,
    reader: &mut Reader,
    source: &mut S,
    first: u64,
) -> Result<(), VerifyFault>
    ensures recorded { RecordedFrom result (form names RecordWord.Con) first log.old.state log.new.state
        reader.old reader.new (S.left source.old) (S.left source.new) }
    ensures reads { ReadsOn S.folder S.faults S.misses S.at result reader.old reader.new source.old source.new }
{
    let name = name_number(alloc, log, reader, source)?;
    let ty = type_number(alloc, log, reader, source)?;
    let made = log.constant_term(name, ty);
    settle(first, made)
}

/// The record of an application.
fn app<S: Source>(
    alloc: Global,
    log: &mut Log,
    reader: &mut Reader,
    source: &mut S,
    first: u64,
) -> Result<(), VerifyFault>
    ensures recorded { RecordedFrom result (form names RecordWord.App) first log.old.state log.new.state
        reader.old reader.new (S.left source.old) (S.left source.new) }
    ensures reads { ReadsOn S.folder S.faults S.misses S.at result reader.old reader.new source.old source.new }
{
    let f = term_number(alloc, log, reader, source)?;
    let x = term_number(alloc, log, reader, source)?;
    let made = log.app(f, x);
    settle(first, made)
}

/// The record of an abstraction.
fn lam<S: Source>(
    alloc: Global,
    log: &mut Log,
    reader: &mut Reader,
    source: &mut S,
    first: u64,
) -> Result<(), VerifyFault>
    ensures recorded { RecordedFrom result (form names RecordWord.Lam) first log.old.state log.new.state
        reader.old reader.new (S.left source.old) (S.left source.new) }
    ensures reads { ReadsOn S.folder S.faults S.misses S.at result reader.old reader.new source.old source.new }
{
    let ty = type_number(alloc, log, reader, source)?;
    let body = term_number(alloc, log, reader, source)?;
    let made = log.lam(ty, body);
    settle(first, made)
}

/// The record of a term that equals itself.
fn refl<S: Source>(
    alloc: Global,
    log: &mut Log,
    reader: &mut Reader,
    source: &mut S,
    first: u64,
) -> Result<(), VerifyFault>
    ensures recorded { RecordedFrom result (form names RecordWord.Refl) first log.old.state log.new.state
        reader.old reader.new (S.left source.old) (S.left source.new) }
    ensures reads { ReadsOn S.folder S.faults S.misses S.at result reader.old reader.new source.old source.new }
{
    let term = term_number(alloc, log, reader, source)?;
    let made = log.refl(term);
    settle(first, made)
}

/// The record of a proposition under itself.
fn assume<S: Source>(
    alloc: Global,
    log: &mut Log,
    reader: &mut Reader,
    source: &mut S,
    first: u64,
) -> Result<(), VerifyFault>
    ensures recorded { RecordedFrom result (form names RecordWord.Assume) first log.old.state log.new.state
        reader.old reader.new (S.left source.old) (S.left source.new) }
    ensures reads { ReadsOn S.folder S.faults S.misses S.at result reader.old reader.new source.old source.new }
{
    let term = term_number(alloc, log, reader, source)?;
    let made = log.assume(term);
    settle(first, made)
}

/// The record of modus ponens over an equation.
fn eq_mp<S: Source>(
    alloc: Global,
    log: &mut Log,
    reader: &mut Reader,
    source: &mut S,
    first: u64,
) -> Result<(), VerifyFault>
    ensures recorded { RecordedFrom result (form names RecordWord.EqMp) first log.old.state log.new.state
        reader.old reader.new (S.left source.old) (S.left source.new) }
    ensures reads { ReadsOn S.folder S.faults S.misses S.at result reader.old reader.new source.old source.new }
{
    let equation = sequent_number(alloc, log, reader, source)?;
    let other = sequent_number(alloc, log, reader, source)?;
    let made = log.eq_mp(equation, other);
    settle(first, made)
}

/// The record of an equation of abstractions.
fn abs_thm<S: Source>(
    alloc: Global,
    log: &mut Log,
    reader: &mut Reader,
    source: &mut S,
    first: u64,
) -> Result<(), VerifyFault>
    ensures recorded { RecordedFrom result (form names RecordWord.AbsThm) first log.old.state log.new.state
        reader.old reader.new (S.left source.old) (S.left source.new) }
    ensures reads { ReadsOn S.folder S.faults S.misses S.at result reader.old reader.new source.old source.new }
{
    let variable = named_type(alloc, log, reader, source)?;
    let equation = sequent_number(alloc, log, reader, source)?;
    let made = log.abs_thm(variable, equation);
    settle(first, made)
}

/// The record of an equation of applications.
fn app_thm<S: Source>(
    alloc: Global,
    log: &mut Log,
    reader: &mut Reader,
    source: &mut S,
    first: u64,
) -> Result<(), VerifyFault>
    ensures recorded { RecordedFrom result (form names RecordWord.AppThm) first log.old.state log.new.state
        reader.old reader.new (S.left source.old) (S.left source.new) }
    ensures reads { ReadsOn S.folder S.faults S.misses S.at result reader.old reader.new source.old source.new }
{
    let functions = sequent_number(alloc, log, reader, source)?;
    let arguments = sequent_number(alloc, log, reader, source)?;
    let made = log.app_thm(functions, arguments);
    settle(first, made)
}

/// The record of an equation of propositions that follow from one another.
fn deduct_antisym<S: Source>(
    alloc: Global,
    log: &mut Log,
    reader: &mut Reader,
    source: &mut S,
    first: u64,
) -> Result<(), VerifyFault>
    ensures recorded { RecordedFrom result (form names RecordWord.DeductAntisym) first log.old.state log.new.state
        reader.old reader.new (S.left source.old) (S.left source.new) }
    ensures reads { ReadsOn S.folder S.faults S.misses S.at result reader.old reader.new source.old source.new }
{
    let left = sequent_number(alloc, log, reader, source)?;
    let right = sequent_number(alloc, log, reader, source)?;
    let made = log.deduct_antisym(left, right);
    settle(first, made)
}

/// The record of a beta reduction.
fn beta_conv<S: Source>(
    alloc: Global,
    log: &mut Log,
    reader: &mut Reader,
    source: &mut S,
    first: u64,
) -> Result<(), VerifyFault>
    ensures recorded { RecordedFrom result (form names RecordWord.BetaConv) first log.old.state log.new.state
        reader.old reader.new (S.left source.old) (S.left source.new) }
    ensures reads { ReadsOn S.folder S.faults S.misses S.at result reader.old reader.new source.old source.new }
{
    let term = term_number(alloc, log, reader, source)?;
    let made = log.beta_conv(term);
    settle(first, made)
}

/// The record of a substitution.
fn subst<S: Source>(
    alloc: Global,
    log: &mut Log,
    reader: &mut Reader,
    source: &mut S,
    first: u64,
) -> Result<(), VerifyFault>
    ensures recorded { RecordedFrom result (form names RecordWord.Subst) first log.old.state log.new.state
        reader.old reader.new (S.left source.old) (S.left source.new) }
    ensures reads { ReadsOn S.folder S.faults S.misses S.at result reader.old reader.new source.old source.new }
{
    let sequent = sequent_number(alloc, log, reader, source)?;
    let types = list::<NamedType, _>(alloc, log, reader, source)?;
    let terms = list::<TermPair, _>(alloc, log, reader, source)?;
    let made = log.subst(sequent, types.as_slice(), terms.as_slice());
    settle(first, made)
}

/// The record of an assumption.
fn assumption<S: Source>(
    alloc: Global,
    log: &mut Log,
    reader: &mut Reader,
    source: &mut S,
    first: u64,
) -> Result<(), VerifyFault>
    ensures recorded { RecordedFrom result (form names RecordWord.Assumption) first log.old.state log.new.state
        reader.old reader.new (S.left source.old) (S.left source.new) }
    ensures reads { ReadsOn S.folder S.faults S.misses S.at result reader.old reader.new source.old source.new }
{
    let concl = term_number(alloc, log, reader, source)?;
    let hyps = list::<TermNumber, _>(alloc, log, reader, source)?;
    let made = log.assumption(concl, hyps.as_slice());
    settle(first, made)
}

/// The record of the definition of a constant.
fn constant<S: Source>(
    alloc: Global,
    log: &mut Log,
    reader: &mut Reader,
    source: &mut S,
    first: u64,
) -> Result<(), VerifyFault>
    ensures recorded { RecordedFrom result (form names RecordWord.Constant) first log.old.state log.new.state
        reader.old reader.new (S.left source.old) (S.left source.new) }
    ensures reads { ReadsOn S.folder S.faults S.misses S.at result reader.old reader.new source.old source.new }
{
    let name = name_number(alloc, log, reader, source)?;
    let term = term_number(alloc, log, reader, source)?;
    let made = log.define_constant(name, term);
    settle(first, made)
}

/// The record of the definition of a list of constants.
fn constants<S: Source>(
    alloc: Global,
    log: &mut Log,
    reader: &mut Reader,
    source: &mut S,
    first: u64,
) -> Result<(), VerifyFault>
    ensures recorded { RecordedFrom result (form names RecordWord.Constants) first log.old.state log.new.state
        reader.old reader.new (S.left source.old) (S.left source.new) }
    ensures reads { ReadsOn S.folder S.faults S.misses S.at result reader.old reader.new source.old source.new }
{
    let pairs = list::<ConstantPair, _>(alloc, log, reader, source)?;
    let premise = sequent_number(alloc, log, reader, source)?;
    let made = log.define_constants(pairs.as_slice(), premise);
    settle(first, made)
}

/// The record of the definition of a type operator.
fn type_operator<S: Source>(
    alloc: Global,
    log: &mut Log,
    reader: &mut Reader,
    source: &mut S,
    first: u64,
) -> Result<(), VerifyFault>
    ensures recorded { RecordedFrom result (form names RecordWord.TypeOperator) first log.old.state log.new.state
        reader.old reader.new (S.left source.old) (S.left source.new) }
    ensures reads { ReadsOn S.folder S.faults S.misses S.at result reader.old reader.new source.old source.new }
{
    let name = name_number(alloc, log, reader, source)?;
    let abs = name_number(alloc, log, reader, source)?;
    let rep = name_number(alloc, log, reader, source)?;
    let vars = list::<NameId, _>(alloc, log, reader, source)?;
    let premise = sequent_number(alloc, log, reader, source)?;
    let made = log.define_type(name, abs, rep, vars.as_slice(), premise);
    settle(first, made)
}

/// The record of a result.
fn result_record<S: Source>(
    alloc: Global,
    log: &mut Log,
    reader: &mut Reader,
    source: &mut S,
    first: u64,
) -> Result<(), VerifyFault>
    ensures recorded { RecordedFrom result (form names RecordWord.Result) first log.old.state log.new.state
        reader.old reader.new (S.left source.old) (S.left source.new) }
    ensures reads { ReadsOn S.folder S.faults S.misses S.at result reader.old reader.new source.old source.new }
{
    let sequent = sequent_number(alloc, log, reader, source)?;
    let made = log.add_result(sequent);
    settle(first, made)
}

/// What the record that began at this line answers.
fn settle(first: u64, made: Result<(), Refusal>) -> Result<(), VerifyFault>
    ensures { result ≡ settled_at first made }
{
    match made {
        Ok(()) => Ok(()),
        Err(refusal) => Err(refused_at(first, refusal)),
    }
}

/// The refusal of the record that began at this line.
fn refused_at(first: u64, refusal: Refusal) -> VerifyFault
    ensures { result ≡ refused first refusal }
{
    match refusal {
        Refusal::BadStep => VerifyFault::At {
            line: first,
            fault: LogFault::BadStep,
        },
        Refusal::LogNesting => VerifyFault::At {
            line: first,
            fault: LogFault::LogNesting,
        },
        Refusal::NoSuch => VerifyFault::At {
            line: first,
            fault: LogFault::BadReference,
        },
        Refusal::Memory(memory) => VerifyFault::Memory(memory),
    }
}
