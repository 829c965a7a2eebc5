//! Readable texts of a kernel's theorems, and the symbols of a run.
ghost use Rattle.std.specs.Prelude.{◌≡◌, ◌<◌, length, slice_index, IfOk, IfSome};
ghost use Rattle.std.specs.List.{All};

use crate::fresh::fresh_kernel;
use ot_kernel::{Kernel, ThmId};
use ot_logic::{Name, NameId};
use ot_parse::{Notation, WordKind};
use ot_pretty::{PrintFault, readable_text, run_symbols};
use ot_term::VarKey;
use ot_type::TypeId;
use std::alloc::Global;
use std::process::Abort;
use std::test::Fail;

/// The theorem that a constant is the equation of the identity of propositions with itself.
#[tactic(auto, using(std::proofs::lemmas::Option::slice_get_within))]
fn check_truth(
    rt: &impl Abort,
    alloc: Global,
    kernel: &mut Kernel,
    out: &mut Vec<u8>,
) -> Result<(), Fail> {
    kernel.sound();
    let name = kernel.intern(Name::read(alloc, b"\"Data.Bool.T\"")?)?;
    let ty = kernel.type_op(NameId::BOOL, &[])?;
    let v = VarKey {
        name: NameId::A,
        ty,
    };
    let body = kernel.var(v)?;
    let identity = kernel.abs(v, body)?;
    let same = kernel.refl(identity)?;
    let equation = kernel.concl(same);
    let th = kernel.define_const(name, equation)?;
    assert!(rt; append(alloc, kernel, th, out)? == 4);
    assert!(rt; is_refused(alloc, kernel, th, 67)?);
    Ok(())
}

/// The type of relations between propositions.
#[tactic(auto, using(std::proofs::lemmas::Option::slice_get_within))]
fn relation_type(kernel: &mut Kernel) -> Result<TypeId, Fail>
    ensures { IfOk result (λ ty. ty < length kernel.new.types) }
{
    kernel.sound();
    let boolean = kernel.type_op(NameId::BOOL, &[])?;
    let test = kernel.type_op(NameId::ARROW, &[boolean, boolean])?;
    Ok(kernel.type_op(NameId::ARROW, &[boolean, test])?)
}

/// The assumption of a constant of this name, or of the variable `a`, applied to the propositions `a` and `r`.
#[tactic(auto, using(std::proofs::lemmas::Option::slice_get_within))]
fn check_applied(
    rt: &impl Abort,
    alloc: Global,
    kernel: &mut Kernel,
    constant: Option<&[u8]>,
    symbols: usize,
    out: &mut Vec<u8>,
) -> Result<(), Fail>
    requires { IfSome constant (λ n. (0 < length n.now) × (slice_index n.now 0 ≡ 34)) }
{
    let ty = relation_type(kernel)?;
    kernel.sound();
    let f = match constant {
        Some(quoted) => {
            let name = kernel.intern(Name::read(alloc, quoted)?)?;
            kernel.constant(name, ty)?
        }
        None => kernel.var(VarKey {
            name: NameId::A,
            ty,
        })?,
    };
    let boolean = kernel.type_op(NameId::BOOL, &[])?;
    let a = kernel.var(VarKey {
        name: NameId::A,
        ty: boolean,
    })?;
    let r = kernel.var(VarKey {
        name: NameId::R,
        ty: boolean,
    })?;
    let half = kernel.app(f, a)?;
    let whole = kernel.app(half, r)?;
    let th = kernel.assume(whole)?;
    assert!(rt; append(alloc, kernel, th, out)? == symbols);
    Ok(())
}

/// Appends a theorem's text without shown namespaces and with the namespace of truth values shown, a line each, and
/// gives how many symbols a run with this export has.
fn append(alloc: Global, kernel: &Kernel, th: ThmId, out: &mut Vec<u8>) -> Result<usize, Fail>
    requires { th < length kernel.now.theorems }
{
    let symbols = run_symbols(alloc, kernel, &[th])?;
    let plain = Notation::new(alloc, &[], symbols.as_slice())?;
    readable_text(alloc, kernel, &plain, th, 1000, out)?;
    out.push(b'\n')?;
    let shown = [Name::read(alloc, b"\"Data.Bool\"")?];
    let short = Notation::new(alloc, &shown, symbols.as_slice())?;
    readable_text(alloc, kernel, &short, th, 1000, out)?;
    out.push(b'\n')?;
    Ok(symbols.len())
}

/// Whether a theorem's text is refused one byte below its length, and nothing is appended.
fn is_refused(alloc: Global, kernel: &Kernel, th: ThmId, len: usize) -> Result<bool, Fail>
    requires th { th < length kernel.now.theorems }
    requires len { 0 < len }
{
    let plain = Notation::new(alloc, &[], &[])?;
    let mut out = Vec::new(alloc);
    let answer = readable_text(alloc, kernel, &plain, th, len - 1, &mut out);
    let is_same = answer == Err(PrintFault::TooLarge) && out.is_empty();
    readable_text(alloc, kernel, &plain, th, len, &mut out)?;
    Ok(is_same && out.len() == len)
}

const TEXTS: &[u8] = b"|- ({Data.Bool.T : bool} = ((\\x0 : bool . x0) = (\\x0 : bool . x0)))
|- ({T : bool} = ((\\x0 : bool . x0) = (\\x0 : bool . x0)))
({\"Data.Bool./\\\\\" : (bool -> (bool -> bool))} (a : bool) (r : bool)) \
|- ({\"Data.Bool./\\\\\" : (bool -> (bool -> bool))} (a : bool) (r : bool))
((a : bool) /\\ (r : bool)) |- ((a : bool) /\\ (r : bool))
((a : (bool -> (bool -> bool))) (a : bool) (r : bool)) |- ((a : (bool -> (bool -> bool))) (a : bool) (r : bool))
((a : (bool -> (bool -> bool))) (a : bool) (r : bool)) |- ((a : (bool -> (bool -> bool))) (a : bool) (r : bool))
";

#[test]
fn texts(rt: HostRuntime) -> Result<(), Fail> {
    let mut kernel = fresh_kernel(rt.alloc())?;
    let mut out = Vec::new(rt.alloc());
    check_texts(&rt, rt.alloc(), &mut kernel, &mut out)
}

fn check_texts(
    rt: &impl Abort,
    alloc: Global,
    kernel: &mut Kernel,
    out: &mut Vec<u8>,
) -> Result<(), Fail> {
    check_truth(rt, alloc, kernel, out)?;
    check_applied(rt, alloc, kernel, Some(b"\"Data.Bool./\\\\\""), 5, out)?;
    check_applied(rt, alloc, kernel, None, 4, out)?;
    assert!(rt; out.as_slice() == TEXTS);
    Ok(())
}
