//! Printed texts.
// Further texts of terms, sequents and definitions are tested by the summaries of the program's
// tests.
ghost use Rattle.std.specs.Prelude.{◌≡◌, length};

use crate::fresh::fresh_kernel;
use ot_args::Sections;
use ot_kernel::Kernel;
use ot_logic::NameId;
use ot_print::{PrintFault, sequent_text, summary_text, term_text, type_text};
use ot_term::VarKey;
use std::alloc::Global;
use std::process::Abort;
use std::test::Fail;

const ALL: Sections = Sections {
    assumptions: true,
    definitions: true,
    theorems: true,
};

#[test]
fn texts(rt: HostRuntime) -> Result<(), Fail> {
    let mut kernel = fresh_kernel(rt.alloc())?;
    check_texts(&rt, rt.alloc(), &mut kernel)
}

#[tactic(auto, using(std::proofs::lemmas::Option::slice_get_within))]
fn check_texts(rt: &impl Abort, alloc: Global, kernel: &mut Kernel) -> Result<(), Fail>
    requires { length kernel.old.names ≡ 5 }
{
    let mut out = Vec::new(alloc);
    summary_text(alloc, kernel, &[], ALL, 42, &mut out)?;
    let answer = summary_text(alloc, kernel, &[], ALL, 41, &mut out);
    assert!(rt; answer == Err(PrintFault::TooLarge));
    let boolean = kernel.type_op(NameId::BOOL, &[])?;
    type_text(kernel, boolean, 6, &mut out)?;
    out.push(b'\n')?;
    let a = kernel.var(VarKey {
        name: NameId::A,
        ty: boolean,
    })?;
    term_text(alloc, kernel, a, 10, &mut out)?;
    out.push(b'\n')?;
    let th = kernel.assume(a)?;
    sequent_text(alloc, kernel, th, 24, &mut out)?;
    let wanted: &[u8] =
        b"assumptions: 0\ndefinitions: 0\ntheorems: 0\n\"bool\"\n\"a\":\"bool\"\n\"a\":\"bool\" |- \"a\":\"bool\"";
    assert!(rt; out.as_slice() == wanted);
    Ok(())
}
