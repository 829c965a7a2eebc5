//! What readable text reads as.
ghost use Rattle.std.specs.Prelude.{◌≡◌, ◌<◌, List, map, length};
ghost use Rattle.std.specs.List.{All};
ghost use Rattle.ot_logic.specs.Names.{Name};
ghost use Rattle.ot_logic.specs.Trees.{Symbol};
ghost use Rattle.ot_kernel.specs.State.{theorem_at};
ghost use Rattle.ot_forms.specs.Words.{IsNotation};
ghost use Rattle.ot_pretty.specs.Back.{ReadsBackAs};

use ot_kernel::{Kernel, ThmId};
use ot_parse::Notation;

/// A law: the readable text of a theorem's sequent under a notation reads as its hypotheses, as a set, and its
/// conclusion.
pub fn reads_back(kernel: &Kernel, notation: &Notation, th: ThmId)
    requires { th < length kernel.now.theorems }
    ensures { ReadsBackAs notation.now (theorem_at kernel.now th) }
{
    notation.sound();
    one_reads_back(kernel, th);
}

/// The law for each of these theorems, under any notation.
pub(crate) fn each_reads_back(kernel: &Kernel, theorems: &[ThmId])
    requires { All (λ th. th < length kernel.now.theorems) theorems.now }
    ensures { (hidden : List (Symbol Name)) → IsNotation hidden
        → All (ReadsBackAs hidden) (map (theorem_at kernel.now) theorems.now) }
{
    for th in theorems {
        one_reads_back(kernel, *th);
    }
}

/// The law for a theorem.
fn one_reads_back(kernel: &Kernel, th: ThmId)
    requires { th < length kernel.now.theorems }
    ensures { (hidden : List (Symbol Name)) → IsNotation hidden → ReadsBackAs hidden (theorem_at kernel.now th) }
{
    // What holds of each kernel, and of its table of terms.
    kernel.sound();
    let _terms = kernel.terms();
    let _hyps = kernel.hyps(th);
    let _concl = kernel.concl(th);
    ot_forms::reads_back();
}
