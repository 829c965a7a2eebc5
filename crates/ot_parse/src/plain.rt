//! The printed text of a sequent that was read.
ghost use Rattle.std.specs.Prelude.{◌≡◌, ◌<◌, length, OnOk, OnErr, Err};
ghost use Rattle.ot_logic.specs.Naming.{names};
ghost use Rattle.ot_logic.specs.Names.{Name as NameValue};
ghost use Rattle.ot_logic.specs.Trees.{App, Tm as TermTree};
ghost use Rattle.ot_text.specs.Texts.{tm_text, argument_text, sequent_text, is_equation};
ghost use Rattle.ot_text.specs.Pages.{IsPut, printed, Appended};
ghost use Rattle.ot_logic.specs.PlainTrees.{type_of_tree, term_of_tree};
ghost use Rattle.ot_parse.specs.Plain.{sequent_of, equality_test, front_text};

use crate::readable::Readable;
use crate::trees::{function_parts, is_bool, same_type};
use ot_logic::{Tm, Ty};
use ot_text::{
    Page, PrintFault, Printable, TypeForm, Types, append, is_text, put_hypotheses, put_type,
    put_typed,
};
use std::alloc::Global;

/// The table under which trees are printed: they need none.
#[derive(Clone, Copy)]
struct NoTable;

/// Appends the printed text of a sequent that was read. `TooLarge` exactly where it has more than `max` bytes. After
/// a refusal `out` is as it was.
pub fn plain_text(
    alloc: Global,
    sequent: &Readable,
    max: usize,
    out: &mut Vec<u8>,
) -> Result<(), PrintFault>
    ensures ok { OnOk result (Appended (sequent_text (sequent_of sequent.now)) max out.old.items out.new.items) }
    ensures too_large { result ≡ Err PrintFault.TooLarge → max < length (sequent_text (sequent_of sequent.now)) }
    ensures err { OnErr result (out.new.items ≡ out.old.items) }
{
    append(alloc, &NoTable, sequent, max, out)
}

impl Printable<NoTable> for Readable {
    ghost is_inside = { λ _ _. Unit {0} };

    ghost text = { λ _ sequent. sequent_text (sequent_of sequent) };

    fn put(&self, page: &mut Page, alloc: Global, _table: &NoTable) {
        put_sequent(page, alloc, self);
    }
}

impl Printable<NoTable> for Tm {
    ghost is_inside = { λ _ _. Unit {0} };

    ghost text = { λ _ term. tm_text (term_of_tree term) };

    fn put(&self, page: &mut Page, _alloc: Global, _table: &NoTable) {
        put_term(page, self);
    }
}

impl Types for NoTable {
    type Type = Ty;

    ghost has_type = { λ _ _. Unit {0} };

    ghost type_at = { λ _ ty. type_of_tree ty };

    #[tactic(auto, using(ot_logic::proofs::PlainTrees::type_steps))]
    fn type_form<'a>(&'a self, ty: &'a Ty) -> TypeForm<'a, Ty> {
        match ty {
            Ty::Var(name) => TypeForm::Variable(name),
            Ty::Op(name, args) => TypeForm::Operator(name, args.as_slice()),
        }
    }
}

/// A sequent. The texts of the hypotheses together cost no more than the limit.
fn put_sequent(page: &mut Page, alloc: Global, sequent: &Readable)
    ensures { IsPut (sequent_text (sequent_of sequent.now)) (printed page.old) (printed page.new) }
{
    put_hypotheses(page, alloc, &NoTable, sequent.hyps.as_slice());
    put_term(page, &sequent.concl);
}

/// A term.
#[cycle(terms)]
#[tactic(auto, using(ot_logic::proofs::PlainTrees::term_steps))]
fn put_term(page: &mut Page, term: &Tm)
    ensures { IsPut (tm_text (term_of_tree term.now)) (printed page.old) (printed page.new) }
{
    match term {
        Tm::Free(name, ty) => put_typed(page, &NoTable, name, ty),
        Tm::Con(name, ty) => {
            page.put(b"@");
            put_typed(page, &NoTable, name, ty);
        }
        Tm::Bound(place) => {
            page.put(b"#");
            page.put_number(*place as usize);
        }
        Tm::App(f, x) => {
            page.put(b"(");
            put_front(page, f);
            put_term(page, x);
            page.put(b")");
        }
        Tm::Abs(ty, body) => {
            page.put(b"(\\");
            put_type(page, &NoTable, ty);
            page.put(b". ");
            put_term(page, body);
            page.put(b")");
        }
    }
}

/// What stands before an argument: the function and a space, or the left side of an equation and `=`.
#[cycle(terms)]
fn put_front(page: &mut Page, f: &Tm)
    ensures { (x : TermTree NameValue) → IsPut (front_text (term_of_tree f.now) x) (printed page.old)
        (printed page.new) }
{
    if !is_half_equation(f) {
        put_term(page, f);
        page.put(b" ");
        return;
    }
    put_argument(page, f);
    page.put(b" = ");
}

/// What a function was applied to.
#[cycle(terms)]
#[tactic(auto, using(ot_logic::proofs::PlainTrees::term_steps, ot_text::proofs::Putting::nothing))]
fn put_argument(page: &mut Page, f: &Tm)
    ensures { IsPut (argument_text (term_of_tree f.now)) (printed page.old) (printed page.new) }
{
    match f {
        Tm::App(_, x) => put_term(page, x),
        Tm::Free(_, _) => {}
        Tm::Con(_, _) => {}
        Tm::Bound(_) => {}
        Tm::Abs(_, _) => {}
    }
}

/// Whether a function makes an equation of a further argument.
#[tactic(auto, using(ot_logic::proofs::PlainTrees::term_steps))]
fn is_half_equation(f: &Tm) -> bool
    ensures { (x : TermTree NameValue) → is_equation names (App (term_of_tree f.now) x) ≡ result }
{
    match f {
        Tm::App(head, _) => is_equality(head),
        Tm::Free(_, _) => false,
        Tm::Con(_, _) => false,
        Tm::Bound(_) => false,
        Tm::Abs(_, _) => false,
    }
}

/// Whether a term is `=` at a type a -> (a -> bool).
#[tactic(auto, using(ot_logic::proofs::PlainTrees::term_steps))]
fn is_equality(head: &Tm) -> bool
    ensures { (a b : TermTree NameValue) → is_equation names (App (App (term_of_tree head.now) a) b) ≡ result }
{
    match head {
        Tm::Con(name, ty) => is_text(name, b"=") && is_equality_type(ty),
        Tm::Free(_, _) => false,
        Tm::Bound(_) => false,
        Tm::App(_, _) => false,
        Tm::Abs(_, _) => false,
    }
}

/// Whether a type is a -> (a -> bool).
fn is_equality_type(ty: &Ty) -> bool
    ensures { result ≡ equality_test (type_of_tree ty.now) }
{
    let Some((left, rest)) = function_parts(ty) else {
        return false;
    };
    let Some((right, value)) = function_parts(rest) else {
        return false;
    };
    if !same_type(right, left) {
        return false;
    }
    is_bool(value)
}
