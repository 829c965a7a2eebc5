//! Terms and types that rows are tried on. These calls say of the table's own no more than that
//! numbers are of the table and stay so: that keeps the proofs of rows short.
ghost use Rattle.std.specs.Prelude.{◌≡◌, ◌<◌, ◌≤◌, length, IfOk};

use ot_logic::{Memory, NameId};
use ot_term::{TermFault, TermId, Terms, VarKey};
use ot_type::{TableFault, TypeId};
use std::process::Abort;

pub(crate) fn key(name: NameId, ty: TypeId) -> VarKey
    ensures name { result.name ≡ name }
    ensures ty { result.ty ≡ ty }
{
    VarKey { name, ty }
}

#[tactic(auto, using(std::proofs::lemmas::Option::slice_get_within))]
pub(crate) fn type_var(terms: &mut Terms, name: NameId) -> Result<TypeId, Memory>
    ensures id { IfOk result (λ id. id < length terms.new.types) }
    ensures types { length terms.old.types ≤ length terms.new.types }
    ensures terms { length terms.old.terms ≤ length terms.new.terms }
{
    terms.type_var(name)
}

#[tactic(auto, using(std::proofs::lemmas::Option::slice_get_within))]
pub(crate) fn type_bool(terms: &mut Terms) -> Result<TypeId, Memory>
    ensures id { IfOk result (λ id. id < length terms.new.types) }
    ensures types { length terms.old.types ≤ length terms.new.types }
    ensures terms { length terms.old.terms ≤ length terms.new.terms }
{
    terms.type_bool()
}

#[tactic(auto, using(std::proofs::lemmas::Option::slice_get_within))]
pub(crate) fn type_fun(terms: &mut Terms, a: TypeId, b: TypeId) -> Result<TypeId, TableFault>
    requires a { a < length terms.old.types }
    requires b { b < length terms.old.types }
    ensures id { IfOk result (λ id. id < length terms.new.types) }
    ensures types { length terms.old.types ≤ length terms.new.types }
    ensures terms { length terms.old.terms ≤ length terms.new.terms }
{
    terms.type_fun(a, b)
}

#[tactic(auto, using(std::proofs::lemmas::Option::slice_get_within))]
pub(crate) fn var(terms: &mut Terms, name: NameId, ty: TypeId) -> Result<TermId, Memory>
    requires { ty < length terms.old.types }
    ensures id { IfOk result (λ id. id < length terms.new.terms) }
    ensures types { length terms.old.types ≤ length terms.new.types }
    ensures terms { length terms.old.terms ≤ length terms.new.terms }
{
    terms.var(key(name, ty))
}

#[tactic(auto, using(std::proofs::lemmas::Option::slice_get_within))]
pub(crate) fn constant(terms: &mut Terms, name: NameId, ty: TypeId) -> Result<TermId, Memory>
    requires { ty < length terms.old.types }
    ensures id { IfOk result (λ id. id < length terms.new.terms) }
    ensures types { length terms.old.types ≤ length terms.new.types }
    ensures terms { length terms.old.terms ≤ length terms.new.terms }
{
    terms.constant(name, ty)
}

#[tactic(auto, using(std::proofs::lemmas::Option::slice_get_within))]
pub(crate) fn app(terms: &mut Terms, f: TermId, x: TermId) -> Result<TermId, TermFault>
    requires f { f < length terms.old.terms }
    requires x { x < length terms.old.terms }
    ensures id { IfOk result (λ id. id < length terms.new.terms) }
    ensures types { length terms.old.types ≤ length terms.new.types }
    ensures terms { length terms.old.terms ≤ length terms.new.terms }
{
    terms.app(f, x)
}

#[tactic(auto, using(std::proofs::lemmas::Option::slice_get_within))]
pub(crate) fn abs(
    terms: &mut Terms,
    name: NameId,
    ty: TypeId,
    body: TermId,
) -> Result<TermId, TableFault>
    requires ty { ty < length terms.old.types }
    requires body { body < length terms.old.terms }
    ensures id { IfOk result (λ id. id < length terms.new.terms) }
    ensures types { length terms.old.types ≤ length terms.new.types }
    ensures terms { length terms.old.terms ≤ length terms.new.terms }
{
    terms.abs(key(name, ty), body)
}

/// f D D for D, so often, from this term on.
pub(crate) fn doubled(
    terms: &mut Terms,
    times: u32,
    f: TermId,
    start: TermId,
) -> Result<TermId, TermFault>
    requires f { f < length terms.old.terms }
    requires start { start < length terms.old.terms }
    ensures id { IfOk result (λ id. id < length terms.new.terms) }
    ensures types { length terms.old.types ≤ length terms.new.types }
    ensures terms { length terms.old.terms ≤ length terms.new.terms }
{
    let mut last = start;
    for _ in 0..times {
        let left = app(terms, f, last)?;
        last = app(terms, left, last)?;
    }
    Ok(last)
}

/// Numbers that were taken twice are the same exactly at one place.
pub(crate) fn compare<T: PartialEq>(rt: &impl Abort, first: &[T], again: &[T]) {
    for (i, x) in first.iter().enumerate() {
        for (j, y) in again.iter().enumerate() {
            assert!(rt; (x == y) == (i == j), "{i} and {j}");
        }
    }
}
