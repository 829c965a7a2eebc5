//! Types that all who mention them share, each with its depth.
ghost use Rattle.std.specs.Prelude.{◌≡◌, ◌≤◌, suc, min, IfOk};
ghost use Rattle.std.specs.Option.{option_map};
ghost use Rattle.ot_logic.specs.Naming.{names};
ghost use Rattle.ot_logic.specs.Hol.{fun_ty, result_ty, depth_ty, depth_limit, is_shallow_ty};
ghost use Rattle.ot_logic.specs.PlainTrees.{type_of_tree};
ghost use Rattle.ot_parse.specs.Values.{deeper};

use crate::trees::{is_arrow, same_type};
use crate::types::function_type;
use ot_logic::{DEPTH_LIMIT, Ty};
use std::alloc::{AllocError, Global};
use std::marker::Model;
use std::rc::Rc;

/// A type with its depth.
#[derive(Drop)]
struct Measured {
    ty: Ty,
    /// The depth of the type, or one past the nesting limit.
    depth: u64,
}

/// A type that knows its depth. What mentions it shares it.
#[derive(Drop)]
pub(crate) struct MeasuredType {
    shared: Rc<Measured>,
}

impl Model for MeasuredType {
    ghost use Rattle.std.specs.Prelude.{◌≡◌, suc, min};
    ghost use Rattle.ot_logic.specs.Naming.{names};
    ghost use Rattle.ot_logic.specs.Hol.{depth_ty, depth_limit};
    ghost use Rattle.ot_logic.specs.PlainTrees.{type_of_tree};
    ghost use Rattle.ot_logic.specs.declared.tree.Ty as types;
    ghost use Rattle.ot_logic.specs.contracts.tree.Ty as plain;
    ghost use Rattle.std.specs.Coded.{codes};

    ghost Value = { types.Ty };

    ghost coded = { Prim.hlevel (codes, plain.the_row.coded) };

    ghost view = { λ m. m.shared.value.ty };

    ghost invariant = { λ m. m.shared.value.depth
        ≡ min (depth_ty names (type_of_tree m.shared.value.ty)) (suc depth_limit) };
}

impl MeasuredType {
    pub(crate) fn new(alloc: Global, ty: Ty) -> Result<MeasuredType, AllocError>
        ensures { IfOk result (λ m. m ≡ ty) }
    {
        let depth = type_depth(&ty, DEPTH_LIMIT as u64);
        Ok(MeasuredType {
            shared: Rc::new(alloc, Measured { ty, depth })?,
        })
    }

    /// The type of functions from the first type to the second.
    pub(crate) fn function(
        alloc: Global,
        domain: &MeasuredType,
        range: MeasuredType,
    ) -> Result<MeasuredType, AllocError>
        ensures { IfOk result (λ m. type_of_tree m ≡ fun_ty names (type_of_tree domain.now) (type_of_tree range)) }
    {
        let depth = one_deeper(domain.depth(), range.depth());
        let domain = copy_type(alloc, domain.as_type())?;
        let ty = function_type(alloc, domain, range.into_type(alloc)?)?;
        Ok(MeasuredType {
            shared: Rc::new(alloc, Measured { ty, depth })?,
        })
    }

    /// The same type, for a further mention of it.
    pub(crate) fn share(&self) -> Result<MeasuredType, AllocError>
        ensures { IfOk result (λ m. m ≡ self.now) }
    {
        Ok(MeasuredType {
            shared: self.shared.clone()?,
        })
    }

    pub(crate) fn as_type(&self) -> &Ty
        ensures { result.now ≡ self.now }
    {
        &self.shared.as_ref().ty
    }

    /// The depth of the type, or one past the nesting limit.
    pub(crate) fn depth(&self) -> u64
        ensures { result ≡ min (depth_ty names (type_of_tree self.now)) (suc depth_limit) }
    {
        self.shared.as_ref().depth
    }

    /// Whether the type is within the nesting limit.
    pub(crate) fn is_shallow(&self) -> bool
        ensures { result ≡ is_shallow_ty names (type_of_tree self.now) }
    {
        self.depth() <= DEPTH_LIMIT as u64
    }

    /// The type itself, which is copied where it is mentioned elsewhere.
    pub(crate) fn into_type(self, alloc: Global) -> Result<Ty, AllocError>
        ensures { IfOk result (λ t. type_of_tree t ≡ type_of_tree self) }
    {
        match Rc::try_unwrap(self.shared) {
            Ok(Measured { ty, depth: _ }) => Ok(ty),
            Err(shared) => copy_type(alloc, &shared.as_ref().ty),
        }
    }

    /// What a function of this type gives at an argument of this other one.
    pub(crate) fn into_result(
        self,
        alloc: Global,
        argument: &Ty,
    ) -> Result<Option<MeasuredType>, AllocError>
        ensures { IfOk result (λ r. option_map type_of_tree r
            ≡ result_ty names (type_of_tree self) (type_of_tree argument.now)) }
    {
        match self.result_at(alloc, argument)? {
            None => Ok(None),
            Some(ty) => Ok(Some(MeasuredType::new(alloc, ty)?)),
        }
    }

    fn result_at(self, alloc: Global, argument: &Ty) -> Result<Option<Ty>, AllocError>
        ensures { IfOk result (λ r. option_map type_of_tree r
            ≡ result_ty names (type_of_tree self) (type_of_tree argument.now)) }
    {
        match Rc::try_unwrap(self.shared) {
            Ok(Measured { ty, depth: _ }) => Ok(result_type(ty, argument)),
            Err(shared) => copied_result(alloc, &shared.as_ref().ty, argument),
        }
    }
}

/// What a function of the first type gives at an argument of the second.
fn result_type(function: Ty, argument: &Ty) -> Option<Ty>
    ensures { option_map type_of_tree result ≡ result_ty names (type_of_tree function) (type_of_tree argument.now) }
{
    match function {
        Ty::Var(_) => None,
        Ty::Op(name, args) => {
            let mut args = args;
            if !is_arrow(&name, &args) || !same_type(&args[0], argument) {
                return None;
            }
            args.pop()
        }
    }
}

/// The same, where the function's type is mentioned elsewhere.
fn copied_result(alloc: Global, function: &Ty, argument: &Ty) -> Result<Option<Ty>, AllocError>
    ensures { IfOk result (λ r. option_map type_of_tree r
        ≡ result_ty names (type_of_tree function.now) (type_of_tree argument.now)) }
{
    match function {
        Ty::Var(_) => Ok(None),
        Ty::Op(name, args) => {
            if !is_arrow(name, args) || !same_type(&args[0], argument) {
                return Ok(None);
            }
            Ok(Some(copy_type(alloc, &args[1])?))
        }
    }
}

/// A type equal to this one.
pub(crate) fn copy_type(alloc: Global, ty: &Ty) -> Result<Ty, AllocError>
    ensures { IfOk result (λ copy. type_of_tree copy ≡ type_of_tree ty.now) }
{
    match ty {
        Ty::Var(name) => Ok(Ty::Var(name.copy(alloc)?)),
        Ty::Op(name, args) => {
            let mut copies = Vec::new(alloc);
            for arg in args {
                copies.push(copy_type(alloc, arg)?)?;
            }
            Ok(Ty::Op(name.copy(alloc)?, copies))
        }
    }
}

/// The depth of a type, or one past this limit.
#[tactic(auto, using(ot_logic::proofs::PlainTrees::type_steps))]
fn type_depth(ty: &Ty, limit: u64) -> u64
    requires { limit ≤ depth_limit }
    ensures { result ≡ min (depth_ty names (type_of_tree ty.now)) (suc limit) }
{
    match ty {
        Ty::Var(_) => 1,
        Ty::Op(_, args) => {
            if limit == 0 {
                return 1;
            }
            let mut deepest = 0;
            for arg in args {
                let depth = type_depth(arg, limit - 1);
                if deepest < depth {
                    deepest = depth;
                }
            }
            deepest + 1
        }
    }
}

/// The depth of what stands over two parts, or one past the nesting limit.
pub(crate) fn one_deeper(left: u64, right: u64) -> u64
    ensures { result ≡ deeper left right }
{
    let limit = DEPTH_LIMIT as u64;
    let most = left.max(right);
    if most <= limit { most + 1 } else { limit + 1 }
}
