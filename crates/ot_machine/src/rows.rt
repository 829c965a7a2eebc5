//! The rows of the commands: each reads its places from the top downwards, makes, and then changes the machine.
mod definitions;
mod stack;
mod terms;
mod theorems;

pub use definitions::{define_const, define_const_list, define_type};
pub use stack::{cons, def, hd_tl, name, nil, pop, refer, remove, version};
pub use terms::{
    abs_term, app_term, const_term, constant, op_type, type_op, var, var_term, var_type,
};
pub use theorems::{
    abs_thm, app_thm, assume, axiom, beta_conv, deduct_antisym, eq_mp, prove_hyp, refl, subst, sym,
    thm, trans,
};
