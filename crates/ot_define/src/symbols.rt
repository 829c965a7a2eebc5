//! The symbols that a definition adds.
ghost use Rattle.std.specs.Prelude.{◌≡◌, ◌∷◌, [], map, IfOk};
ghost use Rattle.ot_term.specs.declared.term.SymbolKind.TheVariants.{Con, TyOp};

use ot_logic::{Memory, NameId};
use ot_term::{Symbol, SymbolKind};
use std::alloc::Global;

/// The symbol of the constant of this name.
pub fn constant_symbol(name: NameId) -> Symbol
    ensures { result ≡ record { kind = Con; name = name } }
{
    Symbol {
        kind: SymbolKind::Con,
        name,
    }
}

/// The symbols of the constants of these names, in their order. It fails only where memory runs out.
pub fn constant_symbols(alloc: Global, names: &[NameId]) -> Result<Vec<Symbol>, Memory>
    ensures { IfOk result (λ symbols. symbols.items ≡ map (λ n. record { kind = Con; name = n }) names.now) }
{
    Ok(
        names
            .iter()
            .map(|name| constant_symbol(*name))
            .collect(alloc)?,
    )
}

/// The symbols of a type operator, and of the constants from the type that it is taken from and back.
pub fn type_symbols(name: NameId, abs: NameId, rep: NameId) -> [Symbol; 3]
    ensures { result ≡ record { kind = TyOp; name = name } ∷ record { kind = Con; name = abs }
        ∷ record { kind = Con; name = rep } ∷ [] }
{
    let operator = Symbol {
        kind: SymbolKind::TyOp,
        name,
    };
    [operator, constant_symbol(abs), constant_symbol(rep)]
}
