//! The symbols of the definitions so far, and whether further ones may be defined.
ghost use Rattle.std.specs.Prelude.{◌≡◌, ◌||◌, ◌&&◌, ◌++◌, ◌∷◌, not, map, [], List, IfOk, OnOk, OnErr};
ghost use Rattle.std.specs.List.{All, list_any};
ghost use Rattle.ot_logic.specs.Names.{Name};
ghost use Rattle.ot_logic.specs.Naming.{names};
ghost use Rattle.ot_logic.specs.Trees.{Definition as StatedDefinition, Symbol};
ghost use Rattle.ot_logic.specs.Hol.{defined, theorems};
ghost use Rattle.ot_log_format.specs.Steps.{all_defined, all_used};
ghost use Rattle.ot_log_nodes.specs.Items.{HasName};
ghost use Rattle.ot_log_rules.specs.Definitions.{definition_at, HasDefinition};
ghost use Rattle.ot_log_rules.specs.Parts.{marks_premise, marks_sequents, HasMark, marks_at, Gathers, IsGoneOver, IsOf};
ghost use Rattle.ot_log_rules.specs.Statements.{sequent_at, HasStatement};
ghost use Rattle.ot_log_rules.specs.Symbols.{HasSymbols, IsSignature, IsSymbolMark, KeepsSymbols};
ghost use Rattle.ot_log_rules.specs.Symbols.{mark_eq, symbol_of, are_fresh, is_primitive_mark, is_marked};
ghost use Rattle.indexmap.specs.IndexSet.{insert_all};
ghost use Rattle.ot_log_rules.specs.declared.parts.Mark.TheVariants.{Constant};

use crate::definition::Definition;
use crate::parts::{Mark, Parts};
use crate::sets::add_all;
use crate::statement::Statement;
use indexmap::IndexSet;
use ot_log_nodes::{NameId, Nodes, VariableNode};
use ot_logic::Memory;
use std::alloc::Global;

/// The symbols that were defined so far, and what occurs in the definitions.
#[derive(Drop)]
pub struct Signature {
    defined: IndexSet<Mark>,
    used: IndexSet<Mark>,
}

impl Signature {
    ghost use Rattle.ot_log_nodes.specs.Items.{Item};

    /// The signature before the first definition.
    pub fn new(alloc: Global) -> Signature
        ensures { (ts : List Item) → IsSignature ts [] result }
    {
        Signature {
            defined: IndexSet::new(alloc),
            used: IndexSet::new(alloc),
        }
    }

    /// Whether these symbols may be defined from a premise in which this occurs: none has a meaning of its own, is
    /// defined, stands twice, or occurs in the premise or in a definition.
    pub(crate) fn may_define(
        &self,
        alloc: Global,
        nodes: &Nodes,
        premise: &Parts,
        symbols: &[Mark],
    ) -> Result<bool, Memory>
        requires symbols { All (IsSymbolMark nodes.now) symbols.now }
        requires premise { All (HasMark nodes.now) premise.now.marks.keys }
        ensures { IfOk result (λ b. (dl : List (StatedDefinition Name)) (ss : List (Symbol Name))
            → IsSignature nodes.now dl self.now → HasSymbols ss (marks_at nodes.now premise.now)
            → b ≡ are_fresh (all_defined names dl) (all_used names dl) ss (map (symbol_of nodes.now) symbols.now)) }
    {
        nodes.primitives();
        let mut before = IndexSet::new(alloc);
        for symbol in symbols {
            if !self.is_fresh(&before, premise, symbol) {
                return Ok(false);
            }
            before.insert(*symbol)?;
        }
        Ok(true)
    }

    /// Whether a symbol may be defined after some.
    fn is_fresh(&self, before: &IndexSet<Mark>, premise: &Parts, symbol: &Mark) -> bool
        ensures { result
            ≡ (not (is_primitive_mark symbol.now)
            && (not (is_marked symbol.now before.now.keys || is_marked symbol.now self.now.defined.keys)
            && not (is_marked symbol.now premise.now.marks.keys || is_marked symbol.now self.now.used.keys))) }
    {
        let taken = before.contains(symbol) | self.defined.contains(symbol);
        let used = premise.marks.contains(symbol) | self.used.contains(symbol);
        !is_primitive(*symbol) & (!taken & !used)
    }

    /// Records the symbols of a definition and of its theorems. After running out of memory all is as before.
    pub fn accept(
        &mut self,
        nodes: &Nodes,
        definition: &Definition,
        made: &[Statement],
    ) -> Result<(), Memory>
        requires definition { HasDefinition nodes.now definition.now }
        requires made { All (HasStatement nodes.now) made.now }
        ensures ok { OnOk result ((dl : List (StatedDefinition Name)) → IsSignature nodes.now dl self.old
            → map (sequent_at nodes.now) made.now ≡ theorems names (definition_at nodes.now definition.now)
            → IsSignature nodes.now (dl ++ definition_at nodes.now definition.now ∷ []) self.new) }
        ensures err { OnErr result (KeepsSymbols self.old self.new) }
    {
        nodes.primitives();
        let symbols = symbols_of(nodes, definition)?;
        let occurring = occurring_in(nodes, definition, made)?;
        self.add(&symbols, occurring.marks.as_slice())
    }

    /// Records symbols that are defined, and what occurs.
    fn add(&mut self, defined: &[Mark], used: &[Mark]) -> Result<(), Memory>
        ensures defined { OnOk result (self.new.defined.keys ≡ insert_all mark_eq self.old.defined.keys defined.now) }
        ensures used { OnOk result (self.new.used.keys ≡ insert_all mark_eq self.old.used.keys used.now) }
        ensures err { OnErr result (KeepsSymbols self.old self.new) }
    {
        let before = self.defined.len();
        add_all(&mut self.defined, defined)?;
        if let Err(refused) = add_all(&mut self.used, used) {
            self.defined.truncate(before);
            return Err(refused);
        }
        Ok(())
    }
}

/// The symbols that a definition defines.
fn symbols_of(nodes: &Nodes, definition: &Definition) -> Result<Vec<Mark>, Memory>
    requires { HasDefinition nodes.now definition.now }
    ensures are { IfOk result
        (λ v. map (symbol_of nodes.now) v.items ≡ defined names (definition_at nodes.now definition.now)) }
    ensures marks { IfOk result (λ v. All (IsSymbolMark nodes.now) v.items) }
{
    let alloc = nodes.allocator();
    match definition {
        Definition::Constant { name, term: _term } => Ok(vec![in alloc; Mark::Constant(*name)]?),
        Definition::Constants {
            pairs,
            premise: _premise,
        } => constant_marks(alloc, pairs),
        Definition::TypeOperator {
            name,
            abs,
            rep,
            vars: _vars,
            premise: _premise,
        } => Ok(vec![in alloc;
            Mark::Operator(*name),
            Mark::Constant(*abs),
            Mark::Constant(*rep),
        ]?),
    }
}

/// The marks of constants.
fn constant_marks(alloc: Global, pairs: &[(NameId, VariableNode)]) -> Result<Vec<Mark>, Memory>
    ensures { IfOk result (λ v. v.items ≡ map (λ p. Constant p.0) pairs.now) }
{
    Ok(
        pairs
            .iter()
            .map(|pair| Mark::Constant(pair.0))
            .collect(alloc)?,
    )
}

/// What occurs in the premise of a definition and in its theorems.
fn occurring_in(nodes: &Nodes, definition: &Definition, made: &[Statement]) -> Result<Parts, Memory>
    requires definition { HasDefinition nodes.now definition.now }
    requires made { All (HasStatement nodes.now) made.now }
    ensures { IfOk result
        (IsOf nodes.now (marks_premise (definition_at nodes.now definition.now)
        ++ marks_sequents (map (sequent_at nodes.now) made.now))) }
{
    let mut occurring = Parts::new(nodes.allocator());
    add_premise(&mut occurring, nodes, definition)?;
    occurring.add_statements(nodes, made)?;
    Ok(occurring)
}

/// Goes over the premise of a definition.
fn add_premise(parts: &mut Parts, nodes: &Nodes, definition: &Definition) -> Result<(), Memory>
    requires definition { HasDefinition nodes.now definition.now }
    requires gone { IsGoneOver nodes.now parts.old }
    ensures { OnOk result
        (Gathers nodes.now (marks_premise (definition_at nodes.now definition.now)) parts.old parts.new) }
{
    match definition {
        Definition::Constant { name: _name, term } => parts.add_term(nodes, *term),
        Definition::Constants {
            pairs: _pairs,
            premise,
        } => parts.add_statement(nodes, premise),
        Definition::TypeOperator {
            name: _name,
            abs: _abs,
            rep: _rep,
            vars: _vars,
            premise,
        } => parts.add_statement(nodes, premise),
    }
}

/// Whether the symbol has a meaning of its own.
fn is_primitive(symbol: Mark) -> bool
    ensures { result ≡ is_primitive_mark symbol }
{
    match symbol {
        Mark::Operator(name) => name == NameId::ARROW || name == NameId::BOOL,
        Mark::Constant(name) => name == NameId::EQUALS,
        Mark::TypeVar(_) => false,
        Mark::Variable(_) => false,
    }
}
