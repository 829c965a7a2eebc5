//! The log so far: its text, and the types, terms and sequents that it has.
ghost use Rattle.std.specs.Prelude.{◌≡◌, ◌<◌, ◌∷◌, [], ℕ, List, map, nat_eq, length, IfOk, OnOk, OnErr, Err};
ghost use Rattle.std.specs.List.{All, flat_map, position_or_len};
ghost use Rattle.ot_logic.specs.Trees.{TyOp};
ghost use Rattle.ot_log_nodes.specs.Items.{HasName, HasType, HasTerm, name_at, type_at, types_at, term_at};
ghost use Rattle.ot_log_format.specs.Tokens.{Number, Named, Word, spelling};
ghost use Rattle.ot_text.specs.Pages.{Appended};
ghost use Rattle.ot_log_records.specs.Entries.{AType, ATerm, type_entry, term_entry, type_list, type_parts};
ghost use Rattle.ot_log_records.specs.Entries.{types_nodes, type_nodes, term_parts, term_nodes, operand_nodes};
ghost use Rattle.ot_log_records.specs.Logged.{Log, header, put, add_tokens, token_of};
ghost use Rattle.ot_log_records.specs.Logged.{write_nodes, write_entry, count_sequent};
ghost use Rattle.ot_log_records.specs.Bytes.{bytes_of};
ghost use Rattle.ot_log_page.specs.Sheets.{operand_at, entry_at, HasOperand, Shows, Moves, Adds};

use crate::operand::Operand;
use indexmap::IndexSet;
use ot_log_format::RecordWord;
use ot_log_nodes::{NameId, Nodes, TermId, TermNode, TypeId, TypeNode};
use ot_logic::{Memory, Name};
use ot_text::{Page, PrintFault};
use std::alloc::Global;

/// A log in the making. A type and a term has the number of its place among those that were written.
#[derive(Drop)]
pub struct Sheet {
    page: Page,
    types: IndexSet<TypeId>,
    terms: IndexSet<TermId>,
    sequents: usize,
}

impl Sheet {
    ghost use Rattle.ot_log_nodes.specs.Items.{Item};

    /// The header alone, of a log of at most `max` bytes.
    pub fn new(alloc: Global, max: usize) -> Sheet
        ensures { (ts : List Item) → Shows ts max result header }
    {
        let mut page = Page::new(alloc, max);
        page.put(b"otlog\n1\n");
        Sheet {
            page,
            types: IndexSet::new(alloc),
            terms: IndexSet::new(alloc),
            sequents: 0,
        }
    }

    /// How many sequents the log has.
    pub fn sequents(&self) -> usize
        ensures { result ≡ self.now.sequents }
    {
        self.sequents
    }

    /// One sequent more.
    pub fn count_sequent(&mut self) -> Result<(), Memory>
        ensures moves { (ts : List Item) → OnOk result (Moves ts self.old self.new count_sequent) }
    {
        self.sequents = Memory::next(self.sequents as u64)? as usize;
        Ok(())
    }

    /// A record that makes a sequent. The answer is the sequent's number.
    pub fn write_sequent(
        &mut self,
        nodes: &Nodes,
        word: RecordWord,
        operands: &[Operand],
    ) -> Result<usize, Memory>
        requires operands { All (HasOperand nodes.now) operands.now }
        ensures adds { IfOk result
            (Adds nodes.now nodes.now self.old self.new (λ x. entry_at nodes.now word operands.now ∷ [])) }
    {
        let number = self.sequents;
        self.write(nodes, word, operands)?;
        self.count_sequent()?;
        Ok(number)
    }

    /// A record, behind the types and terms that it names.
    pub fn write(
        &mut self,
        nodes: &Nodes,
        word: RecordWord,
        operands: &[Operand],
    ) -> Result<(), Memory>
        requires operands { All (HasOperand nodes.now) operands.now }
        ensures moves { OnOk result
            (Moves nodes.now self.old self.new (write_entry (entry_at nodes.now word operands.now))) }
    {
        self.write_operands(nodes, operands)?;
        self.put(nodes, word, operands);
        Ok(())
    }

    /// The types and terms of operands.
    fn write_operands(&mut self, nodes: &Nodes, operands: &[Operand]) -> Result<(), Memory>
        requires operands { All (HasOperand nodes.now) operands.now }
        ensures moves { OnOk result (Moves nodes.now self.old self.new
            (write_nodes (flat_map operand_nodes (map (operand_at nodes.now) operands.now)))) }
    {
        for operand in operands {
            self.write_operand(nodes, *operand)?;
        }
        Ok(())
    }

    /// The types and terms of an operand.
    fn write_operand(&mut self, nodes: &Nodes, operand: Operand) -> Result<(), Memory>
        requires operand { HasOperand nodes.now operand }
        ensures moves { OnOk result (Moves nodes.now self.old self.new
            (write_nodes (operand_nodes (operand_at nodes.now operand)))) }
    {
        match operand {
            Operand::Type(id) => self.write_type(nodes, id),
            Operand::Term(id) => self.write_term(nodes, id),
            Operand::Count(_) => Ok(()),
            Operand::Name(_) => Ok(()),
            Operand::Sequent(_) => Ok(()),
        }
    }

    /// A type behind its parts, where it isn't there.
    #[cycle(write_type)]
    fn write_type(&mut self, nodes: &Nodes, id: TypeId) -> Result<(), Memory>
        requires id { HasType nodes.now id }
        ensures moves { OnOk result (Moves nodes.now self.old self.new (write_nodes (type_nodes (type_at nodes.now id)))) }
    {
        nodes.primitives();
        if self.types.contains(&id) {
            return Ok(());
        }
        self.write_new_type(nodes, id)?;
        self.types.insert(id)?;
        Ok(())
    }

    /// The record of a type behind its parts.
    #[cycle(write_type)]
    fn write_new_type(&mut self, nodes: &Nodes, id: TypeId) -> Result<(), Memory>
        requires id { HasType nodes.now id }
        ensures moves { OnOk result (Moves nodes.now self.old self.new
            (λ x. put (type_entry (type_at nodes.now id)) (write_nodes (type_parts (type_at nodes.now id)) x))) }
    {
        match nodes.type_node(id) {
            TypeNode::Var(name) => {
                self.put(nodes, RecordWord::TyVar, &[Operand::Name(*name)]);
                Ok(())
            }
            TypeNode::Op(name, args) => {
                self.write_types(nodes, id, args.as_slice())?;
                self.put_type_op(nodes, *name, args.as_slice());
                Ok(())
            }
        }
    }

    /// Types below a bound, from left to right.
    #[cycle(write_type)]
    fn write_types(&mut self, nodes: &Nodes, bound: TypeId, ids: &[TypeId]) -> Result<(), Memory>
        requires ids { All (HasType nodes.now) ids.now }
        requires below { All (λ i. i < bound) ids.now }
        ensures moves { OnOk result (Moves nodes.now self.old self.new
            (write_nodes (types_nodes (types_at nodes.now ids.now)))) }
    {
        for id in ids {
            self.write_type(nodes, *id)?;
        }
        Ok(())
    }

    /// A term behind its parts, where it isn't there.
    #[cycle(write_term)]
    fn write_term(&mut self, nodes: &Nodes, id: TermId) -> Result<(), Memory>
        requires id { HasTerm nodes.now id }
        ensures moves { OnOk result (Moves nodes.now self.old self.new (write_nodes (term_nodes (term_at nodes.now id)))) }
    {
        nodes.primitives();
        if self.terms.contains(&id) {
            return Ok(());
        }
        self.write_new_term(nodes, id)?;
        self.terms.insert(id)?;
        Ok(())
    }

    /// The record of a term behind its parts.
    #[cycle(write_term)]
    fn write_new_term(&mut self, nodes: &Nodes, id: TermId) -> Result<(), Memory>
        requires id { HasTerm nodes.now id }
        ensures moves { OnOk result (Moves nodes.now self.old self.new
            (λ x. put (term_entry (term_at nodes.now id)) (write_nodes (term_parts (term_at nodes.now id)) x))) }
    {
        match nodes.term_node(id) {
            TermNode::Free(v) => {
                self.write_type(nodes, v.ty)?;
                self.put(
                    nodes,
                    RecordWord::Free,
                    &[Operand::Name(v.name), Operand::Type(v.ty)],
                );
            }
            TermNode::Const(name, ty) => {
                self.write_type(nodes, ty)?;
                self.put(
                    nodes,
                    RecordWord::Con,
                    &[Operand::Name(name), Operand::Type(ty)],
                );
            }
            TermNode::Bound(place) => {
                self.put(nodes, RecordWord::Bound, &[Operand::Count(place as usize)]);
            }
            TermNode::App(f, x) => {
                self.write_term(nodes, f)?;
                self.write_term(nodes, x)?;
                self.put(
                    nodes,
                    RecordWord::App,
                    &[Operand::Term(f), Operand::Term(x)],
                );
            }
            TermNode::Abs(ty, body) => {
                self.write_type(nodes, ty)?;
                self.write_term(nodes, body)?;
                self.put(
                    nodes,
                    RecordWord::Lam,
                    &[Operand::Type(ty), Operand::Term(body)],
                );
            }
        }
        Ok(())
    }

    /// A type operator, whose arguments are there.
    fn put_type_op(&mut self, nodes: &Nodes, name: NameId, args: &[TypeId])
        requires name { HasName nodes.now name }
        requires args { All (HasType nodes.now) args.now }
        ensures moves { Moves nodes.now self.old self.new
            (put (type_entry (TyOp (name_at nodes.now name) (types_at nodes.now args.now)))) }
    {
        self.put_word(RecordWord::TyOp);
        self.put_operand(nodes, Operand::Name(name));
        self.put_number(args.len());
        self.put_types(nodes, args);
    }

    /// Lines with the numbers of types.
    fn put_types(&mut self, nodes: &Nodes, ids: &[TypeId])
        requires ids { All (HasType nodes.now) ids.now }
        ensures moves { Moves nodes.now self.old self.new
            (λ x. add_tokens (map (token_of x) (type_list (types_at nodes.now ids.now))) x) }
    {
        for id in ids {
            self.put_type(nodes, *id);
        }
    }

    /// A record, where the types and terms that it names are there.
    fn put(&mut self, nodes: &Nodes, word: RecordWord, operands: &[Operand])
        requires operands { All (HasOperand nodes.now) operands.now }
        ensures moves { Moves nodes.now self.old self.new (put (entry_at nodes.now word operands.now)) }
    {
        self.put_word(word);
        self.put_operands(nodes, operands);
    }

    /// Lines with what a record names.
    fn put_operands(&mut self, nodes: &Nodes, operands: &[Operand])
        requires operands { All (HasOperand nodes.now) operands.now }
        ensures moves { Moves nodes.now self.old self.new
            (λ x. add_tokens (map (token_of x) (map (operand_at nodes.now) operands.now)) x) }
    {
        for operand in operands {
            self.put_operand(nodes, *operand);
        }
    }

    /// A line with the word of a record.
    fn put_word(&mut self, word: RecordWord)
        ensures moves { (ts : List Item) → Moves ts self.old self.new (add_tokens (Word (spelling word) ∷ [])) }
    {
        self.page.put(word.text());
        self.page.put(b"\n");
    }

    /// A line with what a record names: types and terms by number.
    fn put_operand(&mut self, nodes: &Nodes, operand: Operand)
        requires operand { HasOperand nodes.now operand }
        ensures moves { Moves nodes.now self.old self.new
            (λ x. add_tokens (token_of x (operand_at nodes.now operand) ∷ []) x) }
    {
        match operand {
            Operand::Count(number) => self.put_number(number),
            Operand::Name(id) => self.put_name(nodes.name_of(id)),
            Operand::Type(id) => self.put_type(nodes, id),
            Operand::Term(id) => self.put_term(nodes, id),
            Operand::Sequent(number) => self.put_number(number),
        }
    }

    /// A line with the number of a type.
    fn put_type(&mut self, nodes: &Nodes, id: TypeId)
        requires ty { HasType nodes.now id }
        ensures moves { Moves nodes.now self.old self.new
            (λ x. add_tokens (token_of x (AType (type_at nodes.now id)) ∷ []) x) }
    {
        nodes.primitives();
        let number = self.type_number(id);
        self.put_number(number);
    }

    /// A line with the number of a term.
    fn put_term(&mut self, nodes: &Nodes, id: TermId)
        requires term { HasTerm nodes.now id }
        ensures moves { Moves nodes.now self.old self.new
            (λ x. add_tokens (token_of x (ATerm (term_at nodes.now id)) ∷ []) x) }
    {
        nodes.primitives();
        let number = self.term_number(id);
        self.put_number(number);
    }

    /// The place of a type.
    fn type_number(&self, id: TypeId) -> usize
        ensures { result ≡ position_or_len (nat_eq id) self.now.types.keys }
    {
        match self.types.get_index_of(&id) {
            Some(number) => number,
            None => self.types.len(),
        }
    }

    /// The place of a term.
    fn term_number(&self, id: TermId) -> usize
        ensures { result ≡ position_or_len (nat_eq id) self.now.terms.keys }
    {
        match self.terms.get_index_of(&id) {
            Some(number) => number,
            None => self.terms.len(),
        }
    }

    /// A line with a name.
    fn put_name(&mut self, name: &Name)
        ensures moves { (ts : List Item) → Moves ts self.old self.new (add_tokens (Named name.now ∷ [])) }
    {
        self.page.put_name(name);
        self.page.put(b"\n");
    }

    /// A line with a number.
    fn put_number(&mut self, number: usize)
        ensures moves { (ts : List Item) → Moves ts self.old self.new (add_tokens (Number number ∷ [])) }
    {
        self.page.put_number(number);
        self.page.put(b"\n");
    }

    /// Appends the text. `TooLarge` exactly where it has more than `max` bytes. After a refusal `out` is as it was.
    pub fn finish(self, out: &mut Vec<u8>) -> Result<(), PrintFault>
        ensures ok { (ts : List Item) (max : ℕ) (x : Log) → Shows ts max self x
            → OnOk result (Appended (bytes_of x.tokens) max out.old.items out.new.items) }
        ensures too_large { (ts : List Item) (max : ℕ) (x : Log) → Shows ts max self x → result
            ≡ Err PrintFault.TooLarge
            → max < length (bytes_of x.tokens) }
        ensures err { OnErr result (out.new.items ≡ out.old.items) }
    {
        self.page.finish(out)
    }
}
