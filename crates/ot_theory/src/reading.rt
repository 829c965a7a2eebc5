ghost use Rattle.std.specs.Prelude.{◌≡◌, [], Some, None, IfOk};
ghost use Rattle.ot_theory.specs.Theory.{line_outside, line_inside, line_step, finish, no_lines};
ghost use Rattle.ot_theory.specs.Forms.{form, Opening};
ghost use Rattle.ot_theory.specs.Lines.{line_of};
ghost use Rattle.ot_theory.specs.Answers.{Parses, block_of};
ghost use Rattle.ot_theory.specs.Reading.{reading_state, IsReading, AnswersAs};

use crate::fault::{Refusal, TheoryError, TheoryFault};
use crate::forms::{Form, form_of};
use crate::lines::Line;
use crate::statement::add_statement;
use crate::symbols::Symbols;
use crate::theory::{Block, Tag, Theory};
use std::alloc::Global;
use std::collections::HashSet;

/// What was read so far: the tags and the closed blocks, with the names of all blocks.
#[derive(Drop)]
pub(crate) struct Reading<'a> {
    theory: Theory<'a>,
    names: HashSet<&'a [u8]>,
}

/// The block that is open, with the symbols that its statements rename.
#[derive(Drop)]
pub(crate) struct OpenBlock<'a> {
    pub block: Block<'a>,
    pub symbols: Symbols,
}

impl<'a> Reading<'a> {
    pub fn new(alloc: Global) -> Reading<'a>
        ensures state { reading_state result None ≡ no_lines }
        ensures sets { IsReading result None }
    {
        Reading {
            theory: Theory {
                tags: Vec::new(alloc),
                blocks: Vec::new(alloc),
            },
            names: HashSet::new(alloc),
        }
    }

    /// Reads a line, and answers the block that is open behind it.
    pub fn read_line(
        &mut self,
        alloc: Global,
        current: Option<OpenBlock<'a>>,
        line: Line<'a>,
    ) -> Result<Option<OpenBlock<'a>>, Refusal>
        requires { IsReading self.old current }
        ensures step { AnswersAs (reading_state self.new) result
            (line_step (reading_state self.old current.entry) (line_of line.entry)) }
        ensures sets { IfOk result (λ next. IsReading self.new next) }
    {
        match current {
            None => self.outside(alloc, line),
            Some(block) => self.inside(alloc, block, line),
        }
    }

    /// The same outside the blocks.
    fn outside(&mut self, alloc: Global, line: Line<'a>) -> Result<Option<OpenBlock<'a>>, Refusal>
        requires { IsReading self.old None }
        ensures step { AnswersAs (reading_state self.new) result
            (line_outside (reading_state self.old None) line.entry.number (form line.entry.text.now)) }
        ensures sets { IfOk result (λ next. IsReading self.new next) }
    {
        let number = line.number;
        match form_of(line.text) {
            Form::Statement(key, value) => {
                let tag = Tag {
                    line: number,
                    key,
                    value,
                };
                self.theory.tags.push(tag)?;
                Ok(None)
            }
            Form::Opening(name) => self.opened(alloc, number, name),
            Form::Closing => Err(Refusal::Fault(TheoryFault::BadBlock)),
            Form::Other => Err(Refusal::Fault(TheoryFault::BadLine)),
        }
    }

    /// The same at the opening of a block.
    fn opened(
        &mut self,
        alloc: Global,
        line: u64,
        name: &'a [u8],
    ) -> Result<Option<OpenBlock<'a>>, Refusal>
        requires { IsReading self.old None }
        ensures step { AnswersAs (reading_state self.new) result
            (line_outside (reading_state self.old None) line (Opening name.entry.now)) }
        ensures sets { IfOk result (λ next. IsReading self.new next) }
    {
        if self.names.insert(name)? {
            let block = Block {
                line,
                name,
                statements: Vec::new(alloc),
            };
            let symbols = Symbols::new(alloc);
            Ok(Some(OpenBlock { block, symbols }))
        } else {
            Err(Refusal::Fault(TheoryFault::DuplicateBlock))
        }
    }

    /// The same in a block.
    fn inside(
        &mut self,
        alloc: Global,
        current: OpenBlock<'a>,
        line: Line<'a>,
    ) -> Result<Option<OpenBlock<'a>>, Refusal>
        requires { IsReading self.old (Some current) }
        ensures step { AnswersAs (reading_state self.new) result
            (line_inside (reading_state self.old (Some current.entry)) (block_of current.entry.block)
            line.entry.number (form line.entry.text.now)) }
        ensures sets { IfOk result (λ next. IsReading self.new next) }
    {
        let number = line.number;
        match form_of(line.text) {
            Form::Statement(key, value) => {
                let tag = Tag {
                    line: number,
                    key,
                    value,
                };
                Ok(Some(add_statement(alloc, current, tag)?))
            }
            Form::Opening(_) => Err(Refusal::Fault(TheoryFault::BadBlock)),
            Form::Closing => {
                self.theory.blocks.push(current.block)?;
                Ok(None)
            }
            Form::Other => Err(Refusal::Fault(TheoryFault::BadLine)),
        }
    }

    /// What the whole text gave, which has so many lines.
    pub fn finish(
        self,
        current: Option<OpenBlock<'a>>,
        last: u64,
    ) -> Result<Theory<'a>, TheoryError>
        requires { IsReading self current }
        ensures { Parses result (finish last (reading_state self.entry current.entry)) }
    {
        match current {
            Some(open_block) => Err(TheoryError::At {
                line: open_block.block.line,
                fault: TheoryFault::BadBlock,
            }),
            None => {
                if self.names.contains(b"main".as_slice()) {
                    Ok(self.theory)
                } else {
                    Err(TheoryError::At {
                        line: last,
                        fault: TheoryFault::NoMain,
                    })
                }
            }
        }
    }
}
