ghost use Rattle.std.specs.Prelude.{◌≡◌, ◌<◌, ◌+◌, ◌^◌, OnSome, length, slice_get};
ghost use Rattle.ot_blocks.specs.Order.{order_of, imports_at};
ghost use Rattle.ot_blocks.specs.Ordering.{NamesBlocks};
ghost use Rattle.ot_blocks.specs.Answers.{Walks, lists_of};

use crate::fault::{PlanFault, StructureFault};
use std::alloc::Global;

/// An import: the number of its line, and the place of the block that it names.
#[derive(Clone, Copy)]
pub(crate) struct Import {
    pub line: u64,
    pub block: usize,
}

/// How far the walk is with a block.
#[derive(Clone, Copy)]
pub(crate) enum Mark {
    New,
    Open,
    Done,
}

/// A block on the path, and the place of its next import.
#[derive(Clone, Copy)]
pub(crate) struct Frame {
    pub block: usize,
    pub next: usize,
}

/// The blocks that a block reaches: the imports of each in their order, then the block, each once.
pub(crate) fn order_from(
    alloc: Global,
    imports: &[Vec<Import>],
    main: usize,
) -> Result<Vec<usize>, PlanFault>
    requires inside { NamesBlocks (lists_of imports.now) }
    requires main { main < length imports.now }
    ensures { Walks result (order_of (lists_of imports.now) main) }
{
    let mut marks = vec![in alloc; Mark::New; imports.len()]?;
    let mut done = Vec::new(alloc);
    // The path is the blocks below, and then this one.
    let mut path: Vec<Frame> = Vec::new(alloc);
    let mut block = main;
    let mut next = 0;
    marks[main] = Mark::Open;
    'walk: loop {
        match import_at(imports, block, next) {
            Some(import) => {
                next += 1;
                match marks[import.block] {
                    Mark::Done => {}
                    Mark::Open => {
                        return Err(PlanFault::At {
                            line: import.line,
                            fault: StructureFault::ImportCycle,
                        });
                    }
                    Mark::New => {
                        marks[import.block] = Mark::Open;
                        path.push(Frame { block, next })?;
                        block = import.block;
                        next = 0;
                    }
                }
            }
            None => {
                marks[block] = Mark::Done;
                done.push(block)?;
                match path.pop() {
                    Some(below) => {
                        block = below.block;
                        next = below.next;
                    }
                    None => return Ok(done),
                }
            }
        }
    }
}

/// The import at a place of a block.
fn import_at(imports: &[Vec<Import>], block: usize, place: usize) -> Option<Import>
    requires { block < length imports.now }
    ensures import { result ≡ slice_get (imports_at (lists_of imports.now) block) place }
    ensures room { OnSome result (place + 1 < 2 ^ 64) }
{
    imports[block].get(place).copied()
}
