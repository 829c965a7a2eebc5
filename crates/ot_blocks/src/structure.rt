ghost use Rattle.std.specs.Prelude.{◌≡◌, ℕ, List, Some, None, true, IfOk, is_some, codes, map, filter_map};
ghost use Rattle.ot_theory.specs.Theory.{has_block};
ghost use Rattle.ot_theory.specs.Answers.{tag_of, tags_of, blocks_of};
ghost use Rattle.ot_blocks.specs.Structure.{block_places, fault_of, import_of, faults_of};
ghost use Rattle.ot_blocks.specs.Structure.{graph_of, imported_blocks, plan, IsPlan};
ghost use Rattle.ot_blocks.specs.Answers.{lists_of, plan_of, Plans, places_in, ReadsImport, Collects};

use crate::fault::{PlanFault, StructureFault};
use crate::paths::is_package;
use crate::walk::{Import, order_from};
use ot_theory::{Block, Key, Tag, key_of};
use std::alloc::{AllocError, Global};
use std::collections::HashMap;

/// What the blocks of a theory file ask for. A block is named by its place in the file.
#[derive(Drop)]
pub struct Plan {
    /// The blocks that each block imports, in the order of the lines; also of those that don't run.
    pub imports: Vec<Vec<usize>>,
    /// The blocks that run, in the order in which they do: those that `main` reaches.
    pub order: Vec<usize>,
}

/// The plan of a theory file's blocks, by the theory file format: the imports of a block in the order
/// of their lines, then the block, each once. `At` comes exactly with the first fault: an unknown
/// import or a bad package name of any block, in the order of lines; or else the line of the import
/// that leads back, in the walk from `main`. Of each plan, every number is the place of a block, and a
/// block that runs stands once, behind its imports.
pub fn plan_blocks(alloc: Global, blocks: &[Block<'_>]) -> Result<Plan, PlanFault>
    requires { has_block (blocks_of blocks.now) (codes "main") ≡ true }
    ensures plan { Plans result (plan (blocks_of blocks.now)) }
    ensures sound { IfOk result (λ p. IsPlan (blocks_of blocks.now) (plan_of p)) }
{
    made_plan(alloc, blocks)
}

fn made_plan(alloc: Global, blocks: &[Block<'_>]) -> Result<Plan, PlanFault>
    requires { has_block (blocks_of blocks.now) (codes "main") ≡ true }
    ensures { Plans result (plan (blocks_of blocks.now)) }
{
    let places = places_of(alloc, blocks)?;
    let graph = graph_of(alloc, blocks, &places)?;
    let main = main_place(&places);
    let order = order_from(alloc, graph.as_slice(), main)?;
    let imports = imported_blocks(alloc, graph.as_slice())?;
    Ok(Plan { imports, order })
}

/// The place of each block, by its name.
fn places_of<'a>(
    alloc: Global,
    blocks: &[Block<'a>],
) -> Result<HashMap<&'a [u8], usize>, AllocError>
    ensures { IfOk result (λ places. (name : List ℕ) → places_in places name ≡ block_places (blocks_of blocks.now) name) }
{
    let mut places = HashMap::new(alloc);
    'each: for (place, block) in blocks.iter().enumerate() {
        if !places.contains_key(block.name) {
            places.insert(block.name, place)?;
        }
    }
    Ok(places)
}

fn main_place(places: &HashMap<&[u8], usize>) -> usize
    requires { is_some (places_in places.now (codes "main")) ≡ true }
    ensures { places_in places.now (codes "main") ≡ Some result }
{
    places.get(b"main".as_slice()).copied().unwrap()
}

/// The imports of each block.
fn graph_of(
    alloc: Global,
    blocks: &[Block<'_>],
    places: &HashMap<&[u8], usize>,
) -> Result<Vec<Vec<Import>>, PlanFault>
    ensures { Collects (λ graph. lists_of graph.items) result
        (faults_of (places_in places.now) (blocks_of blocks.now))
        (graph_of (places_in places.now) (blocks_of blocks.now)) }
{
    let mut graph = Vec::new(alloc);
    'each: for block in blocks {
        let imports = imports_of(alloc, block.statements.as_slice(), places)?;
        graph.push(imports)?;
    }
    Ok(graph)
}

/// The imports among the statements of a block.
fn imports_of(
    alloc: Global,
    statements: &[Tag<'_>],
    places: &HashMap<&[u8], usize>,
) -> Result<Vec<Import>, PlanFault>
    ensures { Collects (λ imports. imports.items) result
        (filter_map (fault_of (places_in places.now)) (tags_of statements.now))
        (filter_map (import_of (places_in places.now)) (tags_of statements.now)) }
{
    let mut imports = Vec::new(alloc);
    'each: for statement in statements {
        if let Some(import) = import_of(statement, places)? {
            imports.push(import)?;
        }
    }
    Ok(imports)
}

/// The import that a statement is, if it is one.
fn import_of(
    statement: &Tag<'_>,
    places: &HashMap<&[u8], usize>,
) -> Result<Option<Import>, PlanFault>
    ensures { ReadsImport result
        (fault_of (places_in places.now) (tag_of statement.now))
        (import_of (places_in places.now) (tag_of statement.now)) }
{
    let line = statement.line;
    match key_of(statement.key) {
        Key::Import => match places.get(statement.value) {
            Some(block) => Ok(Some(Import {
                line,
                block: *block,
            })),
            None => Err(PlanFault::At {
                line,
                fault: StructureFault::UnknownImport,
            }),
        },
        Key::Package => {
            if is_package(statement.value) {
                Ok(None)
            } else {
                Err(PlanFault::At {
                    line,
                    fault: StructureFault::BadPackageName,
                })
            }
        }
        Key::Article | Key::Interpret | Key::Other => Ok(None),
    }
}

/// The blocks that each block imports.
fn imported_blocks(alloc: Global, graph: &[Vec<Import>]) -> Result<Vec<Vec<usize>>, AllocError>
    ensures { IfOk result (λ imports. lists_of imports.items ≡ imported_blocks (lists_of graph.now)) }
{
    let mut imports = Vec::new(alloc);
    'each: for list in graph {
        imports.push(blocks_in(alloc, list.as_slice())?)?;
    }
    Ok(imports)
}

fn blocks_in(alloc: Global, imports: &[Import]) -> Result<Vec<usize>, AllocError>
    ensures { IfOk result (λ blocks. blocks.items ≡ map (λ i. i.block) imports.now) }
{
    imports.iter().map(|import| import.block).collect(alloc)
}
