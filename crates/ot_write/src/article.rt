//! The written article.
ghost use Rattle.std.specs.Prelude.{◌≡◌, ◌<◌, ℕ, List, length, map, IfOk};
ghost use Rattle.std.specs.List.{All, AllByRecursion, flat_map};
ghost use Rattle.ot_logic.specs.Lists.{IsPart};
ghost use Rattle.ot_trace.specs.Trace.{IsStepTable, origin_at};
ghost use Rattle.ot_written.specs.Written.{roots_of};
ghost use Rattle.ot_written.specs.Needed.{needed_definitions};
ghost use Rattle.ot_write.specs.Bytes.{AreNamed, AreRootsInside, Writes, article_bytes, roots_at};
ghost use Rattle.ot_write.specs.Emitting.{counted_bytes, given, root_steps, same, marked_of};

use crate::roots::Roots;
use crate::text::WriteRefusal;
use crate::writer::Writer;
use ot_logic::{Cmd, Memory, Names};
use ot_trace::{StepId, Trace, reach, uses};
use std::alloc::Global;

/// Appends the article of exports, of version 6: the definitions that they need, in their order, and the exports.
///
/// The roots and the definitions are steps of the trace, whose names are of the table. What has two uses or more is
/// stored, and nothing else but the theorems of definitions that have a use. `TooLarge` comes exactly where the
/// article has more than
/// `max` bytes; no more of it is made then. After a refusal `out` is as it was.
pub fn write_article(
    alloc: Global,
    trace: &Trace,
    names: &Names,
    definitions: &[StepId],
    exports: &[Roots],
    max: u64,
    out: &mut Vec<u8>,
) -> Result<(), WriteRefusal>
    requires named { AreNamed (length names.now) trace.now }
    requires definitions { All (λ i. i < length trace.now) definitions.now }
    requires exports { All (AreRootsInside (length trace.now)) exports.now }
    ensures { Writes result (article_bytes names.now trace.now definitions.now exports.now) max out.old.items
        out.new.items }
{
    let count = trace.count();
    let roots = root_steps(alloc, exports)?;
    let marks = reach(alloc, trace, &roots, definitions)?;
    let counts = uses(alloc, trace, &roots, &marks)?;
    let needed = take_marked(alloc, count, marks, definitions)?;
    write_counted(alloc, trace, names, &counts, &needed, exports, max, out)
}

/// The steps of the definitions that exports need, in their old order, each origin once.
///
/// The roots and the definitions are steps of the trace.
pub fn needed_steps(
    alloc: Global,
    trace: &Trace,
    definitions: &[StepId],
    exports: &[Roots],
) -> Result<Vec<StepId>, Memory>
    requires definitions { All (λ i. i < length trace.now) definitions.now }
    requires exports { All (AreRootsInside (length trace.now)) exports.now }
    ensures some { IfOk result (λ needed. IsPart needed.items definitions.now) }
    ensures needed { IfOk result (λ needed. map (origin_at trace.now) needed.items
        ≡ needed_definitions same (roots_of (map (roots_at trace.now) exports.now))
        (map (origin_at trace.now) definitions.now)) }
{
    let count = trace.count();
    let roots = root_steps(alloc, exports)?;
    let marks = reach(alloc, trace, &roots, definitions)?;
    take_marked(alloc, count, marks, definitions)
}

/// The steps of all roots, export by export.
fn root_steps(alloc: Global, exports: &[Roots]) -> Result<Vec<StepId>, Memory>
    ensures { IfOk result (λ roots. roots.items ≡ flat_map root_steps exports.now) }
{
    let mut roots = Vec::new(alloc);
    for export in exports {
        roots.push(export.theorem)?;
        roots.push(export.list)?;
        roots.push(export.term)?;
    }
    Ok(roots)
}

/// The definitions that are marked, each at its first place.
fn take_marked(
    alloc: Global,
    count: usize,
    mut marks: Vec<bool>,
    definitions: &[StepId],
) -> Result<Vec<StepId>, Memory>
    requires marks { length marks.items ≡ count }
    requires definitions { All (λ i. i < count) definitions.now }
    ensures { IfOk result (λ needed. needed.items ≡ marked_of marks.items definitions.now) }
{
    let mut needed = Vec::new(alloc);
    for definition in definitions {
        if marks[definition.index()] {
            marks[definition.index()] = false;
            needed.push(*definition)?;
        }
    }
    Ok(needed)
}

/// Appends the article of exports, with these definitions, where each step has so many uses.
fn write_counted(
    alloc: Global,
    trace: &Trace,
    names: &Names,
    counts: &[u8],
    definitions: &[StepId],
    exports: &[Roots],
    max: u64,
    out: &mut Vec<u8>,
) -> Result<(), WriteRefusal>
    requires trace { IsStepTable trace.now }
    requires named { AreNamed (length names.now) trace.now }
    requires counted { length counts.now ≡ length trace.now }
    requires definitions { AllByRecursion (λ i. i < length trace.now) definitions.now }
    requires exports { AllByRecursion (AreRootsInside (length trace.now)) exports.now }
    ensures { Writes result (counted_bytes (given names.now trace.now counts.now) definitions.now exports.now) max
        out.old.items out.new.items }
{
    let mut writer = Writer::new(alloc, trace.count(), max)?;
    writer.text.put_key(6)?;
    writer.text.put_word(Cmd::Version)?;
    for id in definitions {
        writer.define(alloc, trace, names, counts, *id)?;
    }
    for export in exports {
        writer.export(alloc, trace, names, counts, *export)?;
    }
    writer.text.append_to(out)
}
