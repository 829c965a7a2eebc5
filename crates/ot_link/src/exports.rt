//! Lists of exports, and what is given to the blocks that import them.
ghost use Rattle.std.specs.Prelude.{◌≡◌, ◌++◌, [], map, flat_map, IfOk};
ghost use Rattle.std.specs.List.{All};
ghost use Rattle.ot_machine.specs.Meaning.{export_of, IsExportIn};
ghost use Rattle.ot_link.specs.Blocks.{each_once};
ghost use Rattle.ot_link.specs.Answers.{AreExportsIn};
ghost use Rattle.ot_link.specs.Holding.{given_to, held_at};
ghost use Rattle.ot_link.specs.Lawful.{AreLawfulExports, AreLawfulOnce};

use ot_kernel::Places;
use ot_logic::Memory;
use ot_machine::{Export, Given, Session};
use std::alloc::Global;
use std::collections::HashMap;

/// Each sequent once, at its first place.
pub(crate) fn each_once(
    alloc: Global,
    session: &Session,
    exports: &[Export],
) -> Result<Vec<Export>, Memory>
    requires { All (IsExportIn session.now) exports.now }
    ensures once { IfOk result
        (λ once. map (export_of session.now) once.items ≡ each_once [] (map (export_of session.now) exports.now)) }
    ensures inside { IfOk result (AreExportsIn session.now) }
    ensures lawful { AreLawfulExports session.now exports.now → IfOk result (λ once. AreLawfulOnce session.now once.items) }
{
    let mut once = Vec::new(alloc);
    let mut places = Places::new(alloc);
    'each: for export in exports {
        if session.is_exported(&once, &places, export.th) {
            continue;
        }
        let kernel = session.kernel();
        kernel.note_theorem(&mut places, export.th, once.len())?;
        once.push(*export)?;
    }
    Ok(once)
}

/// The exports that a block imports, and then the theorems of its outer context.
pub(crate) fn given_to(
    alloc: Global,
    imports: &[Export],
    outer: &[Given],
) -> Result<Vec<Given>, Memory>
    ensures { IfOk result (λ given. given.items ≡ map given_to imports.now ++ outer.now) }
{
    let mut given = Vec::new(alloc);
    'each: for export in imports {
        given.push(Given {
            th: export.th,
            step: export.theorem,
        })?;
    }
    given.extend_from_slice(outer)?;
    Ok(given)
}

/// The exports of blocks, by their places.
pub(crate) fn imported(
    alloc: Global,
    done: &HashMap<usize, Vec<Export>>,
    places: &[usize],
) -> Result<Vec<Export>, Memory>
    ensures { IfOk result (λ exports. exports.items ≡ flat_map (held_at done.now) places.now) }
{
    let mut exports = Vec::new(alloc);
    'each: for place in places {
        if let Some(more) = done.get(place) {
            exports.extend_from_slice(more)?;
        }
    }
    Ok(exports)
}
