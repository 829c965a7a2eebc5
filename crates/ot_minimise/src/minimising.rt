ghost use Rattle.std.specs.Prelude.{◌<◌, ◌^◌, ◌≡◌, map, IfOk, OnOk};
ghost use Rattle.std.specs.List.{All};
ghost use Rattle.ot_machine.specs.Meaning.{export_of, run_of, IsExportIn, IsRun};
ghost use Rattle.ot_write.specs.Bytes.{Writes};
ghost use Rattle.ot_minimise.specs.Minimised.{minimised, roots_in, AreLawful, IsMinimised};

use ot_article::written_article_law;
use ot_logic::Memory;
use ot_machine::{Export, Session};
use ot_write::{Roots, WriteRefusal, write_article};
use ot_written::{same_origin_law, stored_enough_law};
use std::alloc::Global;

/// Appends the minimised article of a run: of version 6, with the exports in their order, behind the definitions that
/// they need in their old order.
///
/// The exports are lawful over the run of the session, as those are that the run of an article or of a theory file
/// gives. Run alone, the article ends and exports the same; its assumptions and its definitions are the needed ones;
/// and but for numbers it makes nothing twice in the same way. `TooLarge` comes exactly where it has more than `max`
/// bytes, and after a refusal `out` is as it was.
pub fn minimise(
    alloc: Global,
    session: &Session,
    exports: &[Export],
    max: u64,
    out: &mut Vec<u8>,
) -> Result<(), WriteRefusal>
    requires run { IsRun session.now }
    requires exports { All (IsExportIn session.now) exports.now }
    requires lawful { AreLawful (run_of session.now) (map (export_of session.now) exports.now) }
    requires max { max < 2 ^ 63 }
    ensures writes { Writes result (minimised (run_of session.now) (map (export_of session.now) exports.now)) max
        out.old.items out.new.items }
    ensures minimised { let r = run_of session.now in let es = map (export_of session.now) exports.now in
        OnOk result (IsMinimised max r es (minimised r es)) }
{
    written_article_law();
    same_origin_law();
    stored_enough_law();
    session.kernel().sound();
    let roots = roots_of(alloc, exports)?;
    write_article(
        alloc,
        session.trace(),
        session.kernel().names(),
        session.definition_steps(),
        &roots,
        max,
        out,
    )
}

/// The roots of exports, as numbers of steps, in the order of the exports. It fails only where memory runs out.
pub fn roots_of(alloc: Global, exports: &[Export]) -> Result<Vec<Roots>, Memory>
    ensures { IfOk result (λ roots. roots.items ≡ map roots_in exports.now) }
{
    let roots = exports
        .iter()
        .map(|export| root_steps(export))
        .collect(alloc)?;
    Ok(roots)
}

/// The steps of an export's roots.
fn root_steps(export: &Export) -> Roots
    ensures { result ≡ roots_in export.now }
{
    Roots {
        theorem: export.theorem,
        list: export.list,
        term: export.term,
    }
}
