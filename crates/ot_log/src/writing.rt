//! The proof log of a run.
ghost use Rattle.std.specs.Prelude.{◌≡◌, ◌<◌, ◌^◌, ℕ, List, length, map, IfOk, OnOk};
ghost use Rattle.ot_log_nodes.specs.Items.{Item};
ghost use Rattle.ot_log_records.specs.Logged.{Log};
ghost use Rattle.ot_log_records.specs.Bytes.{bytes_of};
ghost use Rattle.ot_log_page.specs.Sheets.{Shows};
ghost use Rattle.std.specs.List.{All};
ghost use Rattle.ot_machine.specs.Meaning.{export_of, origin_of, run_of, IsExportIn, IsRun};
ghost use Rattle.ot_log_law.specs.Checked.{run_log, IsLogOf};
ghost use Rattle.ot_log.specs.Logs.{AreLawful, HasProof, Writes, steps_log};
ghost use Rattle.ot_log.specs.Keeping.{Holds, IsDefinable, IsNumbered};
ghost use Rattle.ot_log.specs.Ready.{CanDefine, CanResult};
ghost use Rattle.ot_log_law.specs.Writing.{log, nothing_written, write_definitions};
ghost use Rattle.ot_logic.specs.RanOut.{ran_out};

use crate::writer::Writer;
use ot_log_law::run_log_law;
use ot_log_page::Sheet;
use ot_logic::Memory;
use ot_machine::{Export, Session};
use ot_minimise::roots_of;
use ot_text::PrintFault;
use ot_trace::StepId;
use ot_write::needed_steps;
use std::alloc::Global;

/// Why a log isn't written.
#[derive(Clone, Copy)]
pub enum LogRefusal {
    /// It has more bytes than the limit allows.
    TooLarge,
    Memory(Memory),
}

impl From<Memory> for LogRefusal {
    ghost use Rattle.std.specs.Prelude.{◌≡◌};
    ghost use Rattle.ot_log.specs.declared.writing.LogRefusal.TheVariants.{Memory as OutOfMemory};

    ghost from_gives = { λ _ e. e ≡ OutOfMemory ran_out };

    fn from(memory: Memory) -> LogRefusal {
        LogRefusal::Memory(memory)
    }
}

/// Appends the proof log of a run: the definitions that its exports need, in their old order, each behind its
/// premise, and the exports in their order, each behind its proof.
///
/// The exports are lawful over the run of the session, as those are that the run of an article or of a theory file
/// gives. The check of the log ends: with the exports as results, and with the needed assumptions and definitions.
/// `TooLarge` comes exactly where it has more than `max` bytes, and after a refusal `out` is as it was.
pub fn write_log(
    alloc: Global,
    session: &Session,
    exports: &[Export],
    max: u64,
    out: &mut Vec<u8>,
) -> Result<(), LogRefusal>
    requires run { IsRun session.now }
    requires exports { All (IsExportIn session.now) exports.now }
    requires lawful { AreLawful (run_of session.now) (map (export_of session.now) exports.now) }
    requires max { max < 2 ^ 63 }
    ensures writes { Writes result (run_log (run_of session.now) (map (export_of session.now) exports.now))
        max out.old.items out.new.items }
    ensures checked { let r = run_of session.now in let es = map (export_of session.now) exports.now in
        OnOk result (IsLogOf max r es (run_log r es)) }
{
    run_log_law();
    session.kernel().sound();
    let count = session.trace().count();
    let roots = roots_of(alloc, exports)?;
    let needed = needed_steps(alloc, session.trace(), session.definition_steps(), &roots)?;
    write_steps(alloc, session, count, &needed, exports, max, out)
}

/// Appends the log of definitions, by their steps, and of exports.
fn write_steps(
    alloc: Global,
    session: &Session,
    count: usize,
    definitions: &[StepId],
    exports: &[Export],
    max: u64,
    out: &mut Vec<u8>,
) -> Result<(), LogRefusal>
    requires session { IsNumbered session.now }
    requires count { length session.now.trace ≡ count }
    requires inside { All (λ i. i < length session.now.trace) definitions.now }
    requires definable { All (λ i. IsDefinable (origin_of session.now i)) definitions.now }
    requires exports { All (IsExportIn session.now) exports.now }
    requires proofs { All (HasProof session.now) exports.now }
    requires definitions { CanDefine (map (origin_of session.now) definitions.now) nothing_written }
    requires results { CanResult (map (λ e. origin_of session.now e.theorem) exports.now)
        (write_definitions (map (origin_of session.now) definitions.now) nothing_written) }
    ensures { Writes result (steps_log session.now definitions.now exports.now) max out.old.items out.new.items }
{
    let writer = written(alloc, session, count, definitions, exports, max as usize)?;
    finish(writer.sheet, out)
}

/// The log of definitions and of exports.
fn written(
    alloc: Global,
    session: &Session,
    count: usize,
    definitions: &[StepId],
    exports: &[Export],
    max: usize,
) -> Result<Writer, Memory>
    requires session { IsNumbered session.now }
    requires count { length session.now.trace ≡ count }
    requires inside { All (λ i. i < length session.now.trace) definitions.now }
    requires definable { All (λ i. IsDefinable (origin_of session.now i)) definitions.now }
    requires exports { All (IsExportIn session.now) exports.now }
    requires proofs { All (HasProof session.now) exports.now }
    requires definitions { CanDefine (map (origin_of session.now) definitions.now) nothing_written }
    requires results { CanResult (map (λ e. origin_of session.now e.theorem) exports.now)
        (write_definitions (map (origin_of session.now) definitions.now) nothing_written) }
    ensures { IfOk result (λ w. Holds session.now max w
        (log (map (origin_of session.now) definitions.now)
        (map (λ e. origin_of session.now e.theorem) exports.now))) }
{
    let mut writer = Writer::new(alloc, count, max)?;
    for definition in definitions {
        writer.define(alloc, session, *definition)?;
    }
    for export in exports {
        writer.result(alloc, session, export.theorem)?;
    }
    Ok(writer)
}

/// Appends the text of a sheet.
fn finish(sheet: Sheet, out: &mut Vec<u8>) -> Result<(), LogRefusal>
    ensures { (ts : List Item) (max : ℕ) (x : Log) → Shows ts max sheet x
        → Writes result (bytes_of x.tokens) max out.old.items out.new.items }
{
    match sheet.finish(out) {
        Ok(()) => Ok(()),
        Err(PrintFault::TooLarge) => Err(LogRefusal::TooLarge),
        Err(PrintFault::Memory(memory)) => Err(LogRefusal::Memory(memory)),
    }
}
