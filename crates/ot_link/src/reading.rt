//! Theory files as they are read and planned.
ghost use Rattle.std.specs.Prelude.{◌≡◌, ◌≤◌, ℕ, List, [], Option, Some, IfOk, IfErr, codes, true};
ghost use Rattle.ot_io.specs.Keeping.{KeepsFiles};
ghost use Rattle.ot_io.specs.Readings.{HasReadFiles};
ghost use Rattle.ot_kernel.specs.State.{State};
ghost use Rattle.ot_logic.specs.Limits.{theory_limit};
ghost use Rattle.ot_theory.specs.Theory.{theory, has_block};
ghost use Rattle.ot_theory.specs.Sound.{IsSound};
ghost use Rattle.ot_theory.specs.Answers.{theory_of, blocks_of};
ghost use Rattle.ot_blocks.specs.Answers.{plan_of};
ghost use Rattle.ot_blocks.specs.Structure.{plan, IsPlan};
ghost use Rattle.ot_link.specs.Stops.{answered};
ghost use Rattle.ot_link.specs.Planned.{in_theory, in_structure};
ghost use Rattle.ot_link.specs.Link.{text_at};
ghost use Rattle.ot_link.specs.Answers.{AreWithin, setting_of, Comes, NamesSymbolIn, HasCause};

use crate::fault::LinkFault;
use crate::setting::Setting;
use ot_blocks::{Plan, PlanFault, plan_blocks};
use ot_io::{FileFault, Files, read_file};
use ot_logic::Limits;
use ot_theory::{Block, Theory, TheoryError, parse};
use std::alloc::Global;

/// The text of a theory file: read once, it serves for what the file shows and for its run. `theory_in` says what it
/// holds. The limits are at most those of the program.
///
/// The file was read, and is missing, whole, or a front of it; the answer is the stated one in every folder that agrees
/// with this. A folder that is known does.
///
/// - `TheoryTooLarge`: exactly where the file has more bytes than the limit.
/// - `NoFile`: only where the file was missing in this call, and exactly where it is.
/// - `ReadFault`: only where the files failed in this call.
/// - `Memory`: may come at any point. There is no other fault.
///
/// No file is left open.
pub fn read_theory<F: Files>(
    alloc: Global,
    files: &mut F,
    theory_path: &str,
    limits: &Limits,
) -> Result<Vec<u8>, LinkFault>
    requires { AreWithin limits.now }
    ensures reads { HasReadFiles (F.folder files.old) (λ folder. (k : State) → Comes k (λ text. text.items) result
        (text_at (record { folder = folder; packages = []; limits = limits.now }) theory_path.now)) }
    ensures symbols { IfErr result (λ e. (k : State) → NamesSymbolIn k e) }
    ensures cause { IfErr result (λ e. HasCause e (F.misses files.old) (F.misses files.new) (F.faults files.old)
        (F.faults files.new) (F.at files.new)) }
    ensures kept { KeepsFiles F.folder F.faults F.misses files.old files.new }
    ensures closed { F.left files.new ≡ Some [] }
{
    let setting = Setting {
        alloc,
        packages: "",
        limits,
    };
    let result = theory_text(setting, files, theory_path);
    files.close();
    result
}

/// The text of a theory file, which is within its limit.
pub(crate) fn theory_text<F: Files>(
    setting: Setting<'_>,
    files: &mut F,
    path: &str,
) -> Result<Vec<u8>, LinkFault>
    requires { setting.limits.now.theory_bytes ≤ theory_limit }
    ensures comes { HasReadFiles (F.folder files.old) (λ folder. (k : State)
        → Comes k (λ text. text.items) result (text_at (setting_of folder setting.entry) path.now)) }
    ensures symbols { IfErr result (λ e. (k : State) → NamesSymbolIn k e) }
    ensures cause { IfErr result (λ e. HasCause e (F.misses files.old) (F.misses files.new) (F.faults files.old)
        (F.faults files.new) (F.at files.new)) }
    ensures kept { KeepsFiles F.folder F.faults F.misses files.old files.new }
{
    let alloc = setting.alloc;
    match read_file(alloc, files, path, setting.limits.theory_bytes) {
        Ok(text) => Ok(text),
        Err(FileFault::TooLarge) => {
            let path = String::from_str(alloc, path)?;
            Err(LinkFault::TheoryTooLarge { path })
        }
        Err(FileFault::Missing) => {
            let path = String::from_str(alloc, path)?;
            Err(LinkFault::NoFile { path })
        }
        Err(FileFault::Failed) => {
            let path = String::from_str(alloc, path)?;
            Err(LinkFault::ReadFault { path })
        }
        Err(FileFault::Memory(memory)) => Err(LinkFault::Memory(memory)),
    }
}

/// The theory file of a path that has this text.
///
/// - `Theory`: exactly with the first fault of its grammar, with the path and the line.
/// - `Memory`: may come at any point. There is no other fault.
pub fn theory_in<'a>(
    alloc: Global,
    theory_path: &str,
    text: &'a [u8],
) -> Result<Theory<'a>, LinkFault>
    ensures comes { (k : State)
        → Comes k theory_of result (answered (in_theory theory_path.now (theory text.now))) }
    ensures sound { IfOk result (λ t. IsSound (theory_of t)) }
    ensures symbols { IfErr result (λ e. (k : State) → NamesSymbolIn k e) }
    ensures cause { IfErr result (λ e. (misses misses' faults faults' : ℕ) (at : Option (List ℕ))
        → HasCause e misses misses' faults faults' at) }
{
    match parse(alloc, text) {
        Ok(theory) => Ok(theory),
        Err(TheoryError::At { line, fault }) => {
            let path = String::from_str(alloc, theory_path)?;
            Err(LinkFault::Theory { path, line, fault })
        }
        Err(TheoryError::Memory(memory)) => Err(LinkFault::Memory(memory)),
    }
}

/// The plan of a theory file's blocks.
pub(crate) fn plan_at(alloc: Global, path: &str, blocks: &[Block<'_>]) -> Result<Plan, LinkFault>
    requires { has_block (blocks_of blocks.now) (codes "main") ≡ true }
    ensures comes { (k : State) → Comes k plan_of result (answered (in_structure path.now (plan (blocks_of blocks.now)))) }
    ensures sound { IfOk result (λ p. IsPlan (blocks_of blocks.now) (plan_of p)) }
    ensures symbols { IfErr result (λ e. (k : State) → NamesSymbolIn k e) }
    ensures cause { IfErr result (λ e. (misses misses' faults faults' : ℕ) (at : Option (List ℕ))
        → HasCause e misses misses' faults faults' at) }
{
    match plan_blocks(alloc, blocks) {
        Ok(plan) => Ok(plan),
        Err(PlanFault::At { line, fault }) => {
            let path = String::from_str(alloc, path)?;
            Err(LinkFault::Structure { path, line, fault })
        }
        Err(PlanFault::Memory(memory)) => Err(LinkFault::Memory(memory)),
    }
}
