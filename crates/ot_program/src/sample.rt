//! The sample: an article of a size that is made, run and rewritten.
ghost use Rattle.std.specs.Prelude.{◌≡◌, ◌≤◌, IfOk};
ghost use Rattle.ot_machine.specs.Meaning.{run_of, IsRun};
ghost use Rattle.ot_machine.specs.States.{fresh_run};
ghost use Rattle.ot_program.specs.World.{anywhere};
ghost use Rattle.ot_program.specs.Tasks.{RunSample, MakeSample};
ghost use Rattle.ot_program.specs.Verdicts.{IsTaskVerdict};

use crate::input::{fresh_session, run_article_from};
use crate::report::{Verdict, made_verdict, sample_verdict};
use ot_io::Bytes;
use ot_logic::Memory;
use ot_machine::Session;
use ot_sample::sample_article;
use std::alloc::Global;

/// What stands for the path of a sample.
pub const SAMPLE: &str = "sample";

/// Makes the sample article of a size, 1 to 1,000, runs it and rewrites it. It reads nothing.
pub fn run_sample(alloc: Global, size: u64) -> Result<Verdict, Memory>
    requires { size ≤ 1000 }
    ensures { IfOk result (λ v. IsTaskVerdict (RunSample size) ⊥ (λ file. ⊥) ⊥ v anywhere) }
{
    let mut session = fresh_session(alloc)?;
    sample_in(alloc, &mut session, size)
}

/// The same, in a fresh session.
fn sample_in(alloc: Global, session: &mut Session, size: u64) -> Result<Verdict, Memory>
    requires size { size ≤ 1000 }
    requires session { IsRun session.old }
    requires fresh { run_of session.old ≡ fresh_run }
    ensures { IfOk result (λ v. IsTaskVerdict (RunSample size) ⊥ (λ file. ⊥) ⊥ v anywhere) }
{
    let mut made = Vec::new(alloc);
    sample_article(size, &mut made)?;
    let ran = run_article_from(alloc, session, SAMPLE, &mut Bytes::new(&made));
    sample_verdict(alloc, size, &made, session, ran)
}

/// Makes the sample article of a size, 1 to 1,000.
pub fn make_sample(alloc: Global, size: u64) -> Result<Verdict, Memory>
    requires { size ≤ 1000 }
    ensures { IfOk result (λ v. IsTaskVerdict (MakeSample size) ⊥ (λ file. ⊥) ⊥ v anywhere) }
{
    let mut made = Vec::new(alloc);
    sample_article(size, &mut made)?;
    Ok(made_verdict(made))
}
