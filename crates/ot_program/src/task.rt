//! What a command does.
ghost use Rattle.std.specs.Prelude.{◌≡◌, ◌≢◌, None, IfOk, OnOk, OnErr};
ghost use Rattle.ot_args.specs.Grammar.{texts_of, command_of};
ghost use Rattle.ot_program.specs.Tasks.{task_of, task_answer, task_value, IsSized};

use ot_args::{Command, Sections, Usage};

/// What is printed of a run.
#[derive(Clone, Copy)]
pub enum View {
    /// How many theorems, assumptions and definitions there are.
    Counts,
    /// These sections of the summary.
    Summary(Sections),
    /// What each of its theorems rests on.
    Uses,
    /// The written article of its exports.
    Article,
    /// The proof log of its exports.
    Log,
}

/// An input to run: the folder of its theory packages, its path, and what is printed of the run.
#[derive(Clone, Copy)]
pub struct Job<'a> {
    pub packages: &'a str,
    pub path: &'a str,
    pub view: View,
}

/// What a command does.
#[derive(Clone, Copy)]
pub enum Task<'a> {
    /// Runs an input.
    RunInput(Job<'a>),
    /// Makes the sample article of this size, runs it and rewrites it.
    RunSample(u64),
    /// Makes the sample article of this size.
    MakeSample(u64),
    /// Checks the proof log of a path.
    CheckLog(&'a str),
    /// Runs the input of a path, with packages from a folder, and shows it in readable form.
    ShowReadable {
        packages: &'a str,
        path: &'a str,
    },
    /// Runs the input of a path, with packages from a folder, and reads the lines of a text under its notation.
    ReadLines {
        packages: &'a str,
        path: &'a str,
        text: &'a str,
    },
    /// Runs the input of a path, and the packages from a folder that it requires, and searches them for a pattern.
    FindPattern {
        packages: &'a str,
        pattern: &'a str,
        path: &'a str,
    },
}

impl<'a> Task<'a> {
    ghost use Rattle.std.specs.Prelude.{◌≡◌};
    ghost use Rattle.ot_args.specs.Grammar.{command_value};
    ghost use Rattle.ot_program.specs.Tasks.{task, task_value};

    /// What a command does.
    pub fn of(command: Command<'a>) -> Task<'a>
        ensures { task_value result ≡ task (command_value command.entry) }
    {
        match command {
            Command::Check { packages, input } => Task::RunInput(Job {
                packages,
                path: input,
                view: View::Counts,
            }),
            Command::Info {
                packages,
                input,
                sections,
            } => Task::RunInput(Job {
                packages,
                path: input,
                view: View::Summary(sections),
            }),
            Command::Uses { packages, input } => Task::RunInput(Job {
                packages,
                path: input,
                view: View::Uses,
            }),
            Command::Link { packages, file } => Task::RunInput(Job {
                packages,
                path: file,
                view: View::Article,
            }),
            Command::Minimise { packages, input } => Task::RunInput(Job {
                packages,
                path: input,
                view: View::Article,
            }),
            Command::Prove { packages, input } => Task::RunInput(Job {
                packages,
                path: input,
                view: View::Log,
            }),
            Command::Sample { count } => Task::RunSample(count),
            Command::SampleArticle { count } => Task::MakeSample(count),
            Command::Verify { log } => Task::CheckLog(log),
            Command::Readable { packages, input } => Task::ShowReadable {
                packages,
                path: input,
            },
            Command::Read {
                packages,
                input,
                text,
            } => Task::ReadLines {
                packages,
                path: input,
                text,
            },
            Command::Find {
                packages,
                pattern,
                input,
            } => Task::FindPattern {
                packages,
                pattern,
                path: input,
            },
        }
    }
}

/// What the words ask for; `Usage` where they are no command.
pub fn read_task(words: &[String]) -> Result<Task<'_>, Usage>
    ensures task { task_answer result ≡ task_of (texts_of words.now) }
    ensures sized { IfOk result (λ t. IsSized (task_value t)) }
    ensures usage { OnErr result (command_of (texts_of words.now) ≡ None) }
    ensures command { OnOk result (command_of (texts_of words.now) ≢ None) }
{
    let command = Command::read(words)?;
    Ok(Task::of(command))
}
