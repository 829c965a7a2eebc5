ghost use Rattle.std.specs.Prelude.{◌≡◌, ℕ, List, IfOk};
ghost use Rattle.std.specs.Option.{option_map, option_and_then};
ghost use Rattle.ot_args.specs.Grammar.{CommandValue, FitsOperands, IsRead, command_answer, arguments, command, command_of};
ghost use Rattle.ot_args.specs.Grammar.{command_on, command_on_two, command_value, command_with, count_of, info};
ghost use Rattle.ot_args.specs.Grammar.{is_input, is_plain, is_theory, packages_of, sample, texts_of};
ghost use Rattle.ot_args.specs.Reading.{settings_value};

use crate::arguments::Given;
use crate::count::count_of;
use crate::sections::{Sections, names_any, shown};
use crate::settings::Settings;
use crate::verb::Verb;

/// What the words of the command line ask for. An input is `-` for an article on standard input, a
/// theory file's name or an article file's, and the theory packages are in a folder.
#[derive(Clone, Copy)]
pub enum Command<'a> {
    /// Runs the input.
    Check {
        packages: &'a str,
        input: &'a str,
    },
    /// Runs the input and shows sections of its summary.
    Info {
        packages: &'a str,
        input: &'a str,
        sections: Sections,
    },
    /// Runs the input and shows what each of its theorems rests on.
    Uses {
        packages: &'a str,
        input: &'a str,
    },
    /// Runs the input and shows its assumptions and theorems in readable form.
    Readable {
        packages: &'a str,
        input: &'a str,
    },
    /// Links a theory file's packages to one article.
    Link {
        packages: &'a str,
        file: &'a str,
    },
    /// Runs the input and writes a shorter article of its theorems.
    Minimise {
        packages: &'a str,
        input: &'a str,
    },
    /// Makes the sample article of a number, 1 to 1,000, and runs and minimises it.
    Sample {
        count: u64,
    },
    /// Writes the sample article of a number, 1 to 1,000.
    SampleArticle {
        count: u64,
    },
    /// Runs the input and reads the lines of a readable text under its notation.
    Read {
        packages: &'a str,
        input: &'a str,
        text: &'a str,
    },
    /// Runs the input and writes a proof log of its theorems.
    Prove {
        packages: &'a str,
        input: &'a str,
    },
    /// Checks a proof log, on standard input where it is `-`, else in a file.
    Verify {
        log: &'a str,
    },
    /// Runs the input and searches it, and the packages that it requires, for a pattern.
    Find {
        packages: &'a str,
        pattern: &'a str,
        input: &'a str,
    },
}

/// The words are no command.
#[derive(Clone, Copy)]
pub struct Usage;

impl<'a> Command<'a> {
    /// The command that the words write, without the program's name:
    ///
    /// ```text
    /// check [--packages DIR] INPUT
    /// info [--assumptions] [--definitions] [--theorems] [--packages DIR] INPUT
    /// info --uses [--packages DIR] INPUT
    /// info --readable [--packages DIR] INPUT
    /// link [--packages DIR] FILE
    /// minimise [--packages DIR] INPUT
    /// sample [--article] N
    /// read [--packages DIR] INPUT TEXT
    /// prove [--packages DIR] INPUT
    /// verify LOG
    /// find [--packages DIR] PATTERN INPUT
    /// ```
    ///
    /// Options stand before the operands, in any order, each at most once. DIR isn't empty, and is `packages` where
    /// the words name no folder. `info` asks for all three sections where they name none; `--uses` and `--readable`
    /// stand beside none of them, nor beside each other. INPUT and LOG are `-`, or a name that isn't empty and
    /// doesn't begin with `-`; FILE is an INPUT that ends in `.thy`. TEXT and PATTERN aren't empty and don't begin
    /// with `-`. N is a number from 1 to 1,000 in decimal, without sign or leading zero.
    /// `Usage` comes exactly for words outside this grammar, which is the program's own. No memory is taken.
    pub fn read(words: &'a [String]) -> Result<Command<'a>, Usage>
        ensures value { command_answer result ≡ command_of (texts_of words.now) }
        ensures operands { IfOk result (λ command. FitsOperands (command_value command)) }
    {
        match words {
            [word, words @ ..] => match Verb::named(word.as_str()) {
                Some(verb) => read_behind(verb, words),
                None => Err(Usage),
            },
            [] => Err(Usage),
        }
    }
}

/// A law: words are a command exactly where they are its word, options that it takes, in any order and each at most
/// once, and its operands, written out.
pub fn one_reading()
    ensures { (words : List (List ℕ)) (c : CommandValue) → IsRead words c }
{}

/// The command of its options and operands.
fn read_behind<'a>(verb: Verb, words: &'a [String]) -> Result<Command<'a>, Usage>
    ensures { command_answer result ≡ option_and_then (command verb) (arguments (texts_of words.now)) }
{
    let given = Given::read(verb, words)?;
    command_with(verb, given.settings, given.operands)
}

/// The command of what its options ask for and its operands.
#[tactic(auto, using(crate::proofs::Steps::few_operands, crate::proofs::Steps::many_operands))]
fn command_with<'a>(
    verb: Verb,
    settings: Settings<'a>,
    operands: &'a [String],
) -> Result<Command<'a>, Usage>
    ensures { command_answer result ≡ command_with verb (settings_value settings.entry) (texts_of operands.now) }
{
    match operands {
        [operand] => command_on(verb, settings, operand.as_str()),
        [first, second] => command_on_two(verb, settings, first.as_str(), second.as_str()),
        _ => Err(Usage),
    }
}

/// The command of what its options ask for and its one operand.
fn command_on<'a>(
    verb: Verb,
    settings: Settings<'a>,
    operand: &'a str,
) -> Result<Command<'a>, Usage>
    ensures { command_answer result ≡ command_on verb (settings_value settings.entry) operand.now }
{
    let packages = folder_of(settings);
    let input = operand;
    match verb {
        Verb::Check if is_input(input) => Ok(Command::Check { packages, input }),
        Verb::Info if is_input(input) => info(settings, packages, input),
        Verb::Link if is_input(input) && is_theory(input) => Ok(Command::Link {
            packages,
            file: input,
        }),
        Verb::Minimise if is_input(input) => Ok(Command::Minimise { packages, input }),
        Verb::Sample => sample(settings.article, operand),
        Verb::Prove if is_input(input) => Ok(Command::Prove { packages, input }),
        Verb::Verify if is_input(operand) => Ok(Command::Verify { log: operand }),
        _ => Err(Usage),
    }
}

/// The command of what its options ask for and its two operands.
fn command_on_two<'a>(
    verb: Verb,
    settings: Settings<'a>,
    first: &'a str,
    second: &'a str,
) -> Result<Command<'a>, Usage>
    ensures { command_answer result ≡ command_on_two verb (settings_value settings.entry) first.now second.now }
{
    let packages = folder_of(settings);
    match verb {
        Verb::Read if is_input(first) && is_plain(second) => Ok(Command::Read {
            packages,
            input: first,
            text: second,
        }),
        Verb::Find if is_plain(first) && is_input(second) => Ok(Command::Find {
            packages,
            pattern: first,
            input: second,
        }),
        _ => Err(Usage),
    }
}

/// The folder of the packages: the one that is named, else `packages`.
fn folder_of<'a>(settings: Settings<'a>) -> &'a str
    ensures { result.now ≡ packages_of (settings_value settings.entry) }
{
    settings.packages.unwrap_or("packages")
}

/// What `info` shows of the run of an input: sections of its summary, what its theorems rest on, or readable text.
fn info<'a>(settings: Settings<'a>, packages: &'a str, input: &'a str) -> Result<Command<'a>, Usage>
    ensures { command_answer result ≡ info (settings_value settings.entry) packages.now input.now }
{
    if names_any(settings.sections) && (settings.uses || settings.readable) {
        return Err(Usage);
    }
    match (settings.uses, settings.readable) {
        (false, false) => Ok(Command::Info {
            packages,
            input,
            sections: shown(settings.sections),
        }),
        (true, false) => Ok(Command::Uses { packages, input }),
        (false, true) => Ok(Command::Readable { packages, input }),
        (true, true) => Err(Usage),
    }
}

/// A sample, or its article, of the number that a word is.
fn sample(article: bool, word: &str) -> Result<Command<'_>, Usage>
    ensures { command_answer result ≡ option_map (sample article) (count_of word.now) }
{
    match count_of(word) {
        Some(count) if article => Ok(Command::SampleArticle { count }),
        Some(count) => Ok(Command::Sample { count }),
        None => Err(Usage),
    }
}

/// Whether the word names an input or a log: it isn't empty, and begins with `-` only where it is `-` itself.
fn is_input(word: &str) -> bool
    ensures { result ≡ is_input word.now }
{
    let bytes = word.as_bytes();
    match bytes {
        [] => false,
        [b'-', ..] => bytes.len() == 1,
        _ => true,
    }
}

/// Whether the word names a text, or is a pattern: it isn't empty, and doesn't begin with `-`.
fn is_plain(word: &str) -> bool
    ensures { result ≡ is_plain word.now }
{
    match word.as_bytes() {
        [] => false,
        [b'-', ..] => false,
        [_, ..] => true,
    }
}

/// Whether an input is a theory file: its name ends in `.thy`.
pub fn is_theory(input: &str) -> bool
    ensures { result ≡ is_theory input.now }
{
    input.as_bytes().ends_with(b".thy")
}
