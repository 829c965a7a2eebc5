//! The words of the commands, and the options that each command takes.
ghost use Rattle.std.specs.Prelude.{◌≡◌};
ghost use Rattle.ot_args.specs.Grammar.{takes, verb_named};
ghost use Rattle.ot_args.specs.Reading.{option_value};

use crate::settings::CommandOption;

/// The word of a command.
#[derive(Clone, Copy)]
pub enum Verb {
    Check,
    Info,
    Link,
    Minimise,
    Sample,
    Read,
    Prove,
    Verify,
    Find,
}

impl Verb {
    ghost use Rattle.std.specs.Prelude.{◌≡◌};
    ghost use Rattle.ot_args.specs.Grammar.{takes, verb_named};
    ghost use Rattle.ot_args.specs.Reading.{option_value};

    /// The command that a word names.
    pub fn named(word: &str) -> Option<Verb>
        ensures { result ≡ verb_named word.now }
    {
        if word == "check" {
            Some(Verb::Check)
        } else if word == "info" {
            Some(Verb::Info)
        } else if word == "link" {
            Some(Verb::Link)
        } else if word == "minimise" {
            Some(Verb::Minimise)
        } else if word == "sample" {
            Some(Verb::Sample)
        } else if word == "read" {
            Some(Verb::Read)
        } else if word == "prove" {
            Some(Verb::Prove)
        } else if word == "verify" {
            Some(Verb::Verify)
        } else if word == "find" {
            Some(Verb::Find)
        } else {
            None
        }
    }

    /// Whether the command takes an option.
    pub fn takes(self, option: CommandOption<'_>) -> bool
        ensures { result ≡ takes self (option_value option.entry) }
    {
        match option {
            CommandOption::Packages(_) => !matches!(self, Verb::Sample | Verb::Verify),
            CommandOption::Assumptions
            | CommandOption::Definitions
            | CommandOption::Theorems
            | CommandOption::Uses
            | CommandOption::Readable => matches!(self, Verb::Info),
            CommandOption::Article => matches!(self, Verb::Sample),
        }
    }
}
