ghost use Rattle.std.specs.Prelude.{◌≡◌};
ghost use Rattle.std.specs.Option.{option_map};
ghost use Rattle.ot_args.specs.Grammar.{flag_named, has_value};
ghost use Rattle.ot_args.specs.Reading.{is_set, option_value, set_one, settings_answer, settings_value, with};

use crate::command::Usage;
use crate::sections::{NONE, Sections};
use crate::verb::Verb;

/// An option of a command, with its value where it has one.
#[derive(Clone, Copy)]
pub enum CommandOption<'a> {
    /// `--packages`: the folder of the theory packages.
    Packages(&'a str),
    /// `--assumptions`: a section of the summary.
    Assumptions,
    /// `--definitions`: a section of the summary.
    Definitions,
    /// `--theorems`: a section of the summary.
    Theorems,
    /// `--uses`: what each theorem rests on, in place of the summary.
    Uses,
    /// `--readable`: assumptions and theorems in readable form, in place of the summary.
    Readable,
    /// `--article`: the article of the sample.
    Article,
}

/// What the options of a command ask for.
#[derive(Clone, Copy)]
pub struct Settings<'a> {
    /// The folder of the packages, where an option names one.
    pub packages: Option<&'a str>,
    /// The sections that are named.
    pub sections: Sections,
    /// Whether what each theorem rests on is asked for.
    pub uses: bool,
    /// Whether readable text is asked for.
    pub readable: bool,
    /// Whether the article of the sample is asked for.
    pub article: bool,
}

/// What no option asks for.
pub const UNSET: Settings<'static> = Settings {
    packages: None,
    sections: NONE,
    uses: false,
    readable: false,
    article: false,
};

impl<'a> Settings<'a> {
    /// The settings with one option more; `Usage` where the command doesn't take it, it was set before, or its value
    /// is empty.
    pub fn set(self, verb: Verb, option: CommandOption<'a>) -> Result<Settings<'a>, Usage>
        ensures { settings_answer result ≡ set_one verb (settings_value self.entry) (option_value option.entry) }
    {
        if verb.takes(option) && has_value(option) && !self.is_set(option) {
            Ok(self.with(option))
        } else {
            Err(Usage)
        }
    }

    /// Whether an option of this name was set.
    fn is_set(self, option: CommandOption<'a>) -> bool
        ensures { result ≡ is_set (settings_value self.entry) (option_value option.entry) }
    {
        match option {
            CommandOption::Packages(_) => self.packages.is_some(),
            CommandOption::Assumptions => self.sections.assumptions,
            CommandOption::Definitions => self.sections.definitions,
            CommandOption::Theorems => self.sections.theorems,
            CommandOption::Uses => self.uses,
            CommandOption::Readable => self.readable,
            CommandOption::Article => self.article,
        }
    }

    /// The settings with an option.
    fn with(self, option: CommandOption<'a>) -> Settings<'a>
        ensures { settings_value result ≡ with (settings_value self.entry) (option_value option.entry) }
    {
        let mut settings = self;
        match option {
            CommandOption::Packages(folder) => settings.packages = Some(folder),
            CommandOption::Assumptions => settings.sections.assumptions = true,
            CommandOption::Definitions => settings.sections.definitions = true,
            CommandOption::Theorems => settings.sections.theorems = true,
            CommandOption::Uses => settings.uses = true,
            CommandOption::Readable => settings.readable = true,
            CommandOption::Article => settings.article = true,
        }
        settings
    }
}

/// Whether the option's value is one that it may have: a folder's name isn't empty.
fn has_value(option: CommandOption<'_>) -> bool
    ensures { result ≡ has_value (option_value option.entry) }
{
    match option {
        CommandOption::Packages(folder) => !folder.is_empty(),
        _ => true,
    }
}

/// The option that a word is, which has no value.
pub fn flag_named(name: &str) -> Option<CommandOption<'static>>
    ensures { option_map option_value result ≡ flag_named name.now }
{
    if name == "--assumptions" {
        Some(CommandOption::Assumptions)
    } else if name == "--definitions" {
        Some(CommandOption::Definitions)
    } else if name == "--theorems" {
        Some(CommandOption::Theorems)
    } else if name == "--uses" {
        Some(CommandOption::Uses)
    } else if name == "--readable" {
        Some(CommandOption::Readable)
    } else if name == "--article" {
        Some(CommandOption::Article)
    } else {
        None
    }
}
