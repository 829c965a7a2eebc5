ghost use Rattle.std.specs.Prelude.{◌≡◌};
ghost use Rattle.ot_args.specs.Grammar.{texts_of};
ghost use Rattle.ot_args.specs.Reading.{given_answer, no_settings, read_after};

use crate::command::Usage;
use crate::settings::{CommandOption, Settings, UNSET, flag_named};
use crate::verb::Verb;

/// The name of the option for the folder of the packages.
const PACKAGES: &str = "--packages";

/// What is given behind a command's word.
#[derive(Clone, Copy)]
pub struct Given<'a> {
    /// What the options ask for.
    pub settings: Settings<'a>,
    /// The words behind the options.
    pub operands: &'a [String],
}

impl<'a> Given<'a> {
    /// Reads the options of a command, each at most once, and the operands behind them: the words from the first on
    /// that names no option.
    pub fn read(verb: Verb, words: &'a [String]) -> Result<Given<'a>, Usage>
        ensures { given_answer result ≡ read_after verb no_settings (texts_of words.now) }
    {
        let mut settings = UNSET;
        let mut rest = words;
        while let [first, behind @ ..] = rest {
            let name = first.as_str();
            if name == PACKAGES {
                let [folder, further @ ..] = behind else {
                    return Err(Usage);
                };
                settings = settings.set(verb, CommandOption::Packages(folder.as_str()))?;
                rest = further;
            } else if let Some(flag) = flag_named(name) {
                settings = settings.set(verb, flag)?;
                rest = behind;
            } else {
                return Ok(Given {
                    settings,
                    operands: rest,
                });
            }
        }
        Ok(Given {
            settings,
            operands: rest,
        })
    }
}
