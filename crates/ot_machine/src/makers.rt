//! What the kernel makes for a machine of this session. The machine stands for what it stood for.
ghost use Rattle.std.specs.Prelude.{◌<◌, length, IfOk};
ghost use Rattle.ot_logic.specs.Faults.{BadName};
ghost use Rattle.ot_logic.specs.Answers.{some_or};
ghost use Rattle.ot_logic.specs.Reading.{name_read};
ghost use Rattle.ot_kernel.specs.State.{name_at};
ghost use Rattle.ot_scan.specs.Words.{word_value};
ghost use Rattle.ot_machine.specs.Step.{command_of};
ghost use Rattle.ot_machine.specs.Meaning.{IsOf, Leaves, command_at, IsCommandIn};
ghost use Rattle.ot_machine.specs.Answers.{Makes};

mod accepted;
mod axioms;
mod canonical;
mod definitions;
mod occurrences;
mod open_types;
mod renamed;
mod weakening;

use crate::fault::Fault;
use crate::machine::Machine;
use crate::object::Command;
use crate::session::Session;
use ot_logic::{Name, NameFault, NameId};
use ot_scan::Word;
use std::alloc::Global;

impl Session {
    /// The number of the name that a quoted text spells.
    pub(crate) fn read_name(
        &mut self,
        alloc: Global,
        machine: &Machine,
        text: &[u8],
    ) -> Result<NameId, Fault>
        requires { IsOf self.old machine.now }
        ensures made { Makes self.new.kernel (name_at self.new.kernel) result (some_or BadName (name_read text.now)) }
        ensures inside { IfOk result (λ n. n < length self.new.kernel.names) }
        ensures kept { Leaves self.old self.new machine.now }
    {
        let [b'"', ..] = text else {
            return Err(Fault::BadName);
        };
        match Name::read(alloc, text) {
            Ok(name) => Ok(self.kernel.intern(name)?),
            Err(NameFault::Memory(memory)) => Err(Fault::Memory(memory)),
            Err(NameFault::Unterminated | NameFault::Trailing) => Err(Fault::BadName),
        }
    }

    /// The command of a word.
    pub(crate) fn command(&mut self, machine: &Machine, word: Word<'_>) -> Result<Command, Fault>
        requires { IsOf self.old machine.now }
        ensures made { Makes self.new.kernel (command_at self.new.kernel) result
            (command_of (word_value word.entry)) }
        ensures inside { IfOk result (IsCommandIn self.new.kernel) }
        ensures kept { Leaves self.old self.new machine.now }
    {
        match word {
            Word::Number(number) => Ok(Command::Numeral(number)),
            Word::Name(text) => Ok(Command::Named(self.read_name(machine.alloc, machine, text)?)),
            Word::Command(order) => Ok(Command::Order(order)),
        }
    }
}
