use ot_forms::TextFault;
use ot_logic::Memory;

/// Why a text isn't read.
#[derive(Clone, Copy, Debug, PartialEq, Eq)]
pub enum ReadRefusal {
    /// The column, from 1, of the byte that the fault names.
    At { column: u64, fault: TextFault },
    /// Memory ran out.
    Memory(Memory),
}
