//! The program: what it does with its words, over any files, source and sinks.
#![tactic(auto)]

mod finding;
mod input;
mod laws;
mod log;
mod noted;
mod program;
mod readable;
mod reading;
mod report;
mod sample;
mod status;
mod task;
mod texts;

pub use laws::answer_law;
pub use program::run;
pub use status::Status;
pub use texts::OUT_OF_MEMORY;
