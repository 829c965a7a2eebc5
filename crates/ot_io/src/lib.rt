//! Input and output: where bytes come from and go to, and the causes of failures. Objects in memory
//! stand in for the real ones in tests, which are thin adapters over std.
#![tactic(auto)]

mod adapters;
mod bytes;
mod calls;
mod copying;
mod dir_files;
mod files;
mod front;
mod mem_files;
mod mem_sink;
mod mem_source;
mod sink;
mod source;
mod whole;

pub use adapters::{StdSink, StdSource};
pub use bytes::Bytes;
pub use dir_files::DirFiles;
pub use files::{Files, OpenFault};
pub use mem_files::MemFiles;
pub use mem_sink::MemSink;
pub use mem_source::MemSource;
pub use sink::{Sink, WriteFault, write_whole};
pub use source::{Failed, Source};
pub use whole::{FileFault, read_file};
