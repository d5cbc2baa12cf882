//! What every layer above takes from the world: small containers that contracts see as plain data,
//! outputs that count their faults, and files that count theirs.
//!
//! The contract is about bytes and causes. A sink appends what it says it took; `put` appends all of a
//! text, or a shorter prefix of it where it fails. A file read in full is its content. Every fault that is
//! answered has raised the count of faults of the object that was lent; that of files has added the file's
//! name too.
//!
//! Read in this order: `text`, `list`, `boxed` (data); `sink`, `memory_sink`, `null_sink`, `std_sink`
//! (outputs); `files`, `failures` (the reads that failed), `memory_files`, `std_files` (inputs).
#![tactic(auto)]

mod boxed;
mod failures;
mod files;
mod list;
mod memory_files;
mod memory_sink;
mod null_sink;
mod sink;
mod std_files;
mod std_sink;
mod text;

pub use boxed::Boxed;
pub use files::{FileFault, Files};
pub use list::List;
pub use memory_files::MemoryFiles;
pub use memory_sink::MemorySink;
pub use null_sink::NullSink;
pub use sink::{Failed, Sink, put, put_all};
pub use std_files::StdFiles;
pub use std_sink::StdSink;
pub use text::Text;
