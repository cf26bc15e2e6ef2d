//! Sources that give bytes, sinks that take them, and folders of files, in memory and over those of
//! the system.
#![tactic(auto)]

mod count_sink;
mod failures;
mod fault;
mod files;
mod law;
mod mem_files;
mod mem_sink;
mod mem_source;
mod put;
mod retry;
mod schedule;
mod sink;
mod source;
mod std_files;
mod std_sink;
mod std_source;
#[cfg(test)]
mod tests;

pub use count_sink::CountSink;
pub use fault::IoFault;
pub use files::{FileFault, Files, Whole};
pub use law::a_count_is_the_length;
pub use mem_files::MemFiles;
pub use mem_sink::MemSink;
pub use mem_source::MemSource;
pub use put::put_all;
pub use sink::Sink;
pub use source::Source;
pub use std_files::StdFiles;
pub use std_sink::StdSink;
pub use std_source::StdSource;
