//! The world outside the kernel: files that are read and a sink that is written, each fault of
//! which is counted, with fakes in memory and adapters over real files and standard output.
#![tactic(auto)]

mod disk_files;
mod failing;
mod fault;
mod files;
mod mem_file;
mod mem_files;
mod mem_sink;
mod out_sink;
mod sink;

pub use disk_files::{DiskFiles, read_within};
pub use fault::{FileFault, NoMemory, SinkFault};
pub use files::Files;
pub use mem_file::MemFile;
pub use mem_files::MemFiles;
pub use mem_sink::MemSink;
pub use out_sink::{OutSink, write_whole};
pub use sink::Sink;
