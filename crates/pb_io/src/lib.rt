//! Where bytes come from and where they go.
//!
//! A `Folder` opens files by name and reads them, a `Sink` takes bytes. Both count their faults, and every failure of
//! them raises that count. `read_all` gives the whole bytes of a file, and `write_all` hands all bytes to a sink.
//! `MemFolder` and `MemSink` are in memory and fail where they are told to; `SureFolder` and `SureSink` never fail;
//! `HostFolder` and `HostSink` are the files and the output of the system.
#![tactic(auto)]

mod calls;
mod fault;
mod folder;
mod host;
mod mem_file;
mod mem_folder;
mod mem_sink;
mod reading;
mod shelf;
mod sink;
mod sure_folder;
mod sure_sink;
mod writing;

pub use fault::{Failed, InFault, OutFault};
pub use folder::Folder;
pub use host::{HostFolder, HostSink};
pub use mem_file::MemFile;
pub use mem_folder::MemFolder;
pub use mem_sink::MemSink;
pub use pb_text::NoMemory;
pub use reading::read_all;
pub use sink::Sink;
pub use sure_folder::SureFolder;
pub use sure_sink::SureSink;
pub use writing::write_all;
