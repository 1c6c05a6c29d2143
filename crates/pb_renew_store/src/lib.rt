//! Stores: named files that are made, written, compared, renamed and removed.
//!
//! A `Store` tells what each call did as a deed, if it can. Each call can fail, and then the count of faults rises. `MemStore`
//! is in memory, fails where it is told to, and keeps its deeds, which can be done on another one; `HostStore` has the files
//! of the system.
#![tactic(auto)]

mod calls;
mod deed;
mod host;
mod kind;
mod mem_files;
mod mem_store;
mod open;
mod place;
mod store;
mod unkept;

pub use deed::Deed;
pub use host::HostStore;
pub use kind::FileKind;
pub use mem_store::MemStore;
pub use pb_io::{Failed, MemFile};
pub use store::Store;
