//! Devices: shelves, which keep files by name, and sinks, which take bytes in order. Two of them
//! stand over the host, the others in memory.
#![tactic(auto)]

mod files;
mod folder_shelf;
mod host;
mod memory_shelf;
mod memory_sink;
mod no_fault_shelf;
mod no_fault_sink;
mod shelf;
mod sink;
mod stream_sink;
mod transfers;

pub use files::{FileList, NamedFile};
pub use folder_shelf::FolderShelf;
pub use host::{Folder, Reader, Writer};
pub use memory_shelf::{Calls, MemoryShelf};
pub use memory_sink::{Cut, Cuts, MemorySink};
pub use no_fault_shelf::NoFaultShelf;
pub use no_fault_sink::NoFaultSink;
pub use shelf::{LONGEST, LoadError, Shelf, StoreError};
pub use sink::{PutError, Sink};
pub use stream_sink::StreamSink;
pub use transfers::read_whole;
