//! The outside: what gives bytes and takes them, files, clocks, connections, and works that run beside one another. Each
//! is a trait with a form of the machine and, but for works, one in memory; that of connections is `tcp_links`.
#![tactic(auto)]

pub mod calls;
pub mod clock;
pub mod files;
pub mod links;
pub mod mem_links;
pub mod sink;
pub mod source;
pub mod standard;
pub mod works;

pub use calls::{Failed, has_risen};
pub use clock::{Clock, MemClock, SystemClock};
pub use files::{DiskFiles, FileFault, Files, MemFile, MemFiles};
pub use links::{Dial, Endpoint, Links};
pub use mem_links::{MemDial, MemEnd, MemLinks};
pub use sink::{MemSink, Sink};
pub use source::{MemSource, Source};
pub use standard::{Incoming, Outgoing};
pub use works::{ScopeSpawner, Spawner, Work};
