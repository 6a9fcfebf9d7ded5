//! The flow table of one member, a controller at a virtual switch (sections 3.4, 4.6 and 5.3.3 of the
//! OpenFlow Switch Specification 1.0.0). A message is planned first, which takes all memory; the
//! planned change is then made, which takes none and can't fail.
#![tactic(auto)]

pub mod change;
mod commit;
mod copy;
mod due;
pub mod entry;
pub mod fault;
pub mod laws;
mod order;
mod places;
mod plan;
pub mod rank;
mod rank_counts;
mod ranks;
pub mod table;
mod wanted;
pub mod worked;

pub use change::{Change, Due, Modified};
pub use entry::{Entry, Identity, same_entry};
pub use fault::TableFault;
pub use rank::rank_of;
pub use table::Table;
