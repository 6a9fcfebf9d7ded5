//! A member's state: its flow table, and the levels of the ranks that its entries have. A message is judged first,
//! which takes all memory and changes nothing; what it plans is then made, which takes none and can't fail.
#![tactic(auto)]

mod commit;
mod entries;
pub mod fault;
mod judging;
pub mod laws;
pub mod leaf;
pub mod planned;
mod planning;
pub mod state;
pub mod worked;

pub use fault::FlowFault;
pub use leaf::leaf_entry;
pub use planned::Planned;
pub use state::MemberState;
