//! Why a packet goes where it goes, in words: of each evaluation of its walk the members that are asked
//! and what of their tables it meets, where it leaves and how, who is told, and which entry of the switch
//! where it comes in does all this.
#![tactic(auto)]

mod answering;
mod entrance;
mod finding;
mod lines;
mod names;
mod using;
pub mod worked;

pub use answering::answer;
pub use entrance::{Entrance, find_entrance};
pub use finding::Finding;
pub use lines::finding_line;
pub use using::{used_for, used_is_best};
