//! What is wrong with a policy file, as the operator reads it: a sentence that says where it stands, what is written there
//! and what would be right.
//!
//! *Contract:* `note` is exactly the file's name, the line and column of a place, and the sentence of the fault. `find_place`
//! answers for every text and every fault; the line that it names is one of the text's, or none. `remarks` is exactly what
//! is remarked of a policy that is to be served, `beginning` what is shown of a value or a line.
#![tactic(auto)]

mod allowed;
mod finding;
mod names;
mod notes;
mod places;
mod remarking;
mod search;
mod sentence;
mod showing;
mod walk;

pub use finding::find_place;
pub use notes::{note, said};
pub use places::Place;
pub use remarking::remarks;
pub use showing::beginning;
