//! A lock over a machine. Threads post events to it, and all that any of them sees is one history.
//!
//! A machine is whatever meets the trait [`Machine`]: a state, and a rule that gives the next state
//! and a reply for each event. [`open`] puts it under a lock and hands out seats. Who has a seat posts
//! events with it. Each event that changes the machine becomes an entry of the one history of the
//! lock, under the seat's number, and the seat knows a beginning of that history.
//!
//! Under the lock lies one slot of `atomic_table` with the machine, and one word: twice the number of
//! entries, and one more while a seat holds the machine. So a seat reads how far the history has come
//! without the lock, and only [`PolicyLock::post`] may wait: while another seat holds the machine or
//! has waited for it too long, and while the machine says that the event had better wait.
#![tactic(auto)]

mod after;
mod apply;
mod close;
mod count;
mod held;
mod lock;
mod locked;
mod machine;
mod marks;
mod opening;
mod post;
mod rule;
mod seats;
mod taking;
mod view;
mod worked;

pub use after::After;
pub use close::Open;
pub use lock::{PolicyLock, Receipt, Seat};
pub use machine::Machine;
pub use marks::Marks;
pub use opening::open;
pub use view::{Entry, Pass};
pub use worked::worked_examples;
