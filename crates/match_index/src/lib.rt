//! An index of matches: entries found by what their match holds, overlaps or covers. Entries whose
//! matches name the same fields, with prefixes of the same lengths, stand together (tuple space
//! search). In such a group a match is found by one look-up in a map where the question names all its
//! fields, as a header does; where it leaves some open, the entries of that group are gone through.
#![tactic(auto)]

mod bucket;
mod copy;
mod group;
mod groups;
pub mod index;
pub mod item;
pub mod laws;
pub mod question;
mod search;
pub mod shape;
pub mod worked;

pub use index::Index;
pub use item::Item;
