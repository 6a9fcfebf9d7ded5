//! Matches before and after a rewrite of headers: the pull, which holds exactly the headers that a
//! match holds once they are rewritten, and the image, which holds the rewritten headers of a match.
//! Neither takes memory.
#![tactic(auto)]

mod fields;
pub mod imaging;
pub mod laws;
pub mod pulling;

pub use imaging::image;
pub use pulling::pull;
