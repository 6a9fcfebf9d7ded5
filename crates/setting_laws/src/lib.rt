//! What a policy's settings are to the composed part: they are as its calls ask, which switches are up doesn't
//! matter to it, and what it tells of a switch is the batch that the machine writes.
#![tactic(auto)]

pub mod laws;
