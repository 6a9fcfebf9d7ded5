//! What is put to switches makes tables that agree with the policy: each function's contract is a law.
#![tactic(auto)]

pub mod laws;
