//! Tests of members: their policies and grants, their tables, and what they are told.
#![tactic(auto)]

#[cfg(test)]
mod denials;
#[cfg(test)]
mod explanations;
#[cfg(test)]
mod policy_files;
#[cfg(test)]
mod polls;
#[cfg(test)]
mod replies;
#[cfg(test)]
mod states;
#[cfg(test)]
mod tables;
