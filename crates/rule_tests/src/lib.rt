//! Tests of rules: their levels and matches, how they are found, and what expressions and operators make of them.
#![tactic(auto)]

#[cfg(test)]
mod changes;
#[cfg(test)]
mod composition;
#[cfg(test)]
mod expressions;
#[cfg(test)]
mod fixtures;
#[cfg(test)]
mod indexes;
#[cfg(test)]
mod levels;
#[cfg(test)]
mod priorities;
#[cfg(test)]
mod pulls;
#[cfg(test)]
mod shared_lists;
#[cfg(test)]
mod stores;
#[cfg(test)]
mod tables;
#[cfg(test)]
mod walks;
