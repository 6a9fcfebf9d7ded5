//! Tests of messages, their parts and the texts of scripts.
#![tactic(auto)]

#[cfg(test)]
mod actions;
#[cfg(test)]
mod commands;
#[cfg(test)]
mod event_records;
#[cfg(test)]
mod frames;
#[cfg(test)]
mod made_scripts;
#[cfg(test)]
mod matches;
#[cfg(test)]
mod messages;
#[cfg(test)]
mod outboxes;
#[cfg(test)]
mod packets;
#[cfg(test)]
mod script_lines;
#[cfg(test)]
mod statistics;
