//! Tests of the outside, of sessions over connections, of the lock, and of a run.
#![tactic(auto)]

#[cfg(test)]
mod diary;
#[cfg(test)]
mod forms;
#[cfg(test)]
mod locks;
#[cfg(test)]
mod loops;
#[cfg(test)]
mod runs;
#[cfg(test)]
mod sockets;
#[cfg(test)]
mod works;
