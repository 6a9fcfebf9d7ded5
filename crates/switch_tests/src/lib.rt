//! Tests of what is put on switches, what they do with it, what they report, and where they lie.
#![tactic(auto)]

#[cfg(test)]
mod batches;
#[cfg(test)]
mod counts;
#[cfg(test)]
mod cut_batches;
#[cfg(test)]
mod gates;
#[cfg(test)]
mod installed;
#[cfg(test)]
mod next_hops;
#[cfg(test)]
mod placing;
#[cfg(test)]
mod rounds;
#[cfg(test)]
mod samples;
#[cfg(test)]
mod settings;
#[cfg(test)]
mod topologies;
#[cfg(test)]
mod ways;
