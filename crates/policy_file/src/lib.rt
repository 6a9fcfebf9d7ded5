//! Policy files: the policy that an operator writes, read from TOML, or the first fault of a file.
#![tactic(auto)]

mod head;
mod item_reader;
mod items;
mod keys;
mod known;
mod listed;
mod member;
mod reading;
mod region;
mod section;
mod tables;
mod values;
mod words;

pub use keys::{ItemKind, KeyRow, TOP_KEYS, Version};
pub use known::{bench, built_in};
pub use reading::read;
