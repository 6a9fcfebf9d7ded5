//! What an event itself does: a session comes or goes, a member or a switch sends a frame, a second passes, an
//! expression is replaced.
#![tactic(auto)]

pub mod acting;
pub mod barriers;
pub mod coming;
pub mod dark_ports;
pub mod denials;
pub mod flow_mods;
pub mod giving;
pub mod heard;
pub mod hearing;
pub mod judging;
pub mod judging_members;
pub mod member_messages;
pub mod packet_parts;
pub mod packets;
pub mod removals;
pub mod replacing;
pub mod rounds;
pub mod statistics;
pub mod switch_messages;
pub mod ticking;
