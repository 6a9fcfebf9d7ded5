//! Connections over TCP, which meet [`outside::Links`]: how they are had, how a peer that is silent, stuck or gone is
//! noticed, and what the operator is told of it. They tell nothing of the bytes, and count each failure.
//!
//! - A connection has two sides and one descriptor ([`Life`]). A side that is let go shuts the socket down both ways,
//!   so that the end of a session ends the calls of the other side too.
//! - A read that waits long is no end; a peer that stays silent though it is asked is one ([`TcpSource`]). So is a
//!   peer that takes no byte for long ([`TcpSink`]).
//! - A connection is given once its peer has greeted, within a limit of time. What the bytes so far come to is what
//!   the openings of `sessions` say of them, run over memory ([`judged_member`], [`judged_switch`]). One that doesn't
//!   greet is a failed try, which is no round.
//! - Tries of an address pause, and longer where connections to it don't last ([`Pauses`]).
#![tactic(auto)]

mod accept_dial;
mod account;
mod dial;
mod greeting;
mod hold;
mod life;
mod limits;
mod links;
mod lobby;
mod member_dial;
mod names;
mod opening;
mod options;
mod pauses;
mod porter;
mod readers;
mod reception;
mod rounds;
mod seats;
mod settings;
mod sink;
mod source;
mod sparing;
mod switch_dial;
mod tally;
mod telling;
mod tries;
mod visitors;
mod why;

pub use dial::TcpDial;
pub use life::Life;
pub use links::TcpLinks;
pub use names::EndpointName;
pub use opening::{Judged, Verdict, judged_member, judged_switch};
pub use pauses::Pauses;
pub use settings::Settings;
pub use sink::TcpSink;
pub use source::TcpSource;
pub use telling::Moment;
pub use why::Why;
