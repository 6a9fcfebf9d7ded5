//! The lines to the operator, each on standard error, in one write.
use crate::life::Life;
use crate::names::EndpointName;
use crate::rounds::Rounds;
use crate::tries::TryFault;
use crate::why::Why;
use cv_io::Text;
use log::sink::Console;
use log::{LevelFilter, Logged, error, info, warn};
use std::fmt::{self, Display, Formatter};
use std::io;
use std::net::SocketAddr;
use std::time::{Clock, Duration, SystemTime};

/// The moment at which a line is told: seconds since the start of 1970, in thousandths.
#[derive(Clone, Copy)]
pub struct Moment {
    pub(crate) seconds: u64,
    thousandths: u32,
}

impl Moment {
    pub fn now<R: Clock>(rt: &R) -> Moment {
        let passed = match SystemTime::now(rt) {
            Ok(now) => now
                .duration_since(SystemTime::UNIX_EPOCH)
                .unwrap_or_default(),
            Err(_) => Duration::ZERO,
        };
        Moment {
            seconds: passed.as_secs(),
            thousandths: passed.subsec_millis(),
        }
    }
}

impl Display for Moment {
    fn fmt<W: fmt::Write>(&self, f: &mut Formatter<W>) -> fmt::Result {
        write!(f, "{}.{:03}", self.seconds, self.thousandths)
    }
}

/// What lines are written by.
fn told<R: Eprint>(rt: &R, level: LevelFilter) -> Logged<&R, Console<&R>> {
    Logged::new(rt, level, Console(rt))
}

/// A variable of the environment has a value that it can't have.
pub(crate) fn tell_bad<R: Eprint>(rt: &R, name: &str) {
    error!(told(rt, LevelFilter::Error); target: "link", "environment name={name} why=value");
}

/// A connection is given.
pub(crate) fn tell_given<R: Clock + Eprint>(
    rt: &R,
    level: LevelFilter,
    name: EndpointName,
    life: &Life,
) {
    info!(told(rt, level); target: "link", "given at={} end={name} peer={}", Moment::now(rt), life.peer());
}

/// A connection is over.
pub(crate) fn tell_over<R: Clock + Eprint>(
    rt: &R,
    level: LevelFilter,
    name: EndpointName,
    life: &Life,
) {
    let lasted = life.lasted(rt);
    warn!(
        told(rt, level); target: "link",
        "over at={} end={name} peer={} why={} lasted={}.{} read={} written={}",
        Moment::now(rt),
        life.peer(),
        life.why().unwrap_or(Why::Ours),
        lasted / 1000,
        lasted / 100 % 10,
        life.read(),
        life.written()
    );
}

/// We listen at an address.
pub(crate) fn tell_listening<R: Clock + Eprint, A: Display>(
    rt: &R,
    level: LevelFilter,
    address: &A,
) {
    info!(told(rt, level); target: "link", "listening at={} address={address}", Moment::now(rt));
}

/// We can't listen at an address yet.
pub(crate) fn tell_deaf<R: Clock + Eprint, A: Display>(
    rt: &R,
    level: LevelFilter,
    address: &A,
    fault: &io::Error,
) {
    error!(told(rt, level); target: "link", "deaf at={} address={address} why={fault}", Moment::now(rt));
}

/// A peer that connected to us is refused, one of so many since the last line.
pub(crate) fn tell_refused<R: Clock + Eprint>(
    rt: &R,
    level: LevelFilter,
    peer: SocketAddr,
    fault: &TryFault,
    times: u64,
) {
    warn!(
        told(rt, level); target: "link",
        "refused at={} peer={peer} why={fault} times={times}",
        Moment::now(rt)
    );
}

/// So many tries of an address came to nothing since the last line.
pub(crate) fn tell_tried<R: Clock + Eprint>(
    rt: &R,
    level: LevelFilter,
    name: EndpointName,
    address: &Text,
    fault: &TryFault,
    times: u64,
) {
    warn!(
        told(rt, level); target: "link",
        "tried at={} end={name} address={address} why={fault} times={times}",
        Moment::now(rt)
    );
}

/// No work serves an endpoint yet, since the system gave no thread for it.
pub(crate) fn tell_unserved<R: Clock + Eprint>(rt: &R, level: LevelFilter, name: EndpointName) {
    error!(told(rt, level); target: "link", "unserved at={} end={name}", Moment::now(rt));
}

/// Few rounds are left, or none.
pub(crate) fn tell_rounds<R: Clock + Eprint>(
    rt: &R,
    level: LevelFilter,
    name: EndpointName,
    rounds: Rounds,
) {
    let at = Moment::now(rt);
    if rounds.left == 0 {
        error!(told(rt, level); target: "link", "spent at={at} end={name}");
    } else if rounds.is_few() {
        warn!(told(rt, level); target: "link", "rounds at={at} end={name} left={}", rounds.left);
    }
}
