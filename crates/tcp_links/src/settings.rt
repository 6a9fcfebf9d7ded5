//! What the environment sets.
ghost use Rattle.std.specs.Prelude.{◌≡◌, ◌≤◌, ℕ, IfSome, IsNone, None};
ghost use Rattle.std.specs.Option.{unwrap_or};
ghost use Rattle.std.specs.Net.Grammar.{IsSocketText};
ghost use Rattle.std.specs.declared.net.socket_addr.SocketAddr.{SocketAddr as SocketAddrOf};
ghost use Rattle.log.specs.Level.{parse_filter};
ghost use Rattle.tcp_links.specs.Settings.{IsSeconds};

use crate::limits::{DEAD, LONGEST, OPEN, WAITS};
use crate::telling::tell_bad;
use log::LevelFilter;
use std::env::{self, Env, VarError};
use std::net::SocketAddr;

/// The limits of all connections, which lines the operator is told, and where the status page is.
#[derive(Clone, Copy, Debug)]
pub struct Settings {
    /// How long a connection has to greet, in seconds.
    pub handshake: u32,
    /// How long a peer may be silent though it is asked, or take no byte, in seconds.
    pub dead: u32,
    pub level: LevelFilter,
    /// Where the status page is asked for, if there is one.
    pub status: Option<SocketAddr>,
    ghost greets: { 1 ≤ handshake },
    ghost lives: { 3 ≤ dead },
    ghost ends: { dead ≤ 3600 },
}

impl Settings {
    /// What holds where the environment says nothing.
    pub fn usual() -> Settings
        ensures handshake { result.handshake ≡ 5 }
        ensures dead { result.dead ≡ 15 }
        ensures level { result.level ≡ LevelFilter.Info }
        ensures status { result.status ≡ None }
    {
        Settings {
            handshake: OPEN,
            dead: DEAD,
            level: LevelFilter::Info,
            status: None,
        }
    }

    /// What COVISOR_OPEN, COVISOR_DEAD, COVISOR_LOG and COVISOR_STATUS say. A bad value is told, and the usual one holds.
    pub fn read<R: Env + Alloc + Eprint>(rt: &R) -> Settings {
        Settings {
            handshake: seconds(rt, "COVISOR_OPEN", 1, OPEN),
            dead: seconds(rt, "COVISOR_DEAD", WAITS, DEAD),
            level: level(rt, "COVISOR_LOG"),
            status: status(rt, "COVISOR_STATUS"),
        }
    }
}

/// A value, or where there is none the usual one; then it is told that the variable is bad.
fn or_usual<R: Eprint, T: Copy>(rt: &R, name: &'static str, said: Option<T>, usual: T) -> T
    ensures { result ≡ unwrap_or said usual }
{
    match said {
        Some(value) => value,
        None => {
            tell_bad(rt, name);
            usual
        }
    }
}

/// The seconds of a variable, which are so many at least.
fn seconds<R: Env + Alloc + Eprint>(rt: &R, name: &'static str, least: u32, usual: u32) -> u32
    requires usual { least ≤ usual × usual ≤ 3600 }
    ensures least { least ≤ result }
    ensures most { result ≤ 3600 }
{
    let said = match env::var(rt, name) {
        Ok(text) => seconds_in(text.as_str(), least),
        Err(VarError::NotPresent) => return usual,
        Err(_) => None,
    };
    or_usual(rt, name, said, usual)
}

/// The lines of a variable.
fn level<R: Env + Alloc + Eprint>(rt: &R, name: &'static str) -> LevelFilter {
    let said = match env::var(rt, name) {
        Ok(text) => level_in(text.as_str()),
        Err(VarError::NotPresent) => return LevelFilter::Info,
        Err(_) => None,
    };
    or_usual(rt, name, said, LevelFilter::Info)
}

/// The address of a variable.
fn status<R: Env + Alloc + Eprint>(rt: &R, name: &'static str) -> Option<SocketAddr> {
    let said = match env::var(rt, name) {
        Ok(text) => address_in(text.as_str()),
        Err(VarError::NotPresent) => return None,
        Err(_) => None,
    };
    if said.is_none() {
        tell_bad(rt, name);
    }
    said
}

/// A number of seconds in decimal, not below the least one nor above an hour.
fn seconds_in(text: &str, least: u32) -> Option<u32>
    ensures said { IfSome result (IsSeconds text.now least) }
    ensures none { IsNone result → (seconds : ℕ) → ¬ (IsSeconds text.now least seconds) }
{
    match text.parse::<u32>() {
        Ok(seconds) if seconds >= least && seconds <= LONGEST => Some(seconds),
        _ => None,
    }
}

/// The level of this name, in letters of any case.
fn level_in(text: &str) -> Option<LevelFilter>
    ensures { result ≡ parse_filter text.now }
{
    text.parse::<LevelFilter>().ok()
}

/// An address of IPv4 or IPv6, and a port.
fn address_in(text: &str) -> Option<SocketAddr>
    ensures said { IfSome result (IsSocketText text.now) }
    ensures none { IsNone result → (address : SocketAddrOf) → ¬ (IsSocketText text.now address) }
{
    text.parse::<SocketAddr>().ok()
}
