//! Rules of a virtual switch as they stand at one of its ports, and where they lead from there.
ghost use Rattle.std.specs.Prelude.{◌≡◌, IfOk, Some};
ghost use Rattle.hop_rules.specs.Standing.{asked as asked_of, exit_of as exit_among, leaving as leaving_of};
ghost use Rattle.hop_rules.specs.Standing.{over as over_of, standing as standing_of};

use crate::exits::Exit;
use cv_io::Memory;
use of10_actions::{Rewrite, Tail};
use of10_match::Match;
use policy_meaning::{Place, Rule, at_node, rule_met};
use pull_back::image;
use std::alloc::Global;

/// The way of a packet out of a virtual switch: the rewrite with which it goes on, and over which link.
#[derive(Clone, Copy)]
pub struct Departure {
    pub rewrite: Rewrite,
    pub exit: Exit,
}

/// A rule of a virtual switch as it stands at one of its ports, or none where it holds nothing that
/// comes by that port.
pub fn standing(alloc: Global, at: Place, rule: &Rule) -> Result<Option<Rule>, Memory>
    ensures { IfOk result (λ stood. stood ≡ standing_of at rule.now) }
{
    match rule_met(rule, &Match::at_port(at.port))? {
        None => Ok(None),
        Some(met) => Ok(Some(at_node(alloc, at.v, at.port, &met)?)),
    }
}

/// The exit at a link port.
fn exit_at(exits: &[Exit], port: u16) -> Option<Exit>
    ensures { result ≡ exit_among exits.now port }
{
    for exit in exits {
        if exit.port == port {
            return Some(*exit);
        }
    }
    None
}

/// Where a packet goes on whose tail is this: over a link.
pub fn over(exits: &[Exit], tail: &Tail) -> Option<Departure>
    ensures { result ≡ over_of exits.now tail.now }
{
    match tail {
        Tail::Link(rewrite, to) => {
            let exit = exit_at(exits, *to)?;
            Some(Departure {
                rewrite: *rewrite,
                exit,
            })
        }
        _ => None,
    }
}

/// Where a packet goes on that came by a port and whose tail is this: over a link, but not back by that
/// port.
pub fn leaving(exits: &[Exit], port: u16, tail: &Tail) -> Option<Departure>
    ensures { result ≡ leaving_of exits.now port tail.now }
{
    match tail {
        Tail::Link(_, to) if *to == port => None,
        _ => over(exits, tail),
    }
}

/// What a match holds, of what comes by this port.
fn by_port(m: Match, port: u16) -> Match
    ensures { result ≡ record m { in_port = Some port } }
{
    Match {
        in_port: Some(port),
        ..m
    }
}

/// What is known, where they arrive, of the packets that a match holds and that leave so.
pub fn asked(m: &Match, departure: &Departure) -> Match
    ensures { result ≡ asked_of m.now departure.now }
{
    let Departure { rewrite, exit } = *departure;
    by_port(image(&rewrite, m), exit.peer.port)
}
