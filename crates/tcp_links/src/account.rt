//! The connections that an endpoint has.
use crate::life::Life;
use crate::names::EndpointName;
use crate::rounds::Rounds;
use crate::seats::Seat;
use crate::telling::tell_rounds;
use log::LevelFilter;
use std::sync::{Arc, Wait};
use std::time::Clock;

/// How many connections an endpoint may still have, and what is kept of the one that it has.
#[derive(Drop)]
pub(crate) struct Account {
    pub(crate) name: EndpointName,
    pub(crate) rounds: Rounds,
    /// What the porter knows of it, where there is one.
    pub(crate) seat: Option<Arc<Seat>>,
}

impl Account {
    /// It is served from here on.
    pub(crate) fn begin<R: Wait>(&self, rt: &R) {
        if let Some(seat) = &self.seat {
            seat.begin(rt);
        }
    }

    /// It has one connection more, which begins.
    pub(crate) fn spend<R: Clock + Wait + Eprint>(
        &mut self,
        rt: &R,
        level: LevelFilter,
        life: &Arc<Life>,
    ) {
        self.rounds = self.rounds.spend();
        if let Some(seat) = &self.seat {
            seat.give(rt, life, self.rounds);
        }
        tell_rounds(rt, level, self.name, self.rounds);
    }
}
