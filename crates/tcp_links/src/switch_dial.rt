//! Connections that switches make to us, as the porter lets them in.
use crate::account::Account;
use crate::hold::{Sides, hand_over};
use crate::lobby::Lobby;
use crate::settings::Settings;
use crate::tries::TryFault;
use std::alloc::Global;
use std::sync::{Arc, Wait};
use std::time::Clock;

/// The connections of switches to an endpoint's address, whichever they are of those that may come. Each has greeted.
#[derive(Drop)]
pub(crate) struct SwitchDial<'a, R> {
    pub(crate) rt: &'a R,
    pub(crate) alloc: Global,
    pub(crate) settings: Settings,
    pub(crate) account: Account,
    pub(crate) lobby: Arc<Lobby>,
}

impl<'a, R: Clock + Wait + Eprint> SwitchDial<'a, R> {
    /// The next connection, if a round is left.
    pub(crate) fn next(&mut self) -> Result<Option<Sides<'a, R>>, TryFault> {
        self.account.begin(self.rt);
        if self.account.rounds.left == 0 {
            return Ok(None);
        }
        let source = Arc::try_clone(&self.lobby)?;
        let sink = Arc::try_clone(&self.lobby)?;
        let Some(arrival) = self.lobby.next(self.rt) else {
            return Err(TryFault::Deserted);
        };
        let sides = hand_over(
            self.rt,
            self.alloc,
            &self.settings,
            self.account.name,
            arrival,
            Some(source),
            Some(sink),
        );
        self.account
            .spend(self.rt, self.settings.level, &sides.0.hold.life);
        Ok(Some(sides))
    }
}
