//! What the porter of a listen address shares with the dials of its switches.
use crate::hold::Arrival;
use crate::life::Life;
use crate::limits::UNSERVED;
use crate::names::EndpointName;
use crate::seats::Seat;
use crate::why::Why;
use cv_io::{List, Memory};
use mio::Waker;
use status_page::EndpointStatus;
use std::alloc::Global;
use std::io;
use std::net::{SocketAddr, TcpListener};
use std::sync::{Arc, Condvar, Mutex, Wait};
use std::time::{Clock, Duration, Instant};
use switch_arrivals::{Duel, Given, Newcomer};

/// How long a dial waits for a datapath id whose last connection was given less than a second ago, in milliseconds.
const REST: u64 = 100;

/// What a look at a datapath id finds.
#[derive(Clone, Copy)]
pub(crate) enum Look {
    /// There are fewer datapath ids.
    Past,
    /// Nothing that is to be told.
    Nothing,
    /// The connection that is given is up, and the newcomer of this address was closed.
    Up { peer: SocketAddr, dpid: u64 },
}

/// What lies under the lock.
#[derive(Drop)]
struct Hall {
    given: Given<Arc<Life>, Arrival>,
    /// Listeners that the porter is to take over.
    listeners: List<TcpListener>,
    /// Nobody is to be let in any more.
    is_closed: bool,
    /// The porter has ended.
    is_deserted: bool,
}

/// The endpoints, and when the last of them came.
#[derive(Drop)]
struct Roll {
    seats: List<Arc<Seat>>,
    last: Option<Instant>,
}

/// Where switches that have greeted wait for a dial.
#[derive(Drop)]
pub(crate) struct Lobby {
    began: Instant,
    hall: Mutex<Hall>,
    changed: Condvar,
    /// What is known of the endpoints.
    roll: Mutex<Roll>,
    waker: Waker,
}

/// What is kept of the connection that is given at a place.
fn life_at(given: &Given<Arc<Life>, Arrival>, place: usize) -> Option<&Arc<Life>> {
    given.as_slice().get(place)?.life()
}

/// How the duel at a place goes on: the one that is given has to go, or the newcomer has to.
fn settle<R: Clock>(rt: &R, given: &mut Given<Arc<Life>, Arrival>, place: usize) -> Look {
    if place >= given.as_slice().len() {
        return Look::Past;
    }
    let claim = &given.as_slice()[place];
    let dpid = claim.dpid;
    let Some(life) = claim.life() else {
        return Look::Nothing;
    };
    let (heard, now) = (life.heard(), life.lasted(rt));
    match given.settle(place, heard, now) {
        Duel::Open => Look::Nothing,
        Duel::Over => {
            if let Some(life) = life_at(given, place) {
                life.end(Why::Replaced);
            }
            Look::Nothing
        }
        Duel::Up { newcomer: None } => Look::Nothing,
        Duel::Up {
            newcomer: Some(newcomer),
        } => Look::Up {
            peer: newcomer.life.peer(),
            dpid,
        },
    }
}

impl Lobby {
    /// Nobody is there yet. The waker is that of the porter.
    pub(crate) fn new<R: Clock>(rt: &R, alloc: Global, waker: Waker) -> io::Result<Lobby> {
        Ok(Lobby {
            began: Instant::now(rt)?,
            hall: Mutex::new(Hall {
                given: Given::new(alloc),
                listeners: List::new(alloc),
                is_closed: false,
                is_deserted: false,
            }),
            changed: Condvar::new(),
            roll: Mutex::new(Roll {
                seats: List::new(alloc),
                last: None,
            }),
            waker,
        })
    }

    /// Milliseconds since the lobby was made; 0 where the clock can't be read.
    pub(crate) fn now<R: Clock>(&self, rt: &R) -> u64 {
        match self.began.elapsed(rt) {
            Ok(passed) => u64::try_from(passed.as_millis()).unwrap_or(u64::MAX),
            Err(_) => 0,
        }
    }

    /// Has the porter look again.
    pub(crate) fn ring(&self) {
        let _ = self.waker.wake();
    }

    /// Hands a listener, whose calls don't wait, to the porter.
    pub(crate) fn hand<R: Wait>(&self, rt: &R, listener: TcpListener) -> Result<(), Memory> {
        let mut hall = self.hall.lock(rt);
        hall.listeners.push(listener)?;
        drop(hall);
        self.ring();
        Ok(())
    }

    /// A listener that was handed over, if there is one.
    pub(crate) fn take_over<R: Wait>(&self, rt: &R) -> Option<TcpListener> {
        let mut hall = self.hall.lock(rt);
        hall.listeners.pop()
    }

    /// An endpoint more is known.
    pub(crate) fn show<R: Wait + Clock>(&self, rt: &R, seat: Arc<Seat>) -> Result<(), Memory> {
        let mut roll = self.roll.lock(rt);
        roll.last = Instant::now(rt).ok();
        roll.seats.push(seat)
    }

    /// Whether the last endpoint came long enough ago that all should be served.
    pub(crate) fn is_settled<R: Wait + Clock>(&self, rt: &R) -> bool {
        match self.roll.lock(rt).last {
            Some(last) => match last.elapsed(rt) {
                Ok(passed) => passed.as_secs() >= UNSERVED,
                Err(_) => false,
            },
            None => false,
        }
    }

    /// The endpoints that no work serves yet.
    pub(crate) fn unserved<R: Wait>(
        &self,
        rt: &R,
        alloc: Global,
    ) -> Result<List<EndpointName>, Memory> {
        let roll = self.roll.lock(rt);
        let mut unserved = List::new(alloc);
        for seat in roll.seats.as_slice() {
            if !seat.is_served(rt) {
                unserved.push(seat.name)?;
            }
        }
        Ok(unserved)
    }

    /// How each endpoint is.
    pub(crate) fn shown<R: Wait + Clock>(
        &self,
        rt: &R,
        alloc: Global,
    ) -> Result<List<EndpointStatus>, Memory> {
        let roll = self.roll.lock(rt);
        let mut shown = List::new(alloc);
        for seat in roll.seats.as_slice() {
            shown.push(seat.status(rt, alloc)?)?;
        }
        Ok(shown)
    }

    /// The switch of this datapath id may come.
    pub(crate) fn know<R: Wait>(&self, rt: &R, dpid: u64) -> Result<(), Memory> {
        let mut hall = self.hall.lock(rt);
        hall.given.know(dpid)
    }

    /// The datapath ids of the switches that may come.
    pub(crate) fn dpids<R: Wait>(&self, rt: &R, alloc: Global) -> Result<List<u64>, Memory> {
        let hall = self.hall.lock(rt);
        let mut dpids = List::new(alloc);
        for claim in hall.given.as_slice() {
            dpids.push(claim.dpid)?;
        }
        Ok(dpids)
    }

    /// Nobody is let in from here on.
    pub(crate) fn close<R: Wait>(&self, rt: &R) {
        let mut hall = self.hall.lock(rt);
        hall.is_closed = true;
        drop(hall);
        self.ring();
    }

    /// Whether nobody is to be let in any more.
    pub(crate) fn is_closed<R: Wait>(&self, rt: &R) -> bool {
        self.hall.lock(rt).is_closed
    }

    /// The porter has ended: whoever waits goes without.
    pub(crate) fn desert<R: Wait>(&self, rt: &R) {
        let mut hall = self.hall.lock(rt);
        hall.is_deserted = true;
        drop(hall);
        self.changed.notify_all();
    }

    /// Whether a connection that is given was asked whether it is up.
    pub(crate) fn has_duel<R: Wait>(&self, rt: &R) -> bool {
        self.hall.lock(rt).given.is_asked()
    }

    /// A switch has greeted: that of the datapath id at this place. A connection that is given is asked whether it is
    /// up. Tells the address of the newcomer that went for this one.
    pub(crate) fn arrive<R: Wait + Clock>(
        &self,
        rt: &R,
        place: usize,
        newcomer: Newcomer<Arc<Life>, Arrival>,
    ) -> Option<SocketAddr> {
        let mut hall = self.hall.lock(rt);
        let given = &mut hall.given;
        let now = match life_at(given, place) {
            Some(life) => {
                life.ask();
                life.lasted(rt)
            }
            None => 0,
        };
        if place >= given.as_slice().len() {
            return None;
        }
        let overtaken = given.arrive(place, newcomer, now);
        drop(hall);
        self.changed.notify_all();
        Some(overtaken?.life.peer())
    }

    /// Looks after the connection that is given at a place: whether it is over, and how its duel goes on.
    pub(crate) fn look<R: Wait + Clock>(&self, rt: &R, place: usize) -> Look {
        let mut hall = self.hall.lock(rt);
        let given = &mut hall.given;
        let is_over = match life_at(given, place) {
            Some(life) => life.is_over(),
            None => false,
        };
        if is_over && place < given.as_slice().len() {
            given.free(place);
            drop(hall);
            self.changed.notify_all();
            return Look::Nothing;
        }
        settle(rt, given, place)
    }

    /// The next connection of a switch of which none is given, once there is one. `None` where the porter has ended.
    pub(crate) fn next<R: Wait + Clock>(&self, rt: &R) -> Option<Arrival> {
        let mut hall = self.hall.lock(rt);
        for _ in rt.forever() {
            let now = self.now(rt);
            let given = &mut hall.given;
            if let Some(place) = given.ready(now) {
                if let Some(arrival) = given.give(place, now) {
                    return Some(arrival);
                }
            }
            if hall.is_deserted {
                return None;
            }
            hall = if hall.given.is_awaited() {
                self.changed
                    .wait_timeout(rt, hall, Duration::from_millis(REST))
                    .0
            } else {
                self.changed.wait(rt, hall)
            };
        }
        unreachable!()
    }
}
