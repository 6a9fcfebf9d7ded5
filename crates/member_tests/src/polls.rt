//! What waits for the answers of switches.
use cv_io::{List, Memory};
use member_replies::Filter;
use std::alloc::Global;
use std::test::Fail;
use virtual_topology::{Topology, TopologyPlan};
use waitings::{Asker, Doubt, Part, Parts, Purpose, Waiting, Waitings, make};

fn waiting(alloc: Global, parts: &[(u32, u64)], purpose: Purpose) -> Result<Waiting, Memory> {
    let mut all = Parts::new(alloc);
    for (switch, number) in parts {
        all.push(Part {
            switch: *switch,
            number: *number,
        })?;
    }
    Ok(Waiting {
        v: 0,
        parts: all,
        purpose,
    })
}

/// A member's poll of the entries of two switches.
fn of_flows(alloc: Global) -> Result<Waiting, Memory> {
    let asker = Asker { member: 0, xid: 5 };
    let filter = Filter::new(&[0; 40], 0, 1);
    waiting(alloc, &[(0, 7), (1, 7)], Purpose::Flow { asker, filter })
}

/// Its poll of ports.
fn of_ports(alloc: Global) -> Result<Waiting, Memory> {
    let asker = Asker { member: 0, xid: 5 };
    let told = List::new(alloc);
    let purpose = Purpose::Port {
        asker,
        port_no: 1,
        told,
    };
    waiting(alloc, &[(0, 9)], purpose)
}

/// Another member's barrier.
fn of_barrier(alloc: Global) -> Result<Waiting, Memory> {
    let asker = Asker { member: 1, xid: 5 };
    waiting(alloc, &[(0, 3)], Purpose::Barrier { asker })
}

fn add(list: &mut List<Waiting>, waiting: Result<Waiting, Memory>) -> Result<(), Memory> {
    list.push(waiting?)
}

/// A poll of entries of two switches and one of ports, by a member, and another's barrier.
fn add_base(alloc: Global, list: &mut List<Waiting>) -> Result<(), Memory> {
    add(list, of_flows(alloc))?;
    add(list, of_ports(alloc))?;
    add(list, of_barrier(alloc))
}

/// The topology without a switch.
fn topology(alloc: Global) -> Result<Topology, Fail> {
    let plan = TopologyPlan {
        switches: List::new(alloc),
        cables: List::new(alloc),
        virtuals: List::new(alloc),
        links: List::new(alloc),
    };
    Ok(Topology::make(alloc, &plan)?)
}

/// A poll that decides on an entry.
fn of_doubts(alloc: Global) -> Result<Waiting, Memory> {
    let doubt = Doubt {
        member: 0,
        serial: 4,
        packets: 0,
    };
    let doubts = List::from_slice(alloc, &[doubt])?;
    let mut parts = Parts::new(alloc);
    parts.push(Part::unwritten(1))?;
    Ok(Waiting {
        v: 0,
        parts,
        purpose: Purpose::Idle { doubts },
    })
}

/// A poll that decides on an entry begins, is asked of a switch, and is told.
fn idle(alloc: Global, waitings: &mut Waitings) -> Result<(), Memory> {
    waitings.begin(of_doubts(alloc)?)?;
    waitings.asked(0, 1, 12)?;
    if waitings.is_in_doubt(0, 4) {
        return waitings.flows_told(1, 12, false);
    }
    Ok(())
}

/// The poll of ports is told.
fn ports_told(alloc: Global, waitings: &mut Waitings) -> Result<(), Fail> {
    let without = topology(alloc)?;
    let told = waitings.ports_told(&without, 0, 9, false, &[]);
    drop(without);
    Ok(told?)
}

/// Anything but that.
fn other(alloc: Global, waitings: &mut Waitings, what: &str) -> Result<(), Memory> {
    match what {
        "flows" => waitings.flows_told(0, 7, false),
        "barrier" => waitings.barrier_passed(0, 3),
        "member" => waitings.without_member(0),
        "switch" => waitings.without_switch(0),
        "idle" => idle(alloc, waitings),
        _ => Ok(()),
    }
}

fn happen(alloc: Global, waitings: &mut Waitings, what: &str) -> Result<(), Fail> {
    if what == "ports" {
        return ports_told(alloc, waitings);
    }
    Ok(other(alloc, waitings, what)?)
}

/// What happens to the list, and how many are done.
fn done(alloc: Global, list: &mut List<Waiting>, what: &str) -> Result<usize, Fail> {
    let mut waitings = Waitings::stay(alloc, list);
    happen(alloc, &mut waitings, what)?;
    let done = waitings.take_done()?.len();
    let change = waitings.into_change();
    make(list, change);
    Ok(done)
}

/// How many are done, and how many wait after that.
fn counts(alloc: Global, what: &str) -> Result<(usize, usize), Fail> {
    let mut list = List::new(alloc);
    add_base(alloc, &mut list)?;
    let done = done(alloc, &mut list, what)?;
    Ok((done, list.len()))
}

/// What happens, and the counts after it.
const HAPPENINGS: &[(&str, (usize, usize))] = &[
    ("nothing", (0, 3)),
    ("flows", (0, 3)),
    ("ports", (1, 2)),
    ("barrier", (1, 2)),
    ("member", (0, 1)),
    ("switch", (2, 1)),
    ("idle", (1, 3)),
];

#[test]
fn what_waits_is_told(rt: HostRuntime) -> Result<(), Fail> {
    for (what, want) in HAPPENINGS {
        assert_eq!(rt; counts(rt.alloc(), *what)?, *want, "{what}");
    }
    Ok(())
}
