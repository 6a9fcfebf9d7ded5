//! What a switch is sent in its round, and what it answers.
use cv_io::{Duplicate, List, Memory};
use install_plan::{Batch, Written};
use of10_match::Match;
use of10_msgs::PhyPort;
use outbox::Letters;
use std::alloc::Global;
use std::test::Fail;
use switch_meaning::PhysEntry;
use switch_state::{Known, Removal};

/// An entry that drops everything, under a cookie.
fn drop_all(alloc: Global, cookie: u64) -> Result<List<Written>, Memory> {
    let entry = PhysEntry {
        m: Match::everything(),
        priority: 2,
        actions: List::new(alloc),
        ancestry: List::new(alloc),
    };
    let mut list = List::new(alloc);
    list.push(Written { entry, cookie })?;
    Ok(list)
}

fn begin(alloc: Global, known: &mut Known, messages: &mut Letters) -> Result<(), Memory> {
    let empty = Batch {
        deletes: List::new(alloc),
        adds: List::new(alloc),
    };
    known.write(alloc, true, empty, messages)
}

fn delete(alloc: Global, known: &mut Known, messages: &mut Letters) -> Result<(), Memory> {
    let delete = Batch {
        deletes: drop_all(alloc, 1)?,
        adds: List::new(alloc),
    };
    known.write(alloc, false, delete, messages)
}

/// Begins a round, in which an entry is deleted.
fn write(alloc: Global, known: &mut Known, messages: &mut Letters) -> Result<(), Memory> {
    begin(alloc, known, messages)?;
    delete(alloc, known, messages)
}

/// A round that begins, and in which an entry is deleted.
fn round(alloc: Global) -> Result<(Known, Letters), Memory> {
    let mut known = Known::new(alloc, 1);
    let mut messages = Letters::new(alloc);
    write(alloc, &mut known, &mut messages)?;
    Ok((known, messages))
}

/// The numbers of the barriers that wait, as a copy of what is known has them.
fn unanswered(alloc: Global, known: &Known) -> Result<List<u64>, Memory> {
    known.copy()?.unanswered(alloc)
}

/// How many messages the round has, the last xid, and the numbers of the barriers that wait.
fn counted(alloc: Global) -> Result<(usize, u32, List<u64>), Memory> {
    let (known, messages) = round(alloc)?;
    let numbers = unanswered(alloc, &known)?;
    Ok((messages.len(), known.xid(), numbers))
}

/// Three messages and two, and the barriers of xids 3 and 5.
#[test]
fn a_round_is_counted(rt: HostRuntime) -> Result<(), Fail> {
    let (messages, xid, unanswered) = counted(rt.alloc())?;
    assert_eq!(rt; (messages, xid), (5, 5));
    assert_eq!(rt; unanswered.as_slice(), [1, 2].as_slice());
    Ok(())
}

/// What the removal of a cookie is before a barrier is answered, and twice after that.
type Removals = (Removal, Removal, Removal);

/// The removals, and the barrier's number.
fn removals(known: &mut Known) -> Result<(Removals, Option<u64>), Memory> {
    let early = known.flow_removed(1)?;
    let number = known.barrier_reply(3)?;
    let late = known.flow_removed(1)?;
    let again = known.flow_removed(1)?;
    Ok(((early, late, again), number))
}

fn removed(alloc: Global) -> Result<(Removals, Option<u64>), Memory> {
    let (mut known, _) = round(alloc)?;
    removals(&mut known)
}

/// The removal is ignored before a barrier is answered, and then taken once.
#[test]
fn a_removal_is_taken_once(rt: HostRuntime) -> Result<(), Fail> {
    let ((early, late, again), number) = removed(rt.alloc())?;
    assert_eq!(rt; early, Removal::Ignored);
    assert_eq!(rt; number, Some(1));
    assert_eq!(rt; late, Removal::Taken);
    assert_eq!(rt; again, Removal::Strange);
    Ok(())
}

/// Polls, and a packet.
fn send_others(alloc: Global, known: &mut Known, messages: &mut Letters) -> Result<(), Memory> {
    known.poll_flows(alloc, messages)?;
    known.poll_ports(alloc, messages)?;
    known.send_packet(alloc, 1, List::new(alloc), messages)
}

/// The last xid, after the others were sent.
fn xid_of_others(alloc: Global) -> Result<u32, Memory> {
    let (mut known, mut messages) = round(alloc)?;
    send_others(alloc, &mut known, &mut messages)?;
    Ok(known.xid())
}

/// Polls and a packet are sent with the next xids.
#[test]
fn others_are_sent(rt: HostRuntime) -> Result<(), Fail> {
    let xid = xid_of_others(rt.alloc())?;
    assert_eq!(rt; xid, 8);
    Ok(())
}

/// A port is down after a status with LINK_DOWN.
#[test]
fn a_port_is_down(rt: HostRuntime) -> Result<(), Fail> {
    let mut known = Known::new(rt.alloc(), 1);
    let port = PhyPort {
        port_no: 3,
        hw_addr: 0,
        name: [0; 16],
        config: 0,
        state: 1,
        curr: 0,
        advertised: 0,
        supported: 0,
        peer: 0,
    };
    known.port_status(2, &port)?;
    assert!(rt; known.is_dark(3));
    Ok(())
}
