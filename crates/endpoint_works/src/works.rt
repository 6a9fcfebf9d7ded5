//! The works, as a spawner runs them.
ghost use Rattle.std.specs.Prelude.{◌≡◌, Some};
ghost use Rattle.endpoint_works.specs.Sendings.{HasSent};
ghost use Rattle.endpoint_works.specs.Sides.{IsServedSide};
ghost use Rattle.endpoint_works.specs.Tasks.{HasReceived};
ghost use Rattle.endpoint_works.specs.declared.receiving.Received.{Received};
ghost use Rattle.endpoint_works.specs.declared.sending.Sent.{Sent};

use crate::arrivals::Arrivals;
use crate::audit::AUDIT;
use crate::handover::Handover;
use crate::later::LaterDesk;
use crate::others::Others;
use crate::receiving::{Received, receive};
use crate::sending::{Sent, send};
use crate::side::Side;
use outside::{Clock, Sink, Work};
use std::alloc::Global;
use std::sync::Wait;

/// Takes the connections of an endpoint, and reads from them.
#[derive(Drop)]
pub struct Reader<'a, R, D: LaterDesk, A: Arrivals> {
    pub rt: &'a R,
    pub alloc: Global,
    pub others: &'a Others,
    pub handover: &'a Handover<A::Out>,
    pub desk: D,
    pub pass: D::Pass,
    pub side: Side,
    pub arrivals: A,
    /// Whether it has ended, and how.
    pub end: Option<Received>,
}

/// Writes to the connections of an endpoint.
#[derive(Drop)]
pub struct Writer<'a, R, D: LaterDesk, K, C> {
    pub rt: &'a R,
    pub others: &'a Others,
    pub handover: &'a Handover<K>,
    pub desk: D,
    pub pass: D::Pass,
    pub clock: C,
    pub end: Option<Sent>,
}

/// One of the two works of an endpoint.
#[derive(Drop)]
pub enum Task<'a, R, D: LaterDesk, A: Arrivals, C> {
    Reader { reader: Reader<'a, R, D, A> },
    Writer { writer: Writer<'a, R, D, A::Out, C> },
}

impl<R: Wait, D: LaterDesk, A: Arrivals> Reader<'_, R, D, A>
where
    A::In: Drop,
    A::Out: Drop,
{
    fn run(&mut self)
        requires pass { D.admits self.old.desk self.old.pass }
        requires side { IsServedSide (D.serves self.old.desk) self.old.side }
        ensures pass { D.admits self.old.desk self.new.pass }
        ensures later { D.later self.old.pass self.new.pass }
        ensures received { (end : Received) × (self.new.end ≡ Some end) × HasReceived D.posts D.ended D.later
            self.old.side (A.is_reliable self.old.arrivals)
            (A.left self.old.arrivals) (A.left self.new.arrivals) self.old.pass self.new.pass end }
    {
        let desk = self.desk.from_here(&self.pass);
        let end = receive(
            self.rt,
            self.alloc,
            &desk,
            &mut self.pass,
            &self.side,
            &mut self.arrivals,
            self.handover,
        );
        self.handover.close(self.rt);
        self.others.end_one();
        desk.wake(&AUDIT);
        self.end = Some(end);
    }
}

impl<R: Wait, D: LaterDesk, K: Sink + Drop, C: Clock> Writer<'_, R, D, K, C> {
    fn run(&mut self)
        requires { D.admits self.old.desk self.old.pass }
        ensures pass { D.admits self.old.desk self.new.pass }
        ensures later { D.later self.old.pass self.new.pass }
        ensures sent { (end : Sent) × (self.new.end ≡ Some end)
            × HasSent (C.may self.old.clock) end.cut (D.posts self.old.pass) (D.posts self.new.pass) }
    {
        let desk = self.desk.from_here(&self.pass);
        let end = send(
            self.rt,
            &desk,
            &mut self.pass,
            self.handover,
            &mut self.clock,
        );
        self.others.end_one();
        desk.wake(&AUDIT);
        self.end = Some(end);
    }
}

impl<R: Wait + Sync, D: LaterDesk + Send, A: Arrivals + Send, C: Clock + Send> Work
    for Task<'_, R, D, A, C>
where
    D::Pass: Send,
    A::In: Drop,
    A::Out: Drop + Send,
{
    ghost use Rattle.std.specs.Prelude.{◌≡◌, Some};
    ghost use Rattle.endpoint_works.specs.Sendings.{HasSent};
    ghost use Rattle.endpoint_works.specs.Sides.{IsServedSide};
    ghost use Rattle.endpoint_works.specs.Tasks.{HasReceived};
    ghost use Rattle.endpoint_works.specs.declared.receiving.Received.{Received};
    ghost use Rattle.endpoint_works.specs.declared.sending.Sent.{Sent};
    ghost use Rattle.endpoint_works.specs.declared.works.Task.TheVariants as tasks;

    ghost ready = { elim [
      | tasks.Reader reader ↦
          D.admits reader.desk reader.pass × IsServedSide (D.serves reader.desk) reader.side
      | tasks.Writer writer ↦ D.admits writer.desk writer.pass
    ] };

    // The pass is the one that it was, later, and the work has done what its kind does.
    ghost changes = { elim [
      | tasks.Reader old ↦ elim [
        | tasks.Reader new ↦ D.admits old.desk new.pass × D.later old.pass new.pass
            × ((end : Received) × (new.end ≡ Some end) × HasReceived D.posts D.ended D.later
            old.side (A.is_reliable old.arrivals)
            (A.left old.arrivals) (A.left new.arrivals) old.pass new.pass end)
        | tasks.Writer new ↦ ⊥
      ]
      | tasks.Writer old ↦ elim [
        | tasks.Reader new ↦ ⊥
        | tasks.Writer new ↦ D.admits old.desk new.pass × D.later old.pass new.pass
            × ((end : Sent) × (new.end ≡ Some end)
            × HasSent (C.may old.clock) end.cut (D.posts old.pass) (D.posts new.pass))
      ]
    ] };

    fn work(&mut self) {
        match self {
            Task::Reader { reader } => reader.run(),
            Task::Writer { writer } => writer.run(),
        }
    }
}
