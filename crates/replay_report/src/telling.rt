//! An event, and the report of what it puts into outboxes and audit.
ghost use Rattle.std.specs.Prelude.{◌≡◌, ◌≤◌, ◌+◌, ◌++◌, [], IfOk, OnOk, true};
ghost use Rattle.event_composes.specs.Costs.{cost_of};
ghost use Rattle.machine_meaning.specs.States.{opening};
ghost use Rattle.machine_meaning.specs.Steps.{step_of};
ghost use Rattle.machine_drafts.specs.Machines.{state_of};
ghost use Rattle.replay_report.specs.Playing.{present as present_of};
ghost use Rattle.replay_report.specs.Explaining.{Asks, asked};
ghost use Rattle.replay_report.specs.Sessions.{sessions_of, virtual_named};
ghost use Rattle.replay_report.specs.Takings.{TakesFirst, as_line, audit_lines, does, emptied, message_lines};
ghost use Rattle.replay_report.specs.Takings.{taken_in, takes_all, waits_for};

use crate::explaining::{rows_of, say_findings};
use crate::sessions::{Named, find_virtual};
use cv_io::{Bytes, List, Memory, Session, Steps, Text, Who};
use events::{Event, Reply};
use explain_text::{answer, find_entrance};
use hyper_core::Hyper;
use policies::Policy;
use script_text::report_line;
use std::alloc::Global;
use std::sync::ledger::Ledger;
use std::thread::Threads;

/// Appends a line.
pub(crate) fn add_line(report: &mut Bytes, text: &[u8]) -> Result<(), Memory>
    ensures { OnOk result (report.new ≡ report.old ++ as_line text.now) }
{
    report.extend_from_slice(text)?;
    report.push(b'\n')
}

/// What a reply hands over.
fn message_in(reply: Reply) -> Option<Bytes>
    ensures { result ≡ taken_in reply }
{
    match reply {
        Reply::Taken { message } => Some(message),
        _ => None,
    }
}

/// One step, after which the composed part is still kept. An event that closes a session as slow or replaces an
/// expression has it made anew; where there is no memory for that, or no number is left for a cookie or an entry, this
/// is told as want of memory too.
fn step<R: Threads + Sync, G: Ledger>(
    rt: &R,
    machine: &mut Hyper,
    event: &Event,
    steps: &mut Steps<G>,
) -> Result<Reply, Memory>
    requires compiled { machine.old.compiled ≡ true }
    ensures step { IfOk result (λ reply.
        (reply, state_of machine.new) ≡ step_of machine.old.plan (state_of machine.old) event.now) }
    ensures plan { machine.new.plan ≡ machine.old.plan }
    ensures compiled { OnOk result (machine.new.compiled ≡ true) }
    ensures steps { steps.new ≤ steps.old + cost_of machine.old.plan (state_of machine.old) event.now }
{
    let reply = machine.step(rt, event, steps)?;
    if machine.is_compiled() {
        Ok(reply)
    } else {
        Err(Memory)
    }
}

/// Takes what waits first for a session, or in the audit.
fn take<R: Threads + Sync, G: Ledger>(
    rt: &R,
    machine: &mut Hyper,
    who: Who,
    steps: &mut Steps<G>,
) -> Result<Option<Bytes>, Memory>
    requires compiled { machine.old.compiled ≡ true }
    ensures taken { IfOk result (λ taken. TakesFirst taken who (state_of machine.old) (state_of machine.new)) }
    ensures plan { machine.new.plan ≡ machine.old.plan }
    ensures compiled { OnOk result (machine.new.compiled ≡ true) }
    ensures steps { steps.new ≤ steps.old }
{
    let session = Session {
        who,
        round: machine.round(who),
    };
    let reply = step(rt, machine, &Event::Take { session }, steps)?;
    Ok(message_in(reply))
}

/// Takes and reports all that waits in the audit.
fn tell_audit<R: Threads + Sync, G: Ledger>(
    rt: &R,
    machine: &mut Hyper,
    report: &mut Bytes,
    steps: &mut Steps<G>,
) -> Result<(), Memory>
    requires compiled { machine.old.compiled ≡ true }
    ensures report { OnOk result (report.new ≡ report.old ++ audit_lines (waits_for (state_of machine.old) Who.Audit)) }
    ensures state { OnOk result (state_of machine.new ≡ emptied Who.Audit (state_of machine.old)) }
    ensures plan { machine.new.plan ≡ machine.old.plan }
    ensures compiled { OnOk result (machine.new.compiled ≡ true) }
    ensures steps { steps.new ≤ steps.old }
{
    loop {
        let Some(line) = take(rt, machine, Who::Audit, steps)? else {
            return Ok(());
        };
        add_line(report, line.as_slice())?;
    }
}

/// Takes and reports all that waits for a session.
fn tell_session<R: Threads + Sync, G: Ledger>(
    rt: &R,
    alloc: Global,
    machine: &mut Hyper,
    session: &Named,
    report: &mut Bytes,
    steps: &mut Steps<G>,
) -> Result<(), Memory>
    requires compiled { machine.old.compiled ≡ true }
    ensures report { OnOk result (report.new
        ≡ report.old ++ message_lines session.now.name (waits_for (state_of machine.old) session.now.who)) }
    ensures state { OnOk result (state_of machine.new ≡ emptied session.now.who (state_of machine.old)) }
    ensures plan { machine.new.plan ≡ machine.old.plan }
    ensures compiled { OnOk result (machine.new.compiled ≡ true) }
    ensures steps { steps.new ≤ steps.old }
{
    loop {
        let Some(message) = take(rt, machine, session.who, steps)? else {
            return Ok(());
        };
        let line = report_line(alloc, &session.name, message.as_slice())?;
        add_line(report, line.as_bytes())?;
    }
}

/// Takes and reports all that waits.
fn tell<R: Threads + Sync, G: Ledger>(
    rt: &R,
    alloc: Global,
    machine: &mut Hyper,
    names: &[Named],
    report: &mut Bytes,
    steps: &mut Steps<G>,
) -> Result<(), Memory>
    requires compiled { machine.old.compiled ≡ true }
    ensures report { OnOk result (report.new ≡ report.old ++ (takes_all names.now (state_of machine.old)).text) }
    ensures state { OnOk result (state_of machine.new ≡ (takes_all names.now (state_of machine.old)).state) }
    ensures plan { machine.new.plan ≡ machine.old.plan }
    ensures compiled { OnOk result (machine.new.compiled ≡ true) }
    ensures steps { steps.new ≤ steps.old }
{
    tell_audit(rt, machine, report, steps)?;
    for session in names {
        tell_session(rt, alloc, machine, session, report, steps)?;
    }
    Ok(())
}

/// The machine with the names of its sessions, and what is reported.
#[derive(Drop)]
pub struct Stage {
    pub(crate) alloc: Global,
    pub(crate) machine: Hyper,
    pub(crate) names: List<Named>,
    pub(crate) report: Bytes,
    ghost named: { names ≡ sessions_of machine.plan },
}

impl Stage {
    /// The machine of a policy, as it opens, with the names of the policy's sessions.
    pub(crate) fn open<R: Threads + Sync>(
        rt: &R,
        alloc: Global,
        policy: Policy,
        names: List<Named>,
    ) -> Result<Stage, Memory>
        requires { names ≡ sessions_of policy }
        ensures plan { IfOk result (λ stage. stage.machine.plan ≡ policy) }
        ensures opening { IfOk result (λ stage. state_of stage.machine ≡ opening policy) }
        ensures names { IfOk result (λ stage. stage.names ≡ names) }
        ensures report { IfOk result (λ stage. stage.report ≡ []) }
        ensures compiled { IfOk result (λ stage. stage.machine.compiled ≡ true) }
    {
        let machine = Hyper::open(rt, alloc, policy)?;
        Ok(Stage {
            alloc,
            machine,
            names,
            report: Bytes::new(alloc),
        })
    }

    /// Lets go of it.
    pub(crate) fn close(self) {
        self.machine.close();
    }

    /// A session in its present round.
    pub(crate) fn present(&self, who: Who) -> Session
        ensures { result ≡ present_of (state_of self.now.machine) who }
    {
        Session {
            who,
            round: self.machine.round(who),
        }
    }

    /// The number of the virtual switch of a name.
    pub(crate) fn virtual_named(&self, name: &Text) -> Option<u32>
        ensures { result ≡ virtual_named self.now.machine.plan name.now }
    {
        find_virtual(self.machine.policy().virtuals.as_slice(), name)
    }

    /// Reports why a packet goes where it goes; false where no virtual switch has the port.
    pub(crate) fn explain(&mut self, switch: &Text, port: u16, bytes: &[u8]) -> Result<bool, Memory>
        ensures asks { IfOk result (λ known. Asks known (asked self.old.machine.plan
            (state_of self.old.machine) switch.now port bytes.now)
            self.old.report self.new.report) }
        ensures machine { self.new.machine ≡ self.old.machine }
        ensures names { self.new.names ≡ self.old.names }
    {
        let Some(at) = find_entrance(self.machine.topology(), switch, port) else {
            return Ok(false);
        };
        let tables = self.machine.tables()?;
        let world = self.machine.world(&tables);
        let standing = self.machine.installed(at.switch)?;
        let found = answer(self.alloc, &world, rows_of(&standing), &at, bytes)?;
        say_findings(
            self.alloc,
            self.machine.policy(),
            bytes,
            found.as_slice(),
            &mut self.report,
        )?;
        Ok(true)
    }

    /// An event happens, and what it puts into outboxes and audit is reported.
    #[tactic(auto, unfolding(crate::specs::Takings::does))]
    pub(crate) fn happen<R: Threads + Sync, G: Ledger>(
        &mut self,
        rt: &R,
        event: &Event,
        steps: &mut Steps<G>,
    ) -> Result<(), Memory>
        requires compiled { self.old.machine.compiled ≡ true }
        ensures report { OnOk result (self.new.report
            ≡ self.old.report ++ (does self.old.machine.plan event.now (state_of self.old.machine)).text) }
        ensures state { OnOk result (state_of self.new.machine
            ≡ (does self.old.machine.plan event.now (state_of self.old.machine)).state) }
        ensures plan { self.new.machine.plan ≡ self.old.machine.plan }
        ensures names { self.new.names ≡ self.old.names }
        ensures compiled { OnOk result (self.new.machine.compiled ≡ true) }
        ensures steps { steps.new
            ≤ steps.old + (does self.old.machine.plan event.now (state_of self.old.machine)).steps }
    {
        let _reply = step(rt, &mut self.machine, event, steps)?;
        tell(
            rt,
            self.alloc,
            &mut self.machine,
            self.names.as_slice(),
            &mut self.report,
            steps,
        )
    }
}
