//! The machine.
ghost use Rattle.std.specs.Prelude.{◌≡◌, ◌≤◌, ◌+◌, IfOk, OnErr, OnOk, true};
ghost use Rattle.packet_map.specs.Networks.{SeeRising, network_of};
ghost use Rattle.policies.specs.Policies.{plan};
ghost use Rattle.policies.specs.Sound.{IsSound};
ghost use Rattle.machine_meaning.specs.Glances.{glance_of};
ghost use Rattle.machine_drafts.specs.Machines.{state_of};
ghost use Rattle.event_composes.specs.Costs.{cost_of, most_of, stays_kept};
ghost use Rattle.hyper_core.specs.Worlds.{AreTablesOf, installed_on, network_in, rule_count};
ghost use Rattle.machine_meaning.specs.Sessions.{round_of};
ghost use Rattle.machine_meaning.specs.Sound.{HasNumbers};
ghost use Rattle.machine_meaning.specs.States.{opening};
ghost use Rattle.machine_meaning.specs.Steps.{step_of};

use crate::crowding::{holds, marks};
use crate::glances::glance;
use crate::opening::open as open_machine;
use crate::stepping::step as step_held;
use crate::views::{installed, round, rules};
use crate::worlds::{Tables, copied_tables, followed};
use composed_tables::Composed;
use cv_io::{Duplicate, List, Memory, Steps, Who};
use events::{Event, Reply};
use install_plan::Written;
use machine_drafts::copying::copied_held;
use machine_drafts::held::Held;
use machine_drafts::setup::Setup;
use packet_map::World;
use policies::Policy;
use policy_lock::Marks;
use std::alloc::Global;
use std::marker::Model;
use std::sync::Arc;
use std::sync::ledger::Ledger;
use std::thread::Threads;
use virtual_topology::Topology;

/// The hypervisor.
#[derive(Drop)]
pub struct Hyper {
    /// It never changes, so copies share it.
    setup: Arc<Setup, Global>,
    held: Held,
    /// The composed part of what is held, where it is kept; else it is composed from scratch.
    composed: Option<Composed>,
}

impl Model for Hyper {
    ghost use Rattle.machine_drafts.specs.Machines.{HasAll, MachineOf, holding_of, state_in_held};
    ghost use Rattle.std.specs.Arc.{arc_value};
    ghost use Rattle.std.specs.Prelude.{is_some};
    ghost use Rattle.event_composes.specs.Kept.{IsKept};
    ghost use Rattle.event_composes.specs.Settled.{IsSettledState};

    ghost Value = { MachineOf };

    ghost use Rattle.std.specs.Coded.{codes};
    ghost use Rattle.policy_expr.specs.Stored.{policy_code};

    ghost coded = { Prim.hlevel (codes, policy_code) };

    ghost view = { λ a. record { plan = arc_value a.setup; holding = holding_of a.held; compiled = is_some a.composed } };

    // There is a member for each of the policy's, and a switch. What stands on switches is what the setting gives. The
    // state is sound as long as numbers are left, and the composed part that is kept is that of its setting.
    ghost invariant = { λ a. HasAll (arc_value a.setup) a.held
        × (IsSettledState (arc_value a.setup) (state_in_held a.held)
        × IsKept (arc_value a.setup) (state_in_held a.held) a.composed) };
}

impl Hyper {
    /// The machine of a policy: nothing is up, tables are empty, and each virtual switch has its expression. Its
    /// composed part is kept from the first event on; the steps that it takes belong to no event.
    pub fn open<R: Threads + Sync>(rt: &R, alloc: Global, policy: Policy) -> Result<Hyper, Memory>
        ensures plan { IfOk result (λ hyper. hyper.plan ≡ policy) }
        ensures opening { IfOk result (λ hyper. state_of hyper ≡ opening policy) }
        ensures compiled { IfOk result (λ hyper. hyper.compiled ≡ true) }
    {
        let setup = Arc::new(alloc, Setup::make(alloc, policy)?)?;
        match open_machine(rt, &setup) {
            Ok(opened) => Ok(Hyper {
                setup,
                held: opened.held,
                composed: Some(opened.composed),
            }),
            Err(memory) => {
                drop(setup);
                Err(memory)
            }
        }
    }

    /// The reply of an event that changes nothing, and None for every other.
    pub fn glance(&self, event: &Event) -> Option<Reply>
        ensures { result ≡ glance_of self.now.plan (state_of self.now) event.now }
    {
        glance(&self.setup, &self.held, event)
    }

    /// One step: the reply to an event. After want of memory all is as it was. The steps of composition are counted.
    /// Where the composed part was kept it still is, as long as the event closes no session as slow, replaces no
    /// expression, and leaves numbers for cookies and entries; where it does, the composed part is made anew if there
    /// is memory for it.
    pub fn step<R: Threads + Sync, G: Ledger>(
        &mut self,
        rt: &R,
        event: &Event,
        steps: &mut Steps<G>,
    ) -> Result<Reply, Memory>
        ensures step { IfOk result (λ reply.
            (reply, state_of self.new) ≡ step_of self.old.plan (state_of self.old) event.now) }
        ensures plan { self.new.plan ≡ self.old.plan }
        ensures memory { OnErr result (state_of self.new ≡ state_of self.old) }
        ensures stays { self.old.compiled ≡ true → stays_kept self.old.plan (state_of self.old) event.now ≡ true
            → HasNumbers (state_of self.new) → OnOk result (self.new.compiled ≡ true) }
        ensures cost { self.old.compiled ≡ true
            → steps.new ≤ steps.old + cost_of self.old.plan (state_of self.old) event.now }
        ensures most { steps.new ≤ steps.old + most_of self.old.plan (state_of self.old) event.now }
    {
        step_held(
            rt,
            &self.setup,
            &mut self.held,
            event,
            &mut self.composed,
            steps,
        )
    }
}

impl Hyper {
    /// Whether the composed part of what is held is kept, so that the next event composes only what descends from
    /// its change.
    pub fn is_compiled(&self) -> bool
        ensures { result ≡ self.now.compiled }
    {
        self.composed.is_some()
    }

    /// Whether the event, which has waited so many milliseconds, had better wait on, since much waits already of what
    /// it may add to. No promise rests on it.
    pub fn holds(&self, event: &Event, turns: u32) -> bool {
        holds(&self.setup, &self.held, event, turns)
    }

    /// What waits: a bit for each session for which something does, of member n the bit n, of switch n the bit 32 + n,
    /// of the audit the bit 48; and whether much waits for a switch. No promise rests on it.
    pub fn marks(&self) -> Marks {
        marks(&self.held)
    }

    /// A machine of the same policy in the same state. Its composed part isn't copied: the first event that needs one
    /// has it made anew.
    pub fn copy(&self) -> Result<Hyper, Memory>
        ensures plan { IfOk result (λ copied. copied.plan ≡ self.now.plan) }
        ensures state { IfOk result (λ copied. state_of copied ≡ state_of self.now) }
    {
        let setup = Arc::try_clone(&self.setup)?;
        match copied_held(&setup, &self.held) {
            Ok(held) => Ok(Hyper {
                setup,
                held,
                composed: None,
            }),
            Err(memory) => {
                drop(setup);
                Err(memory)
            }
        }
    }

    /// Lets go of it. Who ends a machine by this need not show again that each of its parts can be let go.
    pub fn close(self) {
        drop(self);
    }

    /// The policy. What is true of every policy is said here.
    pub fn policy(&self) -> &Policy
        ensures policy { result.now ≡ self.now.plan }
        ensures sound { IsSound self.now.plan }
    {
        self.setup.policy()
    }

    /// Its topology.
    pub fn topology(&self) -> &Topology
        ensures { result.now ≡ plan self.now.plan }
    {
        self.setup.topology()
    }

    /// The present round of a session, or the last one; 0 before the first, and where there is no such
    /// session.
    pub fn round(&self, who: Who) -> u64
        ensures { result ≡ round_of (state_of self.now) who }
    {
        round(&self.held, who)
    }

    /// Copies of the entries that stand on a switch, by rising key; None exactly where it isn't up.
    pub fn installed(&self, n: u32) -> Result<Option<List<Written>>, Memory>
        ensures { IfOk result (λ installed. installed ≡ installed_on (state_of self.now) n) }
    {
        installed(&self.held, n)
    }

    /// How many composed rules the expression of a virtual switch has over the present tables; none where
    /// there is no such virtual switch.
    pub fn rules(&self, v: u32) -> Result<u64, Memory>
        ensures { IfOk result (λ count. count ≡ rule_count self.now.plan (state_of self.now) v) }
    {
        rules(&self.setup, &self.held, v)
    }

    /// Copies of the members' grants and present tables.
    pub fn tables(&self) -> Result<Tables, Memory>
        ensures { IfOk result (AreTablesOf self.now.plan (state_of self.now)) }
    {
        copied_tables(&self.setup, &self.held)
    }

    /// What packets are followed over at present.
    pub fn world<'a>(&'a self, tables: &'a Tables) -> World<'a>
        requires { AreTablesOf self.now.plan (state_of self.now) tables.now }
        ensures network { network_of result ≡ network_in self.now.plan (state_of self.now) }
        ensures topology { result.topology.now ≡ plan self.now.plan }
        ensures hops { result.hops ≡ self.now.plan.hops }
        ensures rising { SeeRising result }
    {
        followed(&self.setup, &self.held, tables)
    }
}
