//! What an event makes of a member, beside the member as it stands.
ghost use Rattle.std.specs.Prelude.{◌≡◌, ◌++◌, ℕ, IfOk, IfSome, IsTrue, None, OnOk, filter, option_to_list};
ghost use Rattle.std.specs.List.{AllByRecursion, list_any};
ghost use Rattle.member_table.specs.Entries.{has_serial};
ghost use Rattle.member_state.specs.Changes.{expired, is_told, touched, without};
ghost use Rattle.member_state.specs.Plans.{IsReady, after_planned};
ghost use Rattle.of10_actions.specs.Ports.{AreRising};
ghost use Rattle.of10_match.specs.Normal.{IsNormal};
ghost use Rattle.machine_drafts.specs.Serials.{HasSerial};
ghost use Rattle.machine_drafts.specs.MemberDrafts.{IsLeafDelta, IsPlannedOf, IsReadyPlan, IsUnplanned, kept_after};
ghost use Rattle.machine_drafts.specs.MemberDrafts.{LosesExactly, kept_state, there_then};
ghost use Rattle.machine_drafts.specs.MemberDrafts.{standing_member, with_now};
ghost use Rattle.leaf_changes.specs.Plans.{IsPlanOf};
ghost use Rattle.machine_drafts.specs.Moving.{IsMemberPart, member_moved, member_put};
ghost use Rattle.machine_meaning.specs.MemberMessages.{with_config};
ghost use Rattle.machine_meaning.specs.Removing.{due_in, with_kept};
ghost use Rattle.machine_meaning.specs.Rounds.{begun_member, ended_member};
ghost use Rattle.machine_drafts.specs.Views.{member_of};

use crate::session::Member;
use cv_io::{List, Memory};
use grants::Grant;
use incr_compile::LeafDelta;
use leaf_changes::{leaf_delta, plans};
use machine_meaning::Config;
use member_state::{MemberState, Planned};
use member_table::{Entry, Table};
use outbox::{Letters, Outbox, Turn};
use std::alloc::Global;
use std::marker::Model;

/// The configuration that a round begins with.
pub const FIRST_CONFIG: Config = Config {
    flags: 0,
    miss_send_len: 128,
};

/// A member's table and levels as an event leaves them so far.
#[derive(Drop)]
pub enum Kept<'a> {
    /// As they stand.
    Standing(&'a MemberState),
    /// A copy, after what is planned.
    Drafted(MemberState),
}

/// What of a member is after the event.
#[derive(Drop)]
pub struct MemberPart {
    pub turn: Turn,
    pub config: Config,
    /// What is made of its table, at the moment of the event.
    pub planned: Option<Planned>,
    pub moment: u64,
    /// What it is put.
    pub letters: Letters,
}

/// The serial numbers of the entries that go with what is planned.
#[derive(Clone, Copy)]
pub struct Gone<'a> {
    /// Of those that go first.
    pub removed: &'a [u64],
    /// And of those that go afterwards.
    pub dropped: &'a [u64],
}

/// A member as it stands, and what an event makes of it.
#[derive(Drop)]
pub struct MemberDraft<'a> {
    alloc: Global,
    base: &'a Member,
    moment: u64,
    turn: Turn,
    config: Config,
    planned: Option<Planned>,
}

impl<'a> Model for MemberDraft<'a> {
    ghost use Rattle.machine_drafts.specs.MemberDrafts.{IsPlannedOf, IsReadyPlan, MemberDraftOf, member_after};

    ghost Value = { MemberDraftOf };

    ghost view = { λ a. record {
      base = a.base.now;
      moment = a.moment;
      now = member_after a.base.now a.moment a.turn a.config a.planned;
    } };

    // What is planned can be made, and its changes told.
    ghost invariant = { λ a. IsReadyPlan a.base.now.kept a.planned × IsPlannedOf a.base.now.kept.state a.planned };
}

impl<'a> Kept<'a> {
    /// The table with its levels.
    pub fn state(&self) -> &MemberState
        ensures { result.now.state ≡ kept_state self.now }
    {
        match self {
            Kept::Standing(state) => state,
            Kept::Drafted(state) => state,
        }
    }
}

/// One of the entries of a table has this serial number.
#[tactic(auto, using(member_table::proofs::Lists::any_find))]
pub fn is_there(table: &Table, serial: u64) -> bool
    ensures { result ≡ list_any (has_serial serial) table.now.table.entries }
{
    table.get(serial).is_some()
}

/// The entry that comes has the number.
fn comes(added: &Option<Entry>, serial: u64) -> bool
    ensures { result ≡ list_any (has_serial serial) (option_to_list added.now) }
{
    match added {
        Some(entry) => serial == entry.serial,
        None => false,
    }
}

/// Whether the entry of a number is there once what is planned is made, where it was there or not before.
fn is_there_then(planned: &Planned, serial: u64, stood: bool) -> bool
    ensures { result ≡ there_then planned.now serial stood }
{
    let stays = stood && !planned.change.removed.as_slice().contains(&serial);
    (stays || comes(&planned.change.added, serial)) && !planned.dropped.as_slice().contains(&serial)
}

/// Takes what is planned, or what changes nothing where nothing is.
fn planned_so_far(
    alloc: Global,
    planned: &mut Option<Planned>,
    kept: &MemberState,
) -> Result<Planned, Memory>
    requires ready { IsReadyPlan kept.now planned.old }
    requires plan { IsPlannedOf kept.now.state planned.old }
    ensures planned { IfOk result (λ p. (now : ℕ) →
        after_planned kept.now.state p now ≡ kept_after kept.now.state planned.old now) }
    ensures ready { IfOk result (IsReady kept.now) }
    ensures plan { IfOk result (IsPlanOf kept.now.state) }
    ensures taken { planned.new ≡ None }
{
    match planned.take() {
        Some(planned) => Ok(planned),
        None => plans::stay(alloc, kept),
    }
}

impl<'a> MemberDraft<'a> {
    /// The member stays as it is.
    pub fn stay(alloc: Global, base: &'a Member, moment: u64) -> MemberDraft<'a>
        ensures { result ≡ standing_member moment base.now }
    {
        MemberDraft {
            alloc,
            base,
            moment,
            turn: base.outbox.stay(),
            config: base.config,
            planned: None,
        }
    }

    /// The session is up.
    pub fn is_up(&self) -> bool
        ensures { result ≡ self.now.now.outbox.up }
    {
        self.turn.up
    }

    /// The present round, or the last one.
    pub fn round(&self) -> u64
        ensures { result ≡ self.now.now.outbox.round }
    {
        self.turn.round
    }

    /// What SET_CONFIG gave.
    pub fn config(&self) -> Config
        ensures { result ≡ self.now.now.config }
    {
        self.config
    }

    /// Its session as the event began.
    pub fn outbox(&self) -> &Outbox
        ensures { result.now ≡ self.now.base.outbox }
    {
        &self.base.outbox
    }

    /// Its table as the event began.
    pub fn table_before(&self) -> &Table
        ensures { result.now.table ≡ self.now.base.kept.state.table }
    {
        self.base.kept.table()
    }

    /// Nothing is planned for the table and the levels.
    pub fn is_unplanned(&self) -> bool
        ensures { IsTrue result → IsUnplanned self.now }
    {
        self.planned.is_none()
    }

    /// The round ends.
    pub fn close(&mut self)
        ensures { self.new ≡ with_now ended_member self.old }
    {
        self.turn.close();
    }

    /// The next round begins.
    pub fn open(&mut self)
        ensures { self.new ≡ with_now begun_member self.old }
    {
        self.turn.open();
        self.config = FIRST_CONFIG;
    }

    /// SET_CONFIG gives another configuration.
    pub fn configure(&mut self, config: Config)
        ensures { self.new ≡ with_now (with_config config) self.old }
    {
        self.config = config;
    }

    /// The change of a message that was judged is planned: the table is to be as it stands.
    pub fn plan(&mut self, planned: Planned)
        requires ready { IsReady self.old.base.kept planned }
        requires plan { IsPlanOf self.old.base.kept.state planned }
        ensures { self.new ≡
            with_now (with_kept (λ old. after_planned self.old.base.kept.state planned self.old.moment)) self.old }
    {
        self.planned = Some(planned);
    }

    /// The entries go that have stood for their hard timeouts. Copies of those of whose removal the member asks to
    /// be told.
    pub fn expire(&mut self) -> Result<List<Entry>, Memory>
        requires { IsUnplanned self.old }
        ensures expired { OnOk result (self.new ≡ with_now (with_kept (expired self.old.moment)) self.old) }
        ensures told { IfOk result (λ entries.
            entries ≡ filter is_told (due_in self.old.moment self.old.now)) }
    {
        let kept = &self.base.kept;
        // The proof learns what is true of every table.
        let _ = kept.table();
        let due = kept.due(self.moment)?;
        let told = kept.told_of(due.hard.as_slice())?;
        if due.hard.is_empty() {
            return Ok(told);
        }
        self.planned = Some(plans::expire(self.alloc, kept, due.hard, self.moment)?);
        Ok(told)
    }

    /// The entry of a number goes.
    pub fn drop(&mut self, serial: u64) -> Result<(), Memory>
        ensures { OnOk result (self.new ≡ with_now (with_kept (without serial)) self.old) }
    {
        let mut planned = planned_so_far(self.alloc, &mut self.planned, &self.base.kept)?;
        plans::plan_drop(&self.base.kept, &mut planned, serial)?;
        self.planned = Some(planned);
        Ok(())
    }

    /// The count of the entry of a number was seen to have risen.
    pub fn touch(&mut self, serial: u64) -> Result<(), Memory>
        ensures { OnOk result (self.new ≡ with_now (with_kept (touched serial self.old.moment)) self.old) }
    {
        let mut planned = planned_so_far(self.alloc, &mut self.planned, &self.base.kept)?;
        plans::touch(&mut planned, serial)?;
        self.planned = Some(planned);
        Ok(())
    }

    /// The table and the levels as the event leaves them so far.
    pub fn kept(&self) -> Result<Kept<'_>, Memory>
        ensures { IfOk result (λ kept. kept_state kept ≡ self.now.now.kept) }
    {
        match &self.planned {
            Some(planned) => Ok(Kept::Drafted(self.base.kept.drafted(planned, self.moment)?)),
            None => Ok(Kept::Standing(&self.base.kept)),
        }
    }

    /// Whether its table has the entry of a number, as the event leaves it so far.
    pub fn has(&self, serial: u64) -> bool
        ensures { result ≡ list_any (has_serial serial) self.now.now.kept.table.entries }
    {
        let stood = is_there(self.base.kept.table(), serial);
        match &self.planned {
            Some(planned) => is_there_then(planned, serial, stood),
            None => stood,
        }
    }

    /// What goes with what is planned: of the entries that its table had, exactly those of these numbers are gone.
    pub fn lost(&self) -> Gone<'_>
        ensures { LosesExactly (result.removed.now ++ result.dropped.now) self.now }
    {
        // The proof learns what is true of every table.
        let _table = self.base.kept.table();
        match &self.planned {
            Some(planned) => Gone {
                removed: planned.change.removed.as_slice(),
                dropped: planned.dropped.as_slice(),
            },
            None => Gone {
                removed: &[],
                dropped: &[],
            },
        }
    }

    /// How its rules change with what is planned, if anything is: of its number, with its grant, at a virtual switch of
    /// these ports.
    pub fn leaf_delta(
        &self,
        alloc: Global,
        n: u32,
        grant: &Grant,
        ports: &List<u16>,
    ) -> Result<Option<LeafDelta>, Memory>
        requires rising { AreRising grant.now.ports }
        requires boxes { AllByRecursion IsNormal grant.now.regions }
        ensures none { IfOk result (λ delta. delta ≡ None → IsUnplanned self.now) }
        ensures some { IfOk result (λ delta. IfSome delta (IsLeafDelta n grant.now ports.now self.now)) }
    {
        let Some(planned) = &self.planned else {
            return Ok(None);
        };
        let kept = &self.base.kept;
        let delta = leaf_delta(alloc, n, grant, kept, planned, self.moment, ports)?;
        Ok(Some(delta))
    }

    /// A serial number is left for an entry. So it is, always.
    pub fn has_serial(&self) -> bool
        ensures { IsTrue result → HasSerial self.now.now }
    {
        // The proof learns what is true of every table.
        let _table = self.base.kept.table();
        true
    }

    /// What is moved in, with what the member is put. There is a place for that on any machine.
    pub fn into_part(self, letters: Letters) -> Result<MemberPart, Memory>
        ensures after { IfOk result (λ part.
            member_moved (member_of self.entry.base) part ≡ member_put letters self.entry.now) }
        ensures part { IfOk result (IsMemberPart self.entry.base) }
    {
        if !self.base.outbox.has_place(&letters) {
            return Err(Memory);
        }
        Ok(MemberPart {
            turn: self.turn,
            config: self.config,
            planned: self.planned,
            moment: self.moment,
            letters,
        })
    }
}
