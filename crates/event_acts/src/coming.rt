//! A session comes up, or goes.
ghost use Rattle.std.specs.Prelude.{◌≡◌, IfOk, OnOk};
ghost use Rattle.member_replies.specs.Audit.{note_line as note_line_of};
ghost use Rattle.machine_meaning.specs.Coming.{comes_up as comes_up_of, end_first as end_first_of};
ghost use Rattle.machine_meaning.specs.Coming.{goes as goes_of, noting};
ghost use Rattle.machine_meaning.specs.Names.{switch_name};
ghost use Rattle.machine_drafts.specs.Outcomes.{bases, draft_in};

use crate::rounds::{begin_member, begin_switch, end_member, end_switch};
use cv_io::{Bytes, Memory, Text, Who};
use machine_drafts::outcome::Outcome;
use machine_drafts::sessions::{is_member_up, is_switch_up};
use machine_drafts::setup::Setup;
use member_replies::note_line;
use script_text::DownCause;
use std::alloc::Global;

/// The line of the audit of a switch that doesn't match ARP addresses.
fn note_of(setup: &Setup, n: u32) -> Result<Bytes, Memory>
    ensures { IfOk result (λ line. line ≡ note_line_of (switch_name setup.now n)) }
{
    let alloc = setup.alloc();
    match setup.switch_at(n) {
        Some(item) => note_line(alloc, &item.name),
        None => note_line(alloc, &Text::new(alloc)),
    }
}

/// A switch that doesn't match ARP addresses is noted.
fn note(setup: &Setup, draft: &mut Outcome<'_>, n: u32, arp: bool) -> Result<(), Memory>
    ensures drafted { OnOk result (draft_in draft.new ≡ noting setup.now n arp (draft_in draft.old)) }
    ensures bases { OnOk result (bases draft.new ≡ bases draft.old) }
{
    if arp {
        return Ok(());
    }
    let line = note_of(setup, n)?;
    draft.notes.push(line)?;
    Ok(())
}

/// A member's round that is up ends.
fn end_member_first(draft: &mut Outcome<'_>, n: u32) -> Result<(), Memory>
    ensures drafted { OnOk result (draft_in draft.new ≡ end_first_of (Who.Member n) (draft_in draft.old)) }
    ensures bases { OnOk result (bases draft.new ≡ bases draft.old) }
{
    if !is_member_up(draft.members.as_slice(), n) {
        return Ok(());
    }
    end_member(draft, n)
}

/// A switch's round that is up ends.
fn end_switch_first(alloc: Global, draft: &mut Outcome<'_>, n: u32) -> Result<(), Memory>
    ensures drafted { OnOk result (draft_in draft.new ≡ end_first_of (Who.Switch n) (draft_in draft.old)) }
    ensures bases { OnOk result (bases draft.new ≡ bases draft.old) }
{
    if !is_switch_up(draft.switches.as_slice(), n) {
        return Ok(());
    }
    end_switch(alloc, draft, n, DownCause::Again)
}

/// A round that is up ends.
fn end_first(alloc: Global, draft: &mut Outcome<'_>, who: Who) -> Result<(), Memory>
    ensures drafted { OnOk result (draft_in draft.new ≡ end_first_of who (draft_in draft.old)) }
    ensures bases { OnOk result (bases draft.new ≡ bases draft.old) }
{
    match who {
        Who::Member(n) => end_member_first(draft, n),
        Who::Switch(n) => end_switch_first(alloc, draft, n),
        Who::Audit => Ok(()),
    }
}

/// A session comes up: a round that is up ends before, and the next one begins.
pub fn comes_up(setup: &Setup, draft: &mut Outcome<'_>, who: Who, arp: bool) -> Result<(), Memory>
    ensures drafted { OnOk result (draft_in draft.new ≡ comes_up_of setup.now who arp (draft_in draft.old)) }
    ensures bases { OnOk result (bases draft.new ≡ bases draft.old) }
{
    end_first(setup.alloc(), draft, who)?;
    match who {
        Who::Member(n) => {
            begin_member(draft, n);
            Ok(())
        }
        Who::Switch(n) => {
            begin_switch(setup.alloc(), draft, n);
            note(setup, draft, n, arp)
        }
        Who::Audit => Ok(()),
    }
}

/// A session goes: its round ends.
pub fn goes(setup: &Setup, draft: &mut Outcome<'_>, who: Who) -> Result<(), Memory>
    ensures drafted { OnOk result (draft_in draft.new ≡ goes_of who (draft_in draft.old)) }
    ensures bases { OnOk result (bases draft.new ≡ bases draft.old) }
{
    match who {
        Who::Member(n) => end_member(draft, n),
        Who::Switch(n) => end_switch(setup.alloc(), draft, n, DownCause::Gone),
        Who::Audit => Ok(()),
    }
}
