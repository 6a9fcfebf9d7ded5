//! What is said is put together for each member and each switch.
ghost use Rattle.std.specs.Prelude.{◌≡◌, ◌++◌, IfOk, OnOk};
ghost use Rattle.event_ends.specs.Boxes.{addressed, put_letter, put_letters, unaddressed};

use cv_io::{List, Memory};
use machine_drafts::member_draft::MemberDraft;
use machine_drafts::switch_draft::SwitchDraft;
use machine_meaning::Letter;
use outbox::Letters;
use std::alloc::Global;

/// The draft of a member or of a switch, and what is said to it.
#[derive(Drop)]
pub struct Addressed<D> {
    pub draft: D,
    pub letters: Letters,
}

/// Nothing is said to any of them yet.
fn unsaid<D: Drop>(alloc: Global, drafts: List<D>) -> Result<Vec<Addressed<D>>, Memory>
    ensures { IfOk result (λ all. all.items ≡ unaddressed drafts) }
{
    let mut all = Vec::new(alloc);
    for draft in drafts.into_vec() {
        all.push(Addressed {
            draft,
            letters: Letters::new(alloc),
        })?;
    }
    Ok(all)
}

/// One more message is said, where there is such a receiver.
fn say<D: Drop>(all: &mut Vec<Addressed<D>>, letter: Letter) -> Result<(), Memory>
    ensures { OnOk result (all.new.items ≡ put_letter all.old.items letter) }
{
    let place = letter.to as usize;
    if place < all.len() {
        all[place].letters.push(letter.bytes)?;
    }
    Ok(())
}

/// More messages are said.
fn say_all<D: Drop>(all: &mut Vec<Addressed<D>>, letters: List<Letter>) -> Result<(), Memory>
    ensures { OnOk result (all.new.items ≡ put_letters letters all.old.items) }
{
    for letter in letters.into_vec() {
        say(all, letter)?;
    }
    Ok(())
}

/// What is said to members, in the order in which it is put.
#[derive(Drop)]
pub struct ToMembers {
    pub answers: List<Letter>,
    pub ports: List<Letter>,
    pub settled: List<Letter>,
    pub removed: List<Letter>,
    pub told: List<Letter>,
}

/// What is said to switches, in the order in which it is put.
#[derive(Drop)]
pub struct ToSwitches {
    pub batches: List<Letter>,
    pub polls: List<Letter>,
    pub packets: List<Letter>,
    pub echoes: List<Letter>,
}

/// The drafts of members, each with what is said to it.
pub fn to_members<'a>(
    alloc: Global,
    members: List<MemberDraft<'a>>,
    said: ToMembers,
) -> Result<List<Addressed<MemberDraft<'a>>>, Memory>
    ensures { IfOk result (λ all. all
        ≡ addressed (said.answers ++ (said.ports ++ (said.settled ++ (said.removed ++ said.told)))) members.entry) }
{
    let mut all = unsaid(alloc, members)?;
    say_all(&mut all, said.answers)?;
    say_all(&mut all, said.ports)?;
    say_all(&mut all, said.settled)?;
    say_all(&mut all, said.removed)?;
    say_all(&mut all, said.told)?;
    Ok(List::from_vec(all))
}

/// The drafts of switches, each with what is said to it.
pub fn to_switches<'a>(
    alloc: Global,
    switches: List<SwitchDraft<'a>>,
    said: ToSwitches,
) -> Result<List<Addressed<SwitchDraft<'a>>>, Memory>
    ensures { IfOk result (λ all. all
        ≡ addressed (said.batches ++ (said.polls ++ (said.packets ++ said.echoes))) switches.entry) }
{
    let mut all = unsaid(alloc, switches)?;
    say_all(&mut all, said.batches)?;
    say_all(&mut all, said.polls)?;
    say_all(&mut all, said.packets)?;
    say_all(&mut all, said.echoes)?;
    Ok(List::from_vec(all))
}
