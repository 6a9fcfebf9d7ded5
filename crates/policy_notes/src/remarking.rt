//! What the operator is told of a policy before it is served.
ghost use Rattle.std.specs.Prelude.{◌≡◌, ◌==◌, ◌++◌, ◌<◌, IfOk, IsTrue, OnOk, length, map};
ghost use Rattle.std.specs.List.{enumerate_from, list_all, list_any};
ghost use Rattle.script_text.specs.Lines.{is_ascii};
ghost use Rattle.policy_expr.specs.Policy.{members_of, policy_of};
ghost use Rattle.policy_notes.specs.Notes.{said as said_of};
ghost use Rattle.policy_notes.specs.Remarks.{is_mute as is_mute_of, is_told as is_told_of, is_unheard as is_unheard_of};
ghost use Rattle.policy_notes.specs.Remarks.{left_words, member_remarks, mute_words, name_of, remark_if, remarks_of};
ghost use Rattle.policy_notes.specs.Remarks.{each_remarks, rounds_remark, served_line, shared_sentence, shares_address};
ghost use Rattle.policy_notes.specs.Remarks.{stands_left as stands_left_of};

use crate::notes::said;
use crate::sentence::{between, number_text, text_of};
use cv_io::{Memory, Text};
use grants::Kind;
use policies::{MemberItem, Policy, number};
use policy_expr::Expr;
use script_text::say;
use std::alloc::Global;

/// Whether a member of this number stands in an expression.
fn stands_in(expr: &Expr, n: u32) -> bool
    ensures { result ≡ list_any (λ other. other == n) (members_of (policy_of expr.now)) }
{
    match expr {
        Expr::Member { index } => *index == n,
        Expr::Par { left, right } | Expr::Seq { left, right } | Expr::Over { left, right } => {
            stands_in(left, n) || stands_in(right, n)
        }
    }
}

/// Whether it stands left of a `|>`.
fn stands_left(expr: &Expr, n: u32) -> bool
    ensures { result ≡ stands_left_of n (policy_of expr.now) }
{
    match expr {
        Expr::Member { .. } => false,
        Expr::Par { left, right } | Expr::Seq { left, right } => {
            stands_left(left, n) || stands_left(right, n)
        }
        Expr::Over { left, right } => stands_in(left, n) || stands_left(right, n),
    }
}

/// Whether it does in one of these.
fn stands_left_in(exprs: &[Expr], n: u32) -> bool
    ensures { result ≡ list_any (stands_left_of n) (map policy_of exprs.now) }
{
    for expr in exprs {
        if stands_left(expr, n) {
            return true;
        }
    }
    false
}

/// Whether another member, before this one, has its address.
fn shares(members: &[MemberItem], n: usize, member: &MemberItem) -> bool
    requires { n < length members.now }
    ensures { result ≡ shares_address members.now n member.now }
{
    members[..n]
        .iter()
        .any(|other| other.address == member.address)
}

/// Whether a member is told packets.
fn is_told(member: &MemberItem) -> bool
    ensures { result ≡ is_told_of member.now }
{
    member.grant.misses || (member.grant.actions >> Kind::Controller.bit()) & 1 == 1
}

/// Appends a line.
fn say_line(alloc: Global, text: &mut Text, sentence: &Text) -> Result<(), Memory>
    ensures { OnOk result (text.new ≡ text.old ++ said_of sentence.now) }
{
    text.push_text(&said(alloc, sentence)?)
}

/// A member's name, and what is said of it.
fn of_member(alloc: Global, member: &MemberItem) -> Result<Text, Memory>
    ensures { IfOk result (λ text. text ≡ name_of member.now) }
{
    let mut text = Text::new(alloc);
    text.push_text(&member.controller)?;
    say(&mut text, "@")?;
    text.push_text(&member.vsw)?;
    Ok(text)
}

/// Appends a remark on a member, where it is so.
fn say_if(
    alloc: Global,
    text: &mut Text,
    is_so: bool,
    member: &MemberItem,
    what: &Text,
) -> Result<(), Memory>
    ensures { OnOk result (text.new ≡ text.old ++ remark_if is_so member.now what.now) }
{
    if !is_so {
        return Ok(());
    }
    let mut sentence = of_member(alloc, member)?;
    sentence.push_text(what)?;
    say_line(alloc, text, &sentence)
}

/// That a member has the address of another one.
#[tactic(auto, unfolding(crate::specs::Remarks::shared_sentence))]
fn shared_text(alloc: Global, member: &MemberItem) -> Result<Text, Memory>
    ensures { IfOk result (λ text. text ≡ shared_sentence member.now.address) }
{
    between(
        alloc,
        " has the address of another member, ",
        &member.address,
        ": one controller meets both",
    )
}

/// That a member stands where it isn't told all that it asks for.
#[tactic(auto, unfolding(crate::specs::Remarks::left_words))]
fn left_text(alloc: Global) -> Result<Text, Memory>
    ensures { IfOk result (λ text. text ≡ left_words) }
{
    text_of(
        alloc,
        " stands left of |>, where misses tell it nothing unless another member there has an entry",
    )
}

/// That a member can't answer what it is told.
#[tactic(auto, unfolding(crate::specs::Remarks::mute_words))]
fn mute_text(alloc: Global) -> Result<Text, Memory>
    ensures { IfOk result (λ text. text ≡ mute_words) }
{
    text_of(
        alloc,
        " is told packets and may send none: it lacks packet_out = true",
    )
}

/// Whether a member asks for packets and stands left of a `|>`.
fn is_unheard(exprs: &[Expr], n: u32, member: &MemberItem) -> bool
    ensures { result ≡ is_unheard_of (map policy_of exprs.now) n member.now }
{
    member.grant.misses && stands_left_in(exprs, n)
}

/// Whether a member is told packets and may send none.
fn is_mute(member: &MemberItem) -> bool
    ensures { result ≡ is_mute_of member.now }
{
    is_told(member) && !member.grant.packet_out
}

/// What there is to remark of a member.
fn of_one(
    alloc: Global,
    members: &[MemberItem],
    exprs: &[Expr],
    n: usize,
    member: &MemberItem,
) -> Result<Text, Memory>
    requires { n < length members.now }
    ensures { IfOk result (λ text. text ≡ member_remarks members.now (map policy_of exprs.now) (n, member.now)) }
{
    let mut text = Text::new(alloc);
    let shares = shares(members, n, member);
    say_if(
        alloc,
        &mut text,
        shares,
        member,
        &shared_text(alloc, member)?,
    )?;
    let unheard = is_unheard(exprs, number(n)?, member);
    say_if(alloc, &mut text, unheard, member, &left_text(alloc)?)?;
    say_if(
        alloc,
        &mut text,
        is_mute(member),
        member,
        &mute_text(alloc)?,
    )?;
    Ok(text)
}

/// Appends what there is to remark of each.
fn say_members(
    alloc: Global,
    text: &mut Text,
    members: &[MemberItem],
    exprs: &[Expr],
) -> Result<(), Memory>
    ensures { OnOk result (text.new ≡ text.old
        ++ each_remarks members.now (map policy_of exprs.now) (enumerate_from 0 members.now)) }
{
    let mut n = 0;
    for member in members {
        text.push_text(&of_one(alloc, members, exprs, n, member)?)?;
        n += 1;
    }
    Ok(())
}

/// Appends that there are few rounds, where it is so.
fn say_rounds(alloc: Global, text: &mut Text, rounds: u32) -> Result<(), Memory>
    ensures { OnOk result (text.new ≡ text.old ++ rounds_remark rounds) }
{
    if rounds >= 1_000_000 {
        return Ok(());
    }
    let sentence = between(
        alloc,
        "rounds = ",
        &number_text(alloc, u64::from(rounds))?,
        ": after so many connections an endpoint is served no more; 1000000 is the most",
    )?;
    say_line(alloc, text, &sentence)
}

/// Appends where switches connect.
fn say_served(alloc: Global, text: &mut Text, listen: &Text) -> Result<(), Memory>
    ensures { OnOk result (text.new ≡ text.old ++ served_line listen.now) }
{
    let sentence = between(
        alloc,
        "switches connect at ",
        listen,
        "; each member is dialled at its address",
    )?;
    say_line(alloc, text, &sentence)
}

/// What is remarked of a policy that is to be served, a line each: few rounds, members of one address, members that are
/// told less than they ask for or can't answer what they are told; and where switches connect.
pub fn remarks(alloc: Global, policy: &Policy) -> Result<Text, Memory>
    ensures { IfOk result (λ text. text ≡ remarks_of policy.now) }
{
    let exprs = policy.exprs(alloc)?;
    let mut text = Text::new(alloc);
    say_rounds(alloc, &mut text, policy.rounds)?;
    say_members(
        alloc,
        &mut text,
        policy.members.as_slice(),
        exprs.as_slice(),
    )?;
    say_served(alloc, &mut text, &policy.listen)?;
    Ok(text)
}
