// The rules on the names of an expression.
ghost use Rattle.std.specs.Prelude.{◌≡◌, ◌≤◌, ◌&&◌, not, [], ◌++◌, None, IfOk, IfErr, OnOk, IsTrue, length};
ghost use Rattle.std.specs.Option.{option_copied};
ghost use Rattle.policy_expr.specs.Policy.{policy_of};
ghost use Rattle.policy_expr.specs.Members.{is_plain, first_unknown, first_repeated, first_unused, left_leaves};
ghost use Rattle.policy_expr.specs.Members.{first_left};
ghost use Rattle.policy_expr.specs.Reading.{refusal};
ghost use Rattle.policy_expr.specs.Contexts.{read_of};
ghost use Rattle.policy_expr.specs.Outcomes.{IsRefusal};

use crate::context::Parsed;
use crate::expr::Expr;
use crate::fault::ExprFault;
use crate::member::MemberName;
use crate::names::{is_member, is_named, is_plain};
use cv_io::{Duplicate, Memory, Text};
use std::alloc::Global;

/// A composed list of actions holds those of so many leaves.
const MOST_LEAVES: usize = 12;

/// The first name that no member has.
fn first_unknown<'a>(names: &'a [Text], members: &[MemberName]) -> Option<&'a Text>
    ensures { option_copied result ≡ first_unknown members.now names.now }
{
    for name in names {
        if !is_member(members, name) {
            return Some(name);
        }
    }
    None
}

/// The first name that stands again.
fn first_repeated(names: &[Text]) -> Option<&Text>
    ensures { option_copied result ≡ first_repeated [] names.now }
{
    for (i, name) in names.iter().enumerate() {
        if is_named(&names[..i], name) {
            return Some(name);
        }
    }
    None
}

/// The name of the first member that is not named.
fn first_unused<'a>(names: &[Text], members: &'a [MemberName]) -> Option<&'a Text>
    ensures { option_copied result ≡ first_unused names.now members.now }
{
    for member in members {
        if !is_named(names, &member.name) {
            return Some(&member.name);
        }
    }
    None
}

/// Appends for each leaf whether it stands in a left operand of `+`; `inside` says so of the whole.
fn push_left_leaves(expr: &Expr, inside: bool, leaves: &mut Vec<bool>) -> Result<(), Memory>
    ensures { OnOk result (leaves.new.items ≡ leaves.old.items ++ left_leaves inside (policy_of expr.now)) }
{
    match expr {
        Expr::Member { .. } => leaves.push(inside)?,
        Expr::Par { left, right } => {
            push_left_leaves(left, true, leaves)?;
            push_left_leaves(right, inside, leaves)?;
        }
        Expr::Seq { left, right } | Expr::Over { left, right } => {
            push_left_leaves(left, inside, leaves)?;
            push_left_leaves(right, inside, leaves)?;
        }
    }
    Ok(())
}

/// Whether a leaf may not stand where it does.
fn is_refused(left: bool, name: &Text, members: &[MemberName]) -> bool
    ensures { result ≡ (left && not (is_plain members.now name.now)) }
{
    left && !is_plain(members, name)
}

/// The first name in a left operand of `+` whose member is not plain.
fn first_left<'a>(leaves: &[bool], names: &'a [Text], members: &[MemberName]) -> Option<&'a Text>
    ensures { option_copied result ≡ first_left members.now leaves.now names.now }
{
    for i in 0..leaves.len().min(names.len()) {
        if is_refused(leaves[i], &names[i], members) {
            return Some(&names[i]);
        }
    }
    None
}

/// Tests the names and their number, and what stands left of `+`.
pub fn check(alloc: Global, parsed: &Parsed, members: &[MemberName]) -> Result<(), ExprFault>
    requires { length parsed.now.names ≤ 1024 }
    ensures accepted { OnOk result (refusal members.now (read_of parsed.now) ≡ None) }
    ensures refused { IfErr result (IsRefusal (refusal members.now (read_of parsed.now))) }
{
    let names = parsed.names.as_slice();
    if let Some(name) = first_unknown(names, members) {
        return Err(ExprFault::Unknown { name: name.copy()? });
    }
    if let Some(name) = first_repeated(names) {
        return Err(ExprFault::Twice { name: name.copy()? });
    }
    if let Some(name) = first_unused(names, members) {
        return Err(ExprFault::Unused { name: name.copy()? });
    }
    if names.len() > MOST_LEAVES {
        return Err(ExprFault::TooMany {
            leaves: names.len() as u32,
        });
    }
    let mut leaves = Vec::new(alloc);
    push_left_leaves(&parsed.expr, false, &mut leaves)?;
    if let Some(name) = first_left(&leaves, names, members) {
        return Err(ExprFault::ParallelLeft { name: name.copy()? });
    }
    Ok(())
}
