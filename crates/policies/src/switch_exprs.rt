//! The expressions of the virtual switches.
ghost use Rattle.std.specs.Prelude.{◌≡◌, ◌⊎◌, IfOk, IfErr, Ok, map};
ghost use Rattle.policy_expr.specs.Policy.{policy_of};
ghost use Rattle.policies.specs.Exprs.{is_plain as is_plain_of, name_at as name_at_of, names as names_of, expr_of};
ghost use Rattle.policies.specs.Exprs.{exprs_of};
ghost use Rattle.policies.specs.Outcomes.{IsFaultOf};

use crate::fault::PolicyFault;
use crate::numbers::number;
use crate::policy::MemberItem;
use cv_io::{Duplicate, List, Memory, Text};
use grants::Kind;
use policy_expr::{Expr, ExprFault, MemberName};
use std::alloc::Global;
use virtual_topology::VirtualItem;

/// Whether a set of kinds has none but output and controller.
fn is_plain(actions: u32) -> bool
    ensures { result ≡ is_plain_of actions }
{
    actions < 1 << (Kind::Controller.bit() + 1)
}

/// The name of a member of this number, if it is one of the virtual switch.
fn name_at(v: u32, index: usize, member: &MemberItem) -> Result<Option<MemberName>, Memory>
    ensures { IfOk result (λ name. name ≡ name_at_of v (index, member.now)) }
{
    if member.grant.ports.v != v {
        return Ok(None);
    }
    Ok(Some(MemberName {
        name: member.controller.copy()?,
        index: number(index)?,
        plain: is_plain(member.grant.actions),
    }))
}

/// The members of a virtual switch, as its expression may name them.
pub fn names(alloc: Global, members: &[MemberItem], v: u32) -> Result<List<MemberName>, Memory>
    ensures { IfOk result (λ names. names ≡ names_of members.now v) }
{
    let mut names = List::new(alloc);
    for (index, member) in members.iter().enumerate() {
        let name = name_at(v, index, member)?;
        names.push_some(name)?;
    }
    Ok(names)
}

/// The fault of an expression.
fn fault_at(name: &Text, fault: ExprFault) -> PolicyFault
    ensures fault { (result ≡ PolicyFault.Memory) ⊎ (result ≡ PolicyFault.Expr name.now fault) }
    ensures memory { fault ≡ ExprFault.Memory → result ≡ PolicyFault.Memory }
{
    match (fault, name.copy()) {
        (ExprFault::Memory, _) | (_, Err(_)) => PolicyFault::Memory,
        (fault, Ok(name)) => PolicyFault::Expr { name, fault },
    }
}

#[tactic(auto, using(crate::proofs::Expressions::named_fault))]
/// The expression of a virtual switch of this number.
fn expr(
    alloc: Global,
    members: &[MemberItem],
    v: u32,
    item: &VirtualItem,
) -> Result<Expr, PolicyFault>
    ensures read { IfOk result (λ e. expr_of members.now (v, item.now) ≡ Ok (policy_of e)) }
    ensures fault { IfErr result (IsFaultOf (expr_of members.now (v, item.now))) }
{
    let names = names(alloc, members, v)?;
    match policy_expr::parse(alloc, &item.expr, &names) {
        Ok(expr) => Ok(expr),
        Err(fault) => Err(fault_at(&item.name, fault)),
    }
}

#[tactic(auto, using(crate::proofs::Numbered::rest_numbered, crate::proofs::Numbered::none_left, crate::proofs::Expressions::one_more))]
/// The expressions, by virtual switch.
pub fn exprs(
    alloc: Global,
    virtuals: &[VirtualItem],
    members: &[MemberItem],
) -> Result<List<Expr>, PolicyFault>
    ensures read { IfOk result (λ es. exprs_of virtuals.now members.now ≡ Ok (map policy_of es)) }
    ensures fault { IfErr result (IsFaultOf (exprs_of virtuals.now members.now)) }
{
    let mut exprs = List::new(alloc);
    for (v, item) in virtuals.iter().enumerate() {
        exprs.push(expr(alloc, members, number(v)?, item)?)?;
    }
    Ok(exprs)
}
