//! A virtual switch gets another expression.
ghost use Rattle.std.specs.Prelude.{◌≡◌, IfOk, Ok, OnOk, Some, map};
ghost use Rattle.policy_expr.specs.Policy.{policy_of};
ghost use Rattle.policy_expr.specs.Reading.{reading};
ghost use Rattle.machine_drafts.specs.ExprsDrafts.{IsReadAs};
ghost use Rattle.policies.specs.Policies.{plan};
ghost use Rattle.policies.specs.Widths.{too_wide_in};
ghost use Rattle.machine_meaning.specs.Names.{virtual_name as virtual_name_of};
ghost use Rattle.machine_drafts.specs.Outcomes.{bases, draft_in};
ghost use Rattle.machine_meaning.specs.Replacing.{exprs_with as exprs_with_of, refusal_kind as refusal_kind_of};
ghost use Rattle.machine_meaning.specs.Replacing.{refuse_expr as refuse_expr_of, replace_by as replace_by_of};
ghost use Rattle.machine_meaning.specs.Replacing.{replace_expr as replace_expr_of, replaces};
ghost use Rattle.machine_meaning.specs.Replacing.{width_refusal as width_refusal_of};

use cv_io::{Duplicate, List, Memory, Text};
use events::{PolicyRefusal, Reply};
use machine_drafts::exprs_draft::{Exprs, set_expr};
use machine_drafts::outcome::Outcome;
use machine_drafts::setup::Setup;
use member_replies::policy_line;
use policies::{PolicyFault, check_widths, expr_kind, names};
use policy_expr::{Expr, ExprFault, MemberName, parse};
use std::alloc::Global;

/// The name of a virtual switch.
fn virtual_name(setup: &Setup, v: u32) -> Result<Text, Memory>
    ensures { IfOk result (λ name. name ≡ virtual_name_of setup.now v) }
{
    match setup.virtual_at(v) {
        Some(item) => item.name.copy(),
        None => Ok(Text::new(setup.alloc())),
    }
}

/// The word for a refusal.
#[tactic(auto, using(crate::proofs::FaultKinds::ascii_kind, crate::proofs::FaultKinds::ascii_width))]
fn refusal_kind(alloc: Global, refusal: &PolicyRefusal) -> Result<Text, Memory>
    ensures { IfOk result (λ kind. kind ≡ refusal_kind_of refusal.now) }
{
    match refusal {
        PolicyRefusal::Expr { fault } => Text::from_slice(alloc, expr_kind(fault).as_bytes()),
        PolicyRefusal::TooWide { .. } => Text::from_slice(alloc, "toowide".as_bytes()),
    }
}

/// The virtual switch keeps its expression.
fn refuse_expr(
    setup: &Setup,
    draft: &mut Outcome<'_>,
    v: u32,
    refusal: PolicyRefusal,
) -> Result<(), Memory>
    ensures drafted { OnOk result (draft_in draft.new ≡ refuse_expr_of setup.now v refusal (draft_in draft.old)) }
    ensures bases { OnOk result (bases draft.new ≡ bases draft.old) }
{
    let kind = refusal_kind(setup.alloc(), &refusal)?;
    let name = virtual_name(setup, v)?;
    let line = policy_line(setup.alloc(), &name, Some(kind))?;
    draft.policies.push(line)?;
    draft.reply = Reply::Refused { fault: refusal };
    Ok(())
}

/// The virtual switch gets the other.
fn replace_expr(setup: &Setup, draft: &mut Outcome<'_>, v: u32, expr: Expr) -> Result<(), Memory>
    ensures drafted { OnOk result (draft_in draft.new
        ≡ replace_expr_of setup.now v (policy_of expr) (draft_in draft.old)) }
    ensures bases { OnOk result (bases draft.new ≡ bases draft.old) }
{
    let name = virtual_name(setup, v)?;
    let line = policy_line(setup.alloc(), &name, None)?;
    draft.policies.push(line)?;
    draft.exprs.replace(v, expr)?;
    draft.reply = Reply::Replaced;
    Ok(())
}

/// The expressions with another one for a virtual switch.
fn exprs_with(alloc: Global, exprs: &Exprs<'_>, v: u32, expr: &Expr) -> Result<List<Expr>, Memory>
    ensures { IfOk result (λ all. map policy_of all ≡ exprs_with_of v (policy_of expr.now) exprs.now.now) }
{
    let mut all = exprs.all(alloc)?;
    let other = expr.copy()?;
    set_expr(&mut all, v, other);
    Ok(all)
}

/// The refusal that a fault of a policy is.
fn refusal_of(fault: PolicyFault) -> Option<PolicyRefusal>
    ensures { result ≡ width_refusal_of (Some fault) }
{
    match fault {
        PolicyFault::TooWide { needed, limit, .. } => Some(PolicyRefusal::TooWide {
            needed,
            limit,
        }),
        _ => None,
    }
}

/// Why there aren't levels enough for these expressions, if there aren't.
fn width_refusal(setup: &Setup, exprs: &[Expr]) -> Result<Option<PolicyRefusal>, Memory>
    ensures { IfOk result (λ refusal. refusal ≡ width_refusal_of
        (too_wide_in (plan setup.now) setup.now.members (map policy_of exprs.now) setup.now.hops)) }
{
    let alloc = setup.alloc();
    let hops = setup.policy().hops;
    match check_widths(alloc, setup.topology(), exprs, setup.members(), hops) {
        Ok(()) => Ok(None),
        Err(PolicyFault::Memory) => Err(Memory),
        Err(fault) => Ok(refusal_of(fault)),
    }
}

/// An expression of the virtual switch is refused where there aren't levels enough for it.
fn replace_by(setup: &Setup, draft: &mut Outcome<'_>, v: u32, expr: Expr) -> Result<(), Memory>
    ensures drafted { OnOk result (draft_in draft.new
        ≡ replace_by_of setup.now v (Ok (policy_of expr)) (draft_in draft.old)) }
    ensures bases { OnOk result (bases draft.new ≡ bases draft.old) }
{
    let all = exprs_with(setup.alloc(), &draft.exprs, v, &expr)?;
    match width_refusal(setup, all.as_slice())? {
        Some(refusal) => refuse_expr(setup, draft, v, refusal),
        None => replace_expr(setup, draft, v, expr),
    }
}

/// The expression over these members that a text is, or its fault.
#[tactic(auto, using(crate::proofs::Replaced::fault_read))]
fn read_expr(
    alloc: Global,
    text: &Text,
    members: &List<MemberName>,
) -> Result<Result<Expr, ExprFault>, Memory>
    ensures { IfOk result (IsReadAs (reading members.now text.now)) }
{
    match parse(alloc, text, members) {
        Ok(expr) => Ok(Ok(expr)),
        Err(ExprFault::Memory) => Err(Memory),
        Err(fault) => Ok(Err(fault)),
    }
}

/// A virtual switch gets another expression. A text that is no expression of it is refused, and then one by which
/// there aren't enough levels.
pub fn replace(setup: &Setup, draft: &mut Outcome<'_>, v: u32, text: &Text) -> Result<(), Memory>
    ensures drafted { OnOk result (draft_in draft.new ≡ replaces setup.now v text.now (draft_in draft.old)) }
    ensures bases { OnOk result (bases draft.new ≡ bases draft.old) }
{
    let members = names(setup.alloc(), setup.members(), v)?;
    match read_expr(setup.alloc(), text, &members)? {
        Ok(expr) => replace_by(setup, draft, v, expr),
        Err(fault) => refuse_expr(setup, draft, v, PolicyRefusal::Expr { fault }),
    }
}
