ghost use Rattle.std.specs.Prelude.{◌≡◌, Ok, IfOk, IfErr, MatchResult};
ghost use Rattle.policy_expr.specs.Policy.{Policy, policy_of};
ghost use Rattle.policy_expr.specs.Reading.{reading};
ghost use Rattle.policy_expr.specs.Outcomes.{IsFaultOf};
ghost use Rattle.policy_expr.specs.Accepting.{IsAccepted, IsFaultIn};

use crate::check::check;
use crate::expr::Expr;
use crate::fault::ExprFault;
use crate::member::MemberName;
use crate::reader::read;
use cv_io::{List, Text};
use std::alloc::Global;

/// A text has at most so many bytes.
const LONGEST_TEXT: usize = 1_024;

/// The expression that the text stands for.
///
/// `over = par { "|>" par }`, `par = seq { "+" seq }`, `seq = atom { ">>" atom }`,
/// `atom = NAME | "(" over ")"`, all grouping to the left. Blanks separate names and are optional
/// elsewhere. Each member is named exactly once. Of several faults the first in the order of
/// [`ExprFault`] is answered, and of one kind the first in the text, or for `Unused` in the list.
pub fn parse(alloc: Global, text: &Text, members: &List<MemberName>) -> Result<Expr, ExprFault>
    // What is accepted derives from the grammar with this tree, and breaks no rule.
    ensures found { IfOk result (λ expr. IsAccepted members.now text.now (policy_of expr)) }
    // What derives and breaks no rule is accepted, unless memory runs out.
    ensures only { (p : Policy) → IsAccepted members.now text.now p
        → MatchResult result (λ expr. policy_of expr ≡ p) (λ fault. fault ≡ ExprFault.Memory) }
    // A fault is the first.
    ensures first { IfErr result (IsFaultIn members.now text.now) }
    // Which result it is, as a function of the text.
    ensures read { IfOk result (λ expr. reading members.now text.now ≡ Ok (policy_of expr)) }
    ensures fault { IfErr result (IsFaultOf (reading members.now text.now)) }
{
    parse_signs(alloc, text, members)
}

/// Reads the signs one after the other, and then tests the names.
fn parse_signs(alloc: Global, text: &Text, members: &List<MemberName>) -> Result<Expr, ExprFault>
    ensures read { IfOk result (λ expr. reading members.now text.now ≡ Ok (policy_of expr)) }
    ensures fault { IfErr result (IsFaultOf (reading members.now text.now)) }
{
    if text.len() > LONGEST_TEXT {
        return Err(ExprFault::Syntax { at: 1_024 });
    }
    let parsed = read(alloc, text.as_bytes(), members.as_slice())?;
    check(alloc, &parsed, members.as_slice())?;
    Ok(parsed.expr)
}
