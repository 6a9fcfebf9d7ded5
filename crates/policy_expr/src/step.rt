// One step of reading: what a sign does where it stands.
ghost use Rattle.std.specs.Prelude.{◌≡◌, ◌<◌, ◌≤◌, [], None, Some, IfOk, length};
ghost use Rattle.std.specs.Option.{option_map};
ghost use Rattle.cv_io.specs.Text.{IsAsciiText};
ghost use Rattle.policy_expr.specs.Policy.{policy_of};
ghost use Rattle.policy_expr.specs.Reading.{joined, after_chain, after_plus, after_fallback, whole, ended};
ghost use Rattle.policy_expr.specs.Reading.{operand_step, operator_step, step, start, nothing};
ghost use Rattle.policy_expr.specs.Contexts.{pending_of, state_at, state_of, read_of};
ghost use Rattle.policy_expr.specs.Tokens.{seen, IsInside};
ghost use Rattle.policy_expr.specs.Operators.{operator_of};
ghost use Rattle.policy_expr.specs.Members.{index_of};

use crate::context::{Context, Parsed, Pending, Progress};
use crate::expr::Expr;
use crate::member::MemberName;
use crate::names::index_of;
use crate::operator::Operator;
use crate::token::Token;
use cv_io::{List, Memory, Text};
use std::alloc::Global;

/// Parentheses may stand so deep.
const DEEPEST: usize = 32;

/// An operand with what stands to its left.
fn joined(
    alloc: Global,
    operator: Operator,
    left: Option<Expr>,
    right: Expr,
) -> Result<Expr, Memory>
    ensures { IfOk result (λ e. policy_of e ≡ joined (operator_of operator) (option_map policy_of left)
        (policy_of right)) }
{
    let Some(left) = left else {
        return Ok(right);
    };
    let left = Box::new(alloc, left)?;
    let right = Box::new(alloc, right)?;
    Ok(match operator {
        Operator::Par => Expr::Par { left, right },
        Operator::Seq => Expr::Seq { left, right },
        Operator::Over => Expr::Over { left, right },
    })
}

impl Pending {
    /// Nothing stands before the operand.
    fn nothing() -> Pending
        ensures { pending_of result ≡ nothing }
    {
        Pending {
            over: None,
            par: None,
            seq: None,
        }
    }

    /// What stands before the next operand of a chain.
    fn chained(self, alloc: Global, operand: Expr) -> Result<Pending, Memory>
        ensures { IfOk result (λ after. pending_of after ≡ after_chain (pending_of self) (policy_of operand)) }
    {
        let Pending { over, par, seq } = self;
        let chain = joined(alloc, Operator::Seq, seq, operand)?;
        Ok(Pending {
            over,
            par,
            seq: Some(chain),
        })
    }

    /// What stands before the next chain of a sum.
    fn summed(self, alloc: Global, operand: Expr) -> Result<Pending, Memory>
        ensures { IfOk result (λ after. pending_of after ≡ after_plus (pending_of self) (policy_of operand)) }
    {
        let Pending { over, par, seq } = self;
        let chain = joined(alloc, Operator::Seq, seq, operand)?;
        let sum = joined(alloc, Operator::Par, par, chain)?;
        Ok(Pending {
            over,
            par: Some(sum),
            seq: None,
        })
    }

    /// What stands before the next sum of the whole.
    fn left(self, alloc: Global, operand: Expr) -> Result<Pending, Memory>
        ensures { IfOk result (λ after. pending_of after ≡ after_fallback (pending_of self) (policy_of operand)) }
    {
        Ok(Pending {
            over: Some(self.whole(alloc, operand)?),
            par: None,
            seq: None,
        })
    }

    /// The whole inside of the parentheses, which ends with this operand.
    fn whole(self, alloc: Global, operand: Expr) -> Result<Expr, Memory>
        ensures { IfOk result (λ e. policy_of e ≡ whole (pending_of self) (policy_of operand)) }
    {
        let Pending { over, par, seq } = self;
        let chain = joined(alloc, Operator::Seq, seq, operand)?;
        let sum = joined(alloc, Operator::Par, par, chain)?;
        joined(alloc, Operator::Over, over, sum)
    }
}

impl Context {
    /// What a sign does where an operand is wanted, if it may stand there. The bytes begin with the sign.
    fn operand_step(
        self,
        alloc: Global,
        token: Token,
        bytes: &[u8],
        members: &[MemberName],
    ) -> Result<Option<Progress>, Memory>
        requires inside { IsInside bytes.now token }
        requires ascii { IsAsciiText bytes.now }
        ensures { IfOk result (λ after. option_map state_of after
            ≡ operand_step members.now (state_at self None) (seen bytes.now token)) }
    {
        let Context {
            mut outside,
            inside,
            mut names,
        } = self;
        match token {
            Token::Name { len } => {
                let name = &bytes[..len];
                let index = index_of(members, name);
                names.push(Text::from_slice(alloc, name)?)?;
                Ok(Some(Progress {
                    context: Context {
                        outside,
                        inside,
                        names,
                    },
                    operand: Some(Expr::Member { index }),
                }))
            }
            Token::Open => {
                if outside.len() >= DEEPEST {
                    return Ok(None);
                }
                outside.push(inside)?;
                Ok(Some(Progress {
                    context: Context {
                        outside,
                        inside: Pending::nothing(),
                        names,
                    },
                    operand: None,
                }))
            }
            _ => Ok(None),
        }
    }

    /// What a sign does behind an operand, if it may stand there.
    fn operator_step(
        self,
        alloc: Global,
        operand: Expr,
        token: Token,
        bytes: &[u8],
    ) -> Result<Option<Progress>, Memory>
        ensures { IfOk result (λ after. option_map state_of after
            ≡ operator_step (policy_of operand) (state_at self (Some (policy_of operand))) (seen bytes.now token)) }
    {
        let Context {
            mut outside,
            inside,
            names,
        } = self;
        let inside = match token {
            Token::Then => inside.chained(alloc, operand)?,
            Token::Plus => inside.summed(alloc, operand)?,
            Token::Else => inside.left(alloc, operand)?,
            Token::Close => {
                let whole = inside.whole(alloc, operand)?;
                return Ok(match outside.pop() {
                    Some(inside) => Some(Progress {
                        context: Context {
                            outside,
                            inside,
                            names,
                        },
                        operand: Some(whole),
                    }),
                    None => None,
                });
            }
            _ => return Ok(None),
        };
        Ok(Some(Progress {
            context: Context {
                outside,
                inside,
                names,
            },
            operand: None,
        }))
    }
}

impl Progress {
    /// Nothing is read yet.
    pub fn start(alloc: Global) -> Progress
        ensures { state_of result ≡ start }
    {
        Progress {
            context: Context {
                outside: Vec::new(alloc),
                inside: Pending::nothing(),
                names: List::new(alloc),
            },
            operand: None,
        }
    }

    /// How far the text is read with one sign more, if it may stand there.
    pub fn next(
        self,
        alloc: Global,
        token: Token,
        bytes: &[u8],
        members: &[MemberName],
    ) -> Result<Option<Progress>, Memory>
        requires inside { IsInside bytes.now token }
        requires ascii { IsAsciiText bytes.now }
        ensures { IfOk result (λ after. option_map state_of after
            ≡ step members.now (state_of self) (seen bytes.now token)) }
    {
        let Progress { context, operand } = self;
        match operand {
            None => context.operand_step(alloc, token, bytes, members),
            Some(operand) => context.operator_step(alloc, operand, token, bytes),
        }
    }

    /// The expression and its names, if the text may end here.
    pub fn end(self, alloc: Global) -> Result<Option<Parsed>, Memory>
        ensures { IfOk result (λ parsed. option_map read_of parsed ≡ ended (state_of self)) }
    {
        let Progress { context, operand } = self;
        let Context {
            outside,
            inside,
            names,
        } = context;
        let Some(operand) = operand else {
            return Ok(None);
        };
        if !outside.is_empty() {
            return Ok(None);
        }
        let expr = inside.whole(alloc, operand)?;
        Ok(Some(Parsed { expr, names }))
    }
}
