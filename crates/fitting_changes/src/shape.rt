//! Expressions of a few members.
ghost use Rattle.std.specs.Prelude.{◌≡◌, IfOk};
ghost use Rattle.policy_expr.specs.Policy.{member as member_of, policy_of};
ghost use Rattle.fitting_changes.specs.Composers.{count_of, policy_by};

use cv_io::Memory;
use policy_expr::Expr;
use std::alloc::Global;

/// Which members stand under which operators; they are numbered from left to right.
#[derive(Clone, Copy, PartialEq, Eq, Debug)]
pub enum Shape {
    /// `a + b`
    Parallel,
    /// `a >> b`
    Sequential,
    /// `a |> b`
    Override,
    /// `(a |> b) + (c >> d)`
    Mixed,
}

/// The expression of a member.
fn member(alloc: Global, index: u32) -> Result<Box<Expr>, Memory>
    ensures { IfOk result (λ expr. policy_of expr.value ≡ member_of index) }
{
    Ok(Box::new(alloc, Expr::Member { index })?)
}

impl Shape {
    /// How many members it has.
    pub fn members(self) -> u32
        ensures { result ≡ count_of self }
    {
        match self {
            Shape::Mixed => 4,
            _ => 2,
        }
    }

    /// The expression.
    pub fn expr(self, alloc: Global) -> Result<Expr, Memory>
        ensures { IfOk result (λ expr. policy_of expr ≡ policy_by self) }
    {
        let left = member(alloc, 0)?;
        let right = member(alloc, 1)?;
        Ok(match self {
            Shape::Parallel => Expr::Par { left, right },
            Shape::Sequential => Expr::Seq { left, right },
            Shape::Override => Expr::Over { left, right },
            Shape::Mixed => {
                let third = member(alloc, 2)?;
                let fourth = member(alloc, 3)?;
                let over = Expr::Over { left, right };
                let seq = Expr::Seq {
                    left: third,
                    right: fourth,
                };
                Expr::Par {
                    left: Box::new(alloc, over)?,
                    right: Box::new(alloc, seq)?,
                }
            }
        })
    }
}
