ghost use Rattle.std.specs.Prelude.{◌≡◌, ◌<◌, ◌≤◌, ◌^◌, IfOk, length, drop};
ghost use Rattle.alg_priority.specs.Levels.{capped};
ghost use Rattle.policy_expr.specs.Policy.{policy_of};
ghost use Rattle.policy_expr.specs.Sizes.{HasBitsOf, leaf_count, size_by_leaf};

use alg_priority::{size_concat, size_shift, size_sum};
use cv_io::{List, Memory};

/// A policy over the members of one virtual switch.
#[derive(Debug, Drop)]
pub enum Expr {
    /// A member by its number.
    Member { index: u32 },
    /// Both act.
    Par { left: Box<Expr>, right: Box<Expr> },
    /// The left acts, and the right on the packets that the left passes on.
    Seq { left: Box<Expr>, right: Box<Expr> },
    /// The left acts where it has a rule, else the right.
    Over { left: Box<Expr>, right: Box<Expr> },
}

impl Expr {
    /// A copy, which stands for the same policy.
    pub fn copy(&self) -> Result<Expr, Memory>
        ensures { IfOk result (λ copied. policy_of copied ≡ policy_of self.now) }
    {
        Ok(match self {
            Expr::Member { index } => Expr::Member { index: *index },
            Expr::Par { left, right } => Expr::Par {
                left: Box::new(*Box::allocator(left), left.copy()?)?,
                right: Box::new(*Box::allocator(right), right.copy()?)?,
            },
            Expr::Seq { left, right } => Expr::Seq {
                left: Box::new(*Box::allocator(left), left.copy()?)?,
                right: Box::new(*Box::allocator(right), right.copy()?)?,
            },
            Expr::Over { left, right } => Expr::Over {
                left: Box::new(*Box::allocator(left), left.copy()?)?,
                right: Box::new(*Box::allocator(right), right.copy()?)?,
            },
        })
    }

    /// How many levels the rules of the expression have, at most the greatest u64. `bits` has one
    /// number for each leaf, from left to right: a leaf of b bits has 2^b levels.
    pub fn size(&self, bits: &List<u32>) -> u64
        requires { length bits.now ≡ leaf_count (policy_of self.now) }
        ensures by_leaf { result ≡ capped (size_by_leaf bits.now (policy_of self.now)) }

        // Where each leaf's bits are those of its member, the size is that of the members' levels.
        ensures by_member { HasBitsOf result bits.now (policy_of self.now) }
    {
        self.size_and_rest(bits.as_slice()).0
    }

    /// The size by the bits at the front, and the bits after those of this expression.
    fn size_and_rest<'a>(&self, bits: &'a [u32]) -> (u64, &'a [u32])
        requires { leaf_count (policy_of self.now) ≤ length bits.now }
        ensures size { result.0 ≡ capped (size_by_leaf bits.now (policy_of self.now)) }
        ensures rest { result.1.now ≡ drop (leaf_count (policy_of self.now)) bits.now }
    {
        match self {
            Expr::Member { .. } => (levels_of(bits[0]), &bits[1..]),
            Expr::Par { left, right } => {
                let (a, after) = left.size_and_rest(bits);
                let (b, rest) = right.size_and_rest(after);
                (size_sum(a, b), rest)
            }
            Expr::Seq { left, right } => {
                let (a, after) = left.size_and_rest(bits);
                let (b, rest) = right.size_and_rest(after);
                (size_concat(a, b), rest)
            }
            Expr::Over { left, right } => {
                let (a, after) = left.size_and_rest(bits);
                let (b, rest) = right.size_and_rest(after);
                (size_shift(a, b), rest)
            }
        }
    }
}

/// 2 to the power of `bits`, at most the greatest u64.
fn levels_of(bits: u32) -> u64
    ensures { result ≡ capped (2 ^ bits) }
{
    if bits < 64 { 1 << bits } else { u64::MAX }
}
