//! What an event makes of the expressions of the virtual switches, beside them as they stand.
ghost use Rattle.std.specs.Prelude.{◌≡◌, IfOk, IsTrue, OnOk, map};
ghost use Rattle.policy_expr.specs.Policy.{policy_of};
ghost use Rattle.machine_drafts.specs.ExprsDrafts.{replaced_in};
ghost use Rattle.machine_meaning.specs.Replacing.{exprs_with};

use cv_io::{List, Memory};
use policy_expr::Expr;
use std::alloc::Global;
use std::marker::Model;

/// Another expression for a virtual switch.
#[derive(Drop)]
pub struct Replaced {
    pub v: u32,
    pub expr: Expr,
}

/// The expressions as they stand, and those that are replaced, the last one last.
#[derive(Drop)]
pub struct Exprs<'a> {
    base: &'a List<Expr>,
    replaced: List<Replaced>,
}

impl<'a> Model for Exprs<'a> {
    ghost use Rattle.std.specs.Prelude.{map};
    ghost use Rattle.policy_expr.specs.Policy.{policy_of};
    ghost use Rattle.machine_drafts.specs.ExprsDrafts.{ExprsOf, replaced_in};

    ghost Value = { ExprsOf };

    ghost use Rattle.std.specs.Coded.{codes};
    ghost use Rattle.policy_expr.specs.Stored.{policy_code};

    ghost coded = { Prim.hlevel (codes, policy_code) };

    ghost view = { λ a. record {
      base = map policy_of a.base.now;
      now = replaced_in a.replaced (map policy_of a.base.now);
    } };
}

/// Copies of expressions.
fn copied(alloc: Global, exprs: &[Expr]) -> Result<List<Expr>, Memory>
    ensures { IfOk result (λ copied. map policy_of copied ≡ map policy_of exprs.now) }
{
    let mut copied = List::with_capacity(alloc, exprs.len())?;
    for expr in exprs {
        copied.push(expr.copy()?)?;
    }
    Ok(copied)
}

/// A virtual switch gets another expression.
pub fn set_expr(exprs: &mut List<Expr>, v: u32, expr: Expr)
    ensures { map policy_of exprs.new ≡ exprs_with v (policy_of expr) (map policy_of exprs.old) }
{
    let v = v as usize;
    if v < exprs.len() {
        exprs.set(v, expr);
    }
}

/// Virtual switches get copies of other expressions.
fn set_copies(exprs: &mut List<Expr>, replaced: &[Replaced]) -> Result<(), Memory>
    ensures { OnOk result (map policy_of exprs.new ≡ replaced_in replaced.now (map policy_of exprs.old)) }
{
    for one in replaced {
        set_expr(exprs, one.v, one.expr.copy()?);
    }
    Ok(())
}

/// Moves the expressions in that are replaced. It takes no memory.
pub fn move_exprs(exprs: &mut List<Expr>, replaced: List<Replaced>)
    ensures { map policy_of exprs.new ≡ replaced_in replaced (map policy_of exprs.old) }
{
    for one in replaced.into_vec() {
        set_expr(exprs, one.v, one.expr);
    }
}

impl<'a> Exprs<'a> {
    /// They stay as they are. It takes no memory.
    pub fn stay(alloc: Global, base: &'a List<Expr>) -> Exprs<'a>
        ensures base { result.base ≡ map policy_of base.now }
        ensures now { result.now ≡ map policy_of base.now }
    {
        Exprs {
            base,
            replaced: List::new(alloc),
        }
    }

    /// None is replaced.
    pub fn is_kept(&self) -> bool
        ensures { IsTrue result → self.now.now ≡ self.now.base }
    {
        self.replaced.is_empty()
    }

    /// A virtual switch gets another expression.
    pub fn replace(&mut self, v: u32, expr: Expr) -> Result<(), Memory>
        ensures base { self.new.base ≡ self.old.base }
        ensures now { OnOk result (self.new.now ≡ exprs_with v (policy_of expr) self.old.now) }
    {
        self.replaced.push(Replaced { v, expr })
    }

    /// Copies of all of them, as the event leaves them so far.
    pub fn all(&self, alloc: Global) -> Result<List<Expr>, Memory>
        ensures { IfOk result (λ exprs. map policy_of exprs ≡ self.now.now) }
    {
        let mut exprs = copied(alloc, self.base.as_slice())?;
        set_copies(&mut exprs, self.replaced.as_slice())?;
        Ok(exprs)
    }

    /// What is moved in.
    pub fn into_change(self) -> List<Replaced>
        ensures { replaced_in result self.entry.base ≡ self.entry.now }
    {
        self.replaced
    }
}
