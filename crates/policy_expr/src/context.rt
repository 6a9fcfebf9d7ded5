use crate::expr::Expr;
use cv_io::{List, Text};

/// What stands before an operand inside one pair of parentheses: the left of `|>`, of `+` and of `>>`.
#[derive(Drop)]
pub struct Pending {
    pub over: Option<Expr>,
    pub par: Option<Expr>,
    pub seq: Option<Expr>,
}

/// What was read round an operand: what is pending outside each open parenthesis, the innermost last,
/// what is pending inside it, and the names so far.
#[derive(Drop)]
pub struct Context {
    pub outside: Vec<Pending>,
    pub inside: Pending,
    pub names: List<Text>,
}

/// How far a text is read: with the last operand an operator may follow, without one it is wanted.
#[derive(Drop)]
pub struct Progress {
    pub context: Context,
    pub operand: Option<Expr>,
}

/// An expression, and the names of its leaves from left to right.
#[derive(Drop)]
pub struct Parsed {
    pub expr: Expr,
    pub names: List<Text>,
}
