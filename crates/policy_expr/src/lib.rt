//! Expressions that compose the members of a virtual network: `a + b` (both act), `a >> b` (the left,
//! then the right on what the left passes), `a |> b` (the left where it has a rule, else the right).
#![tactic(auto)]

mod check;
mod context;
mod expr;
mod fault;
mod laws;
mod lexer;
mod member;
mod names;
mod operator;
mod parsing;
mod reader;
mod step;
mod token;

pub use expr::Expr;
pub use fault::ExprFault;
pub use laws::one_tree;
pub use member::MemberName;
pub use parsing::parse;
