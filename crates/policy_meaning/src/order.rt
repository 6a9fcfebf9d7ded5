//! The order in which rules are listed.
ghost use Rattle.std.specs.Prelude.{IfOk};
ghost use Rattle.policy_meaning.specs.Order.{IsListing};

use crate::rule::Rule;
use cv_io::{List, Memory};

/// The rules, in their order (`Rule::cmp_listed`).
pub fn listed(rules: List<Rule>) -> Result<List<Rule>, Memory>
    ensures { IfOk result (λ list. IsListing rules list) }
{
    let mut items = rules.into_vec();
    items.sort_by(|a, b| a.cmp_listed(b))?;
    Ok(List::from_vec(items))
}
