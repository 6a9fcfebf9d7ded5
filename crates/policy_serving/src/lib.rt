//! The endpoints of a policy: one for each member, where the proxy connects to its controller, and one for each switch,
//! where switches connect to it. And serving all of them: the proxy's machine as sessions post to it.
#![tactic(auto)]

mod endpoints;
mod laws;
mod promises;
mod proxy;
mod serve;

pub use endpoints::places;
pub use laws::{places_are_counted, places_are_few, places_are_served};
pub use promises::{audit_is_kept, opened_knows};
pub use proxy::Proxy;
pub use serve::serve_policy;
