//! What becomes of the connections that come to a listen address: who waits to say which switch it is, and which switch
//! has a connection that is given. No socket is known here: type parameters stand for connections.
//!
//! At most 64 strangers wait, none of whom has said more than 131,072 bytes; for one more the oldest of the host that has
//! most goes. Of one datapath id at most one connection is given: another waits until that one is over, and goes where it
//! turns out to be up.
#![tactic(auto)]

mod claim;
mod given;
mod strangers;

pub use claim::{Claim, DUEL, Duel, Holder, Newcomer, PAUSE};
pub use given::Given;
pub use strangers::{MOST_SAID, MOST_STRANGERS, Ousted, Stranger, Strangers};
