//! The works of a proxy: for each endpoint one that takes its connections and reads from them, and one that writes to
//! them; and one that writes the audit.
//!
//! Each posts to a desk with a pass of its own ([`LaterDesk`]), and they run beside one another.
#![tactic(auto)]

mod arrivals;
mod audit;
mod handover;
mod later;
mod others;
mod receiving;
mod round;
mod sending;
mod side;
mod works;

pub use arrivals::{Arrivals, Dialled};
pub use audit::{AUDIT, AuditEnd, write_audit, write_line};
pub use handover::{Hand, Handover};
pub use later::LaterDesk;
pub use others::Others;
pub use receiving::{Received, receive};
pub use round::{RoundEnd, serve_round};
pub use sending::{Sent, send};
pub use side::Side;
pub use works::{Reader, Task, Writer};
