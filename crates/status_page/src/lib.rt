//! The status page of a proxy that serves, made from plain records: a page for a person, metrics for Prometheus, and the
//! answers of HTTP/1.0 that bear them.
//!
//! *Contract:* what is asked is what the request says by RFC 9112, and each answer is exactly the text that the definitions
//! give for it; texts of others, as addresses, are escaped in it.
#![tactic(auto)]

mod answers;
mod escaping;
mod html;
mod measures;
mod prometheus;
mod records;
mod requests;

pub use answers::{answer, fault};
pub use html::page;
pub use measures::Measure;
pub use prometheus::metrics;
pub use records::{EndpointStatus, Refused, State, Status};
pub use requests::{Heard, Request, hear};
