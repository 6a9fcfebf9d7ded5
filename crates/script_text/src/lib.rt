//! The lines of scripts, of their reports and of the audit, as text.
#![tactic(auto)]

pub mod audit;
pub mod fault;
pub mod form;
pub mod laws;
pub mod line;
pub mod name;
pub mod number;
pub mod reading;
pub mod report;

pub use audit::{Audit, DownCause, audit_line};
pub use fault::LineFault;
pub use form::Form;
pub use line::Line;
pub use name::{is_member, is_name, is_session};
pub use number::decimal_number;
pub use reading::read_line;
pub use report::{report_line, say, say_number};
