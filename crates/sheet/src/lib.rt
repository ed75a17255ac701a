// The records of docs/TRACE.md: their forms, lines read by them, and a sheet on which answers are written.

#![tactic(auto)]

pub mod form;
pub mod lent;
pub mod record;
pub mod sheet;

pub use form::{Answer, Call, Form, Part};
pub use record::{Malformed, Octets, Record, Value};
pub use sheet::Sheet;
