// Records of calls and answers, as text (docs/TRACE.md): lines, what a line begins with, the values in a line by its
// form, and the octets that a line writes as digits.
//
// Reading is strict: a line that departs from its form by one character does not fit it. Any text, form and place has
// an answer.

#![tactic(auto)]

mod digit;
mod form;
mod line;
mod number;
mod record;
mod taken;
mod write;

pub use digit::octet_at;
pub use line::{TextLines, after_line, begins, line_at, line_len, lines_in};
pub use record::{MOST_VALUES, Misfit, Record, read_record};
pub use write::write_record;
