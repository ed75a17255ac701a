// What the programs of examples begin with: settings, states, leases, replies; the text that they are run on; and how they print
// states, leases, entries of tables, answers and refusals.

#![tactic(auto)]

mod input;
mod print;
mod reply;
mod shown;
mod start;

pub use input::filled;
pub use print::{Maybe, Refused, answered, found, line, test};
pub use reply::{Header, ack, with};
pub use shown::{Shown, YesNo};
pub use start::{
    DISCOVERING, HARDWARE, HEADER, IDENTIFIER, LENT, OFFERED, PLAIN, REQUESTING, SEASON, SEED,
    SERVER, SERVERS, altered, named, pitch_17, requesting,
};
