// Time and chance: moments and durations in milliseconds, the clock of one poll, the client's waits, and the
// generator that transaction ids are drawn from. Ports time.rs and rand.rs.
//
// No function of this crate refuses anything: every u16, u32 and u64 is a legal argument, and so is every value of
// a struct, also one that no constructor gives, as a Duration above Duration::MAX.

#![tactic(auto)]

pub mod clock;
pub mod duration;
pub mod instant;
mod product;
pub mod rand;
pub mod waits;

pub use clock::{Clock, Clocked};
pub use duration::Duration;
pub use instant::Instant;
pub use rand::{Drawn, Rand, draw};
pub use waits::Waits;
