// The DHCP client of a post, by value: its creation, polls, replies, resets, and what can be looked up. Ports the rest of
// iface/dhcpv4.rs.
//
// Any client, tables, generator, reply, moment and buffer have an answer: a result, or why there is none, and then nothing
// has changed.

#![tactic(auto)]

pub mod client;
pub mod lookup;
pub mod poll;
pub mod process;
pub mod reset;
mod taken;

pub use client::{Client, Session, Settled};
pub use poll::{PollAnswer, Polled};
pub use process::{NotTaken, Processed};
pub use reset::WasReset;
