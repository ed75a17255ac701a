// The client's states and timers, by value and without arrays: how long a lease is, when it is renewed, rebound and over,
// what a poll sends and when the next is wanted. Ports that part of iface/dhcpv4.rs.
//
// No function of this crate refuses anything: every value of its types has an answer, also one that no reply gives.

#![tactic(auto)]

pub mod decide;
pub mod state;
pub mod times;

pub use decide::{Decision, Sending};
pub use state::{ClientState, DhcpServerInfo, DiscoverState, RenewState, RequestState, Tries};
pub use times::{Row, Times, lease_duration, timer};
