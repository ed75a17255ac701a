// The lease that an ACK brings: its values, what it puts into the tables, and the moments that it sets.
// Ports DhcpLease and what dhcpv4_process makes of an ACK in iface/dhcpv4.rs.

#![tactic(auto)]

pub mod ack;
pub mod lease;

pub use ack::bound;
pub use lease::{DhcpLease, nothing};
